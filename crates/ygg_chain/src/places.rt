ghost use Rattle.std.specs.Prelude.{◌≡◌, ◌<◌, ◌≤◌, ◌+◌, ◌^◌, [], ◌∷◌, ◌++◌, length, slice_get, List, ℕ, ◌↔◌, Contains, IfOk, OnOk, OnErr};
ghost use Rattle.ygg_cnf.specs.declared.lit.Lit.{Lit};
ghost use Rattle.ygg_chain.specs.Places.{IsDistinct, StandsFor};

use crate::place_table::PlaceTable;
use std::alloc::Global;
use std::marker::Model;
use ygg_cnf::Lit;
use ygg_list::NoMemory;

/// Variables in the order in which they came, each once. The place of a variable counts from 0, so tables by place take
/// memory for the variables that occur and not for the numbers between them. There are at most 2,147,483,648.
pub struct Variables {
    order: Vec<u64>,
    places: PlaceTable,
}

impl Drop for Variables {
    fn drop(self) {
        let Variables { order, places } = self;
        drop(order);
        drop(places);
    }
}

impl Model for Variables {
    ghost use Rattle.std.specs.Prelude.{List, ℕ, length, ◌≤◌, ◌^◌};
    ghost use Rattle.ygg_chain.specs.PlaceTable.{IsIndexOf};

    ghost Value = { List ℕ };

    ghost view = { λ v. v.order.items };

    ghost invariant = { λ v. IsIndexOf v.places v.order.items × (length v.order.items ≤ 2 ^ 31) };
}

impl Variables {
    /// No variables. It takes no memory.
    pub fn new(alloc: Global) -> Variables
        ensures { result ≡ [] }
    {
        Variables {
            order: Vec::new(alloc),
            places: PlaceTable::new(alloc),
        }
    }

    /// How many variables there are.
    #[inline]
    pub fn len(&self) -> usize
        ensures len { result ≡ length self.now }
        ensures small { result ≤ 2 ^ 31 }
        ensures distinct { IsDistinct self.now }
    {
        self.order.len()
    }

    /// The variable that has the place.
    pub fn variable(&self, place: usize) -> u64
        requires { place < length self.now }
        ensures { slice_get self.now place ≡ Some result }
    {
        self.order[place]
    }

    /// The literal with its variable's place in place of the variable, where the variable has one.
    #[inline(always)]
    pub fn place(&self, lit: Lit) -> Option<Lit>
        ensures { (placed : Lit) → (result ≡ Some placed) ↔ StandsFor self.now placed lit }
    {
        let place = self.places.get(lit.var)?;
        Some(Lit {
            var: place as u64,
            negated: lit.negated,
        })
    }

    /// The literal with its variable's place, after the variable has been given one where it had none. After running out of memory,
    /// which one variable more than 2,147,483,648 comes to, the variables are as before.
    #[inline(always)]
    pub fn enter(&mut self, lit: Lit) -> Result<Lit, NoMemory>
        ensures ok { IfOk result (λ placed. StandsFor self.new placed lit) }
        ensures small { IfOk result (λ placed. placed.var < 2 ^ 31) }
        ensures grows { (more : List ℕ) × (self.new ≡ self.old ++ more) }
        ensures one { length self.new ≤ length self.old + 1 }
        ensures err { OnErr result (self.new ≡ self.old) }
        ensures distinct { IsDistinct self.new }
    {
        let place = match self.places.get(lit.var) {
            Some(place) => place,
            None => self.add(lit.var)?,
        };
        Ok(Lit {
            var: place as u64,
            negated: lit.negated,
        })
    }

    /// Gives a variable that has no place the next one. After running out of memory the variables are as before.
    #[cold]
    #[inline(never)]
    fn add(&mut self, variable: u64) -> Result<u32, NoMemory>
        requires { Contains self.old variable → ⊥ }
        ensures place { IfOk result (λ place. place ≡ length self.old) }
        ensures small { IfOk result (λ place. place < 2 ^ 31) }
        ensures ok { OnOk result (self.new ≡ self.old ++ variable ∷ []) }
        ensures distinct { OnOk result (IsDistinct self.new) }
        ensures err { OnErr result (self.new ≡ self.old) }
    {
        let place = self.order.len();
        if place >= 1 << 31 {
            return Err(NoMemory);
        }
        self.order.reserve(1)?;
        self.places.insert(variable, place as u32)?;
        self.order.push_reserved(variable);
        Ok(place as u32)
    }
}
