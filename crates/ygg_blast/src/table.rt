//! The bits of nodes by place.

ghost use Rattle.std.specs.Prelude.{◌≡◌, ◌≤◌, ◌<◌, ◌+◌, ◌-◌, ◌^◌, ◌++◌, ◌∷◌, [], get_or, length, replicate, OnOk};
ghost use Rattle.ygg_blast.specs.Table.{all_bits, AreBelow};

use indexmap::IndexMap;
use std::alloc::Global;
use std::marker::Model;
use ygg_cnf::Lit;
use ygg_gates_operation::BitLiterals;
use ygg_list::NoMemory;

/// The bits of nodes by place, as many nodes as were looked at. Those of nodes that aren't reached are none and take no memory.
#[derive(Drop)]
pub struct BitTable {
    bits: IndexMap<usize, BitLiterals>,
    count: usize,
}

impl Model for BitTable {
    ghost use Rattle.std.specs.Prelude.{List};
    ghost use Rattle.ygg_cnf.specs.declared.lit.Lit.{Lit};
    ghost use Rattle.ygg_blast.specs.Table.{all_bits, AreBelow};

    ghost Value = { List (List Lit) };

    ghost view = { λ t. all_bits t.count t.bits.entries };

    ghost invariant = { λ t. AreBelow t.count t.bits.entries };
}

impl BitTable {
    /// No nodes. It takes no memory.
    pub fn new(alloc: Global) -> BitTable
        ensures { result ≡ [] }
    {
        BitTable {
            bits: IndexMap::new(alloc),
            count: 0,
        }
    }

    /// The bits of the node at a place, none of one that isn't there. It takes no memory.
    pub fn at(&self, place: usize) -> &[Lit]
        ensures { result.now ≡ get_or self.now place [] }
    {
        match self.bits.get(&place) {
            Some(bits) => bits.as_slice(),
            None => &[],
        }
    }

    /// Goes on to a place: the nodes before it have no bits. It takes no memory.
    pub fn skip_to(&mut self, place: usize)
        requires { length self.old ≤ place }
        ensures { self.new ≡ self.old ++ replicate (place - length self.old) [] }
    {
        self.count = place;
    }

    /// Adds the bits of the next node. After running out of memory nothing is said of the table.
    pub fn push(&mut self, bits: BitLiterals) -> Result<(), NoMemory>
        requires { length self.old + 1 < 2 ^ 64 }
        ensures { OnOk result (self.new ≡ self.old ++ bits ∷ []) }
    {
        self.bits.insert(self.count, bits)?;
        self.count += 1;
        Ok(())
    }
}
