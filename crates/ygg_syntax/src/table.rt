ghost use Rattle.std.specs.Prelude.{◌≡◌, ℕ, List, [], ◌∷◌, ◌++◌, min, OnOk, OnErr, IfOk};
ghost use Rattle.ygg_syntax.specs.Budget.{limit};
ghost use Rattle.ygg_syntax.specs.Weights.{weights_of, weight_at, expr_weight};
ghost use Rattle.ygg_syntax.specs.Table.{held, or_first};

use crate::tree::Def;
use indexmap::IndexMap;
use std::alloc::Global;
use std::marker::Model;
use ygg_list::NoMemory;

/// The weights of definitions, each counted once over those before it. Contracts see the list of the definitions that were
/// taken; of a name the first counts.
pub struct Weights<'a> {
    taken: Vec<&'a Def>,
    // the weight of each name's first definition, or 1,000,000 where it is more
    known: IndexMap<&'a [u8], u64>,
}

impl Drop for Weights<'_> {
    fn drop(self) {
        let Weights { taken, known } = self;
        drop(taken);
        drop(known);
    }
}

impl<'a> Model for Weights<'a> {
    ghost use Rattle.std.specs.Prelude.{List, map};
    ghost use Rattle.ygg_syntax.specs.declared.tree.Def.{Def};
    ghost use Rattle.std.specs.Coded.{coded_list};
    ghost use Rattle.ygg_syntax.specs.contracts.tree.Def as def;
    ghost use Rattle.ygg_syntax.specs.Table.{IsTable};

    ghost Value = { List Def };

    ghost coded = { coded_list def.the_row.coded };

    ghost view = { λ weights. map (λ d. d.now) weights.taken.items };

    ghost invariant = { λ weights. IsTable weights.known (map (λ d. d.now) weights.taken.items) };
}

impl<'a> Weights<'a> {
    /// The table of no definitions. It takes no memory.
    pub fn new(alloc: Global) -> Weights<'a>
        ensures { result ≡ [] }
    {
        Weights {
            taken: Vec::new(alloc),
            known: IndexMap::new(alloc),
        }
    }

    /// The weight of the first definition of the name, or 1,000,000 where it is more, or 0 where there is none.
    pub(crate) fn first_of(&self, name: &[u8]) -> u64
        ensures { result ≡ min limit (weight_at (weights_of self.now) name.now) }
    {
        match self.known.get(name) {
            Some(weight) => *weight,
            None => 0,
        }
    }

    /// Takes a definition of this weight. After running out of memory, which is the only error, the table is as before.
    pub(crate) fn take(&mut self, def: &'a Def, weight: u64) -> Result<(), NoMemory>
        requires { weight ≡ min limit (expr_weight (weights_of self.old) def.now.body) }
        ensures taken { OnOk result (self.new ≡ self.old ++ def.now ∷ []) }
        ensures err { OnErr result (self.new ≡ self.old) }
    {
        self.taken.push(def)?;
        match note(&mut self.known, def.name.text.as_slice(), weight) {
            Ok(()) => Ok(()),
            Err(_) => {
                self.taken.pop();
                Err(NoMemory)
            }
        }
    }
}

/// Notes a weight for a name that has none yet. After running out of memory, which is the only error, nothing has changed.
fn note<'a>(
    known: &mut IndexMap<&'a [u8], u64>,
    name: &'a [u8],
    weight: u64,
) -> Result<(), NoMemory>
    ensures noted { OnOk result ((other : List ℕ) → held known.new other ≡ or_first (held known.old other) name.now weight other) }
    ensures err { OnErr result ((other : List ℕ) → held known.new other ≡ held known.old other) }
{
    if known.contains_key(name) {
        return Ok(());
    }
    known.insert(name, weight)?;
    Ok(())
}
