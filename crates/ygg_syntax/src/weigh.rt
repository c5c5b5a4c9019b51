ghost use Rattle.std.specs.Prelude.{◌≡◌, [], ◌∷◌, ◌++◌, min, OnOk, OnErr, IfOk};
ghost use Rattle.ygg_syntax.specs.Budget.{limit};
ghost use Rattle.ygg_syntax.specs.Weights.{weights_of, expr_weight, block_weight};

use crate::budget::LIMIT;
use crate::table::Weights;
use crate::tree::{Block, Def, Expr};
use crate::weights::{self, WeightSource};
use ygg_list::NoMemory;

impl<'a> Weights<'a> {
    /// Takes a definition, unless one of its name was taken before, and gives the weight of its expression over the definitions
    /// before it, or 1,000,000 where it is more. After running out of memory, which is the only error, the table is as before.
    pub fn define(&mut self, def: &'a Def) -> Result<u64, NoMemory>
        ensures weight { IfOk result (λ weight. weight ≡ min limit (expr_weight (weights_of self.old) def.now.body)) }
        ensures taken { OnOk result (self.new ≡ self.old ++ def.now ∷ []) }
        ensures err { OnErr result (self.new ≡ self.old) }
    {
        let weight = self.expression(&def.body);
        self.take(def, weight)?;
        Ok(weight)
    }

    /// The weight of an expression over the definitions that were taken, or 1,000,000 where it is more: one for each part, what is
    /// repeated as often, and for each use of a definition its weight besides. It takes no memory and one step a part.
    pub fn expression(&self, e: &Expr) -> u64
        ensures { result ≡ min limit (expr_weight (weights_of self.now) e.now) }
    {
        LIMIT - weights::expression(WeightSource::Table(self), e, LIMIT)
    }

    /// The weight of a block, counted in the same way, or 1,000,000 where it is more. It takes no memory.
    pub fn block(&self, block: &Block) -> u64
        ensures { result ≡ min limit (block_weight (weights_of self.now) block.now) }
    {
        LIMIT - weights::block(WeightSource::Table(self), block, LIMIT)
    }
}
