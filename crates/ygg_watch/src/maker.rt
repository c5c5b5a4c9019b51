ghost use Rattle.std.specs.Prelude.{IfOk};
ghost use Rattle.ygg_watch.specs.Propagation.{IsFresh};

use crate::variable_count_for;
use crate::watching::Watch;
use std::alloc::Global;
use ygg_cnf::Clauses;
use ygg_cnf_set::pack_all;
use ygg_list::NoMemory;

/// Watched propagation that holds the clauses. Its only error is out of memory; tables are as long as the greatest variable.
pub fn watch(alloc: Global, clauses: &Clauses) -> Result<Watch, NoMemory>
    ensures { IfOk result (λ p. IsFresh clauses.now p) }
{
    let variable_count = variable_count_for(clauses)?;
    if variable_count > 1 << 31 {
        return Err(NoMemory);
    }
    Watch::over(alloc, variable_count, pack_all(alloc, clauses)?)
}
