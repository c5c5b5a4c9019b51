//! What holds of runs on every ground.

ghost use Rattle.ygg_run_commands.specs.Extending.{RunsExtend};

use ygg_run::{Ground, left_goes_on, typed_histories};

/// A run that finds rows on the disk extends whatever could have left these rows, to a history that the topmost specification allows if each layer refines its
/// specification.
pub fn runs_extend<G: Ground>()
    ensures { RunsExtend G.means }
{
    left_goes_on();
    typed_histories();
}
