//! Zeros for declared names, and the state below at its start.

ghost use Rattle.std.specs.Prelude.{◌≡◌, IfOk, IsTrue};
ghost use Rattle.ygg_eval_places.specs.ygg_sym_laws.Fronts.{low_at_start};
ghost use Rattle.ygg_replay.specs.ygg_meaning.Environments.{bind};
ghost use Rattle.ygg_replay.specs.ygg_meaning.Shapes.{values_fit, zeros_of};
ghost use Rattle.ygg_oblige_schedule.specs.Here.{below_of, low_env, IsHere, LowFits};

use crate::reader::EnvironmentReader;
use ygg_list::NoMemory;
use ygg_replay::{ReplaySite, zeros};
use ygg_syntax::lists;
use ygg_value::Values;

impl<'a> EnvironmentReader<'a> {
    /// A memory of zeros. Its only error is out of memory.
    pub fn zero_memory(&self) -> Result<Values, NoMemory>
        requires { IsHere self.now }
        ensures is { IfOk result (λ memory. bind self.now.site.layer.now.memory memory ≡ zeros_of self.now.site.layer.now.memory) }
        ensures fits { IfOk result (λ memory. IsTrue (values_fit self.now.site.layer.now.memory memory)) }
    {
        zeros(
            self.alloc,
            lists::declared::as_slice(&self.site.layer.memory),
        )
    }

    /// What the layer is specified over, as it starts. Its only error is out of memory.
    pub fn low_at_start(&self) -> Result<Values, NoMemory>
        requires { IsHere self.now }
        ensures is { IfOk result (λ low. low_env self.now low ≡ low_at_start (below_of self.now)) }
        ensures fits { IfOk result (LowFits self.now) }
    {
        let site = ReplaySite {
            alloc: self.alloc,
            typed: self.typed,
            place: self.site.place,
            layer: self.site.layer,
        };
        site.low_at_start()
    }
}
