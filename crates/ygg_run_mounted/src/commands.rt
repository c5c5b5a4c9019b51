//! The commands of a script as an errand.

ghost use Rattle.std.specs.Prelude.{◌≡◌};
ghost use Rattle.ygg_base.specs.Outside.{Rose};
ghost use Rattle.ygg_run_mounted.specs.Errand.{SuitsFile, RunsCommands};

use std::alloc::Global;
use ygg_base::Sink;
use ygg_run_commands::{Command, Floor, RunHalted, Typed, Viewed, run_on};
use ygg_run_image::Errand;

/// The commands of a script, what takes their lines, and how they ended.
#[derive(Drop)]
pub(crate) struct Commands<'a, K: Sink> {
    pub script: &'a [Command],
    pub sink: &'a mut K,
    pub ended: Result<(), RunHalted>,
}

impl<K: Sink> Errand for Commands<'_, K> {
    ghost use Rattle.ygg_run_mounted.specs.Errand.{SuitsFile, RunsCommands};
    ghost use Rattle.ygg_base.specs.Outside.{Rose};

    ghost Suits = { λ file e. SuitsFile file e.script.now };

    ghost Does = { λ G file e from e' to. RunsCommands G file e.script.now from to e.sink.ghost_name e'.sink.ghost_name
        (K.taken e.sink.now) (K.taken e'.sink.now) (K.faults e.sink.now) (K.faults e'.sink.now) e'.ended };

    fn run<W: Viewed + Drop>(&mut self, alloc: Global, typed: &Typed, tower: &mut Floor<W>) {
        self.ended = run_on(alloc, tower, typed, self.script, self.sink);
    }
}
