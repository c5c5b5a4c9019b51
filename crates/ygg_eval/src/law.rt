//! What holds of runs on every machine below a layer.

ghost use Rattle.ygg_eval.specs.Steps.{RunsAreSteps};

use crate::Lower;

/// A run of a block that makes no choice is one on the machine whose steps the calls of the machine below are, however it ends: whole runs are
/// whole ones, power failing in them falls, and after `Failed` or out of memory the first calls of the block were made, all of them whole but at
/// most the last, as far as that machine says what is left of a step that is given up (a specification says nothing of it). So the count of faults
/// never falls, it rose after `Failed`, and `Down` comes exactly where the fuse's call is reached.
pub fn runs_are_steps<W: Lower>()
    ensures { RunsAreSteps W.means }
{}
