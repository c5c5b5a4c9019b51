//! What holds of stacks on every ground.

ghost use Rattle.ygg_machine.specs.Told.{StacksAreListed, StacksTell, StacksNote};
ghost use Rattle.ygg_machine.specs.Leaves.{WholeAreCounted};

use ygg_eval::Ground;

/// Each step of a stack's layers on its ground, of which its commands are, is one of the layers of the file's list. Where the ground tells the state of
/// the file's disk, it is one of the bottom implementation, with the picks of its notes, and one of the layers on that disk whose calls are noted, with
/// the same notes; a format is where it starts on zeros.
pub fn stacks_tell<G: Ground>()
    ensures listed { StacksAreListed G.means }
    ensures told { StacksTell G.means }
    ensures noted { StacksNote G.means }
{}

/// Whole disk calls are counted, and a fuse whose call was still to come isn't passed by: so many calls were made before power failed as the fuse says.
pub fn whole_calls_are_counted<G: Ground>()
    ensures counted { WholeAreCounted G.means }
{}
