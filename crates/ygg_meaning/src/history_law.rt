//! What holds of the layers of every file.

ghost use Rattle.ygg_meaning.specs.HistoryLaws.{Monotone, Compose, Histories, RefinesByList};
ghost use Rattle.ygg_meaning.specs.StepLaws.{AllMomentsAreSteps, LeftIsRows, LeftGoesOn, NotesAreForgotten, NotesAreFound, TellsSteps};

use ygg_disk::Ground;

/// A better machine below gives a better layer.
pub fn monotone()
    ensures { Monotone }
{}

/// Where each layer refines its specification on what it is specified over, the layers on one another refine the topmost
/// specification.
pub fn compose()
    ensures { Compose }
{}

/// The topmost specification allows every history of the layers on one another: the answers are equal, power fails at the
/// same places, and each layer's relation holds of the state reached.
pub fn history()
    ensures { Histories }
{}

/// Each layer of a file refines its specification exactly where each obligation in the file's list holds.
pub fn refines_by_list()
    ensures { RefinesByList }
{}

/// What happens to a machine, one thing after another, leads where its entries lead; and whatever entries lead to, some such things do.
pub fn moments_are_steps()
    ensures { AllMomentsAreSteps }
{}

/// After entries of which the last is still open, all tables of the disk are the rows that it holds.
pub fn left_is_rows()
    ensures { LeftIsRows }
{}

/// A whole recovery from the rows that entries may have left, and what is done after it, go on with these entries as a history.
pub fn left_goes_on()
    ensures { LeftGoesOn }
{}

/// Layers on a disk whose calls are noted do what they do on the disk, with the picks of their notes; and the other way round.
pub fn notes_tell_picks()
    ensures forgotten { NotesAreForgotten }
    ensures found { NotesAreFound }
{}

/// On whatever tells the state of a file's disk, each step of the file's layers is one of the bottom implementation, with the picks of its
/// notes; a format is where it starts on zeros.
pub fn grounds_tell_steps<G: Ground>()
    ensures { TellsSteps G.means }
{}
