//! What a machine does with a block is the direct run of the block.

ghost use Rattle.ygg_meaning_laws.specs.DirectLaws.{DirectOnDisk, DirectOnSpec, ReadsDirectly};
ghost use Rattle.ygg_meaning_laws.specs.Replaying.{OneConclusion, OneReplay};
ghost use Rattle.ygg_meaning_laws.specs.RunPlaces.{RunsByPlaceOnDisk, RunsByPlaceOnSpec, FallsByPlaceOnDisk, FallsByPlaceOnSpec};
ghost use Rattle.ygg_meaning_laws.specs.StackActs.{StacksDirectly};
ghost use Rattle.ygg_meaning_laws.specs.StackFalls.{StacksFallDirectly, StacksFallOnce};
ghost use Rattle.ygg_meaning_laws.specs.SpecPlaces.{FailsByPlace};
ghost use Rattle.ygg_meaning_laws.specs.Places.{ChoicesByPlace};

/// On a disk a typed block runs and falls just so as its direct run, on each list of picks.
pub fn direct_on_disk()
    ensures { DirectOnDisk }
{}

/// On a specification that answers a typed block runs and falls just so as its direct run, on each list of picks.
pub fn direct_on_spec()
    ensures { DirectOnSpec }
{}

/// The one run of a block on a disk that reads a list of picks is its direct run on them.
pub fn reads_directly()
    ensures { ReadsDirectly }
{}

/// Choices by place in the unrolled text lead where choices from the front of a list lead.
pub fn choices_by_place()
    ensures { ChoicesByPlace }
{}

/// Whichever runs have the picks of a schedule, the conclusion of the obligation is the same.
pub fn one_conclusion()
    ensures { OneConclusion }
{}

/// A schedule cannot be replayed in two ways: its three answers exclude one another.
pub fn one_replay()
    ensures { OneReplay }
{}

/// A step of the specification fails for all picks from the front of a list exactly where it fails for all picks by place.
pub fn fails_by_place()
    ensures { FailsByPlace }
{}

/// On a disk a block runs alike with picks by place and with picks from the front.
pub fn runs_by_place_on_disk()
    ensures { RunsByPlaceOnDisk }
{}

/// On a specification a block runs alike with picks by place and with picks from the front.
pub fn runs_by_place_on_spec()
    ensures { RunsByPlaceOnSpec }
{}

/// On a disk a block falls alike with picks by place and with picks from the front.
pub fn falls_by_place_on_disk()
    ensures { FallsByPlaceOnDisk }
{}

/// On a specification a block falls alike with picks by place and with picks from the front.
pub fn falls_by_place_on_spec()
    ensures { FallsByPlaceOnSpec }
{}

/// Whatever whole operation the layers of a file do on a disk is what their function says of the picks that it took.
pub fn stacks_directly()
    ensures { StacksDirectly }
{}

/// Whatever power leaves that fails in an operation of the layers of a file on a disk, it is what power leaves that fails at
/// some disk call of their direct run.
pub fn stacks_fall_directly()
    ensures { StacksFallDirectly }
{}

/// Power that fails in an operation of the layers of a file after so many whole disk calls, or within the next, leaves one base.
pub fn stacks_fall_once()
    ensures { StacksFallOnce }
{}
