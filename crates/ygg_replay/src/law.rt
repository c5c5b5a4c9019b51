//! Laws of how the replay of a text ends. A call does nothing; what it ensures holds.

ghost use Rattle.ygg_replay.specs.Laws.{OneEnding, RefutedExactly};

/// The replay of a text ends in one way.
pub fn one_ending()
    ensures { OneEnding }
{}

/// It ends as refuted exactly where the text is a schedule of the file that violates the obligation that it names.
pub fn refuted_exactly()
    ensures { RefutedExactly }
{}
