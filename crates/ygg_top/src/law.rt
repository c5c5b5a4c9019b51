//! What holds of how `play` ends.

ghost use Rattle.ygg_top.specs.Laws.{PlayEndsOneWay};

/// Of a typed file, and of what stands under the script's name, `play` ends with one status and prints one text: that of the history that the script names, or
/// one refusal.
pub fn play_ends_one_way()
    ensures { PlayEndsOneWay }
{}
