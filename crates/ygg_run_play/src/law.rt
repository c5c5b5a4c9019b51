//! What holds of the scripts of every file.

ghost use Rattle.ygg_run_play.specs.Laws.{FilesHaveOneWay, ScriptsHaveOneText, PlaysAreHistories};

/// On the layers of a typed file there is one way to do what a line of a script says: the same happens, leads to the same place and leaves the same
/// picks, and power never fails at a point that is missed.
pub fn files_have_one_way()
    ensures { FilesHaveOneWay }
{}

/// A script has one text, or one line where it is refused because a stop isn't reached, and not both.
pub fn scripts_have_one_text()
    ensures { ScriptsHaveOneText }
{}

/// What a script names on the layers of a typed file is a history of these layers: where each layer refines its specification, the topmost
/// specification allows it.
pub fn plays_are_histories()
    ensures { PlaysAreHistories }
{}
