//! What holds of the texts of files that are made.

ghost use Rattle.ygg_yard.specs.Laws.{MadeIsSound};

/// The text that is made for a number from 1 to 64 is never refused: it is one layer file without a fault, which has two obligations for each of its
/// operations and three more, all of which hold.
pub fn made_is_sound()
    ensures { MadeIsSound }
{}
