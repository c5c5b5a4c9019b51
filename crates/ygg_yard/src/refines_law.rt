//! What holds of the obligations of files that are made.

ghost use Rattle.ygg_yard.specs.RefinesLaws.{MadeHolds};

/// The file that is made for a number has two obligations for each of its operations and three more, and all of them hold.
pub fn made_holds()
    ensures { MadeHolds }
{}
