//! What the texts of files that are made are read as.

ghost use Rattle.ygg_yard.specs.ReadLaws.{MadeIsRead};

/// The text of the file that is made for a number has tokens, and from them derives the file with so many operations.
pub fn made_is_read()
    ensures { MadeIsRead }
{}
