//! What holds of the types of files that are made.

ghost use Rattle.ygg_yard.specs.TypedLaws.{MadeIsTyped};

/// The file that is made for a number of 1 to 256 has no type error.
pub fn made_is_typed()
    ensures { MadeIsTyped }
{}
