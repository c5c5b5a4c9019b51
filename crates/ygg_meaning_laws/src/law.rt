//! Laws of typing and values.

ghost use Rattle.ygg_meaning_laws.specs.Laws.{ExpressionsAreSound, DefinitionsAreSound};

/// An expression without a type error has a value of its shape, wherever the scope and the values of names go together.
pub fn expressions_are_sound()
    ensures { ExpressionsAreSound }
{}

/// Definitions without type errors give answers of the shapes that they say.
pub fn definitions_are_sound()
    ensures { DefinitionsAreSound }
{}
