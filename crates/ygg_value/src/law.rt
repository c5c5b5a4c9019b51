//! Laws of values. A call does nothing; what it ensures holds.

ghost use Rattle.ygg_value.specs.Laws.{
  ResultsAreWords,
  DigitsTellWords,
  AndByDigits,
  OrByDigits,
  XorByDigits,
  NotByDigits,
  ResizesCompose,
  ResizeKeeps,
  RowGivesWritten,
  RowKeepsOthers,
  TableGivesWritten,
  TableKeepsOthers,
};

/// Every operation gives a word.
pub fn results_are_words()
    ensures { ResultsAreWords }
{}

/// A word is its width and its digits, and some operations go digit by digit.
pub fn words_by_digits()
    ensures words { DigitsTellWords }
    ensures and { AndByDigits }
    ensures or { OrByDigits }
    ensures xor { XorByDigits }
    ensures not { NotByDigits }
{}

/// How resizes follow one another.
pub fn resizes_compose()
    ensures compose { ResizesCompose }
    ensures keeps { ResizeKeeps }
{}

/// A row has what was written at its place, and all else as before.
pub fn rows_by_places()
    ensures written { RowGivesWritten }
    ensures others { RowKeepsOthers }
{}

/// A table has what was written at its place, and all else as before.
pub fn tables_by_places()
    ensures written { TableGivesWritten }
    ensures others { TableKeepsOthers }
{}
