ghost use Rattle.ygg_print.specs.UniqueLaws.{DerivedMarks, OneFileDerives, PrintedDerives, SamePrinted};

/// At most one file derives from given tokens, places included.
pub fn one_file_derives()
    ensures { OneFileDerives }
{}

/// The tokens that a file derives from have its printed marks, where some of the empty blocks that may be left out are
/// written.
pub fn derived_marks()
    ensures { DerivedMarks }
{}

/// Where a file derives from some tokens, one that is the same but for places derives from all tokens that have its
/// printed marks, and no other.
pub fn printed_derives()
    ensures { PrintedDerives }
{}

/// Files that are the same but for places have the same printed marks.
pub fn same_printed()
    ensures { SamePrinted }
{}
