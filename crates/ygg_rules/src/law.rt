//! Laws of the table of rules. A call does nothing; what it ensures holds.

ghost use Rattle.ygg_rules.specs.Laws.{RowsName, RowsKeepValues};

/// Every answer of the table names operands that are there, with widths that fit, and has the value of the term
/// that was asked for, for all values of its operands.
pub fn rows_are_right()
    ensures names { RowsName }
    ensures values { RowsKeepValues }
{}
