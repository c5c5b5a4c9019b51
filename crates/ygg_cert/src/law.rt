//! What certificates are worth.

ghost use Rattle.ygg_cert.specs.Laws.{CheckedIsRefuted, JudgedOnce, PrintedIsChecked, StepsMay};

/// Where a text is checked, a log refutes each goal. It does nothing: its contract is the theorem.
pub fn checked_is_refuted()
    ensures { CheckedIsRefuted }
{}

/// The text of logs that refute the goals is checked. It does nothing: its contract is the theorem.
pub fn printed_is_checked()
    ensures { PrintedIsChecked }
{}

/// Of a text one thing is said, in whatever pieces it comes, out of memory aside. It does nothing: its contract is the theorem.
pub fn judged_once()
    ensures { JudgedOnce }
{}

/// The steps of a log over clauses whose literals may be written may be written too. It does nothing: its contract is the theorem.
pub fn steps_may()
    ensures { StepsMay }
{}
