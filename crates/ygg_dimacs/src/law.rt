//! The law of clauses and their texts. A call does nothing; what it ensures holds.

ghost use Rattle.ygg_dimacs.specs.Laws.{PrintedIsRead};

/// The text of clauses is read as the same clauses, within the limits of a text.
pub fn printed_is_read()
    ensures { PrintedIsRead }
{}
