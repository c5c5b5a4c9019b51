//! What the clauses of terms mean. A call does nothing; what it ensures holds.

ghost use Rattle.ygg_gates.specs.Reaching.{TestsReaching};
ghost use Rattle.ygg_gates.specs.Laws.{SatisfiableExactly, SatisfyingIsZero};

/// The clauses of a term are satisfiable exactly where the term is 0 in some environment, and satisfying truth values name one.
pub fn clauses_mean_terms()
    ensures exactly { SatisfiableExactly }
    ensures environment { SatisfyingIsZero }
{}

/// The nodes that have a group of gates are those that the term reaches: itself, and the children of each node that it reaches.
pub fn groups_are_of_reached_nodes()
    ensures { TestsReaching }
{}
