use ygg_cnf::{Assignment, Log};

/// What solving clauses within a budget of learned clauses came to.
#[derive(Drop)]
pub enum Answer {
    /// This assignment satisfies every clause.
    Sat(Assignment),
    /// This log of at most as many clauses as the budget says derives the empty clause.
    Unsat(Log),
    /// This log has as many derived clauses as the budget says, each of which teaches.
    Spent(Log),
}
