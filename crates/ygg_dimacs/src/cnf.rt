use ygg_cnf::Clauses;

/// Clauses, and the number of variables that their text states. Variables are numbered from 1.
#[derive(Drop)]
pub struct Cnf {
    /// The number of variables.
    pub variables: u64,
    /// The clauses in order.
    pub clauses: Clauses,
}
