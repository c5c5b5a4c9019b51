use ygg_cnf::Lit;

/// An assigned literal, with the level at which it was assigned. Its reason is the number of the clause that implied it, and
/// none for a literal that was decided.
#[derive(Clone, Copy)]
pub struct Entry {
    pub lit: Lit,
    pub level: u64,
    pub reason: Option<u64>,
}
