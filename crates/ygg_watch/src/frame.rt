/// How many assigned literals and how many clauses had been looked at when a level was opened. Going back to below the level
/// makes these the numbers that count.
#[derive(Clone, Copy)]
pub struct Checkpoint {
    pub head: usize,
    pub seen: usize,
}
