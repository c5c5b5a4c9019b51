/// By how many conflicts a pair of turns is longer than the pair before it, and how many the first has.
const GROWTH: u64 = 100;

/// Which of two rules makes variables more active: in turns the one that sums their uses, and the one that goes by the last use. Each of them alone is led
/// astray by some family of clauses: the first decides the same few variables over and over, the second forgets what matters. A turn of each is followed by a longer
/// one of each, as in the stable and the focused mode of the solvers CaDiCaL and Kissat.
#[derive(Clone, Copy)]
pub struct Turns {
    by_last_use: bool,
    length: u64,
    left: u64,
}

impl Turns {
    /// The turn of the sum, and no conflict was counted yet.
    pub fn new() -> Turns {
        Turns {
            by_last_use: false,
            length: GROWTH,
            left: GROWTH,
        }
    }

    /// Whether it is the turn of the last use.
    pub fn is_by_last_use(&self) -> bool {
        self.by_last_use
    }

    /// Counts a conflict, and says whether the turn of the last use begins with the next one.
    pub fn count_conflict(&mut self) -> bool {
        if self.left > 1 {
            self.left -= 1;
            return false;
        }
        if self.by_last_use {
            self.length = self.length.saturating_add(GROWTH);
        }
        self.by_last_use = !self.by_last_use;
        self.left = self.length;
        self.by_last_use
    }
}
