/// The sequence 1, 1, 2, 1, 1, 2, 4, .. of Luby, Sinclair and Zuckerman, one number at a time, as Knuth generates it.
#[derive(Clone, Copy)]
struct Luby {
    round: u64,
    length: u64,
}

impl Luby {
    fn new() -> Luby {
        Luby {
            round: 1,
            length: 1,
        }
    }

    /// The next number of the sequence.
    fn next_length(&mut self) -> u64 {
        let now = self.length;
        let low = self.round & self.round.wrapping_neg();
        if low == now {
            self.round = self.round.wrapping_add(1);
            self.length = 1;
        } else {
            self.length = now.wrapping_mul(2);
        }
        now
    }
}

/// By what the numbers of the sequence are multiplied. Learned clauses are never dropped, so to begin again often costs little.
const UNIT: u64 = 32;

/// When to begin again: after `UNIT` times as many conflicts as the next number of the sequence says.
#[derive(Clone, Copy)]
pub struct Restarts {
    luby: Luby,
    left: u64,
}

impl Restarts {
    /// No conflict was counted yet.
    pub fn new() -> Restarts {
        let mut luby = Luby::new();
        let left = luby.next_length().wrapping_mul(UNIT);
        Restarts { luby, left }
    }

    /// Counts a conflict, and says whether to begin again.
    pub fn is_due(&mut self) -> bool {
        if self.left > 0 {
            self.left -= 1;
            return false;
        }
        self.left = self.luby.next_length().wrapping_mul(UNIT);
        true
    }
}
