//! Sinks for what a play puts: one that keeps it, and one that doesn't.

use std::alloc::Global;
use ygg_base::{Moved, Sink, Text};

/// Keeps all that is put. It fails only where no memory is left.
#[derive(Drop)]
pub struct Gathered {
    /// What was put.
    pub text: Text,
    /// How many puts found no memory.
    pub lacks: u64,
}

impl Gathered {
    ghost use Rattle.std.specs.Prelude.{◌≡◌, []};

    /// Nothing, at first.
    pub fn new(alloc: Global) -> Gathered
        ensures { result.text ≡ [] }
    {
        Gathered {
            text: Text::new(alloc),
            lacks: 0,
        }
    }
}

impl Sink for Gathered {
    ghost use Rattle.std.specs.Prelude.{Some};

    ghost taken = { λ s. Some s.text };

    ghost faults = { λ s. s.lacks };

    fn put(&mut self, bytes: &[u8]) -> Moved {
        match self.text.extend_from_slice(bytes) {
            Ok(()) => Moved::Done,
            Err(_) => {
                self.lacks = self.lacks.saturating_add(1);
                Moved::Failed
            }
        }
    }
}

/// Takes whatever is put and keeps nothing of it. It never fails.
#[derive(Drop)]
pub struct Unheard;

impl Sink for Unheard {
    ghost use Rattle.std.specs.Prelude.{None};

    ghost taken = { λ s. None };

    ghost faults = { λ s. 0 };

    fn put(&mut self, _bytes: &[u8]) -> Moved {
        Moved::Done
    }
}
