ghost use Rattle.std.specs.Prelude.{◌≡◌};
ghost use Rattle.ygg_disk.specs.Power.{pick_of, after_pick, AreNext, Takes};

use crate::turn::Events;
use ygg_base::Bits;

/// Where power fails: at the disk call with so many whole calls before it, before that call or within it.
#[derive(Clone, Copy, Drop)]
pub struct Fuse {
    pub within: bool,
    pub call: u64,
}

/// The choices that a disk makes, in order. A pick is the bit at `next`, which then rises by one; past the end of
/// `bits` a pick is `past`, and `next` stays.
#[derive(Drop)]
pub struct Picks {
    pub bits: Bits,
    pub next: u64,
    pub past: bool,
}

/// What a disk is told of power, and what it tells of its calls.
pub struct Power {
    /// The picks that are taken.
    pub picks: Picks,
    /// Where power fails, if it does.
    pub fuse: Option<Fuse>,
    /// How many whole calls there were since power came up or the command began. It stops at its type's greatest value.
    pub passed: u64,
    /// The calls that began, where they are wanted.
    pub events: Option<Events>,
}

impl Drop for Power {
    fn drop(self) {
        let Power {
            picks,
            fuse: _,
            passed: _,
            events,
        } = self;
        drop(picks);
        drop(events);
    }
}

impl Picks {
    /// The next pick, which isn't taken yet.
    pub fn peek(&self) -> bool
        ensures { result ≡ pick_of self.now }
    {
        let bit = self.bits.as_slice().get(self.next as usize);
        bit.copied().unwrap_or(self.past)
    }

    /// Takes the next pick.
    pub fn take(&mut self)
        ensures { self.new ≡ after_pick self.old }
    {
        if self.next < self.bits.len() as u64 {
            self.next += 1;
        }
    }

    /// Takes these picks, which are the next ones.
    pub fn take_all(&mut self, picks: &[bool])
        requires { AreNext picks.now self.old }
        ensures { Takes picks.now self.old self.new }
    {
        for _ in picks {
            self.take();
        }
    }
}
