use ygg_base::{Bits, Text};
use ygg_value::Values;

/// Where power fails: within the call of this number on the machine below, or when so many calls are whole and no further one has begun.
#[derive(Clone, Copy, Drop)]
pub struct Halt {
    /// Whether it fails within a call.
    pub within: bool,
    /// The call's number, counted from 0, or how many calls are whole.
    pub event: u64,
}

/// A value for everything that an obligation speaks of. A list is empty, and there is no stop, where the obligation doesn't speak of it.
pub struct Schedule {
    /// The obligation's name.
    pub name: Text,
    /// The variables of the layer's specification.
    pub state: Values,
    /// The variables of its implementation.
    pub memory: Values,
    /// The variables of what it stands on: the state of the layer below, or the tables of the disk.
    pub low: Values,
    /// The arguments of the operation.
    pub args: Values,
    /// Where power fails.
    pub stop: Option<Halt>,
    /// The picks of the machine below in the first run, in the order in which they are taken.
    pub picks: Bits,
    /// Those in the recovery after it.
    pub wake: Bits,
    /// Those in a recovery from the first state.
    pub other: Bits,
}

impl Drop for Schedule {
    fn drop(self) {
        let Schedule {
            name,
            state,
            memory,
            low,
            args,
            stop,
            picks,
            wake,
            other,
        } = self;
        drop(name);
        drop(state);
        drop(memory);
        drop(low);
        drop(args);
        drop(stop);
        drop(picks);
        drop(wake);
        drop(other);
    }
}

/// A run whose picks a schedule has.
#[derive(Clone, Copy, Drop)]
pub enum Run {
    /// The first run.
    Picks,
    /// The recovery after it.
    Wake,
    /// A recovery from the first state.
    Other,
}

impl Schedule {
    ghost use Rattle.std.specs.Prelude.{◌≡◌, false, slice_get, unwrap_or};
    ghost use Rattle.ygg_sched.specs.Picks.{picks_of};

    /// The pick of a run at a place, counted from 0; past the end, false. It takes no memory.
    pub fn bit(&self, run: Run, k: u64) -> bool
        ensures { result ≡ unwrap_or (slice_get (picks_of run self.now) k) false }
    {
        let bits = match run {
            Run::Picks => &self.picks,
            Run::Wake => &self.wake,
            Run::Other => &self.other,
        };
        bits.as_slice().get(k as usize).copied().unwrap_or(false)
    }
}
