use std::alloc::Global;
use ygg_base::Bits;
use ygg_list::{Duplicate, NoMemory, Sequence};
use ygg_value::{Row, Value, Word};

/// How a call ended.
#[derive(Drop)]
pub enum Turn {
    /// It was whole, and has no answer.
    Done,
    /// It was whole, with this answer.
    Answer(Value),
    /// Power failed before it or within it.
    Down,
    /// What lies below it failed.
    Failed,
}

/// What a call on a disk did.
#[derive(Drop)]
pub enum Did {
    /// It read a row.
    Read,
    /// It wrote this row.
    Write(Row),
    /// It made all writes stable.
    Flush,
}

/// A call on a disk that began.
pub struct Event {
    /// Whether the disk was the second of two.
    pub second: bool,
    /// The place of the row, counted from 0; a flush has none.
    pub at: Option<Word>,
    /// What was done.
    pub did: Did,
    /// Whether power failed within the call.
    pub cut: bool,
    /// The picks that the call took; a whole write of a synchronous disk, which takes none, has the one bit 1.
    pub picks: Bits,
}

impl Drop for Event {
    fn drop(self) {
        let Event {
            second: _,
            at: _,
            did,
            cut: _,
            picks,
        } = self;
        drop(did);
        drop(picks);
    }
}

/// Events in order.
pub type Events = Sequence<Event>;

impl Duplicate for Did {
    fn duplicate(&self, alloc: Global) -> Result<Did, NoMemory> {
        match self {
            Did::Read => Ok(Did::Read),
            Did::Write(row) => Ok(Did::Write(row.duplicate(alloc)?)),
            Did::Flush => Ok(Did::Flush),
        }
    }
}

impl Duplicate for Event {
    fn duplicate(&self, alloc: Global) -> Result<Event, NoMemory> {
        let did = self.did.duplicate(alloc)?;
        let picks = self.picks.copy(alloc)?;
        Ok(Event {
            second: self.second,
            at: self.at,
            did,
            cut: self.cut,
            picks,
        })
    }
}
