ghost use Rattle.std.specs.Prelude.{◌≡◌, ℕ, ◌≤◌, ◌+◌, List, [], Option, Some, IfOk, length, vec_capacity};
ghost use Rattle.ygg_base.specs.Outside.{Rose, PutGives};

use crate::lists::Numbers;
use crate::outside::{Moved, Sink};
use std::alloc::Global;
use ygg_list::NoMemory;

/// A sink in memory that tells its bytes, and some of whose calls fail.
#[derive(Drop)]
pub struct TextSink {
    text: Vec<u8>,
    fails: Numbers,
    room: usize,
    calls: u64,
    faults: u64,
    ghost has_room: { room ≤ vec_capacity text },
}

impl TextSink {
    /// Room for so many bytes, and the numbers of the calls that are to fail, counted from 1. A call whose
    /// bytes don't fit the room that is left fails too. Its only error is out of memory.
    pub fn new(alloc: Global, room: usize, fails: Numbers) -> Result<TextSink, NoMemory>
        ensures told { IfOk result (λ sink. ⟦<TextSink as Sink>⟧.taken sink ≡ Some []) }
        ensures quiet { IfOk result (λ sink. ⟦<TextSink as Sink>⟧.faults sink ≡ 0) }
        ensures fails { IfOk result (λ sink. sink.fails ≡ fails) }
        ensures room { IfOk result (λ sink. sink.room ≡ room) }
    {
        match Vec::with_capacity(alloc, room) {
            Ok(text) => Ok(TextSink {
                text,
                fails,
                room,
                calls: 0,
                faults: 0,
            }),
            Err(_) => Err(NoMemory),
        }
    }

    /// The bytes taken.
    pub fn bytes(&self) -> &[u8]
        ensures { ⟦<TextSink as Sink>⟧.taken self.now ≡ Some result.now }
    {
        self.text.as_slice()
    }
}

impl Sink for TextSink {
    ghost use Rattle.std.specs.Prelude.{Some};

    ghost taken = { λ s. Some s.text.items };

    ghost faults = { λ s. s.faults };

    /// Takes all the bytes, as every sink does; where they fit the room that is left, and without calls that are to fail, it takes them.
    fn put(&mut self, bytes: &[u8]) -> Moved
        ensures told { PutGives (Some self.old.text.items) bytes.now result (Some self.new.text.items) }
        ensures later { self.old.faults ≤ self.new.faults }
        ensures cause { result ≡ Moved.Failed → Rose self.old.faults self.new.faults }
        ensures fails { self.new.fails ≡ self.old.fails }
        ensures room { self.new.room ≡ self.old.room }
        ensures taken { self.old.fails ≡ [] → length self.old.text.items + length bytes.now ≤ self.old.room → result ≡ Moved.Done }
        ensures quiet { result ≡ Moved.Done → self.new.faults ≡ self.old.faults }
    {
        self.calls = self.calls.saturating_add(1);
        if self.fails.as_slice().contains(&self.calls)
            || bytes.len() > self.room - self.text.len().min(self.room)
        {
            self.faults = self.faults.saturating_add(1);
            return Moved::Failed;
        }
        self.text.extend_from_slice(bytes).unwrap();
        Moved::Done
    }
}
