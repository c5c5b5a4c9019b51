ghost use Rattle.std.specs.Prelude.{◌≡◌, ◌++◌, [], ◌∷◌, true, OnOk, OnErr, IfOk};
ghost use Rattle.std.specs.Option.{option_map};
ghost use Rattle.ygg_disk.specs.Disk.{Write};
ghost use Rattle.ygg_disk.specs.Power.{event_of, noted, shown, AreNext, Begun};
ghost use Rattle.ygg_disk.specs.Fate.{IsFate, Begins, call_at, IsAddress};

use crate::power::Power;
use crate::turn::{Did, Event, Events};
use std::alloc::Global;
use ygg_base::Bits;
use ygg_list::{Duplicate, NoMemory};
use ygg_value::{Row, Word};

/// What becomes of a call on a disk in memory.
#[derive(Clone, Copy, Drop)]
pub enum Fate {
    /// It is whole.
    Whole,
    /// Power fails within it.
    Within,
    /// Power fails before it.
    Before,
}

/// The event of a read at a place, or of a flush, which has none.
fn plain_event(alloc: Global, at: Option<Word>, cut: bool) -> Event
    requires { IsAddress at }
    ensures { result ≡ event_of (call_at at) cut [] }
{
    let did = match at {
        Some(_) => Did::Read,
        None => Did::Flush,
    };
    Event {
        second: false,
        at,
        did,
        cut,
        picks: Bits::new(alloc),
    }
}

/// The event of a write, which shows these picks. Its only error is out of memory.
fn write_event(
    alloc: Global,
    at: Word,
    row: &Row,
    cut: bool,
    picks: &[bool],
) -> Result<Event, NoMemory>
    requires { at.width ≡ 8 }
    ensures { IfOk result (λ event. event ≡ event_of (Write at.bits row.now) cut picks.now) }
{
    let picks = Bits::from_slice(alloc, picks)?;
    let row = row.duplicate(alloc)?;
    Ok(Event {
        second: false,
        at: Some(at),
        did: Did::Write(row),
        cut,
        picks,
    })
}

/// Adds the event, where events are wanted. After running out of memory they are as before.
fn note(events: &mut Option<Events>, event: Event) -> Result<(), NoMemory>
    ensures ok { OnOk result (events.new ≡ option_map (λ es. es ++ event ∷ []) events.old) }
    ensures err { OnErr result (events.new ≡ events.old) }
{
    match events {
        Some(events) => events.push(event),
        None => Ok(()),
    }
}

/// Adds the event of a write, which shows these picks, where events are wanted. After running out of memory they are as before.
fn note_write(
    events: &mut Option<Events>,
    alloc: Global,
    at: Word,
    row: &Row,
    cut: bool,
    picks: &[bool],
) -> Result<(), NoMemory>
    requires { at.width ≡ 8 }
    ensures ok { OnOk result (events.new ≡ noted (Write at.bits row.now) cut picks.now events.old) }
    ensures err { OnErr result (events.new ≡ events.old) }
{
    match events {
        Some(events) => events.push(write_event(alloc, at, row, cut, picks)?),
        None => Ok(()),
    }
}

impl Power {
    /// What becomes of the next call.
    fn fate(&self) -> Fate
        ensures { IsFate self.now result }
    {
        match self.fuse {
            Some(fuse) if fuse.call == self.passed => {
                if fuse.within {
                    Fate::Within
                } else {
                    Fate::Before
                }
            }
            _ => Fate::Whole,
        }
    }

    /// A read at a place has begun, or a flush, which has none. After running out of memory nothing has changed.
    fn began(&mut self, alloc: Global, at: Option<Word>, cut: bool) -> Result<(), NoMemory>
        requires { IsAddress at }
        ensures ok { OnOk result (Begun true cut (call_at at) [] self.old self.new) }
        ensures err { OnErr result (self.new ≡ self.old) }
    {
        note(&mut self.events, plain_event(alloc, at, cut))?;
        if !cut {
            self.passed = self.passed.saturating_add(1);
        }
        Ok(())
    }

    /// A write has begun, and takes these picks. After running out of memory nothing has changed.
    fn began_write(
        &mut self,
        alloc: Global,
        at: Word,
        row: &Row,
        cut: bool,
        picks: &[bool],
    ) -> Result<(), NoMemory>
        requires width { at.width ≡ 8 }
        requires next { AreNext picks.now self.old.picks }
        ensures ok { OnOk result (Begun true cut (Write at.bits row.now) picks.now self.old self.new) }
        ensures err { OnErr result (self.new ≡ self.old) }
    {
        if picks.is_empty() && !cut {
            note_write(&mut self.events, alloc, at, row, cut, &[true])?;
        } else {
            note_write(&mut self.events, alloc, at, row, cut, picks)?;
        }
        self.picks.take_all(picks);
        if !cut {
            self.passed = self.passed.saturating_add(1);
        }
        Ok(())
    }

    /// A read at a place begins, or a flush, which has none, unless power fails before it. After running out of memory nothing has
    /// changed.
    pub fn begin(&mut self, alloc: Global, at: Option<Word>) -> Result<Fate, NoMemory>
        requires { IsAddress at }
        ensures { Begins (call_at at) [] [] self.old self.new result }
    {
        let fate = self.fate();
        match fate {
            Fate::Whole => self.began(alloc, at, false)?,
            Fate::Within => self.began(alloc, at, true)?,
            Fate::Before => {}
        }
        Ok(fate)
    }

    /// A write begins, unless power fails before it. It takes the picks of `whole`, or those of `within` where power fails within it: in
    /// either case the next ones. After running out of memory nothing has changed.
    pub fn begin_write(
        &mut self,
        alloc: Global,
        at: Word,
        row: &Row,
        whole: &[bool],
        within: &[bool],
    ) -> Result<Fate, NoMemory>
        requires width { at.width ≡ 8 }
        requires whole { AreNext whole.now self.old.picks }
        requires within { AreNext within.now self.old.picks }
        ensures { Begins (Write at.bits row.now) whole.now within.now self.old self.new result }
    {
        let fate = self.fate();
        match fate {
            Fate::Whole => self.began_write(alloc, at, row, false, whole)?,
            Fate::Within => self.began_write(alloc, at, row, true, within)?,
            Fate::Before => {}
        }
        Ok(fate)
    }
}
