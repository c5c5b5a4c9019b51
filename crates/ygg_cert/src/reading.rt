//! A certificate that is read in pieces.

ghost use Rattle.std.specs.Prelude.{◌≡◌, ◌≤◌, ◌+◌, ◌∷◌, ◌++◌, [], List, ℕ, IfOk, IsOk, OnOk, length, take};
ghost use Rattle.ygg_cert.specs.declared.item.Goal.{Goal};
ghost use Rattle.ygg_cert.specs.Judging.{Judges, SoFar, wrong_after, short_after};
ghost use Rattle.ygg_cert.specs.Standing.{IsEnded, IsFed};
ghost use Rattle.ygg_cert.specs.Telling.{IsChecked, IsRefusal, Tells, fed_of};

use crate::phase::{Next, Phase};
use crate::source::Goals;
use crate::verdict::{CertEnd, Fed, Heard};
use std::alloc::Global;
use ygg_base::{Refusal, Text};
use ygg_list::NoMemory;

/// What is read of a certificate: what comes next, how many lines are read whole, and how many bytes of the line after them.
#[derive(Drop)]
pub struct Reading {
    next: Next,
    lines: u32,
    column: u32,
}

/// A number one greater. No text within the limit has so many lines or bytes that there is none.
fn counted(number: u32) -> Result<u32, NoMemory>
    ensures { IfOk result (λ more. more ≡ number + 1) }
{
    match number.checked_add(1) {
        Some(more) => Ok(more),
        None => Err(NoMemory),
    }
}

/// A number greater by so many. No text within the limit has so many bytes that there is none.
fn counted_by(number: u32, count: usize) -> Result<u32, NoMemory>
    ensures { IfOk result (λ more. more ≡ number + count) }
{
    let Ok(count) = u32::try_from(count) else {
        return Err(NoMemory);
    };
    match number.checked_add(count) {
        Some(more) => Ok(more),
        None => Err(NoMemory),
    }
}

impl Reading {
    /// A certificate of which nothing is read. Its only error is out of memory.
    pub fn new(alloc: Global) -> Result<Reading, NoMemory>
        ensures { (goals : List Goal) → IfOk result (IsFed goals []) }
    {
        let next = Next::new(alloc)?;
        Ok(Reading {
            next,
            lines: 0,
            column: 0,
        })
    }

    /// Goes on to the next line. Its only error is out of memory.
    fn next_line(&mut self) -> Result<(), NoMemory>
        ensures lines { OnOk result (self.new.lines ≡ self.old.lines + 1) }
        ensures column { OnOk result (self.new.column ≡ 0) }
        ensures next { self.new.next ≡ self.old.next }
    {
        self.lines = counted(self.lines)?;
        self.column = 0;
        Ok(())
    }

    /// Reads a byte. Its only error is out of memory.
    fn byte<G: Goals>(&mut self, alloc: Global, goals: &G, byte: u8) -> Result<(), NoMemory>
        ensures fed { (text : List ℕ) → IsFed (G.wanted goals.now) text self.old → OnOk result (IsFed (G.wanted goals.now) (text ++ byte ∷ []) self.new) }
        ensures still { IsEnded self.old.next.phase → IsOk result × (self.new ≡ self.old) }
    {
        match self.next.read(alloc, byte)? {
            Heard::More => self.column = counted(self.column)?,
            Heard::Added => self.next_line()?,
            Heard::Whole => {
                self.next.go_on(alloc, goals)?;
                self.next_line()?;
            }
            Heard::Bad(id) => self.next.phase = Phase::Bad(id),
            Heard::Wrong => self.next.phase = Phase::Wrong,
            Heard::Nothing => {}
        }
        Ok(())
    }

    /// Reads a byte, and gives up where no memory is left.
    fn read<G: Goals>(&mut self, alloc: Global, goals: &G, byte: u8)
        ensures fed { (text : List ℕ) → IsFed (G.wanted goals.now) text self.old → IsFed (G.wanted goals.now) (text ++ byte ∷ []) self.new }
        ensures still { IsEnded self.old.next.phase → self.new ≡ self.old }
    {
        match self.byte(alloc, goals, byte) {
            Ok(()) => {}
            Err(_) => self.next.phase = Phase::GivenUp,
        }
    }

    /// Reads the first bytes of a piece that go on with a step's literals or numbers, and gives how many they are. Its only error is out of memory.
    fn run(&mut self, piece: &[u8]) -> Result<usize, NoMemory>
        ensures within { IfOk result (λ count. count ≤ length piece.now) }
        ensures fed { (goals : List Goal) (text : List ℕ) → IsFed goals text self.old →
            IfOk result (λ count. IsFed goals (text ++ take count piece.now) self.new) }
        ensures still { IsEnded self.old.next.phase → IsOk result × (self.new ≡ self.old) }
    {
        let count = self.next.run_on(piece)?;
        if count == 0 {
            return Ok(0);
        }
        self.column = counted_by(self.column, count)?;
        Ok(count)
    }

    /// The same, which gives up where no memory is left.
    fn run_on(&mut self, piece: &[u8]) -> usize
        ensures within { result ≤ length piece.now }
        ensures fed { (goals : List Goal) (text : List ℕ) → IsFed goals text self.old → IsFed goals (text ++ take result piece.now) self.new }
        ensures still { IsEnded self.old.next.phase → self.new ≡ self.old }
    {
        match self.run(piece) {
            Ok(count) => count,
            Err(_) => {
                self.next.phase = Phase::GivenUp;
                0
            }
        }
    }

    /// What is said of the bytes so far.
    fn so_far(&self) -> Fed
        ensures { result ≡ fed_of self.now.next.phase }
    {
        match self.next.phase {
            Phase::Bad(_) => Fed::Over,
            Phase::Wrong => Fed::Over,
            Phase::GivenUp => Fed::Memory,
            _ => Fed::More,
        }
    }

    /// Reads a piece of a certificate for goals. After `Over` and `Memory` it reads nothing more, and answers so again.
    pub fn feed<G: Goals>(&mut self, alloc: Global, goals: &G, piece: &[u8]) -> Fed
        ensures fed { (text : List ℕ) → IsFed (G.wanted goals.now) text self.old → IsFed (G.wanted goals.now) (text ++ piece.now) self.new }
        ensures told { (text : List ℕ) → IsFed (G.wanted goals.now) text self.old → SoFar (G.wanted goals.now) (text ++ piece.now) result }
        ensures answer { result ≡ fed_of self.new.next.phase }
        ensures still { IsEnded self.old.next.phase → self.new ≡ self.old }
    {
        let mut done = 0;
        while done < piece.len() {
            self.read(alloc, goals, piece[done]);
            done += 1;
            done += self.run_on(&piece[done..]);
        }
        self.so_far()
    }

    /// What is said of the text, of which all is read.
    pub fn finish(self) -> CertEnd
        ensures judged { (goals : List Goal) (text : List ℕ) → IsFed goals text self → Judges goals text result }
        ensures lost { fed_of self.next.phase ≡ Fed.Memory → result ≡ CertEnd.Memory }
    {
        let Reading {
            next,
            lines,
            column,
        } = self;
        let Next {
            phase,
            line: _,
            log,
            passed,
        } = next;
        told(phase, log.into_name(), passed, lines, column)
    }
}

/// What is said of a text of which all is read: in which phase, in the log of which name, after how many goals and lines, and how many
/// bytes of the line after them.
fn told(phase: Phase, name: Text, passed: usize, lines: u32, bytes: u32) -> CertEnd
    ensures { Tells phase name passed lines bytes result }
{
    match phase {
        Phase::First => short(lines, bytes),
        Phase::Opening => short(lines, bytes),
        Phase::Log => short(lines, bytes),
        Phase::Last => short(lines, bytes),
        Phase::End => whole(passed),
        Phase::Bad(id) => CertEnd::Bad { name, id },
        Phase::Wrong => wrong(lines),
        Phase::GivenUp => CertEnd::Memory,
    }
}

/// What is said of a text that is whole after so many goals.
fn whole(passed: usize) -> CertEnd
    ensures { IsChecked passed result }
{
    match u32::try_from(passed) {
        Ok(count) => CertEnd::Checked(count),
        Err(_) => CertEnd::Memory,
    }
}

/// What is said of a text in which after so many lines comes another than may stand there.
fn wrong(lines: u32) -> CertEnd
    ensures { IsRefusal (wrong_after lines) result }
{
    match wrong_after(lines) {
        Ok(refusal) => CertEnd::Refused(refusal),
        Err(_) => CertEnd::Memory,
    }
}

/// What is said of a text that ends after so many lines and bytes, within or before a line that may stand there.
fn short(lines: u32, bytes: u32) -> CertEnd
    ensures { IsRefusal (short_after lines bytes) result }
{
    match short_after(lines, bytes) {
        Ok(refusal) => CertEnd::Refused(refusal),
        Err(_) => CertEnd::Memory,
    }
}

/// The refusal of the line after so many, for another line than may stand there. Its only error is out of memory.
fn wrong_after(lines: u32) -> Result<Refusal, NoMemory>
    ensures { IfOk result (λ refusal. refusal ≡ wrong_after lines) }
{
    let number = if lines == 0 { 21 } else { 22 };
    Ok(Refusal {
        number,
        line: counted(lines)?,
        column: 1,
    })
}

/// The refusal of a text that ends after so many lines and bytes. Its only error is out of memory.
fn short_after(lines: u32, bytes: u32) -> Result<Refusal, NoMemory>
    ensures { IfOk result (λ refusal. refusal ≡ short_after lines bytes) }
{
    Ok(Refusal {
        number: 24,
        line: counted(lines)?,
        column: counted(bytes)?,
    })
}
