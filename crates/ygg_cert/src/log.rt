//! The lines of one log.

ghost use Rattle.std.specs.Prelude.{◌≡◌, ◌≤◌, ◌+◌, ◌∷◌, ◌++◌, [], List, ℕ, IfOk, length, take};
ghost use Rattle.ygg_cert.specs.Standing.{IsLogAt, IsStepAt, Turns, Closes, Adds};
ghost use Rattle.ygg_cert.specs.declared.verdict.Heard.TheVariants.{More};

use crate::item::HeldGoal;
use crate::verdict::Heard;
use std::alloc::Global;
use ygg_base::Text;
use ygg_chain::Checker;
use ygg_cnf::{StepHeard, StepReader};
use ygg_list::NoMemory;

/// Which line of a log is being read.
#[derive(Clone, Copy)]
pub enum LogLine {
    /// No byte of it is read.
    Begin,
    /// The line after the log.
    Closing,
    /// The line of a step.
    Step,
}

/// The log of a goal as far as it is read.
#[derive(Drop)]
pub struct LogReading {
    name: Text,
    checker: Checker,
    held: u64,
    at: LogLine,
    step: StepReader,
}

impl LogReading {
    /// The log of a goal, of which nothing is read. It takes no memory.
    pub fn new(alloc: Global, goal: HeldGoal) -> LogReading
        ensures name { result.name ≡ goal.name }
        ensures checker { result.checker ≡ goal.clauses }
        ensures at { IsLogAt [] result }
    {
        let HeldGoal { name, checker } = goal;
        let held = checker.len() as u64;
        LogReading {
            name,
            checker,
            held,
            at: LogLine::Begin,
            step: StepReader::new(alloc),
        }
    }

    /// The name of the goal.
    pub fn into_name(self) -> Text
        ensures { result ≡ self.name }
    {
        let LogReading {
            name,
            checker: _,
            held: _,
            at: _,
            step: _,
        } = self;
        name
    }

    /// Ends the log.
    fn close(&self) -> Heard
        ensures { Closes self.now result }
    {
        if self.checker.refuted() {
            Heard::Whole
        } else {
            Heard::Bad(0)
        }
    }

    /// Holds the clause of the line that is read, where its chain derives it. Its only error is out of memory.
    fn add(&mut self, alloc: Global) -> Result<Heard, NoMemory>
        ensures { self.old.held ≡ length self.old.checker → IfOk result (Adds self.old self.new) }
    {
        // no machine has memory for as many clauses
        let Some(number) = self.held.checked_add(1) else {
            return Err(NoMemory);
        };
        let clause = self.step.clause();
        if !self.checker.follows(self.step.chain(), clause) {
            return Ok(Heard::Bad(number));
        }
        self.checker.hold(clause)?;
        self.held = number;
        self.at = LogLine::Begin;
        self.step.restart(alloc);
        Ok(Heard::Added)
    }

    /// Reads a byte of the line of a step. Its only error is out of memory.
    fn read_step(&mut self, alloc: Global, byte: u8) -> Result<Heard, NoMemory>
        ensures { (before : List ℕ) → IsStepAt before byte self.old → IfOk result (Turns self.old (before ++ byte ∷ []) self.new) }
    {
        self.at = LogLine::Step;
        match self.step.read(byte)? {
            StepHeard::More => Ok(Heard::More),
            StepHeard::Wrong => Ok(Heard::Wrong),
            StepHeard::Whole => self.add(alloc),
        }
    }

    /// Reads the first bytes of a piece that go on with a step's literals or numbers, and gives how many they are. Its only error is out of memory.
    pub fn run_on(&mut self, piece: &[u8]) -> Result<usize, NoMemory>
        ensures within { IfOk result (λ count. count ≤ length piece.now) }
        ensures turns { (before : List ℕ) → IsLogAt before self.old →
            IfOk result (λ count. Turns self.old (before ++ take count piece.now) self.new More) }
    {
        match self.at {
            LogLine::Step => self.step.run_on(piece),
            LogLine::Begin => Ok(0),
            LogLine::Closing => Ok(0),
        }
    }

    /// Reads a byte. Its only error is out of memory.
    pub fn read(&mut self, alloc: Global, byte: u8) -> Result<Heard, NoMemory>
        ensures { (before : List ℕ) → IsLogAt before self.old → IfOk result (Turns self.old (before ++ byte ∷ []) self.new) }
    {
        match self.at {
            LogLine::Begin => {
                if byte == b'e' {
                    self.at = LogLine::Closing;
                    return Ok(Heard::More);
                }
                self.read_step(alloc, byte)
            }
            LogLine::Step => self.read_step(alloc, byte),
            LogLine::Closing => {
                if byte == b'\n' {
                    Ok(self.close())
                } else {
                    Ok(Heard::Wrong)
                }
            }
        }
    }
}
