//! What a reader of certificates reads next.

ghost use Rattle.std.specs.Prelude.{◌≡◌, ◌+◌, ◌≤◌, ◌∷◌, ◌++◌, [], List, ℕ, IfOk, OnOk, length, drop, take, Ok};
ghost use Rattle.ygg_cert.specs.declared.item.Goal.{Goal};
ghost use Rattle.ygg_cert.specs.Places.{Place, Between};
ghost use Rattle.ygg_cert.specs.Standing.{IsAt, IsDone, IsEnded, IsNext, Hears};
ghost use Rattle.ygg_cert.specs.Texts.{first_line, opening_line};

use crate::expected::Expected;
use crate::item::HeldGoal;
use crate::log::LogReading;
use crate::printing::{put_first, put_last, put_opening};
use crate::source::Goals;
use crate::verdict::Heard;
use std::alloc::Global;
use ygg_base::Text;
use ygg_list::NoMemory;

/// Which line is read next.
#[derive(Clone, Copy)]
pub enum Phase {
    /// The first line.
    First,
    /// The line before the log of a goal.
    Opening,
    /// The lines of a log.
    Log,
    /// The last line.
    Last,
    /// None: the text is whole.
    End,
    /// None: in the log that was read, the clause of this number isn't derived; or, with 0, no empty clause is held.
    Bad(u64),
    /// None: a line is another than the one that may stand there.
    Wrong,
    /// None: no memory was left.
    GivenUp,
}

/// What is read next.
#[derive(Drop)]
pub struct Next {
    pub phase: Phase,
    /// The line that alone may stand there, outside of logs.
    pub line: Expected,
    /// The log that is read, or that comes next.
    pub log: LogReading,
    /// How many goals are behind.
    pub passed: usize,
}

/// The line before the log of a goal. Its only error is out of memory.
fn opening(alloc: Global, goal: &HeldGoal) -> Result<Text, NoMemory>
    ensures { IfOk result (λ line. line ≡ opening_line goal.now.name (length goal.now.clauses)) }
{
    let mut line = Text::new(alloc);
    put_opening(&mut line, goal.name.as_slice(), goal.checker.len() as u64)?;
    Ok(line)
}

impl Next {
    /// The first line. Its only error is out of memory.
    pub fn new(alloc: Global) -> Result<Next, NoMemory>
        ensures phase { IfOk result (λ next. next.phase ≡ Phase.First) }
        ensures line { IfOk result (λ next. next.line.line ≡ first_line) }
        ensures matched { IfOk result (λ next. next.line.matched ≡ 0) }
        ensures passed { IfOk result (λ next. next.passed ≡ 0) }
    {
        let mut line = Text::new(alloc);
        put_first(&mut line)?;
        // no log is read before the first goal
        let none = HeldGoal::none(alloc);
        Ok(Next {
            phase: Phase::First,
            line: Expected::new(line),
            log: LogReading::new(alloc, none),
            passed: 0,
        })
    }

    /// Reads a byte. Its only error is out of memory.
    pub fn read(&mut self, alloc: Global, byte: u8) -> Result<Heard, NoMemory>
        ensures heard { (goals : List Goal) (place : Place) (before : List ℕ) → IsAt goals place before self.old →
            IfOk result (Hears goals place (before ++ byte ∷ []) self.new) }
        ensures ended { IsEnded self.old.phase → (result ≡ Ok Heard.Nothing) × (self.new ≡ self.old) }
    {
        match self.phase {
            Phase::First => Ok(self.line.read(byte)),
            Phase::Opening => Ok(self.line.read(byte)),
            Phase::Log => self.log.read(alloc, byte),
            Phase::Last => Ok(self.line.read(byte)),
            Phase::End => Ok(Heard::Wrong),
            Phase::Bad(_) => Ok(Heard::Nothing),
            Phase::Wrong => Ok(Heard::Nothing),
            Phase::GivenUp => Ok(Heard::Nothing),
        }
    }

    /// Reads the first bytes of a piece that go on with a step's literals or numbers, and gives how many they are. Its only error is out of memory.
    pub fn run_on(&mut self, piece: &[u8]) -> Result<usize, NoMemory>
        ensures within { IfOk result (λ count. count ≤ length piece.now) }
        ensures at { (goals : List Goal) (place : Place) (before : List ℕ) → IsAt goals place before self.old →
            IfOk result (λ count. IsAt goals place (before ++ take count piece.now) self.new) }
        ensures ended { IsEnded self.old.phase → (result ≡ Ok 0) × (self.new ≡ self.old) }
    {
        if let Phase::Log = self.phase {
            self.log.run_on(piece)
        } else {
            Ok(0)
        }
    }

    /// Goes on with the line before the log of a goal. Its only error is out of memory.
    fn open(&mut self, alloc: Global, goal: HeldGoal) -> Result<(), NoMemory>
        ensures { (goals : List Goal) → IsNext goals goal self.old.passed → OnOk result (IsAt goals (Between (drop self.old.passed goals)) [] self.new) }
    {
        self.line = Expected::new(opening(alloc, &goal)?);
        self.log = LogReading::new(alloc, goal);
        self.phase = Phase::Opening;
        Ok(())
    }

    /// Goes on with the last line. Its only error is out of memory.
    fn close(&mut self, alloc: Global) -> Result<(), NoMemory>
        ensures { (goals : List Goal) → drop self.old.passed goals ≡ [] → self.old.passed ≡ length goals →
            OnOk result (IsAt goals (Between (drop self.old.passed goals)) [] self.new) }
    {
        let mut line = Text::new(alloc);
        put_last(&mut line)?;
        self.line = Expected::new(line);
        self.phase = Phase::Last;
        Ok(())
    }

    /// Goes on after the goals that are behind. Its only error is out of memory.
    fn after_goals<G: Goals>(&mut self, alloc: Global, goals: &G) -> Result<(), NoMemory>
        ensures { self.old.passed ≤ length (G.wanted goals.now) →
            OnOk result (IsAt (G.wanted goals.now) (Between (drop self.old.passed (G.wanted goals.now))) [] self.new) }
    {
        match goals.goal(alloc, self.passed)? {
            Some(goal) => self.open(alloc, goal),
            None => self.close(alloc),
        }
    }

    /// Goes on after the log that is read. Its only error is out of memory.
    fn after_log<G: Goals>(&mut self, alloc: Global, goals: &G) -> Result<(), NoMemory>
        ensures { self.old.passed + 1 ≤ length (G.wanted goals.now) →
            OnOk result (IsAt (G.wanted goals.now) (Between (drop (self.old.passed + 1) (G.wanted goals.now))) [] self.new) }
    {
        // no machine has memory for as many goals
        let Some(passed) = self.passed.checked_add(1) else {
            return Err(NoMemory);
        };
        self.passed = passed;
        self.after_goals(alloc, goals)
    }

    /// Goes on after the line that is read. Its only error is out of memory.
    pub fn go_on<G: Goals>(&mut self, alloc: Global, goals: &G) -> Result<(), NoMemory>
        ensures { (to : Place) → IsDone (G.wanted goals.now) to self.old → OnOk result (IsAt (G.wanted goals.now) to [] self.new) }
    {
        match self.phase {
            Phase::First => self.after_goals(alloc, goals),
            Phase::Opening => {
                self.phase = Phase::Log;
                Ok(())
            }
            Phase::Log => self.after_log(alloc, goals),
            Phase::Last => {
                self.phase = Phase::End;
                Ok(())
            }
            // no line is read there
            Phase::End => Ok(()),
            Phase::Bad(_) => Ok(()),
            Phase::Wrong => Ok(()),
            Phase::GivenUp => Ok(()),
        }
    }
}
