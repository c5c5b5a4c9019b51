//! A line of a derived clause that is read byte by byte.

ghost use Rattle.std.specs.Prelude.{◌≡◌, [], ◌∷◌, ◌++◌, List, ℕ, IfOk};
ghost use Rattle.ygg_cnf.specs.Runs.{IsRun};
ghost use Rattle.ygg_cnf.specs.Reading.{IsReading, Hears};

use crate::lit::Lit;
use crate::literals::{part_at, read_literals, spot_in};
use crate::numbers::{number_at, read_numbers, spot_of};
use crate::spot::{Spot, SpotTurn, turn_at};
use std::alloc::Global;
use std::mem;
use ygg_list::{NoMemory, Sequence};

/// What the reader says of a byte.
#[derive(Clone, Copy)]
pub enum StepHeard {
    /// The bytes so far can be continued to a line.
    More,
    /// They are a line.
    Whole,
    /// They can't be continued to a line. The reader is then of no use.
    Wrong,
}

/// The bytes of a line of a derived clause so far: its literals and numbers that are read whole, and where the reading stands.
#[derive(Drop)]
pub struct StepReader {
    spot: Spot,
    clause: Sequence<Lit>,
    chain: Sequence<u64>,
}

/// Takes all items out of a list, which keeps its memory.
fn empty<T: Drop>(alloc: Global, list: &mut Sequence<T>)
    ensures { list.new ≡ [] }
{
    let mut items = mem::replace(list, Sequence::new(alloc)).into_vec();
    items.clear();
    *list = Sequence::from_vec(items);
}

impl StepReader {
    /// A reader of no bytes. It takes no memory.
    pub fn new(alloc: Global) -> StepReader
        ensures { IsReading [] result }
    {
        StepReader {
            spot: Spot::Begin,
            clause: Sequence::new(alloc),
            chain: Sequence::new(alloc),
        }
    }

    /// Begins a line anew, in the memory that it has.
    pub fn restart(&mut self, alloc: Global)
        ensures { IsReading [] self.new }
    {
        self.spot = Spot::Begin;
        empty(alloc, &mut self.clause);
        empty(alloc, &mut self.chain);
    }

    /// The literals of the line's clause, once it is whole.
    pub fn clause(&self) -> &[Lit]
        ensures { result.now ≡ self.now.clause }
    {
        self.clause.as_slice()
    }

    /// The numbers of the clauses that it is derived from, once the line is whole.
    pub fn chain(&self) -> &[u64]
        ensures { result.now ≡ self.now.chain }
    {
        self.chain.as_slice()
    }

    /// Reads the first bytes of a piece, as far as they go on with the line's literals, where it reads these, or with the numbers of clauses. Gives how
    /// many they are, which is none elsewhere in the line. Its only error is out of memory, after which the reader is of no use.
    pub fn run_on(&mut self, piece: &[u8]) -> Result<usize, NoMemory>
        ensures { IfOk result (IsRun piece.now self.old self.new) }
    {
        if let Some(part) = part_at(self.spot) {
            let run = read_literals(&mut self.clause, part, piece)?;
            self.spot = spot_in(run.part);
            return Ok(run.count);
        }
        let Some(number) = number_at(self.spot) else {
            return Ok(0);
        };
        let run = read_numbers(&mut self.chain, number, piece)?;
        self.spot = spot_of(run.number);
        Ok(run.count)
    }

    /// Reads a byte. Its only error is out of memory, after which the reader is of no use.
    pub fn read(&mut self, byte: u8) -> Result<StepHeard, NoMemory>
        ensures { (before : List ℕ) → IsReading before self.old → IfOk result (Hears (before ++ byte ∷ []) self.new) }
    {
        match turn_at(self.spot, byte) {
            SpotTurn::To(spot) => {
                self.spot = spot;
                Ok(StepHeard::More)
            }
            SpotTurn::Literal(lit) => {
                self.clause.push(lit)?;
                self.spot = Spot::Literal;
                Ok(StepHeard::More)
            }
            SpotTurn::Number(number) => {
                self.chain.push(number)?;
                self.spot = Spot::Number;
                Ok(StepHeard::More)
            }
            SpotTurn::Whole => Ok(StepHeard::Whole),
            SpotTurn::Wrong => Ok(StepHeard::Wrong),
        }
    }
}
