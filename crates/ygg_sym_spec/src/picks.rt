//! The picks of a specification over terms.

ghost use Rattle.std.specs.Prelude.{◌≡◌, ◌+◌, ◌≤◌, ℕ, List, IfOk, OnErr, OnOk};
ghost use Rattle.ygg_sym_runs.specs.ygg_meaning_laws.Places.{left_after};
ghost use Rattle.ygg_sym_runs.specs.ygg_rules.declared.rule.RuleKind.{RuleKind};
ghost use Rattle.ygg_value.specs.Words.{bit_of, word};
ghost use Rattle.ygg_sym_runs.specs.ygg_bank.Nodes.{Extends, HasWidth, IsBank};
ghost use Rattle.ygg_sym_runs.specs.Lower.{KeepsSingle, SingleFrom};
ghost use Rattle.ygg_sym_spec.specs.Picking.{bit_in, first_number, picking};

use ygg_sym_runs::{Bank, Book, Id, NoMemory, Node};
use ygg_value::Word;

/// Where the picks of a specification come from, by place.
#[derive(Clone, Copy)]
pub enum SymPicks<'a> {
    /// Inputs of the bank: of each place the one whose number is so much above this one.
    Inputs(u64),
    /// These picks, which go on with 0. Inputs of the bank from this number on are single digits; none is made.
    Given(&'a [bool], u64),
}

impl<'a> SymPicks<'a> {
    /// The pick of a place, a single digit. Its only error is out of memory, after which the bank is as before.
    pub fn make<B: Book>(&self, bank: &mut Bank, book: &B, place: u64) -> Result<Id, NoMemory>
        requires { SingleFrom (first_number self.now) bank.old }
        ensures nodes { OnOk result (bank.new ≡ (picking (B.kinds book.now) self.now place bank.old).nodes) }
        ensures form { IfOk result (λ id. id ≡ (picking (B.kinds book.now) self.now place bank.old).value) }
        ensures width { IfOk result (λ id. HasWidth bank.new id 1) }
        ensures grows { Extends bank.old bank.new }
        ensures single { OnOk result (KeepsSingle bank.old bank.new) }
        ensures bank { IsBank bank.new }
        ensures err { OnErr result (bank.new ≡ bank.old) }
    {
        // the bank's nodes stand in order
        let _ = bank.len();
        match *self {
            SymPicks::Inputs(first) => match first.checked_add(place) {
                Some(number) => bank.make(Node::Input { number, width: 1 }, book),
                None => Err(NoMemory),
            },
            SymPicks::Given(given, _) => bank.make(
                Node::Const(bit_word(bit_in(given, place))),
                book,
            ),
        }
    }

    /// The picks from a place on. Its only error is out of memory.
    pub fn after(&self, count: u64) -> Result<SymPicks<'a>, NoMemory>
        ensures picks { (kinds : List RuleKind) (k : ℕ) → IfOk result (λ more. picking kinds more k ≡ picking kinds self.now (count + k)) }
        ensures first { IfOk result (λ more. first_number self.now ≤ first_number more) }
    {
        match *self {
            SymPicks::Inputs(first) => match first.checked_add(count) {
                Some(number) => Ok(SymPicks::Inputs(number)),
                None => Err(NoMemory),
            },
            SymPicks::Given(given, first) => Ok(SymPicks::Given(from(given, count), first)),
        }
    }
}

/// What comes after the first so many.
fn from(given: &[bool], count: u64) -> &[bool]
    ensures { result.now ≡ left_after count given.now }
{
    if count < given.len() as u64 {
        &given[count as usize..]
    } else {
        &[]
    }
}

/// The pick of a place; 0 past the end.
fn bit_in(given: &[bool], place: u64) -> bool
    ensures { result ≡ bit_in place given.now }
{
    if place < given.len() as u64 {
        given[place as usize]
    } else {
        false
    }
}

/// A single digit.
fn bit_word(bit: bool) -> Word
    ensures { result ≡ word 1 (bit_of bit) }
{
    Word {
        width: 1,
        bits: if bit { 1 } else { 0 },
    }
}
