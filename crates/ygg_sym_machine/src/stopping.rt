//! What power leaves at the stops of a question.

ghost use Rattle.std.specs.Prelude.{◌≡◌, ◌+◌, IfOk, OnOk};
ghost use Rattle.ygg_value.specs.declared.operation.Op.TheVariants.{Or};
ghost use Rattle.ygg_sym_runs.specs.ygg_bank.Making.{made};
ghost use Rattle.ygg_sym_runs.specs.ygg_bank.Nodes.{Extends, HasWidth, IsBank};
ghost use Rattle.ygg_sym_runs.specs.ygg_bank.declared.node.Node.TheVariants.{Bin, Input};
ghost use Rattle.ygg_sym_runs.specs.Lower.{CanAsk, KeepsSingle, SingleFrom, question_of};
ghost use Rattle.ygg_sym_runs.specs.Stops.{before_at, within_at};
ghost use Rattle.ygg_sym_runs.specs.StopTerms.{sym_halted, sym_leaves, sym_left};
ghost use Rattle.ygg_sym_machine.specs.Halting.{first_made, halted_of, halting_meaning, no_functions};
ghost use Rattle.ygg_sym_machine.specs.Stopping.{stops_on};

use crate::stops::SymStops;
use std::alloc::Global;
use ygg_sym_runs::{Awaited, Bank, Book, Id, NoMemory, Node, SymValue, pick};
use ygg_value::{Op, Word};

/// The number of the stop before the question at a place. Its only error is out of memory: the number doesn't fit.
pub fn before(place: u64) -> Result<u64, NoMemory>
    ensures { IfOk result (λ number. number ≡ before_at place) }
{
    match place.checked_mul(2) {
        Some(number) => Ok(number),
        None => Err(NoMemory),
    }
}

/// The number of the stop within the question at a place. Its only error is out of memory: the number doesn't fit.
pub fn within(place: u64) -> Result<u64, NoMemory>
    ensures { IfOk result (λ number. number ≡ within_at place) }
{
    match before(place)?.checked_add(1) {
        Some(number) => Ok(number),
        None => Err(NoMemory),
    }
}

/// The term that says whether the stop of a number is set. Its only error is out of memory, after which the bank may have more nodes.
pub fn bit<W: SymStops, B: Book>(
    stops: &W,
    bank: &mut Bank,
    book: &B,
    number: u64,
) -> Result<Id, NoMemory>
    requires { SingleFrom (W.power stops.now).first bank.old }
    ensures nodes { OnOk result (bank.new ≡ (made (B.kinds book.now) (Input ((W.power stops.now).stop + number) 1) bank.old).nodes) }
    ensures form { IfOk result (λ t. t ≡ (made (B.kinds book.now) (Input ((W.power stops.now).stop + number) 1) bank.old).value) }
    ensures width { IfOk result (λ t. HasWidth bank.new t 1) }
    ensures grows { Extends bank.old bank.new }
    ensures single { OnOk result (KeepsSingle bank.old bank.new) }
    ensures bank { IsBank bank.new }
{
    // the bank's nodes stand in order
    let _ = bank.len();
    match stops.stop().checked_add(number) {
        Some(input) => bank.make(
            Node::Input {
                number: input,
                width: 1,
            },
            book,
        ),
        None => Err(NoMemory),
    }
}

/// The term that says whether one of two does. Its only error is out of memory, after which the bank may have more nodes.
pub fn either<B: Book>(bank: &mut Bank, book: &B, a: Id, b: Id) -> Result<Id, NoMemory>
    requires one { HasWidth bank.old a 1 }
    requires two { HasWidth bank.old b 1 }
    ensures nodes { OnOk result (bank.new ≡ (made (B.kinds book.now) (Bin Or a b) bank.old).nodes) }
    ensures form { IfOk result (λ t. t ≡ (made (B.kinds book.now) (Bin Or a b) bank.old).value) }
    ensures width { IfOk result (λ t. HasWidth bank.new t 1) }
    ensures grows { Extends bank.old bank.new }
    ensures single { OnOk result (KeepsSingle bank.old bank.new) }
    ensures bank { IsBank bank.new }
{
    bank.make(Node::Bin { op: Op::Or, a, b }, book)
}

/// The term that says whether one is set, and another isn't. Its only error is out of memory, after which the bank may have more nodes.
pub fn first<B: Book>(bank: &mut Bank, book: &B, other: Id, one: Id) -> Result<Id, NoMemory>
    requires other { HasWidth bank.old other 1 }
    requires one { HasWidth bank.old one 1 }
    ensures nodes { OnOk result (bank.new ≡ (first_made (B.kinds book.now) other one bank.old).nodes) }
    ensures form { IfOk result (λ t. t ≡ (first_made (B.kinds book.now) other one bank.old).value) }
    ensures width { IfOk result (λ t. HasWidth bank.new t 1) }
    ensures grows { Extends bank.old bank.new }
    ensures single { OnOk result (KeepsSingle bank.old bank.new) }
    ensures bank { IsBank bank.new }
{
    let never = bank.make(Node::Const(Word { width: 1, bits: 0 }), book)?;
    pick(bank, book, other, never, one)
}

/// What is left after a question whose two stops have these terms. Its only error is out of memory, after which the bank may have more nodes.
pub fn left<W: SymStops, B: Book>(
    stops: &W,
    alloc: Global,
    bank: &mut Bank,
    book: &B,
    here: Id,
    within: Id,
    question: Awaited<'_>,
    to: &W::State,
    fallen: &W::State,
    stopped: Id,
) -> Result<W::State, NoMemory>
    requires asks { CanAsk (halting_meaning (W.means stops.now) (W.power stops.now)) bank.old (question_of question) (halted_of to.now fallen.now stopped) }
    requires here { HasWidth bank.old here 1 }
    requires within { HasWidth bank.old within 1 }
    ensures nodes { OnOk result (bank.new ≡ (sym_left (B.kinds book.now) no_functions ((W.means stops.now).machine (B.kinds book.now))
        (stops_on (W.means stops.now) (W.power stops.now) (B.kinds book.now)) here within (question_of question.entry)
        (halted_of to.now fallen.now stopped) bank.old).nodes) }
    ensures form { IfOk result (λ left. left ≡ (sym_left (B.kinds book.now) no_functions ((W.means stops.now).machine (B.kinds book.now))
        (stops_on (W.means stops.now) (W.power stops.now) (B.kinds book.now)) here within (question_of question.entry)
        (halted_of to.now fallen.now stopped) bank.old).value) }
    ensures stands { IfOk result ((W.means stops.now).low.Has bank.new) }
    ensures grows { Extends bank.old bank.new }
    ensures single { OnOk result (KeepsSingle bank.old bank.new) }
    ensures bank { IsBank bank.new }
{
    // the bank's nodes stand in order
    let _ = bank.len();
    let outer = first(bank, book, stopped, here)?;
    let some = either(bank, book, stopped, here)?;
    let inner = first(bank, book, some, within)?;
    leaves(
        stops, alloc, bank, book, outer, inner, question, to, fallen, stopped,
    )
}

/// What is left after a question at one of whose two stops power fails where these terms say so. Its only error is out of memory, after which the
/// bank may have more nodes.
fn leaves<W: SymStops, B: Book>(
    stops: &W,
    alloc: Global,
    bank: &mut Bank,
    book: &B,
    here: Id,
    within: Id,
    question: Awaited<'_>,
    to: &W::State,
    fallen: &W::State,
    stopped: Id,
) -> Result<W::State, NoMemory>
    requires asks { CanAsk (halting_meaning (W.means stops.now) (W.power stops.now)) bank.old (question_of question) (halted_of to.now fallen.now stopped) }
    requires here { HasWidth bank.old here 1 }
    requires within { HasWidth bank.old within 1 }
    ensures nodes { OnOk result (bank.new ≡ (sym_leaves (B.kinds book.now) no_functions ((W.means stops.now).machine (B.kinds book.now))
        (stops_on (W.means stops.now) (W.power stops.now) (B.kinds book.now)) here within (question_of question.entry)
        (halted_of to.now fallen.now stopped) bank.old).nodes) }
    ensures form { IfOk result (λ left. left ≡ (sym_leaves (B.kinds book.now) no_functions ((W.means stops.now).machine (B.kinds book.now))
        (stops_on (W.means stops.now) (W.power stops.now) (B.kinds book.now)) here within (question_of question.entry)
        (halted_of to.now fallen.now stopped) bank.old).value) }
    ensures stands { IfOk result ((W.means stops.now).low.Has bank.new) }
    ensures grows { Extends bank.old bank.new }
    ensures single { OnOk result (KeepsSingle bank.old bank.new) }
    ensures bank { IsBank bank.new }
{
    // the bank's nodes stand in order
    let _ = bank.len();
    let cut = stops.cut(alloc, bank, book, question, to)?;
    let inner = stops.join(alloc, bank, book, within, &cut, fallen)?;
    let lost = stops.lose(alloc, bank, book, to)?;
    stops.join(alloc, bank, book, here, &lost, &inner)
}

/// A question on a machine with stops: its answer, and what is left.
#[derive(Drop)]
pub struct StopAnswer<S: Drop> {
    /// What the machine answers.
    pub answer: Option<SymValue>,
    /// What is left.
    pub fallen: S,
    /// The term that says whether power has failed.
    pub stopped: Id,
}

/// A question on a machine with stops. Its only error is out of memory, after which the bank may have more nodes, and nothing is said of the
/// state.
pub fn ask_halting<W: SymStops, B: Book>(
    stops: &W,
    alloc: Global,
    bank: &mut Bank,
    book: &B,
    place: u64,
    question: Awaited<'_>,
    to: &mut W::State,
    fallen: &W::State,
    stopped: Id,
) -> Result<StopAnswer<W::State>, NoMemory>
    requires asks { CanAsk (halting_meaning (W.means stops.now) (W.power stops.now)) bank.old (question_of question) (halted_of to.old fallen.now stopped) }
    ensures nodes { OnOk result (bank.new ≡ (sym_halted (B.kinds book.now) no_functions ((W.means stops.now).machine (B.kinds book.now))
        (stops_on (W.means stops.now) (W.power stops.now) (B.kinds book.now)) place (question_of question.entry)
        (halted_of to.old fallen.now stopped) bank.old).nodes) }
    ensures answer { IfOk result (λ s. s.answer ≡ (sym_halted (B.kinds book.now) no_functions ((W.means stops.now).machine (B.kinds book.now))
        (stops_on (W.means stops.now) (W.power stops.now) (B.kinds book.now)) place (question_of question.entry)
        (halted_of to.old fallen.now stopped) bank.old).value.answer) }
    ensures state { IfOk result (λ s. halted_of to.new s.fallen s.stopped
        ≡ (sym_halted (B.kinds book.now) no_functions ((W.means stops.now).machine (B.kinds book.now))
        (stops_on (W.means stops.now) (W.power stops.now) (B.kinds book.now)) place (question_of question.entry)
        (halted_of to.old fallen.now stopped) bank.old).value.to) }
    ensures grows { Extends bank.old bank.new }
    ensures single { OnOk result (KeepsSingle bank.old bank.new) }
    ensures bank { IsBank bank.new }
{
    // the bank's nodes stand in order
    let _ = bank.len();
    let here = bit(stops, bank, book, before(place)?)?;
    let inner = bit(stops, bank, book, within(place)?)?;
    let fallen = left(
        stops, alloc, bank, book, here, inner, question, to, fallen, stopped,
    )?;
    let some = either(bank, book, stopped, here)?;
    let stopped = either(bank, book, some, inner)?;
    let answer = stops.handle(alloc, bank, book, place, question, to)?;
    Ok(StopAnswer {
        answer,
        fallen,
        stopped,
    })
}
