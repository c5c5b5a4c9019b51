//! What power leaves at the stop after the last question of a run.

ghost use Rattle.std.specs.Prelude.{◌≡◌, IfOk, OnOk};
ghost use Rattle.ygg_sym_runs.specs.ygg_bank.Nodes.{Extends, HasWidth, IsBank};
ghost use Rattle.ygg_sym_runs.specs.Lower.{KeepsSingle, Stands};
ghost use Rattle.ygg_sym_machine.specs.Halting.{halted_of, halting_meaning, last_left_made, sym_fall};

use crate::stopping::{before, bit, either, first};
use crate::stops::SymStops;
use std::alloc::Global;
use ygg_sym_runs::{Bank, Book, Id, NoMemory};

/// What power leaves of a run.
#[derive(Drop)]
pub struct StopEnd<S: Drop> {
    /// What is left.
    pub fallen: S,
    /// The term that says whether the run comes to a stop that is set.
    pub reached: Id,
}

/// The stop after the last question of a run, which has so many places and left this state with stops: what power leaves of the run. Its only error
/// is out of memory, after which the bank may have more nodes.
pub fn end_halting<W: SymStops, B: Book>(
    stops: &W,
    alloc: Global,
    bank: &mut Bank,
    book: &B,
    last: u64,
    to: &W::State,
    fallen: &W::State,
    stopped: Id,
) -> Result<StopEnd<W::State>, NoMemory>
    requires stands { Stands (halting_meaning (W.means stops.now) (W.power stops.now)) bank.old (halted_of to.now fallen.now stopped) }
    ensures nodes { OnOk result (bank.new
        ≡ (sym_fall (W.means stops.now) (W.power stops.now) (B.kinds book.now) last (halted_of to.now fallen.now stopped) bank.old).nodes) }
    ensures left { IfOk result (λ end. end.fallen
        ≡ (sym_fall (W.means stops.now) (W.power stops.now) (B.kinds book.now) last (halted_of to.now fallen.now stopped) bank.old).value.fallen) }
    ensures reached { IfOk result (λ end. end.reached
        ≡ (sym_fall (W.means stops.now) (W.power stops.now) (B.kinds book.now) last (halted_of to.now fallen.now stopped) bank.old).value.reached) }
    ensures has { IfOk result (λ end. (W.means stops.now).low.Has bank.new end.fallen) }
    ensures width { IfOk result (λ end. HasWidth bank.new end.reached 1) }
    ensures grows { Extends bank.old bank.new }
    ensures single { OnOk result (KeepsSingle bank.old bank.new) }
    ensures bank { IsBank bank.new }
{
    // the bank's nodes stand in order
    let _ = bank.len();
    let number = before(last)?;
    let here = bit(stops, bank, book, number)?;
    let left = last_left(stops, alloc, bank, book, here, to, fallen, stopped)?;
    let again = bit(stops, bank, book, number)?;
    let reached = either(bank, book, stopped, again)?;
    Ok(StopEnd {
        fallen: left,
        reached,
    })
}

/// What is left at the stop after the last question, which this term says whether it is set. Its only error is out of memory, after which the bank
/// may have more nodes.
fn last_left<W: SymStops, B: Book>(
    stops: &W,
    alloc: Global,
    bank: &mut Bank,
    book: &B,
    here: Id,
    to: &W::State,
    fallen: &W::State,
    stopped: Id,
) -> Result<W::State, NoMemory>
    requires stands { Stands (halting_meaning (W.means stops.now) (W.power stops.now)) bank.old (halted_of to.now fallen.now stopped) }
    requires here { HasWidth bank.old here 1 }
    ensures nodes { OnOk result (bank.new
        ≡ (last_left_made (W.means stops.now) (W.power stops.now) (B.kinds book.now) here (halted_of to.now fallen.now stopped) bank.old).nodes) }
    ensures form { IfOk result (λ left. left
        ≡ (last_left_made (W.means stops.now) (W.power stops.now) (B.kinds book.now) here (halted_of to.now fallen.now stopped) bank.old).value) }
    ensures has { IfOk result ((W.means stops.now).low.Has bank.new) }
    ensures grows { Extends bank.old bank.new }
    ensures single { OnOk result (KeepsSingle bank.old bank.new) }
    ensures bank { IsBank bank.new }
{
    // the bank's nodes stand in order
    let _ = bank.len();
    let ends = first(bank, book, stopped, here)?;
    let lost = stops.lose(alloc, bank, book, to)?;
    stops.join(alloc, bank, book, ends, &lost, fallen)
}
