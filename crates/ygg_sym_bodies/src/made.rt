//! Runs of a block that may call what is below, and of one that runs on no machine.

ghost use Rattle.std.specs.Prelude.{◌≡◌, ◌+◌, List, IfOk, None};
ghost use Rattle.std.specs.Option.{option_copied};
ghost use Rattle.ygg_rules.specs.declared.rule.RuleKind.{RuleKind};
ghost use Rattle.ygg_bank.specs.Nodes.{Extends, HasWidth, IsBank};
ghost use Rattle.ygg_sym_runs.specs.Lows.{LowShaped};
ghost use Rattle.ygg_sym_runs.specs.SpecCuts.{choice_room};
ghost use Rattle.ygg_sym_runs.specs.Lower.{SingleFrom};
ghost use Rattle.ygg_sym_spec.specs.Picking.{first_number, picking};
ghost use Rattle.ygg_sym.specs.Running.{CanRunBlock};
ghost use Rattle.ygg_sym.specs.Sites.{BelowFits};
ghost use Rattle.ygg_sym_bodies.specs.Blocks.{CanChoose, called_site, chosen_site};
ghost use Rattle.ygg_sym_bodies.specs.Runs.{
  IsMade,
  Stands,
  called,
  called_cut,
  chosen,
  chosen_cut,
  cut_inputs,
  cut_numbered,
  inputs_of,
  numbered,
  pick_made,
  whole_inputs,
};
ghost use Rattle.ygg_sym_bodies.specs.Sites.{IsShaped};

use crate::state::{Inputs, SymRun, SymState};
use std::alloc::Global;
use ygg_bank::{Bank, Id, NoMemory};
use ygg_base::Bits;
use ygg_rules::Book;
use ygg_shape_cells::SymValues;
use ygg_sym::{SymBlock, SymPicks, block, cut, failure_room, lost, places, run};
use ygg_sym_spec::choices;
use ygg_syntax::tree::Block;

/// The picks of a block that runs on no machine: those that are given, or inputs from a number on.
fn picks_of<'a>(given: Option<&'a Bits>, first: u64) -> SymPicks<'a>
    ensures picks { (kinds : List RuleKind) → picking kinds result ≡ pick_made kinds (option_copied given.entry) first }
    ensures first { first_number result ≡ first }
{
    match given {
        Some(bits) => SymPicks::Given(bits.as_slice(), first),
        None => SymPicks::Inputs(first),
    }
}

/// How many inputs the picks of such a block have. Its only error is out of memory: no machine has memory for so many inputs that their numbers don't
/// fit in 64 digits.
fn inputs_for(given: Option<&Bits>, b: &Block) -> Result<u64, NoMemory>
    ensures { IfOk result (λ n. n ≡ inputs_of (option_copied given.entry) (choice_room b.now)) }
{
    if given.is_some() {
        return Ok(0);
    }
    match choices(b) {
        Some(count) => Ok(count),
        None => Err(NoMemory),
    }
}

/// The number that is so much above another. Its only error is out of memory, as that of `inputs_for`.
fn above(number: u64, count: u64) -> Result<u64, NoMemory>
    ensures { IfOk result (λ n. n ≡ number + count) }
{
    match number.checked_add(count) {
        Some(sum) => Ok(sum),
        None => Err(NoMemory),
    }
}

/// The numbers of a whole run's inputs, which has so many.
fn whole_inputs(first: u64, count: u64) -> Result<Inputs, NoMemory>
    ensures { IfOk result (λ i. i ≡ numbered first count) }
{
    let next = above(first, count)?;
    Ok(Inputs {
        picks: first,
        stops: next,
        failure: next,
        next,
    })
}

/// The numbers of the inputs of a run that power cuts, which has so many places for calls, and whose failure has so many picks.
fn cut_inputs(first: u64, places: u64, picks: u64) -> Result<Inputs, NoMemory>
    ensures { IfOk result (λ i. i ≡ cut_numbered first places picks) }
{
    let stops = above(first, places)?;
    let points = above(above(places, places)?, 1)?;
    let failure = above(stops, points)?;
    Ok(Inputs {
        picks: first,
        stops,
        failure,
        next: above(failure, picks)?,
    })
}

/// A whole run of a block that may call what is below; its picks are inputs numbered on from a number. Its only error is out of memory, after which the
/// bank may have more nodes.
pub fn run_called<B: Book>(
    alloc: Global,
    bank: &mut Bank,
    book: &B,
    at: SymBlock<'_>,
    first: u64,
    from: &SymState,
    one: Id,
) -> Result<SymRun, NoMemory>
    requires can { CanRunBlock at bank.old from.now.vars from.now.args from.now.low }
    requires single { SingleFrom first bank.old }
    requires one { HasWidth bank.old one 1 }
    ensures made { IfOk result (λ r. IsMade (called (B.kinds book.now) (called_site at.entry) from.now first one bank.old) from.now r bank.new) }
    ensures stands { IfOk result (Stands (called_site at.entry) bank.new) }
    ensures inputs { IfOk result (λ r. r.inputs ≡ whole_inputs (called_site at.entry) None first) }
    ensures grows { Extends bank.old bank.new }
    ensures bank { IsBank bank.new }
{
    // the bank's nodes stand in order
    let _ = bank.len();
    let count = places(at.below, at.block)?;
    let inputs = whole_inputs(first, count)?;
    let args = from.args.copy(alloc)?;
    let end = run(
        alloc, bank, book, at, first, &from.vars, &from.args, &from.low,
    )?;
    Ok(SymRun {
        after: SymState {
            vars: end.memory,
            args,
            low: end.low,
        },
        answer: end.answer,
        reached: one,
        inputs,
    })
}

/// A whole run of a block that runs on no machine; its picks are those that are given, or inputs numbered on from a number. Its only error is out of
/// memory, after which the bank may have more nodes.
pub fn run_chosen<B: Book>(
    alloc: Global,
    bank: &mut Bank,
    book: &B,
    at: SymBlock<'_>,
    given: Option<&Bits>,
    first: u64,
    from: &SymState,
    one: Id,
) -> Result<SymRun, NoMemory>
    requires can { CanChoose at bank.old from.now }
    requires single { SingleFrom first bank.old }
    requires one { HasWidth bank.old one 1 }
    ensures made { IfOk result (λ r. IsMade (chosen (B.kinds book.now) (chosen_site at.entry) from.now
        (pick_made (B.kinds book.now) (option_copied given.entry) first) one bank.old) from.now r bank.new) }
    ensures stands { IfOk result (Stands (chosen_site at.entry) bank.new) }
    ensures inputs { IfOk result (λ r. r.inputs ≡ whole_inputs (chosen_site at.entry) (option_copied given.entry) first) }
    ensures grows { Extends bank.old bank.new }
    ensures bank { IsBank bank.new }
{
    // the bank's nodes stand in order
    let _ = bank.len();
    let count = inputs_for(given, at.block)?;
    let inputs = whole_inputs(first, count)?;
    let args = from.args.copy(alloc)?;
    let low = from.low.copy(alloc)?;
    let done = block(
        alloc,
        bank,
        book,
        at.layer,
        picks_of(given, first),
        at.block,
        &from.vars,
        at.names,
        from.args.as_slice(),
    )?;
    Ok(SymRun {
        after: SymState {
            vars: done.vars,
            args,
            low,
        },
        answer: done.answer,
        reached: one,
        inputs,
    })
}

/// A run of a block that may call what is below, and which power cuts, after which the variables are these; its inputs are numbered on from a number. Its
/// only error is out of memory, after which the bank may have more nodes.
pub fn cut_called<B: Book>(
    alloc: Global,
    bank: &mut Bank,
    book: &B,
    at: SymBlock<'_>,
    first: u64,
    from: &SymState,
    zeros: SymValues,
) -> Result<SymRun, NoMemory>
    requires can { CanRunBlock at bank.old from.now.vars from.now.args from.now.low }
    requires single { SingleFrom first bank.old }
    requires zeros { LowShaped bank.old (called_site at).vars zeros }
    ensures made { IfOk result (λ r. IsMade (called_cut (B.kinds book.now) (called_site at.entry) from.now first r.inputs.stops
        r.inputs.failure zeros bank.old) from.now r bank.new) }
    ensures stands { IfOk result (Stands (called_site at.entry) bank.new) }
    ensures inputs { IfOk result (λ r. r.inputs ≡ cut_inputs (called_site at.entry) first) }
    ensures grows { Extends bank.old bank.new }
    ensures bank { IsBank bank.new }
{
    // the bank's nodes stand in order
    let _ = bank.len();
    let count = places(at.below, at.block)?;
    let inputs = cut_inputs(first, count, failure_room(at.below)?)?;
    let args = from.args.copy(alloc)?;
    let left = cut(
        alloc,
        bank,
        book,
        at,
        first,
        inputs.stops,
        inputs.failure,
        &from.vars,
        &from.args,
        &from.low,
    )?;
    Ok(SymRun {
        after: SymState {
            vars: zeros,
            args,
            low: left.fallen,
        },
        answer: None,
        reached: left.reached,
        inputs,
    })
}

/// A run of a block that runs on no machine, and which power cuts, after which the variables are these: what is below loses power. Its inputs are numbered
/// on from a number. Its only error is out of memory, after which the bank may have more nodes.
pub fn cut_chosen<B: Book>(
    alloc: Global,
    bank: &mut Bank,
    book: &B,
    at: SymBlock<'_>,
    first: u64,
    from: &SymState,
    zeros: SymValues,
) -> Result<SymRun, NoMemory>
    requires below { BelowFits at.layer at.below }
    requires shaped { IsShaped (chosen_site at) bank.old from.now }
    requires single { SingleFrom first bank.old }
    requires zeros { LowShaped bank.old (chosen_site at).vars zeros }
    ensures made { IfOk result (λ r. IsMade (chosen_cut (B.kinds book.now) (chosen_site at.entry) from.now r.inputs.stops r.inputs.failure zeros bank.old)
        from.now r bank.new) }
    ensures stands { IfOk result (Stands (chosen_site at.entry) bank.new) }
    ensures inputs { IfOk result (λ r. r.inputs ≡ cut_inputs (chosen_site at.entry) first) }
    ensures grows { Extends bank.old bank.new }
    ensures bank { IsBank bank.new }
{
    // the bank's nodes stand in order
    let _ = bank.len();
    let inputs = cut_inputs(first, 0, failure_room(at.below)?)?;
    let args = from.args.copy(alloc)?;
    let stop = SymPicks::Inputs(inputs.stops);
    let reached = stop.make(bank, book, 0)?;
    let low = lost(
        alloc,
        bank,
        book,
        at.layer,
        at.below,
        inputs.failure,
        &from.low,
    )?;
    Ok(SymRun {
        after: SymState {
            vars: zeros,
            args,
            low,
        },
        answer: None,
        reached,
        inputs,
    })
}
