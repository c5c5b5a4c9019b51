//! Runs of a layer's blocks on the disk, and on the specification of the layer below.

ghost use Rattle.std.specs.Prelude.{◌≡◌, ◌≤◌, ◌++◌, length, IfOk, OnOk};
ghost use Rattle.ygg_sym_spec.specs.ygg_bank.Nodes.{Extends, IsBank};
ghost use Rattle.ygg_sym_spec.specs.ygg_sym_runs.Names.{sym_bind};
ghost use Rattle.ygg_sym_spec.specs.ygg_sym_runs.Seen.{env_of};
ghost use Rattle.ygg_sym_spec.specs.ygg_sym_runs.Lower.{KeepsSingle, SingleFrom};
ghost use Rattle.ygg_sym_spec.specs.ygg_sym_runs.WholeReady.{CanWhole};
ghost use Rattle.ygg_sym.specs.Falls.{IsFall};
ghost use Rattle.ygg_sym.specs.Ends.{IsRun};
ghost use Rattle.ygg_sym.specs.Running.{CanRunBlock, CutIs, EndIs, cut_of, run_of};
ghost use Rattle.ygg_sym_spec.specs.declared.below.SymBelow.TheVariants.{Disk, Layer};

use crate::disk_stops::DiskStops;
use crate::runs::{SymBlock, SymCut, SymEnd};
use crate::spec_stops::SpecStops;
use crate::stopping::cut_short;
use std::alloc::Global;
use ygg_sym_machine::{Lows, StopEnd, SymDisk, SymStops};
use ygg_sym_spec::{
    Bank, Book, NoMemory, SymBinding, SymLayer, SymLower, SymRunner, SymSpec, SymValue, SymValues,
    bind, values_of, whole,
};
use ygg_syntax::lists;
use ygg_syntax::tree::{Block, Declared, DiskText};

/// What a whole run on a machine leaves.
#[derive(Drop)]
pub struct Ran<S: Drop> {
    /// The answer, if the block returns one.
    pub answer: Option<SymValue>,
    /// The variables.
    pub vars: SymValues,
    /// The state of the machine.
    pub state: S,
}

/// A whole run on the disk.
pub fn run_on_disk<B: Book>(
    alloc: Global,
    bank: &mut Bank,
    book: &B,
    at: SymBlock<'_>,
    disk: DiskText,
    first: u64,
    memory: &SymValues,
    args: &SymValues,
    low: &SymValues,
) -> Result<SymEnd, NoMemory>
    requires can { CanRunBlock at bank.old memory.now args.now low.now }
    requires below { at.below ≡ Disk disk }
    requires single { SingleFrom first bank.old }
    ensures nodes { OnOk result (bank.new ≡ (run_of (B.kinds book.now) at.entry first memory.now args.now low.now bank.old).nodes) }
    ensures end { IfOk result (EndIs (run_of (B.kinds book.now) at.entry first memory.now args.now low.now bank.old).value) }
    ensures grows { Extends bank.old bank.new }
    ensures single { OnOk result (KeepsSingle bank.old bank.new) }
    ensures bank { IsBank bank.new }
{
    // the bank's nodes stand in order
    let _ = bank.len();
    let machine = SymDisk { disk, first };
    let runner = SymRunner {
        alloc,
        defs: at.layer.defs,
        machine: &machine,
        book,
    };
    let values = low.copy(alloc)?;
    let variables = lists::declared::as_slice(&at.layer.layer.memory);
    let ran = run_with(
        &runner,
        at.block,
        variables,
        memory,
        at.names,
        args,
        Lows { values },
        bank,
    )?;
    Ok(SymEnd {
        answer: ran.answer,
        memory: ran.vars,
        low: ran.state.values,
    })
}

/// A whole run on the specification of the layer below.
pub fn run_on_spec<B: Book>(
    alloc: Global,
    bank: &mut Bank,
    book: &B,
    at: SymBlock<'_>,
    spec: SymLayer<'_>,
    first: u64,
    memory: &SymValues,
    args: &SymValues,
    low: &SymValues,
) -> Result<SymEnd, NoMemory>
    requires can { CanRunBlock at bank.old memory.now args.now low.now }
    requires below { at.below ≡ Layer spec }
    requires single { SingleFrom first bank.old }
    ensures nodes { OnOk result (bank.new ≡ (run_of (B.kinds book.now) at.entry first memory.now args.now low.now bank.old).nodes) }
    ensures end { IfOk result (EndIs (run_of (B.kinds book.now) at.entry first memory.now args.now low.now bank.old).value) }
    ensures grows { Extends bank.old bank.new }
    ensures single { OnOk result (KeepsSingle bank.old bank.new) }
    ensures bank { IsBank bank.new }
{
    // the bank's nodes stand in order
    let _ = bank.len();
    let machine = SymSpec { layer: spec, first };
    let runner = SymRunner {
        alloc,
        defs: at.layer.defs,
        machine: &machine,
        book,
    };
    let values = low.copy(alloc)?;
    let variables = lists::declared::as_slice(&at.layer.layer.memory);
    let ran = run_with(
        &runner,
        at.block,
        variables,
        memory,
        at.names,
        args,
        Lows { values },
        bank,
    )?;
    Ok(SymEnd {
        answer: ran.answer,
        memory: ran.vars,
        low: ran.state.values,
    })
}

/// A run on the disk that power cuts.
pub fn cut_on_disk<B: Book>(
    alloc: Global,
    bank: &mut Bank,
    book: &B,
    at: SymBlock<'_>,
    disk: DiskText,
    first: u64,
    stop: u64,
    last: u64,
    memory: &SymValues,
    args: &SymValues,
    low: &SymValues,
) -> Result<SymCut, NoMemory>
    requires can { CanRunBlock at bank.old memory.now args.now low.now }
    requires below { at.below ≡ Disk disk }
    requires single { SingleFrom first bank.old }
    requires stop { first ≤ stop }
    requires last { first ≤ last }
    ensures nodes { OnOk result (bank.new ≡ (cut_of (B.kinds book.now) at.entry first stop last memory.now args.now low.now bank.old).nodes) }
    ensures end { IfOk result (CutIs (cut_of (B.kinds book.now) at.entry first stop last memory.now args.now low.now bank.old).value) }
    ensures grows { Extends bank.old bank.new }
    ensures single { OnOk result (KeepsSingle bank.old bank.new) }
    ensures bank { IsBank bank.new }
{
    // the bank's nodes stand in order
    let _ = bank.len();
    let machine = DiskStops {
        machine: SymDisk { disk, first },
        stop,
        last,
    };
    let runner = SymRunner {
        alloc,
        defs: at.layer.defs,
        machine: &machine,
        book,
    };
    let values = low.copy(alloc)?;
    let variables = lists::declared::as_slice(&at.layer.layer.memory);
    let end = cut_with(
        &runner,
        at.block,
        variables,
        memory,
        at.names,
        args,
        Lows { values },
        bank,
    )?;
    Ok(SymCut {
        fallen: end.fallen.values,
        reached: end.reached,
    })
}

/// A run on the specification of the layer below that power cuts.
pub fn cut_on_spec<B: Book>(
    alloc: Global,
    bank: &mut Bank,
    book: &B,
    at: SymBlock<'_>,
    spec: SymLayer<'_>,
    first: u64,
    stop: u64,
    last: u64,
    memory: &SymValues,
    args: &SymValues,
    low: &SymValues,
) -> Result<SymCut, NoMemory>
    requires can { CanRunBlock at bank.old memory.now args.now low.now }
    requires below { at.below ≡ Layer spec }
    requires single { SingleFrom first bank.old }
    requires stop { first ≤ stop }
    requires last { first ≤ last }
    ensures nodes { OnOk result (bank.new ≡ (cut_of (B.kinds book.now) at.entry first stop last memory.now args.now low.now bank.old).nodes) }
    ensures end { IfOk result (CutIs (cut_of (B.kinds book.now) at.entry first stop last memory.now args.now low.now bank.old).value) }
    ensures grows { Extends bank.old bank.new }
    ensures single { OnOk result (KeepsSingle bank.old bank.new) }
    ensures bank { IsBank bank.new }
{
    // the bank's nodes stand in order
    let _ = bank.len();
    let machine = SpecStops {
        machine: SymSpec { layer: spec, first },
        stop,
        last,
    };
    let runner = SymRunner {
        alloc,
        defs: at.layer.defs,
        machine: &machine,
        book,
    };
    let values = low.copy(alloc)?;
    let variables = lists::declared::as_slice(&at.layer.layer.memory);
    let end = cut_with(
        &runner,
        at.block,
        variables,
        memory,
        at.names,
        args,
        Lows { values },
        bank,
    )?;
    Ok(SymCut {
        fallen: end.fallen.values,
        reached: end.reached,
    })
}

/// A whole run of a block on a machine: its variables and arguments begin with these values. Its only error is out of memory, after which the bank may
/// have more nodes.
fn run_with<'a, W: SymLower, B: Book>(
    runner: &SymRunner<'a, W, B>,
    b: &'a Block,
    variables: &'a [Declared],
    vars: &SymValues,
    names: &'a [Declared],
    args: &SymValues,
    from: W::State,
    bank: &mut Bank,
) -> Result<Ran<W::State>, NoMemory>
    requires can { CanWhole (W.means runner.now.machine.now) runner.now.defs.now b.now bank.old
        (sym_bind variables.now vars.now ++ sym_bind names.now args.now) from }
    requires vars { length variables.now ≡ length vars.now }
    requires args { length names.now ≡ length args.now }
    ensures ran { IfOk result (λ ran. IsRun (W.means runner.now.machine.now) runner.now.defs.now (B.kinds runner.now.book.now) b.now
        (sym_bind variables.now vars.now) (sym_bind names.now args.now) from bank.old ran bank.new) }
    ensures grows { Extends bank.old bank.new }
    ensures bank { IsBank bank.new }
{
    // the bank's nodes stand in order
    let _ = bank.len();
    let bound = bound(runner.alloc, variables, vars, names, args)?;
    let count = vars.len();
    let end = whole(runner, b, bound, count, from, bank)?;
    Ok(Ran {
        answer: end.answer,
        vars: values_of(runner.alloc, end.names.as_slice())?,
        state: end.state,
    })
}

/// A run of a block on a machine that power cuts: its variables and arguments begin with these values. Its only error is out of memory, after which
/// the bank may have more nodes.
fn cut_with<'a, W: SymStops, B: Book>(
    runner: &SymRunner<'a, W, B>,
    b: &'a Block,
    variables: &'a [Declared],
    vars: &SymValues,
    names: &'a [Declared],
    args: &SymValues,
    from: W::State,
    bank: &mut Bank,
) -> Result<StopEnd<W::State>, NoMemory>
    requires can { CanWhole (W.means runner.now.machine.now) runner.now.defs.now b.now bank.old
        (sym_bind variables.now vars.now ++ sym_bind names.now args.now) from }
    requires single { SingleFrom (W.power runner.now.machine.now).first bank.old }
    requires vars { length variables.now ≡ length vars.now }
    requires args { length names.now ≡ length args.now }
    ensures fall { IfOk result (λ end. IsFall (W.means runner.now.machine.now) (W.power runner.now.machine.now) runner.now.defs.now
        (B.kinds runner.now.book.now) b.now (sym_bind variables.now vars.now) (sym_bind names.now args.now) from bank.old end.fallen end.reached bank.new) }
    ensures grows { Extends bank.old bank.new }
    ensures bank { IsBank bank.new }
{
    // the bank's nodes stand in order
    let _ = bank.len();
    let bound = bound(runner.alloc, variables, vars, names, args)?;
    cut_short(runner, b, bound, from, bank)
}

/// The names that a block begins with. Its only error is out of memory.
fn bound<'a>(
    alloc: Global,
    variables: &'a [Declared],
    vars: &SymValues,
    names: &'a [Declared],
    args: &SymValues,
) -> Result<Vec<SymBinding<'a>>, NoMemory>
    requires vars { length variables.now ≡ length vars.now }
    requires args { length names.now ≡ length args.now }
    ensures { IfOk result (λ bound. env_of bound.items ≡ sym_bind variables.now vars.now ++ sym_bind names.now args.now) }
{
    let mut bound = Vec::new(alloc);
    bind(alloc, &mut bound, variables, vars.as_slice())?;
    bind(alloc, &mut bound, names, args.as_slice())?;
    Ok(bound)
}
