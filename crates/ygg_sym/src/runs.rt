//! Runs of a layer's blocks on what the layer is specified over.

ghost use Rattle.std.specs.Prelude.{◌≡◌, ◌≤◌, IfOk, OnOk};
ghost use Rattle.ygg_sym_spec.specs.ygg_bank.Nodes.{Extends, HasWidth, IsBank};
ghost use Rattle.ygg_sym_machine.specs.ygg_sym_runs.Lows.{LowShaped};
ghost use Rattle.ygg_sym_spec.specs.ygg_sym_runs.Lower.{KeepsSingle, SingleFrom};
ghost use Rattle.ygg_sym_machine.specs.ygg_sym_runs.Below.{lost_made, lows_at_start};
ghost use Rattle.ygg_sym.specs.Layers.{terms_in};
ghost use Rattle.ygg_sym.specs.Sites.{below_in, BelowFits};
ghost use Rattle.ygg_sym.specs.Running.{CanRunBlock, CutIs, EndIs, EndStands, cut_of, run_of};

use crate::running::{cut_on_disk, cut_on_spec, run_on_disk, run_on_spec};
use std::alloc::Global;
use ygg_sym_machine::lose;
use ygg_sym_spec::{
    Bank, Book, Id, NoMemory, SymBelow, SymLayer, SymPicks, SymValue, SymValues, crash, start,
    zeros,
};
use ygg_syntax::tree::{Block, Declared};

/// What a whole run leaves.
#[derive(Drop)]
pub struct SymEnd {
    /// The answer, if the block returns one.
    pub answer: Option<SymValue>,
    /// The memory.
    pub memory: SymValues,
    /// The state below.
    pub low: SymValues,
}

/// What power leaves of a run.
#[derive(Drop)]
pub struct SymCut {
    /// The state below.
    pub fallen: SymValues,
    /// Whether the run comes to a stop that is set.
    pub reached: Id,
}

/// A block of a layer, and what it is run on: the file's definitions and the layer, what the layer is specified over, and the names of the
/// block's arguments.
#[derive(Clone, Copy)]
pub struct SymBlock<'a> {
    /// The layer.
    pub layer: SymLayer<'a>,
    /// What it is specified over.
    pub below: SymBelow<'a>,
    /// The block.
    pub block: &'a Block,
    /// The names of its arguments.
    pub names: &'a [Declared],
}

/// A whole run of a block over a memory, arguments and a state below; its picks are inputs numbered on from a number. Its only error is out of
/// memory, after which the bank may have more nodes.
pub fn run<B: Book>(
    alloc: Global,
    bank: &mut Bank,
    book: &B,
    at: SymBlock<'_>,
    first: u64,
    memory: &SymValues,
    args: &SymValues,
    low: &SymValues,
) -> Result<SymEnd, NoMemory>
    requires can { CanRunBlock at bank.old memory.now args.now low.now }
    requires single { SingleFrom first bank.old }
    ensures nodes { OnOk result (bank.new ≡ (run_of (B.kinds book.now) at.entry first memory.now args.now low.now bank.old).nodes) }
    ensures end { IfOk result (EndIs (run_of (B.kinds book.now) at.entry first memory.now args.now low.now bank.old).value) }
    ensures stands { IfOk result (EndStands at.entry bank.new) }
    ensures grows { Extends bank.old bank.new }
    ensures single { OnOk result (KeepsSingle bank.old bank.new) }
    ensures bank { IsBank bank.new }
{
    // the bank's nodes stand in order
    let _ = bank.len();
    match at.below {
        SymBelow::Disk(disk) => run_on_disk(alloc, bank, book, at, disk, first, memory, args, low),
        SymBelow::Layer(layer) => run_on_spec(
            alloc, bank, book, at, layer, first, memory, args, low,
        ),
    }
}

/// A run of a block that power cuts; its picks are inputs numbered on from a number, its stops from another, and the failure's picks from a third.
/// Its only error is out of memory, after which the bank may have more nodes.
pub fn cut<B: Book>(
    alloc: Global,
    bank: &mut Bank,
    book: &B,
    at: SymBlock<'_>,
    first: u64,
    stop: u64,
    last: u64,
    memory: &SymValues,
    args: &SymValues,
    low: &SymValues,
) -> Result<SymCut, NoMemory>
    requires can { CanRunBlock at bank.old memory.now args.now low.now }
    requires single { SingleFrom first bank.old }
    requires stop { first ≤ stop }
    requires last { first ≤ last }
    ensures nodes { OnOk result (bank.new ≡ (cut_of (B.kinds book.now) at.entry first stop last memory.now args.now low.now bank.old).nodes) }
    ensures end { IfOk result (CutIs (cut_of (B.kinds book.now) at.entry first stop last memory.now args.now low.now bank.old).value) }
    ensures shape { IfOk result (λ c. LowShaped bank.new at.entry.layer.low.now c.fallen) }
    ensures width { IfOk result (λ c. HasWidth bank.new c.reached 1) }
    ensures grows { Extends bank.old bank.new }
    ensures single { OnOk result (KeepsSingle bank.old bank.new) }
    ensures bank { IsBank bank.new }
{
    // the bank's nodes stand in order
    let _ = bank.len();
    match at.below {
        SymBelow::Disk(disk) => cut_on_disk(
            alloc, bank, book, at, disk, first, stop, last, memory, args, low,
        ),
        SymBelow::Layer(layer) => cut_on_spec(
            alloc, bank, book, at, layer, first, stop, last, memory, args, low,
        ),
    }
}

/// What power loss between operations leaves; its picks are inputs numbered on from a number. Its only error is out of memory, after which the
/// bank may have more nodes.
pub fn lost<B: Book>(
    alloc: Global,
    bank: &mut Bank,
    book: &B,
    layer: SymLayer<'_>,
    below: SymBelow<'_>,
    last: u64,
    low: &SymValues,
) -> Result<SymValues, NoMemory>
    requires below { BelowFits layer below }
    requires low { LowShaped bank.old layer.low.now low.now }
    requires single { SingleFrom last bank.old }
    ensures nodes { OnOk result (bank.new ≡ (lost_made (B.kinds book.now) (terms_in (B.kinds book.now) layer.entry) (below_in below.entry) last low.now
        bank.old).nodes) }
    ensures form { IfOk result (λ xs. xs ≡ (lost_made (B.kinds book.now) (terms_in (B.kinds book.now) layer.entry) (below_in below.entry) last low.now
        bank.old).value) }
    ensures shape { IfOk result (LowShaped bank.new layer.entry.low.now) }
    ensures grows { Extends bank.old bank.new }
    ensures single { OnOk result (KeepsSingle bank.old bank.new) }
    ensures bank { IsBank bank.new }
{
    // the bank's nodes stand in order
    let _ = bank.len();
    match below {
        SymBelow::Disk(disk) => lose(alloc, disk, low),
        SymBelow::Layer(spec) => crash(alloc, bank, book, spec, SymPicks::Inputs(last), low),
    }
}

/// The state below at its start. Inputs of the bank from the given number on are single digits. Its only error is out of memory, after which the
/// bank may have more nodes.
pub fn low_at_start<B: Book>(
    alloc: Global,
    bank: &mut Bank,
    book: &B,
    layer: SymLayer<'_>,
    below: SymBelow<'_>,
    first: u64,
) -> Result<SymValues, NoMemory>
    requires below { BelowFits layer below }
    requires single { SingleFrom first bank.old }
    ensures nodes { OnOk result (bank.new ≡ (lows_at_start (B.kinds book.now) (terms_in (B.kinds book.now) layer.entry) (below_in below.entry)
        bank.old).nodes) }
    ensures form { IfOk result (λ xs. xs ≡ (lows_at_start (B.kinds book.now) (terms_in (B.kinds book.now) layer.entry) (below_in below.entry)
        bank.old).value) }
    ensures shape { IfOk result (LowShaped bank.new layer.entry.low.now) }
    ensures grows { Extends bank.old bank.new }
    ensures single { OnOk result (KeepsSingle bank.old bank.new) }
    ensures bank { IsBank bank.new }
{
    // the bank's nodes stand in order
    let _ = bank.len();
    match below {
        SymBelow::Disk(_) => zeros(alloc, bank, book, layer.low),
        SymBelow::Layer(spec) => start(alloc, bank, book, spec, first),
    }
}
