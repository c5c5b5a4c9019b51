//! Blocks of a specification over terms.

ghost use Rattle.std.specs.Prelude.{◌≡◌, ◌++◌, [], IfOk, OnOk, length};
ghost use Rattle.ygg_sym_runs.specs.ygg_bank.Nodes.{Extends, IsBank};
ghost use Rattle.ygg_sym_runs.specs.Names.{sym_bind};
ghost use Rattle.ygg_sym_runs.specs.Seen.{env_of};
ghost use Rattle.ygg_sym_runs.specs.Lower.{Counts, KeepsSingle};
ghost use Rattle.ygg_sym_runs.specs.Disks.{done};
ghost use Rattle.ygg_sym_runs.specs.Lows.{LowShaped};
ghost use Rattle.ygg_sym_runs.specs.SpecCuts.{choice_room};
ghost use Rattle.ygg_sym_runs.specs.Means.{values_in};
ghost use Rattle.ygg_sym_runs.specs.Typed.{SpecBlockTyped};
ghost use Rattle.ygg_sym_spec.specs.Layers.{CanBlock, block_of, closed, crash_of, then_crash_of};

use crate::chooser::{Nothing, SymChooser};
use crate::layer::SymLayer;
use crate::picks::SymPicks;
use std::alloc::Global;
use ygg_list::Duplicate;
use ygg_sym_runs::{Bank, Book, NoMemory, SymBinding, SymRunner, SymValue, SymValues, room, whole};
use ygg_syntax::lists;
use ygg_syntax::tree::{Block, Declared};

/// What a block of a specification leaves.
#[derive(Drop)]
pub struct SpecDone {
    /// Its answer, if it returns one.
    pub answer: Option<SymValue>,
    /// The variables.
    pub vars: SymValues,
}

/// How many choices a block makes at most, where that is below 2^64.
pub fn choices(b: &Block) -> Option<u64>
    ensures { Counts (choice_room b.now) result }
{
    // each call has one place, whatever the picks are
    let machine = SymChooser {
        picks: SymPicks::Given(&[], 0),
    };
    room(&machine, b)
}

/// A whole run of a block of the specification over its variables, each choice taking the pick of its place. Its only error is out of memory, after
/// which the bank may have more nodes.
pub fn block<'a, B: Book>(
    alloc: Global,
    bank: &mut Bank,
    book: &B,
    layer: SymLayer<'a>,
    picks: SymPicks<'_>,
    b: &'a Block,
    vars: &SymValues,
    args: &'a [Declared],
    values: &[SymValue],
) -> Result<SpecDone, NoMemory>
    requires can { CanBlock layer picks bank.old b.now vars.now args.now values.now }
    ensures nodes { OnOk result (bank.new ≡ (block_of (B.kinds book.now) layer.entry picks.entry b.now vars.now args.now values.now bank.old).nodes) }
    ensures form { IfOk result (λ d. done d.answer d.vars
        ≡ (block_of (B.kinds book.now) layer.entry picks.entry b.now vars.now args.now values.now bank.old).value) }
    ensures shape { IfOk result (λ d. LowShaped bank.new (layer.entry.layer.now).state d.vars) }
    ensures grows { Extends bank.old bank.new }
    ensures single { OnOk result (KeepsSingle bank.old bank.new) }
    ensures bank { IsBank bank.new }
{
    // the bank's nodes stand in order
    let _ = bank.len();
    let mut names = Vec::new(alloc);
    bind(
        alloc,
        &mut names,
        lists::declared::as_slice(&layer.layer.state),
        vars.as_slice(),
    )?;
    let count = vars.len();
    bind(alloc, &mut names, args, values)?;
    let machine = SymChooser { picks };
    let runner = SymRunner {
        alloc,
        defs: layer.defs,
        machine: &machine,
        book,
    };
    let end = whole(&runner, b, names, count, Nothing, bank)?;
    Ok(SpecDone {
        answer: end.answer,
        vars: values_of(alloc, end.names.as_slice())?,
    })
}

/// Puts declared names with values after others. Its only error is out of memory.
pub fn bind<'a>(
    alloc: Global,
    names: &mut Vec<SymBinding<'a>>,
    declared: &'a [Declared],
    values: &[SymValue],
) -> Result<(), NoMemory>
    requires { length declared.now ≡ length values.now }
    ensures { OnOk result (env_of names.new.items ≡ env_of names.old.items ++ sym_bind declared.now values.now) }
{
    for place in 0..declared.len() {
        let value = values[place].duplicate(alloc)?;
        let name = declared[place].name.text.as_slice();
        names.push(SymBinding { name, value })?;
    }
    Ok(())
}

/// The values of names, in order. Its only error is out of memory.
pub fn values_of(alloc: Global, names: &[SymBinding<'_>]) -> Result<SymValues, NoMemory>
    ensures { IfOk result (λ values. values ≡ values_in (env_of names.now)) }
{
    let mut values = SymValues::new(alloc);
    for binding in names {
        values.push(binding.value.duplicate(alloc)?)?;
    }
    Ok(values)
}

/// What the `crash` block leaves. Its only error is out of memory, after which the bank may have more nodes.
pub fn crash<B: Book>(
    alloc: Global,
    bank: &mut Bank,
    book: &B,
    layer: SymLayer<'_>,
    picks: SymPicks<'_>,
    vars: &SymValues,
) -> Result<SymValues, NoMemory>
    requires can { CanBlock layer picks bank.old (layer.layer.now).crash vars.now [] [] }
    ensures nodes { OnOk result (bank.new ≡ (crash_of (B.kinds book.now) layer.entry picks.entry vars.now bank.old).nodes) }
    ensures form { IfOk result (λ left. left ≡ (crash_of (B.kinds book.now) layer.entry picks.entry vars.now bank.old).value) }
    ensures shape { IfOk result (LowShaped bank.new (layer.entry.layer.now).state) }
    ensures grows { Extends bank.old bank.new }
    ensures single { OnOk result (KeepsSingle bank.old bank.new) }
    ensures bank { IsBank bank.new }
{
    let done = block(
        alloc,
        bank,
        book,
        layer,
        picks,
        &layer.layer.crash,
        vars,
        &[],
        &[],
    )?;
    Ok(done.vars)
}

/// What a block leaves and then the `crash` block, whose choices come after its own. Its only error is out of memory, after which the bank may
/// have more nodes.
pub fn then_crash<'a, B: Book>(
    alloc: Global,
    bank: &mut Bank,
    book: &B,
    layer: SymLayer<'a>,
    picks: SymPicks<'_>,
    b: &'a Block,
    vars: &SymValues,
    args: &'a [Declared],
    values: &[SymValue],
) -> Result<SymValues, NoMemory>
    requires can { CanBlock layer picks bank.old b.now vars.now args.now values.now }
    requires crash { SpecBlockTyped (layer.defs.now) (closed layer) (layer.layer.now).crash [] }
    ensures nodes { OnOk result (bank.new ≡ (then_crash_of (B.kinds book.now) layer.entry picks.entry b.now vars.now args.now values.now bank.old).nodes) }
    ensures form { IfOk result (λ left. left
        ≡ (then_crash_of (B.kinds book.now) layer.entry picks.entry b.now vars.now args.now values.now bank.old).value) }
    ensures shape { IfOk result (LowShaped bank.new (layer.entry.layer.now).state) }
    ensures grows { Extends bank.old bank.new }
    ensures single { OnOk result (KeepsSingle bank.old bank.new) }
    ensures bank { IsBank bank.new }
{
    let done = block(alloc, bank, book, layer, picks, b, vars, args, values)?;
    let Some(count) = choices(b) else {
        return Err(NoMemory);
    };
    let later = picks.after(count)?;
    crash(alloc, bank, book, layer, later, &done.vars)
}
