//! Power that fails on a disk over terms.

ghost use Rattle.std.specs.Prelude.{◌≡◌, IfOk, OnOk, Some};
ghost use Rattle.ygg_base.specs.declared.geometry.DiskKind.TheVariants.{Sync, Async};
ghost use Rattle.ygg_sym_runs.specs.ygg_bank.Nodes.{Extends, IsBank, OneWidth};
ghost use Rattle.ygg_sym_runs.specs.ygg_meaning.Stack.{tables_of, tables_of_kind};
ghost use Rattle.ygg_sym_runs.specs.Cuts.{async_cuts, call_cuts, disk_loses, sync_cuts};
ghost use Rattle.ygg_sym_runs.specs.Disks.{Write, sym_call};
ghost use Rattle.ygg_sym_runs.specs.Lows.{LowShaped};
ghost use Rattle.ygg_sym_machine.specs.Asking.{CallStands, HasRow, asked_call};

use crate::asking::{Ask, ask_of, row_in};
use crate::machine::{one_table, twice};
use crate::tables::write_where;
use std::alloc::Global;
use ygg_base::DiskKind;
use ygg_sym_runs::{Bank, Book, Id, NoMemory, Node, SymRow, SymValue, SymValues};
use ygg_syntax::tree::DiskText;

/// What power loss leaves: of an asynchronous disk, what was stable. Its only error is out of memory.
pub fn lose(alloc: Global, disk: DiskText, tables: &SymValues) -> Result<SymValues, NoMemory>
    ensures { IfOk result (λ left. left ≡ disk_loses disk.kind tables.now) }
{
    match (disk.kind, tables.as_slice()) {
        (DiskKind::Async, [_, stable]) => twice(alloc, stable),
        _ => tables.copy(alloc),
    }
}

/// What power leaves that fails within a call, whose pick is the input of this number: a write is kept or not, and then an asynchronous disk loses
/// what isn't stable. Its only error is out of memory, after which the bank may have more nodes.
pub fn cut<B: Book>(
    alloc: Global,
    bank: &mut Bank,
    book: &B,
    disk: DiskText,
    number: u64,
    name: &[u8],
    args: &[SymValue],
    tables: &SymValues,
) -> Result<SymValues, NoMemory>
    requires call { CallStands disk bank.old (sym_call name.now args.now) }
    requires tables { LowShaped bank.old (tables_of disk) tables.now }
    requires pick { OneWidth bank.old number 1 }
    ensures nodes { OnOk result (bank.new ≡ (call_cuts (B.kinds book.now) disk.kind number (sym_call name.now args.now) tables.now bank.old).nodes) }
    ensures form { IfOk result (λ left. left ≡ (call_cuts (B.kinds book.now) disk.kind number (sym_call name.now args.now) tables.now bank.old).value) }
    ensures grows { Extends bank.old bank.new }
    ensures bank { IsBank bank.new }
{
    // the bank's nodes stand in order
    let _ = bank.len();
    match ask_of(name, args) {
        Ask::Nothing => tables.copy(alloc),
        Ask::Read(_) | Ask::Flush => lose(alloc, disk, tables),
        Ask::Write(at) => {
            let row = row_in(&args[1]);
            cut_write(alloc, bank, book, disk, number, at, row, tables)
        }
    }
}

/// What power leaves that fails within a write. Its only error is out of memory, after which the bank may have more nodes.
fn cut_write<B: Book>(
    alloc: Global,
    bank: &mut Bank,
    book: &B,
    disk: DiskText,
    number: u64,
    at: Id,
    row: &SymRow,
    tables: &SymValues,
) -> Result<SymValues, NoMemory>
    requires bank { IsBank bank.old }
    requires call { CallStands disk bank.old (Some (Write at row.now)) }
    requires tables { LowShaped bank.old (tables_of disk) tables.now }
    requires pick { OneWidth bank.old number 1 }
    ensures nodes { OnOk result (bank.new ≡ (call_cuts (B.kinds book.now) disk.kind number (Some (Write at row.now)) tables.now bank.old).nodes) }
    ensures form { IfOk result (λ left. left ≡ (call_cuts (B.kinds book.now) disk.kind number (Some (Write at row.now)) tables.now bank.old).value) }
    ensures grows { Extends bank.old bank.new }
    ensures bank { IsBank bank.new }
{
    let kept = bank.make(Node::Input { number, width: 1 }, book)?;
    match disk.kind {
        DiskKind::Sync => {
            let left = write_where(alloc, bank, book, disk, kept, at, row, tables.at(0))?;
            one_table(alloc, left)
        }
        DiskKind::Async => {
            let left = write_where(alloc, bank, book, disk, kept, at, row, tables.at(1))?;
            twice(alloc, &left)
        }
    }
}
