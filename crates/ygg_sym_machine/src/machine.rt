//! Calls on a disk over terms.

ghost use Rattle.std.specs.Prelude.{◌≡◌, ℕ, IfOk, OnOk, [], ◌∷◌};
ghost use Rattle.ygg_base.specs.declared.geometry.DiskKind.TheVariants.{Sync, Async};
ghost use Rattle.ygg_sym_runs.specs.ygg_bank.Nodes.{Extends, IsBank, OneWidth};
ghost use Rattle.ygg_sym_runs.specs.ygg_meaning.Stack.{tables_of, tables_of_kind};
ghost use Rattle.ygg_sym_runs.specs.Disks.{Write, async_does, disk_asked, done, sym_call};
ghost use Rattle.ygg_sym_runs.specs.Lows.{LowShaped};
ghost use Rattle.ygg_sym_machine.specs.Asking.{CallStands, HasRow, asked_call};

use crate::asking::{Ask, ask_of, row_in};
use crate::tables::{read, write, write_where};
use std::alloc::Global;
use ygg_base::DiskKind;
use ygg_list::Duplicate;
use ygg_sym_runs::{Bank, Book, Id, NoMemory, Node, SymRow, SymValue, SymValues};
use ygg_syntax::tree::DiskText;

/// What a disk does with a call, whose pick is the input of this number: the answer. Its only error is out of memory, after which the bank may have
/// more nodes and nothing is said of the tables.
pub fn handle<B: Book>(
    alloc: Global,
    bank: &mut Bank,
    book: &B,
    disk: DiskText,
    number: u64,
    name: &[u8],
    args: &[SymValue],
    tables: &mut SymValues,
) -> Result<Option<SymValue>, NoMemory>
    requires call { CallStands disk bank.old (sym_call name.now args.now) }
    requires tables { LowShaped bank.old (tables_of disk) tables.old }
    requires pick { OneWidth bank.old number 1 }
    ensures nodes { OnOk result (bank.new ≡ (disk_asked (B.kinds book.now) disk.kind number (sym_call name.now args.now) tables.old bank.old).nodes) }
    ensures form { IfOk result (λ answer. done answer tables.new ≡ (disk_asked (B.kinds book.now) disk.kind number (sym_call name.now args.now)
        tables.old bank.old).value) }
    ensures grows { Extends bank.old bank.new }
    ensures bank { IsBank bank.new }
{
    // the bank's nodes stand in order
    let _ = bank.len();
    let ask = ask_of(name, args);
    match disk.kind {
        DiskKind::Sync => do_sync(alloc, bank, book, disk, ask, args, tables),
        DiskKind::Async => do_async(alloc, bank, book, disk, number, ask, args, tables),
    }
}

/// A call on a synchronous disk, which has one table.
/// Its only error is out of memory, after which the bank may have more nodes.
fn do_sync<B: Book>(
    alloc: Global,
    bank: &mut Bank,
    book: &B,
    disk: DiskText,
    ask: Ask,
    args: &[SymValue],
    tables: &mut SymValues,
) -> Result<Option<SymValue>, NoMemory>
    requires bank { IsBank bank.old }
    requires row { HasRow ask args.now }
    requires call { CallStands disk bank.old (asked_call ask args.now) }
    requires tables { LowShaped bank.old (tables_of_kind Sync disk) tables.old }
    ensures nodes { (number : ℕ) → OnOk result (bank.new ≡ (disk_asked (B.kinds book.now) Sync number (asked_call ask args.now) tables.old bank.old).nodes) }
    ensures form { (number : ℕ) →
        IfOk result (λ answer. done answer tables.new ≡ (disk_asked (B.kinds book.now) Sync number (asked_call ask args.now) tables.old bank.old).value) }
    ensures grows { Extends bank.old bank.new }
    ensures bank { IsBank bank.new }
{
    match ask {
        Ask::Nothing | Ask::Flush => Ok(None),
        Ask::Read(at) => {
            let row = read(alloc, bank, book, disk, at, tables.at(0))?;
            Ok(Some(SymValue::Row(row)))
        }
        Ask::Write(at) => {
            let row = row_in(&args[1]);
            let new = write(alloc, bank, book, disk, at, row, tables.at(0))?;
            *tables = one_table(alloc, new)?;
            Ok(None)
        }
    }
}

/// A call on an asynchronous disk: what reads see, and what power loss leaves.
/// Its only error is out of memory, after which the bank may have more nodes.
fn do_async<B: Book>(
    alloc: Global,
    bank: &mut Bank,
    book: &B,
    disk: DiskText,
    number: u64,
    ask: Ask,
    args: &[SymValue],
    tables: &mut SymValues,
) -> Result<Option<SymValue>, NoMemory>
    requires bank { IsBank bank.old }
    requires row { HasRow ask args.now }
    requires call { CallStands disk bank.old (asked_call ask args.now) }
    requires tables { LowShaped bank.old (tables_of_kind Async disk) tables.old }
    requires pick { OneWidth bank.old number 1 }
    ensures nodes { OnOk result (bank.new ≡ (disk_asked (B.kinds book.now) Async number (asked_call ask args.now) tables.old bank.old).nodes) }
    ensures form { IfOk result (λ answer. done answer tables.new ≡ (disk_asked (B.kinds book.now) Async number (asked_call ask args.now)
        tables.old bank.old).value) }
    ensures grows { Extends bank.old bank.new }
    ensures bank { IsBank bank.new }
{
    match ask {
        Ask::Nothing => Ok(None),
        Ask::Read(at) => {
            let row = read(alloc, bank, book, disk, at, tables.at(0))?;
            Ok(Some(SymValue::Row(row)))
        }
        Ask::Write(at) => {
            let row = row_in(&args[1]);
            *tables = write_async(alloc, bank, book, disk, number, at, row, tables)?;
            Ok(None)
        }
        Ask::Flush => {
            *tables = twice(alloc, tables.at(0))?;
            Ok(None)
        }
    }
}

/// The tables after a write on an asynchronous disk: a pick says whether the row is stable at once.
/// Its only error is out of memory, after which the bank may have more nodes.
fn write_async<B: Book>(
    alloc: Global,
    bank: &mut Bank,
    book: &B,
    disk: DiskText,
    number: u64,
    at: Id,
    row: &SymRow,
    tables: &SymValues,
) -> Result<SymValues, NoMemory>
    requires bank { IsBank bank.old }
    requires call { CallStands disk bank.old (Some (Write at row.now)) }
    requires tables { LowShaped bank.old (tables_of_kind Async disk) tables.now }
    requires pick { OneWidth bank.old number 1 }
    ensures nodes { OnOk result (bank.new ≡ (async_does (B.kinds book.now) number (Write at row.now) tables.now bank.old).nodes) }
    ensures form { IfOk result (λ new. done None new ≡ (async_does (B.kinds book.now) number (Write at row.now) tables.now bank.old).value) }
    ensures grows { Extends bank.old bank.new }
    ensures bank { IsBank bank.new }
{
    let kept = bank.make(Node::Input { number, width: 1 }, book)?;
    let seen = write(alloc, bank, book, disk, at, row, tables.at(0))?;
    let left = write_where(alloc, bank, book, disk, kept, at, row, tables.at(1))?;
    two_tables(alloc, seen, left)
}

/// One table. Its only error is out of memory.
pub fn one_table(alloc: Global, table: SymValue) -> Result<SymValues, NoMemory>
    ensures { IfOk result (λ tables. tables ≡ table ∷ []) }
{
    let mut tables = SymValues::new(alloc);
    tables.push(table)?;
    Ok(tables)
}

/// Two tables. Its only error is out of memory.
pub fn two_tables(alloc: Global, view: SymValue, stable: SymValue) -> Result<SymValues, NoMemory>
    ensures { IfOk result (λ tables. tables ≡ view ∷ stable ∷ []) }
{
    let mut tables = SymValues::new(alloc);
    tables.push(view)?;
    tables.push(stable)?;
    Ok(tables)
}

/// A table as both tables. Its only error is out of memory.
pub fn twice(alloc: Global, table: &SymValue) -> Result<SymValues, NoMemory>
    ensures { IfOk result (λ tables. tables ≡ table.now ∷ table.now ∷ []) }
{
    two_tables(alloc, table.duplicate(alloc)?, table.duplicate(alloc)?)
}
