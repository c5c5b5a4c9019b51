//! One table of a disk over terms.

ghost use Rattle.std.specs.Prelude.{◌≡◌, IfOk, List, OnOk, Some};
ghost use Rattle.ygg_sym_runs.specs.ygg_bank.Nodes.{Extends, HasWidth, IsBank, Stands};
ghost use Rattle.ygg_sym_runs.specs.ygg_shape_cells.declared.terms.SymValue.{SymValue as ValueIs};
ghost use Rattle.ygg_sym_runs.specs.Disks.{done, reads, writes, writes_where};
ghost use Rattle.ygg_sym_machine.specs.Asking.{IsDiskRow, IsDiskTable};

use std::alloc::Global;
use ygg_sym_runs::{Bank, Book, Id, NoMemory, SymRow, SymValue, select, store, store_where};
use ygg_syntax::tree::DiskText;

/// The row that a table has at a place. Its only error is out of memory, after which the bank may have more nodes.
pub fn read<B: Book>(
    alloc: Global,
    bank: &mut Bank,
    book: &B,
    disk: DiskText,
    at: Id,
    view: &SymValue,
) -> Result<SymRow, NoMemory>
    requires table { IsDiskTable disk bank.old view.now }
    requires at { Stands bank.old at }
    ensures nodes { OnOk result ((tables : List ValueIs) → bank.new ≡ (reads (B.kinds book.now) at view.now tables bank.old).nodes) }
    ensures form { IfOk result (λ row. (tables : List ValueIs) →
        done (Some (SymValue.Row row)) tables ≡ (reads (B.kinds book.now) at view.now tables bank.old).value) }
    ensures grows { Extends bank.old bank.new }
    ensures bank { IsBank bank.new }
{
    match view {
        SymValue::Table(table) => select(alloc, bank, book, table, at),
        _ => unreachable!(),
    }
}

/// The table with a row written at a place. Its only error is out of memory, after which the bank may have more nodes.
pub fn write<B: Book>(
    alloc: Global,
    bank: &mut Bank,
    book: &B,
    disk: DiskText,
    at: Id,
    row: &SymRow,
    view: &SymValue,
) -> Result<SymValue, NoMemory>
    requires table { IsDiskTable disk bank.old view.now }
    requires at { Stands bank.old at }
    requires row { IsDiskRow disk bank.old row.now }
    ensures nodes { OnOk result (bank.new ≡ (writes (B.kinds book.now) at row.now view.now bank.old).nodes) }
    ensures form { IfOk result (λ new. new ≡ (writes (B.kinds book.now) at row.now view.now bank.old).value) }
    ensures grows { Extends bank.old bank.new }
    ensures bank { IsBank bank.new }
{
    match view {
        SymValue::Table(table) => {
            let new = store(alloc, bank, book, table, at, row)?;
            Ok(SymValue::Table(new))
        }
        _ => unreachable!(),
    }
}

/// The table with a row written at a place where a test is 1. Its only error is out of memory, after which the bank may have more nodes.
pub fn write_where<B: Book>(
    alloc: Global,
    bank: &mut Bank,
    book: &B,
    disk: DiskText,
    test: Id,
    at: Id,
    row: &SymRow,
    view: &SymValue,
) -> Result<SymValue, NoMemory>
    requires test { HasWidth bank.old test 1 }
    requires table { IsDiskTable disk bank.old view.now }
    requires at { Stands bank.old at }
    requires row { IsDiskRow disk bank.old row.now }
    ensures nodes { OnOk result (bank.new ≡ (writes_where (B.kinds book.now) test at row.now view.now bank.old).nodes) }
    ensures form { IfOk result (λ new. new ≡ (writes_where (B.kinds book.now) test at row.now view.now bank.old).value) }
    ensures grows { Extends bank.old bank.new }
    ensures bank { IsBank bank.new }
{
    match view {
        SymValue::Table(table) => {
            let new = store_where(alloc, bank, book, test, table, at, row)?;
            Ok(SymValue::Table(new))
        }
        _ => unreachable!(),
    }
}
