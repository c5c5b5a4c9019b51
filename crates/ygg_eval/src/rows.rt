//! The rows and tables that a disk keeps as values.

ghost use Rattle.std.specs.Prelude.{◌≡◌, [], ◌∷◌, IfOk, OnOk, Some, None};
ghost use Rattle.ygg_value.specs.Values.{word_in, row_in, part_of, with_part};
ghost use Rattle.ygg_eval.specs.ygg_disk.Disk as calls;
ghost use Rattle.ygg_eval.specs.Tables.{IsReadable, IsWritable, AreTables, AreWritable, Made, Cut, Lost};
ghost use Rattle.ygg_eval.specs.ygg_disk.declared.power.Power.{Power as PowerIs};

use crate::{Power, read_row};
use std::alloc::Global;
use ygg_base::{DiskKind, Geometry};
use ygg_list::NoMemory;
use ygg_value::{Value, copy_value, table_write};

/// The row of a table at an address; zeros past the end. Its only error is out of memory.
pub fn read(alloc: Global, geometry: Geometry, table: &Value, at: &Value) -> Result<Value, NoMemory>
    requires { IsReadable geometry table.now at.now }
    ensures { IfOk result (λ row. row ≡ part_of table.now (word_in at.now).bits) }
{
    match (table, at) {
        (Value::Table(table), Value::Word(at)) => {
            let row = read_row(alloc, geometry, table, *at)?;
            Ok(Value::Row(row))
        }
        _ => unreachable!(),
    }
}

/// Puts a row into a table at an address. Past the end nothing changes.
fn put(table: &mut Value, at: &Value, row: &Value)
    requires { IsWritable table.old at.now row.now }
    ensures { table.new ≡ with_part table.old ((word_in at.now).bits ∷ []) row.now }
{
    match (table, at, row) {
        (Value::Table(table), Value::Word(at), Value::Row(row)) => table_write(table, *at, row),
        _ => unreachable!(),
    }
}

/// Writes a row to the tables of a disk. An asynchronous disk takes a pick, which says whether the row is stable at once.
pub fn write(kind: DiskKind, tables: &mut [Value], at: &Value, row: &Value, power: &mut Power)
    requires { AreWritable kind tables.old at.now row.now }
    ensures { Made kind (calls.Write (word_in at.now).bits (row_in row.now)) None tables.old tables.new power.old power.new }
{
    match kind {
        DiskKind::Sync => put(&mut tables[0], at, row),
        DiskKind::Async => {
            let stable = power.picks.peek();
            power.picks.take();
            put(&mut tables[0], at, row);
            if stable {
                put(&mut tables[1], at, row);
            }
        }
    }
}

/// Power fails within a write: a pick says whether the row is written, to the stable rows of an asynchronous disk, which then loses what
/// isn't stable. Its only error is out of memory.
pub fn cut_write(
    alloc: Global,
    kind: DiskKind,
    tables: &mut [Value],
    at: &Value,
    row: &Value,
    power: &mut Power,
) -> Result<(), NoMemory>
    requires { AreWritable kind tables.old at.now row.now }
    ensures { OnOk result (Cut kind (calls.Write (word_in at.now).bits (row_in row.now)) tables.old tables.new power.old power.new) }
{
    let kept = power.picks.peek();
    power.picks.take();
    match kind {
        DiskKind::Sync => {
            if kept {
                put(&mut tables[0], at, row);
            }
            Ok(())
        }
        DiskKind::Async => {
            if kept {
                put(&mut tables[1], at, row);
            }
            tables[0] = copy_value(alloc, &tables[1])?;
            Ok(())
        }
    }
}

/// Makes all that was written stable. Its only error is out of memory, after which nothing is said of the tables.
pub fn settle(alloc: Global, kind: DiskKind, tables: &mut [Value]) -> Result<(), NoMemory>
    requires { AreTables kind tables.old }
    ensures { OnOk result ((power : PowerIs) → Made kind calls.Flush None tables.old tables.new power power) }
{
    match kind {
        DiskKind::Sync => Ok(()),
        DiskKind::Async => {
            tables[1] = copy_value(alloc, &tables[0])?;
            Ok(())
        }
    }
}

/// Power fails between calls: what isn't stable is lost. Its only error is out of memory, after which nothing is said of the tables.
pub fn lose_unstable(alloc: Global, kind: DiskKind, tables: &mut [Value]) -> Result<(), NoMemory>
    requires { AreTables kind tables.old }
    ensures { OnOk result (Lost kind tables.old tables.new) }
{
    match kind {
        DiskKind::Sync => Ok(()),
        DiskKind::Async => {
            tables[0] = copy_value(alloc, &tables[1])?;
            Ok(())
        }
    }
}
