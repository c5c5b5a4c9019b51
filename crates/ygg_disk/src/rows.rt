//! Rows and tables of the size of a disk.

ghost use Rattle.std.specs.Prelude.{◌≡◌, replicate, length, IfOk};
ghost use Rattle.ygg_value.specs.Shapes.{IsShape};
ghost use Rattle.ygg_value.specs.Values.{table_read};
ghost use Rattle.ygg_disk.specs.Size.{table_shape, zeros_of, HasSize, IsRowOf};

use std::alloc::Global;
use ygg_base::Geometry;
use ygg_list::NoMemory;
use ygg_value::{Row, Table, Word, table_read, table_write};

/// A row of zeros of the disk's size. Its only error is out of memory.
pub fn zero_row(alloc: Global, geometry: Geometry) -> Result<Row, NoMemory>
    requires { IsShape (table_shape geometry) }
    ensures { IfOk result (λ row. row ≡ record { width = geometry.width; words = replicate geometry.words 0 }) }
{
    ygg_value::zero_row(alloc, geometry.words, geometry.width)
}

/// A table of zeros of the disk's size. Its only error is out of memory.
pub fn zero_table(alloc: Global, geometry: Geometry) -> Result<Table, NoMemory>
    requires { IsShape (table_shape geometry) }
    ensures zeros { IfOk result (λ table. table ≡ zeros_of geometry) }
    ensures size { IfOk result (λ table. HasSize geometry table) }
{
    ygg_value::zero_table(alloc, geometry.rows, geometry.words, geometry.width)
}

/// The row at a place of a table, counted from 0; zeros past the end. Its only error is out of memory.
pub fn read_row(alloc: Global, geometry: Geometry, table: &Table, at: Word) -> Result<Row, NoMemory>
    requires { HasSize geometry table.now }
    ensures value { IfOk result (λ row. row ≡ table_read table.now at.bits) }
    ensures shape { IfOk result (λ row. IsRowOf table.now row) }
{
    let mut row = zero_row(alloc, geometry)?;
    table_read(table, at, &mut row);
    Ok(row)
}

/// Makes all rows of a table equal to those of another, by way of a row to spare.
pub fn copy_rows(geometry: Geometry, from: &Table, into: &mut Table, spare: &mut Row)
    requires from { HasSize geometry from.now }
    requires into { HasSize geometry into.old }
    requires spare { IsRowOf into.old spare.old }
    ensures same { into.new ≡ from.now }
    ensures spare { IsRowOf into.new spare.new }
{
    for place in 0..geometry.rows {
        let at = Word {
            width: 16,
            bits: place as u64,
        };
        table_read(from, at, spare);
        table_write(into, at, spare);
    }
}
