//! Whether values are those of a machine's variables.

ghost use Rattle.std.specs.Prelude.{◌≡◌, ◌↔◌, ◌≤◌, IsTrue, length};
ghost use Rattle.ygg_eval.specs.ygg_meaning.Shapes.{values_fit};
ghost use Rattle.ygg_eval.specs.ygg_meaning.Stack.{tables_of};
ghost use Rattle.ygg_eval.specs.Layers.{variables_at};

use crate::Typed;
use crate::shapes::{fits, values_fit};
use ygg_base::DiskKind;
use ygg_syntax::lists;
use ygg_syntax::tree::{DiskText, TypeText};
use ygg_value::{Value, Values};

/// Whether values are those of a disk's tables.
fn are_tables(disk: DiskText, values: &[Value]) -> bool
    ensures { result ≡ values_fit (tables_of disk) values.now }
{
    let table = TypeText::Table(disk.rows, disk.words, disk.width);
    match disk.kind {
        DiskKind::Sync => values.len() == 1 && fits(table, &values[0]),
        DiskKind::Async => {
            values.len() == 2 && fits(table, &values[0]) && fits(table, &values[1])
        }
    }
}

/// Whether the file has a machine of this number, the disk for 0 and else the layer of that place counted from 1, and the values
/// have the shapes of its tables or of its state variables, in order.
pub fn are_values_of(typed: &Typed, number: u32, values: &Values) -> bool
    ensures { IsTrue result ↔ ((number ≤ length typed.now.file.layers) × IsTrue (values_fit (variables_at typed.now.file number) values.now)) }
{
    let file = typed.file();
    if number == 0 {
        return are_tables(file.disk, values.as_slice());
    }
    match lists::layer::get(&file.layers, (number - 1) as usize) {
        Some(layer) => values_fit(lists::declared::as_slice(&layer.state), values.as_slice()),
        None => false,
    }
}
