//! Values: words of 1 to 64 binary digits, rows of words and tables of rows, and the operations on them.
#![tactic(auto)]

pub mod law;
pub mod operation;
pub mod row;
pub mod shape;
pub mod word;

pub use operation::Op;
pub use row::{
    Row, Table, Value, Values, copy_value, row_read, row_write, same, shape_of, table_read,
    table_write, zero, zero_row, zero_table,
};
pub use shape::Shape;
pub use word::{Word, apply, not, resize};

/// No memory was left.
pub use ygg_list::NoMemory as NoRoom;
