//! Which call is asked of a disk.

ghost use Rattle.std.specs.Prelude.{◌≡◌, ◌<◌, length};
ghost use Rattle.ygg_sym_runs.specs.Exprs.{id_in};
ghost use Rattle.ygg_sym_runs.specs.Putting.{row_in};
ghost use Rattle.ygg_sym_runs.specs.Disks.{sym_call};
ghost use Rattle.ygg_sym_machine.specs.Asking.{HasRow, asked_call};

use ygg_sym_runs::{Id, SymRow, SymValue};

/// What is asked of a disk, with the place.
#[derive(Clone, Copy, Drop)]
pub enum Ask {
    /// No call of a disk.
    Nothing,
    /// The row at a place.
    Read(Id),
    /// The row of the second argument is put at a place.
    Write(Id),
    /// All that was written is made stable.
    Flush,
}

/// The call that an operation of a disk is.
pub fn ask_of(name: &[u8], args: &[SymValue]) -> Ask
    ensures call { sym_call name.now args.now ≡ asked_call result args.now }
    ensures row { HasRow result args.now }
{
    match args {
        [] => {
            if name == b"flush".as_slice() {
                Ask::Flush
            } else {
                Ask::Nothing
            }
        }
        [at] => {
            if name == b"read".as_slice() {
                Ask::Read(id_in(at))
            } else {
                Ask::Nothing
            }
        }
        [at, _] => {
            if name == b"write".as_slice() {
                Ask::Write(id_in(at))
            } else {
                Ask::Nothing
            }
        }
        _ => Ask::Nothing,
    }
}

/// The term that a value is; a row or a table, which no typed file has there, counts as the first term.
pub fn id_in(value: &SymValue) -> Id
    ensures { result ≡ id_in value.now }
{
    match value {
        SymValue::Word(at) => *at,
        _ => Id(0),
    }
}

/// The row that a value is, which has words.
pub fn row_in(value: &SymValue) -> &SymRow
    requires { 0 < length (row_in value.now) }
    ensures { result.now ≡ row_in value.now }
{
    match value {
        SymValue::Row(row) => row,
        _ => unreachable!(),
    }
}
