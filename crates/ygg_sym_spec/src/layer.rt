//! The specification of a layer.

ghost use Rattle.std.specs.Prelude.{◌≡◌, ◌+◌, suc, OnOk, IfOk, IfNone};
ghost use Rattle.std.specs.Option.{option_copied};
ghost use Rattle.ygg_sym_runs.specs.ygg_meaning.Layer.{operation_in};

use ygg_syntax::tree::{Declared, Def, Layer, Operation};

/// A layer of a file with what its specification is told of: the file's definitions, and the variables of the machine below.
#[derive(Clone, Copy)]
pub struct SymLayer<'a> {
    /// The definitions of the file.
    pub defs: &'a [Def],
    /// The layer.
    pub layer: &'a Layer,
    /// The variables of what it is specified over.
    pub low: &'a [Declared],
}

/// The first operation of a name.
pub fn operation_of<'a>(operations: &'a [Operation], name: &[u8]) -> Option<&'a Operation>
    ensures { option_copied result ≡ operation_in operations.now name.now }
{
    for operation in operations {
        if operation.name.text.as_slice() == name {
            return Some(operation);
        }
    }
    None
}
