//! Obligations of a file by their names.

ghost use Rattle.std.specs.Prelude.{MatchBool};
ghost use Rattle.ygg_top.specs.Printed.{IsNamed};

use ygg_sched::claim_named;
use ygg_syntax::tree::File;

/// Whether an obligation of the file has this name.
pub fn is_obligation(file: &File, name: &[u8]) -> bool
    ensures { MatchBool result (IsNamed file.now name.now) (IsNamed file.now name.now → ⊥) }
{
    claim_named(file, name).is_some()
}
