//! Layer files that are fetched.

ghost use Rattle.std.specs.Prelude.{◌≡◌, ◌≤◌, length, IfOk, IfErr};
ghost use Rattle.ygg_base.specs.Failure.{IfRefused};
ghost use Rattle.ygg_base.specs.Outside.{Rose};
ghost use Rattle.ygg_accept.specs.Accepting.{RefusesLayers};
ghost use Rattle.ygg_top_command.specs.Fetched.{IsNoFile, StandsFile};
ghost use Rattle.ygg_top_command.specs.Refusing.{IsLayerFile, most_bytes};

use crate::fetching::{MOST_BYTES, fetched};
use crate::stopping::CommandStop;
use std::alloc::Global;
use ygg_accept::accept;
use ygg_base::{Library, Refuse, Text};
use ygg_type::Typed;

/// The layer file that the bytes are. They are refused 1 to 10 where they are no layer file without a fault.
pub fn file_of(alloc: Global, text: &[u8]) -> Result<Typed, Refuse>
    requires { length text.now ≤ most_bytes }
    ensures found { IfOk result (λ typed. IsLayerFile text.now typed.file) }
    ensures refused { IfErr result (λ refuse. IfRefused refuse (RefusesLayers text.now)) }
{
    match accept(alloc, text) {
        Ok(accepted) => Ok(accepted.typed),
        Err(refuse) => Err(refuse),
    }
}

/// The layer file that stands under the name, the first word after the command's; or why there is none: what stands there is refused 73 or 11 at `0:1`, or 1
/// to 10 where it is no layer file without a fault.
pub fn layer_file<L: Library>(
    alloc: Global,
    name: &Text,
    library: &mut L,
) -> Result<Typed, CommandStop>
    ensures found { IfOk result (λ typed. StandsFile (L.files library.old) name.now typed.file) }
    ensures none { IfErr result (IsNoFile (L.files library.old) name.now (Rose (L.faults library.old) (L.faults library.new))) }
    ensures kept { L.files library.new ≡ L.files library.old }
    ensures later { L.faults library.old ≤ L.faults library.new }
{
    let text = match fetched(name, MOST_BYTES, 1, library) {
        Ok(text) => text,
        Err(stop) => return Err(stop),
    };
    match file_of(alloc, text.as_slice()) {
        Ok(typed) => Ok(typed),
        Err(refuse) => Err(CommandStop::of(refuse)),
    }
}

/// Gives back the memory of a layer file, as leaving it at the end of a function does; but what that does is proved here alone, and not in each crate again.
pub fn close(typed: Typed) {
    drop(typed);
}
