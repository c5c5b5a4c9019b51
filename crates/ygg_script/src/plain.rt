//! Scripts as a run on a device takes them.

ghost use Rattle.std.specs.Prelude.{◌≡◌, ◌≤◌, length};
ghost use Rattle.ygg_script.specs.Plain.{plain_of};

use crate::command::Script;
use crate::flaw::ScriptFlaw;
use ygg_base::Refusal;

/// Refusal 41 at the first line of a script that is `lost`, `fail` or `keep`, column 1; none exactly where there is none. It takes no memory.
pub fn plain_script(script: &Script) -> Option<Refusal>
    requires { length script.now ≤ 4294967293 }
    ensures { result ≡ plain_of script.now }
{
    for (place, command) in script.as_slice().iter().enumerate() {
        if !command.is_plain() {
            return Some(ScriptFlaw::Line.at(place as u32 + 2));
        }
    }
    None
}
