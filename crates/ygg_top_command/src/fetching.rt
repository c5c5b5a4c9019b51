//! Texts that are fetched.

ghost use Rattle.std.specs.Prelude.{◌≡◌, ◌≤◌, length, Some, IfOk, IfErr};
ghost use Rattle.ygg_base.specs.Outside.{Rose};
ghost use Rattle.ygg_top_command.specs.Fetched.{IsUnread};
ghost use Rattle.ygg_top_command.specs.Standing.{Stands};

use crate::stopping::CommandStop;
use ygg_base::{Fetch, Library, Reason, Text};

/// The most bytes of a layer file, or of a schedule.
pub const MOST_BYTES: u64 = 1_048_576;

/// The text of at most so many bytes that stands under the name, the word at this place after the command's; or why none is fetched: it is refused 73 where
/// nothing stands there, and 11 where it has more bytes, both at `0:PLACE`.
pub fn fetched<L: Library>(
    name: &Text,
    most: u64,
    place: u32,
    library: &mut L,
) -> Result<Text, CommandStop>
    ensures found { IfOk result (λ text. (length text ≤ most) × Stands (L.files library.old) name.now (Some text)) }
    ensures unread { IfErr result (IsUnread most place (L.files library.old) name.now (Rose (L.faults library.old) (L.faults library.new))) }
    ensures kept { L.files library.new ≡ L.files library.old }
    ensures later { L.faults library.old ≤ L.faults library.new }
{
    match library.fetch(name, most) {
        Fetch::Found(text) => Ok(text),
        Fetch::Absent => Err(CommandStop::Refused(Reason::Absent.at(0, place))),
        Fetch::TooLarge => Err(CommandStop::Refused(Reason::TooLarge.at(0, place))),
        Fetch::Failed => Err(CommandStop::LibraryFailed),
        Fetch::Memory => Err(CommandStop::NoMemory),
    }
}
