//! The layer file that `demo` makes for a number.

ghost use Rattle.std.specs.Prelude.{◌≡◌, ◌≤◌, IfOk, IfErr};
ghost use Rattle.ygg_top.specs.ygg_top_command.Words.{IsNumber};
ghost use Rattle.ygg_top.specs.Verifying.{IsMadeFor, IsNumberless, most_operations};

use std::alloc::Global;
use ygg_base::Reason;
use ygg_top_command::{CommandStop, file_of, number_up_to};
use ygg_type::Typed;
use ygg_yard::law::made_is_sound;
use ygg_yard::make;

/// The most operations of a file that `demo` makes.
const MOST_OPERATIONS: u32 = 64;

/// The number of operations that a word is: one from 1 to 64 in decimal digits, without a sign or a leading zero. Another word, the first after the
/// command's, is refused 72 at `0:1`.
pub fn operations(alloc: Global, word: &[u8]) -> Result<u32, CommandStop>
    ensures found { IfOk result (IsNumber most_operations word.now) }
    ensures none { IfErr result (IsNumberless word.now) }
{
    match number_up_to(alloc, word, MOST_OPERATIONS) {
        Ok(Some(number)) => Ok(number),
        Ok(None) => Err(CommandStop::Refused(Reason::Number.at(0, 1))),
        Err(_) => Err(CommandStop::NoMemory),
    }
}

/// The layer file that is made for a number of operations, whose text is never refused. Its only error is out of memory.
pub fn made_file(alloc: Global, number: u32) -> Result<Typed, CommandStop>
    requires some { 1 ≤ number }
    requires few { number ≤ most_operations }
    ensures found { IfOk result (λ typed. IsMadeFor number typed.file) }
    ensures none { IfErr result (λ stop. stop ≡ CommandStop.NoMemory) }
{
    made_is_sound();
    let Ok(text) = make(alloc, number) else {
        return Err(CommandStop::NoMemory);
    };
    match file_of(alloc, text.as_slice()) {
        Ok(typed) => Ok(typed),
        Err(refuse) => Err(CommandStop::of(refuse)),
    }
}
