//! Numbers in decimal digits, and stops.

ghost use Rattle.std.specs.Prelude.{◌≡◌, ◌++◌, OnOk};
ghost use Rattle.std.specs.List.{list_all};
ghost use Rattle.ygg_base.specs.Lexing.{is_digit};
ghost use Rattle.ygg_sched.specs.Numbers.{decimal_in, stop_in};
ghost use Rattle.ygg_sched.specs.Printing.{stop_lines};

use crate::schedule::Halt;
use crate::words::after_front;
use std::alloc::Global;
use ygg_base::{NoMemory, Text};
use ygg_lex::number_of;

/// Whether all bytes are decimal digits.
fn are_digits(bytes: &[u8]) -> bool
    ensures { result ≡ list_all is_digit bytes.now }
{
    bytes.iter().all(|byte| byte.is_ascii_digit())
}

/// The number below 2 ^ 64 that decimal digits without a leading zero give.
pub fn decimal_in(bytes: &[u8]) -> Option<u64>
    ensures { result ≡ decimal_in bytes.now }
{
    if bytes.is_empty() || !are_digits(bytes) {
        return None;
    }
    number_of(bytes)
}

/// The stop that a line says.
pub fn stop_in(line: &[u8]) -> Option<Halt>
    ensures { result ≡ stop_in line.now }
{
    if let Some(number) = after_front(line, b"stop before ") {
        return match decimal_in(number) {
            Some(event) => Some(Halt {
                within: false,
                event,
            }),
            None => None,
        };
    }
    let event = decimal_in(after_front(line, b"stop within ")?)?;
    Some(Halt {
        within: true,
        event,
    })
}

/// Adds the line of a stop, where there is one. Its only error is out of memory.
pub fn put_stop(alloc: Global, out: &mut Text, stop: Option<Halt>) -> Result<(), NoMemory>
    ensures { OnOk result (out.new ≡ out.old ++ stop_lines stop) }
{
    let Some(halt) = stop else {
        return Ok(());
    };
    let event = halt.event;
    let line = if halt.within {
        format!(in alloc; "stop within {event}\n")?
    } else {
        format!(in alloc; "stop before {event}\n")?
    };
    out.extend_from_slice(line.as_bytes())
}
