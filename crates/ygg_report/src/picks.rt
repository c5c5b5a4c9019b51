//! Picks, written.

ghost use Rattle.std.specs.Prelude.{◌≡◌, ◌++◌, OnOk};
ghost use Rattle.ygg_report.specs.Picks.{bits_text, digits_text};

use ygg_base::{Bits, NoMemory, Text};

/// Adds a digit for each pick. Its only error is out of memory.
fn put_digits(out: &mut Text, picks: &[bool]) -> Result<(), NoMemory>
    ensures { OnOk result (out.new ≡ out.old ++ digits_text picks.now) }
{
    for pick in picks {
        out.push(if *pick { b'1' } else { b'0' })?;
    }
    Ok(())
}

/// Adds the word of picks: `-` for none, and else a digit for each. Its only error is out of memory.
pub fn put_bits(out: &mut Text, picks: &Bits) -> Result<(), NoMemory>
    ensures { OnOk result (out.new ≡ out.old ++ bits_text picks.now) }
{
    if picks.is_empty() {
        out.push(b'-')
    } else {
        put_digits(out, picks.as_slice())
    }
}
