//! Numbers in hexadecimal digits.

ghost use Rattle.std.specs.Prelude.{◌≡◌, ◌<◌, ◌≤◌, ◌++◌, length, IfSome, OnOk};
ghost use Rattle.std.specs.Option.{option_map};
ghost use Rattle.ygg_sched.specs.Numbers.{hex_digit, hex_after, number_in, glyph, digits_of, number_text};

use ygg_base::{NoMemory, Text};
use ygg_value::{Word, resize};

/// The value of a hexadecimal digit, whose letters are small.
fn hex_digit(byte: u8) -> Option<u8>
    ensures value { result ≡ hex_digit byte }
    ensures small { IfSome result (λ digit. digit < 16) }
{
    match byte {
        b'0'..=b'9' => Some(byte - b'0'),
        b'a'..=b'f' => Some(byte - b'a' + 10),
        _ => None,
    }
}

/// The number that at most 16 hexadecimal digits give.
fn hex(bytes: &[u8]) -> Option<u64>
    requires { length bytes.now ≤ 16 }
    ensures { result ≡ hex_after 0 bytes.now }
{
    let mut number: u64 = 0;
    for byte in bytes {
        match hex_digit(*byte) {
            Some(digit) => number = 16 * number + u64::from(digit),
            None => return None,
        }
    }
    Some(number)
}

/// The word of this width whose number these hexadecimal digits give, of which there are 1 to 16.
pub fn word_in(bytes: &[u8], width: u8) -> Option<Word>
    requires least { 1 ≤ width }
    requires most { width ≤ 64 }
    ensures number { option_map (λ w. w.bits) result ≡ number_in width bytes.now }
    ensures width { IfSome result (λ w. w.width ≡ width) }
{
    if bytes.is_empty() || bytes.len() > 16 {
        return None;
    }
    let bits = hex(bytes)?;
    let whole = Word { width: 64, bits };
    let word = resize(whole, width);
    if word.bits == bits { Some(word) } else { None }
}

/// A hexadecimal digit.
fn glyph(digit: u8) -> u8
    requires { digit < 16 }
    ensures { result ≡ glyph digit }
{
    if digit < 10 {
        b'0' + digit
    } else {
        b'a' + (digit - 10)
    }
}

/// Adds the last so many hexadecimal digits of a number. Its only error is out of memory.
fn put_digits(out: &mut Text, count: u8, number: u64) -> Result<(), NoMemory>
    ensures { OnOk result (out.new ≡ out.old ++ digits_of count number) }
{
    if count == 0 {
        return Ok(());
    }
    put_digits(out, count - 1, number / 16)?;
    out.push(glyph((number % 16) as u8))
}

/// Adds a word: a quarter of its width in digits, rounded up. Its only error is out of memory.
pub fn put_word(out: &mut Text, word: Word) -> Result<(), NoMemory>
    ensures { OnOk result (out.new ≡ out.old ++ number_text word.width word.bits) }
{
    put_digits(out, (word.width + 3) / 4, word.bits)
}
