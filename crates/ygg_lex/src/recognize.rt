ghost use Rattle.std.specs.Prelude.{◌≡◌, ◌≤◌, ◌^◌, ◌+◌, ◌*◌, ◌-◌, [], ◌∷◌, is_some, IfOk, IfSome, IsNone};
ghost use Rattle.ygg_base.specs.Lexing.{is_name_byte, is_blank, is_past_ascii, has_leading_zero, number_of, symbol_of, extends, recognized};

use crate::spelling::{keyword_of, symbol_of};
use std::alloc::Global;
use ygg_base::{Mark, NoMemory, Symbol, Text};

/// Whether the byte is none of ASCII.
pub fn is_past_ascii(byte: u8) -> bool
    ensures { result ≡ is_past_ascii byte }
{
    byte >= 128
}

/// Whether the byte separates tokens: a space, a tab, a carriage return or a line feed.
pub fn is_blank(byte: u8) -> bool
    ensures { result ≡ is_blank byte }
{
    byte == b' ' || byte == b'\t' || byte == b'\r' || byte == b'\n'
}

/// Whether the byte may stand in a name after its first.
pub fn is_name_byte(byte: u8) -> bool
    ensures { result ≡ is_name_byte byte }
{
    byte.is_ascii_lowercase() || byte.is_ascii_digit() || byte == b'_'
}

/// Whether several digits begin with 0.
fn has_leading_zero(digits: &[u8]) -> bool
    ensures { result ≡ has_leading_zero digits.now }
{
    digits.len() > 1 && digits[0] == b'0'
}

/// The number that a further digit gives, unless it is 2 ^ 64 or more.
fn with_digit(number: u64, digit: u8) -> Option<u64>
    ensures some { IfSome result (λ longer. longer ≡ 10 * number + (digit - 48)) }
    ensures none { IsNone result → 2 ^ 64 ≤ 10 * number + (digit - 48) }
{
    number
        .checked_mul(10)?
        .checked_add(u64::from(digit.saturating_sub(b'0')))
}

/// The number of these digits, unless it has a leading zero or is 2 ^ 64 or more.
#[tactic(auto)]
pub fn number_of(digits: &[u8]) -> Option<u64>
    ensures { result ≡ number_of digits.now }
{
    if has_leading_zero(digits) {
        return None;
    }
    let mut number: u64 = 0;
    for digit in digits {
        match with_digit(number, *digit) {
            Some(longer) => number = longer,
            None => return None,
        }
    }
    Some(number)
}

/// Whether the two bytes are a symbol.
#[tactic(auto, using(crate::proofs::Symbols::pair_is))]
fn is_pair(first: u8, second: u8) -> bool
    ensures { result ≡ is_some (symbol_of (first ∷ second ∷ [])) }
{
    match first {
        b'=' => second == b'=' || second == b'>',
        b'!' => second == b'=',
        b'<' => second == b'=' || second == b'<',
        b'>' => second == b'=' || second == b'>',
        b'-' => second == b'>',
        _ => false,
    }
}

/// Whether the byte makes the token or the comment that begins with these bytes longer.
pub fn extends(part: &[u8], byte: u8) -> bool
    ensures { result ≡ extends part.now byte }
{
    let Some((first, others)) = part.split_first() else {
        return false;
    };
    if *first == b'#' {
        byte != b'\n'
    } else if first.is_ascii_lowercase() {
        is_name_byte(byte)
    } else if first.is_ascii_digit() {
        byte.is_ascii_digit()
    } else {
        others.is_empty() && is_pair(*first, byte)
    }
}

/// The token of these bytes, unless they are none.
pub fn recognized(alloc: Global, part: &[u8]) -> Result<Option<Mark>, NoMemory>
    ensures { IfOk result (λ mark. mark ≡ recognized part.now) }
{
    let Some(first) = part.first() else {
        return Ok(None);
    };
    if first.is_ascii_lowercase() {
        return match keyword_of(part) {
            Some(keyword) => Ok(Some(Mark::Keyword(keyword))),
            None => Ok(Some(Mark::Name(Text::from_slice(alloc, part)?))),
        };
    }
    if first.is_ascii_digit() {
        return Ok(number_of(part).map(Mark::Num));
    }
    Ok(symbol_of(part).map(Mark::Symbol))
}
