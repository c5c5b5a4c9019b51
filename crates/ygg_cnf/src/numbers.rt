//! The numbers of clauses in a line, which are most of its bytes: they are read in one loop.

ghost use Rattle.std.specs.Prelude.{◌≡◌, IfOk, IfSome};
ghost use Rattle.ygg_cnf.specs.Runs.{IsAmong, Runs, spot_of};
ghost use Rattle.ygg_cnf.specs.Spots.{IsSpot};

use crate::spot::{Spot, longer};
use ygg_list::{NoMemory, Sequence};

/// What a byte does in the digits of a number, or before the next number where there are none.
#[derive(Clone, Copy)]
pub enum Among {
    /// It is a digit, with which the digits have this value.
    Digits(u64),
    /// It ends this number.
    Number(u64),
    /// Something else.
    Other,
}

/// How many bytes are read, and the number in whose digits the reading stands: 0 where it stands before the next number.
#[derive(Clone, Copy)]
pub struct NumberRun {
    pub count: usize,
    pub number: u64,
}

/// What a byte does in the digits of a number, or before the next number where it is 0.
#[inline(always)]
fn byte_among(number: u64, byte: u8) -> Among
    ensures { IsAmong number byte result }
{
    match longer(number, byte) {
        Some(more) => {
            if more == 0 {
                return Among::Other;
            }
            Among::Digits(more)
        }
        None => {
            if byte == b' ' && number > 0 {
                return Among::Number(number);
            }
            Among::Other
        }
    }
}

/// The place in the digits of a number, or before the next number where it is 0.
#[inline(always)]
pub fn spot_of(number: u64) -> Spot
    ensures { result ≡ spot_of number }
{
    if number == 0 {
        Spot::Number
    } else {
        Spot::Digits { number }
    }
}

/// The number in whose digits a place is, or 0 before the next number; none elsewhere.
pub fn number_at(spot: Spot) -> Option<u64>
    ensures { IfSome result (λ number. IsSpot spot → spot ≡ spot_of number) }
{
    match spot {
        Spot::Number => Some(0),
        Spot::Digits { number } => Some(number),
        _ => None,
    }
}

/// Reads the first bytes of a piece, as far as they are digits and the spaces after numbers. The numbers that end come to the chain. Its only error is out of
/// memory.
pub fn read_numbers(
    chain: &mut Sequence<u64>,
    first: u64,
    piece: &[u8],
) -> Result<NumberRun, NoMemory>
    ensures { IfOk result (Runs piece.now first chain.old chain.new) }
{
    let mut number = first;
    let mut count = 0;
    for byte in piece {
        match byte_among(number, *byte) {
            Among::Digits(longer) => number = longer,
            Among::Number(whole) => {
                chain.push(whole)?;
                number = 0;
            }
            Among::Other => return Ok(NumberRun { count, number }),
        }
        count += 1;
    }
    Ok(NumberRun { count, number })
}
