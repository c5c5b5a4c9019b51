//! The literals of a line: they are read in one loop, as its numbers are.

ghost use Rattle.std.specs.Prelude.{◌≡◌, IfOk, IfSome};
ghost use Rattle.ygg_cnf.specs.Runs.{IsWithin, RunsTo, spot_in};
ghost use Rattle.ygg_cnf.specs.Spots.{IsSpot};

use crate::lit::Lit;
use crate::spot::{Spot, longer};
use ygg_list::{NoMemory, Sequence};

/// What is read of a literal: whether it has a `-`, and the number that its digits give, or 0 where there are none yet.
#[derive(Clone, Copy)]
pub struct LiteralPart {
    pub negated: bool,
    pub number: u64,
}

/// What a byte does in a literal, or before the next one.
#[derive(Clone, Copy)]
pub enum Within {
    /// This is read of the literal then.
    Part(LiteralPart),
    /// It ends this literal.
    Literal(Lit),
    /// Something else.
    Other,
}

/// How many bytes are read, and what is read of the next literal then.
#[derive(Clone, Copy)]
pub struct LiteralRun {
    pub count: usize,
    pub part: LiteralPart,
}

/// What a byte does in a literal whose digits give this number, with or without a `-`.
#[inline(always)]
fn byte_within(number: u64, negated: bool, byte: u8) -> Within
    ensures { IsWithin number negated byte result }
{
    match longer(number, byte) {
        Some(more) => {
            if more == 0 {
                return Within::Other;
            }
            Within::Part(LiteralPart {
                negated,
                number: more,
            })
        }
        None => sign_within(number, negated, byte),
    }
}

/// What a byte that is no further digit does there.
#[inline(always)]
fn sign_within(number: u64, negated: bool, byte: u8) -> Within
    ensures { IsWithin number negated byte result }
{
    if byte == b' ' && number > 0 {
        return Within::Literal(Lit {
            var: number,
            negated,
        });
    }
    if byte == b'-' && number == 0 && !negated {
        return Within::Part(LiteralPart {
            negated: true,
            number: 0,
        });
    }
    Within::Other
}

/// The place in a literal of which this is read, or before the next one where it is nothing.
#[inline(always)]
pub fn spot_in(part: LiteralPart) -> Spot
    ensures { result ≡ spot_in part }
{
    if part.number > 0 {
        return Spot::Variable {
            negated: part.negated,
            number: part.number,
        };
    }
    if part.negated {
        Spot::Minus
    } else {
        Spot::Literal
    }
}

/// What is read of a literal at a place in one, or before one; none elsewhere.
pub fn part_at(spot: Spot) -> Option<LiteralPart>
    ensures { IfSome result (λ part. IsSpot spot → spot ≡ spot_in part) }
{
    match spot {
        Spot::Literal => Some(LiteralPart {
            negated: false,
            number: 0,
        }),
        Spot::Minus => Some(LiteralPart {
            negated: true,
            number: 0,
        }),
        Spot::Variable { negated, number } => Some(LiteralPart { negated, number }),
        _ => None,
    }
}

/// Reads the first bytes of a piece, as far as they go on with literals and the spaces after them. The literals that end come to the clause. Its only error is
/// out of memory.
pub fn read_literals(
    clause: &mut Sequence<Lit>,
    first: LiteralPart,
    piece: &[u8],
) -> Result<LiteralRun, NoMemory>
    ensures { IfOk result (RunsTo piece.now first clause.old clause.new) }
{
    let mut part = first;
    let mut count = 0;
    for byte in piece {
        match byte_within(part.number, part.negated, *byte) {
            Within::Part(more) => part = more,
            Within::Literal(lit) => {
                clause.push(lit)?;
                part = LiteralPart {
                    negated: false,
                    number: 0,
                };
            }
            Within::Other => return Ok(LiteralRun { count, part }),
        }
        count += 1;
    }
    Ok(LiteralRun { count, part })
}
