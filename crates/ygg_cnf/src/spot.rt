//! Where in the line of a derived clause the reading stands, and where a byte leads.

ghost use Rattle.std.specs.Prelude.{◌≡◌, ◌<◌, ◌≤◌, ◌+◌, ◌-◌, ◌*◌, ◌^◌, IfSome, IsNone};
ghost use Rattle.ygg_cnf.specs.Spots.{IsSpot, Turns};

use crate::lit::Lit;

/// Where in the line of a derived clause the reading stands.
#[derive(Clone, Copy)]
pub enum Spot {
    /// Before the line.
    Begin,
    /// After its `c`.
    Opened,
    /// Before a literal, or the 0 after the literals.
    Literal,
    /// After the `-` of a literal.
    Minus,
    /// In the digits of a literal's variable.
    Variable { negated: bool, number: u64 },
    /// After the 0 that follows the literals.
    Middle,
    /// Before the number of a clause, or the 0 after the numbers.
    Number,
    /// In the digits of the number of a clause.
    Digits { number: u64 },
    /// After the last 0.
    End,
}

/// What a byte does there.
#[derive(Clone, Copy)]
pub enum SpotTurn {
    /// It leads on.
    To(Spot),
    /// It ends a literal.
    Literal(Lit),
    /// It ends the number of a clause.
    Number(u64),
    /// It ends the line.
    Whole,
    /// No line of a derived clause goes on so.
    Wrong,
}

/// The number with one more digit, unless the byte is no digit or the number 2 ^ 64 or more.
#[inline(always)]
pub fn longer(number: u64, byte: u8) -> Option<u64>
    ensures some { IfSome result (λ longer. (48 ≤ byte) × (byte < 58) × (longer ≡ 10 * number + (byte - 48)) × (longer < 2 ^ 64)) }
    ensures none { IsNone result → 48 ≤ byte → byte < 58 → 2 ^ 64 ≤ 10 * number + (byte - 48) }
{
    match byte {
        b'0'..=b'9' => {
            let digit = u64::from(byte - b'0');
            // most numbers are far below the limit
            if number < 1 << 60 {
                return Some(10 * number + digit);
            }
            number.checked_mul(10)?.checked_add(digit)
        }
        _ => None,
    }
}

/// Where a byte leads in the digits of a literal's variable.
#[inline(always)]
fn in_variable(negated: bool, number: u64, byte: u8) -> SpotTurn
    ensures { 0 < number → Turns (Spot.Variable negated number) byte result }
{
    if byte == b' ' {
        return SpotTurn::Literal(Lit {
            var: number,
            negated,
        });
    }
    match longer(number, byte) {
        Some(number) => SpotTurn::To(Spot::Variable { negated, number }),
        None => SpotTurn::Wrong,
    }
}

/// Where a byte leads in the digits of the number of a clause.
#[inline(always)]
fn in_number(number: u64, byte: u8) -> SpotTurn
    ensures { 0 < number → Turns (Spot.Digits number) byte result }
{
    if byte == b' ' {
        return SpotTurn::Number(number);
    }
    match longer(number, byte) {
        Some(number) => SpotTurn::To(Spot::Digits { number }),
        None => SpotTurn::Wrong,
    }
}

/// The value of a digit above 0.
#[inline(always)]
fn first_digit(byte: u8) -> Option<u64>
    ensures some { IfSome result (λ digit. (48 < byte) × (byte < 58) × (digit ≡ byte - 48)) }
    ensures none { IsNone result → 48 < byte → byte < 58 → ⊥ }
{
    match byte {
        b'1'..=b'9' => Some(u64::from(byte - b'0')),
        _ => None,
    }
}

/// Where a byte leads before a literal.
#[inline(always)]
fn at_literal(byte: u8) -> SpotTurn
    ensures { Turns Spot.Literal byte result }
{
    if byte == b'-' {
        return SpotTurn::To(Spot::Minus);
    }
    if byte == b'0' {
        return SpotTurn::To(Spot::Middle);
    }
    match first_digit(byte) {
        Some(number) => SpotTurn::To(Spot::Variable {
            negated: false,
            number,
        }),
        None => SpotTurn::Wrong,
    }
}

/// Where a byte leads after the `-` of a literal.
#[inline(always)]
fn after_minus(byte: u8) -> SpotTurn
    ensures { Turns Spot.Minus byte result }
{
    match first_digit(byte) {
        Some(number) => SpotTurn::To(Spot::Variable {
            negated: true,
            number,
        }),
        None => SpotTurn::Wrong,
    }
}

/// Where a byte leads before the number of a clause.
#[inline(always)]
fn at_number(byte: u8) -> SpotTurn
    ensures { Turns Spot.Number byte result }
{
    if byte == b'0' {
        return SpotTurn::To(Spot::End);
    }
    match first_digit(byte) {
        Some(number) => SpotTurn::To(Spot::Digits { number }),
        None => SpotTurn::Wrong,
    }
}

/// Where a byte leads that must be this one.
#[inline(always)]
fn only(byte: u8, wanted: u8, turn: SpotTurn) -> SpotTurn
    ensures same { byte ≡ wanted → result ≡ turn }
    ensures other { (byte ≡ wanted → ⊥) → result ≡ SpotTurn.Wrong }
{
    if byte == wanted {
        turn
    } else {
        SpotTurn::Wrong
    }
}

/// Where a byte leads.
#[inline(always)]
pub fn turn_at(spot: Spot, byte: u8) -> SpotTurn
    ensures { IsSpot spot → Turns spot byte result }
{
    match spot {
        Spot::Begin => only(byte, b'c', SpotTurn::To(Spot::Opened)),
        Spot::Opened => only(byte, b' ', SpotTurn::To(Spot::Literal)),
        Spot::Literal => at_literal(byte),
        Spot::Minus => after_minus(byte),
        Spot::Variable { negated, number } => in_variable(negated, number, byte),
        Spot::Middle => only(byte, b' ', SpotTurn::To(Spot::Number)),
        Spot::Number => at_number(byte),
        Spot::Digits { number } => in_number(number, byte),
        Spot::End => only(byte, b'\n', SpotTurn::Whole),
    }
}
