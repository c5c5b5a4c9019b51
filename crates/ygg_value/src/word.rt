ghost use Rattle.std.specs.Prelude.{◌≡◌, ◌≤◌, ◌^◌, ◌-◌, ◌%◌};
ghost use Rattle.ygg_value.specs.Words.{apply_to, apply_bits, CanApply, not_of, resized, bit_of, word};

use crate::NoRoom;
use crate::operation::Op;
use std::alloc::Global;
use std::marker::Model;
use ygg_list::Duplicate;

/// A number of 1 to 64 binary digits, below 2 to its width.
#[derive(Clone, Copy, PartialEq, Eq, Hash)]
pub struct Word {
    /// How many binary digits the word has.
    pub width: u8,
    /// The number.
    pub bits: u64,
}

impl Model for Word {
    ghost use Rattle.ygg_value.specs.Number.{Number, IsWord};

    ghost Value = { Number };

    ghost view = { λ w. record { width = w.width; bits = w.bits } };

    ghost invariant = { λ w. IsWord (record { width = w.width; bits = w.bits }) };

    ghost inverse = { λ n. record { width = n.width; bits = n.bits } };
}

impl Duplicate for Word {
    fn duplicate(&self, _alloc: Global) -> Result<Word, NoRoom> {
        Ok(*self)
    }
}

/// A number cut to the width.
fn cut(width: u8, bits: u64) -> Word
    requires least { 1 ≤ width }
    requires most { width ≤ 64 }
    ensures { result ≡ word width (bits % 2 ^ width) }
{
    Word {
        width,
        bits: bits & ones(width),
    }
}

/// A single digit.
fn digit(test: bool) -> Word
    ensures { result ≡ word 1 (bit_of test) }
{
    Word {
        width: 1,
        bits: if test { 1 } else { 0 },
    }
}

/// The greatest number of the width.
fn ones(width: u8) -> u64
    requires least { 1 ≤ width }
    requires most { width ≤ 64 }
    ensures { result ≡ 2 ^ width - 1 }
{
    u64::MAX >> (64 - width)
}

/// What an operation gives of two words of one width, which is 1 for `Imp`; the words of a shift may differ in width.
#[tactic(auto, using(crate::proofs::Cut::or_word, crate::proofs::Cut::xor_word))]
pub fn apply(op: Op, a: Word, b: Word) -> Word
    requires { CanApply op a b }
    ensures { result ≡ apply_to op a b }
{
    match op {
        Op::Add => cut(a.width, a.bits.wrapping_add(b.bits)),
        Op::Sub => cut(a.width, a.bits.wrapping_sub(b.bits)),
        Op::Mul => cut(a.width, a.bits.wrapping_mul(b.bits)),
        Op::And => Word {
            width: a.width,
            bits: a.bits & b.bits,
        },
        Op::Or => Word {
            width: a.width,
            bits: a.bits | b.bits,
        },
        Op::Xor => Word {
            width: a.width,
            bits: a.bits ^ b.bits,
        },
        Op::Shl => shift_left(a, b.bits),
        Op::Shr => shift_right(a, b.bits),
        Op::Eq => digit(a.bits == b.bits),
        Op::Ne => digit(a.bits != b.bits),
        Op::Lt => digit(a.bits < b.bits),
        Op::Le => digit(a.bits <= b.bits),
        Op::Gt => digit(a.bits > b.bits),
        Op::Ge => digit(a.bits >= b.bits),
        Op::Imp => digit(a.bits == 0 || b.bits == 1),
    }
}

/// The word shifted towards its high digits; 0 from its width on.
fn shift_left(a: Word, amount: u64) -> Word
    ensures { result ≡ word a.width (apply_bits Op.Shl a.width a.bits amount) }
{
    if amount < a.width as u64 {
        cut(a.width, a.bits << amount)
    } else {
        cut(a.width, 0)
    }
}

/// The word shifted towards its low digits; 0 from its width on.
fn shift_right(a: Word, amount: u64) -> Word
    ensures { result ≡ word a.width (apply_bits Op.Shr a.width a.bits amount) }
{
    if amount < a.width as u64 {
        cut(a.width, a.bits >> amount)
    } else {
        cut(a.width, 0)
    }
}

/// The word with each digit turned round.
pub fn not(a: Word) -> Word
    ensures { result ≡ not_of a }
{
    Word {
        width: a.width,
        bits: ones(a.width) - a.bits,
    }
}

/// The word at a width from 1 to 64: high digits are dropped, or zeros are put before them.
pub fn resize(a: Word, width: u8) -> Word
    requires least { 1 ≤ width }
    requires most { width ≤ 64 }
    ensures { result ≡ resized a width }
{
    cut(width, a.bits)
}
