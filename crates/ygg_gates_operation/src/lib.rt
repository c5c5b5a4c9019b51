//! The gates of an operation on words.
#![tactic(auto)]

ghost use Rattle.std.specs.Prelude.{◌≡◌, OnOk, IfOk};
ghost use Rattle.ygg_gates.specs.Rows.{operation};

use std::alloc::Global;
use ygg_cnf::Lit;
use ygg_gates::comparisons::{is_at_least, is_different, is_equal, is_less};
use ygg_gates::{Gate, Joint, Way, add, copies, false_literal, multiply, shift, subtract};
pub use ygg_gates::{
    BitLiterals, complements, constant_bits, free_bits, join_each, lowest, resized, true_literal,
};
use ygg_list::NoMemory;
use ygg_value::Op;

/// The bits of an operation's result, and its gates at the end of the list. Its only error is out of memory, after which there may
/// be more gates.
pub fn operation(
    alloc: Global,
    gates: &mut Vec<Gate>,
    op: Op,
    xs: &[Lit],
    ys: &[Lit],
) -> Result<BitLiterals, NoMemory>
    ensures gates { OnOk result (gates.new.items ≡ (operation op xs.now ys.now gates.old.items).gates) }
    ensures value { IfOk result (λ bits. bits ≡ (operation op xs.now ys.now gates.old.items).value) }
{
    match op {
        Op::Add => Ok(add(alloc, gates, xs, ys, false_literal())?.bits),
        Op::Sub => Ok(subtract(alloc, gates, xs, ys)?.bits),
        Op::Mul => {
            let zero = copies(alloc, false_literal(), xs.len())?;
            multiply(alloc, gates, xs, zero, ys)
        }
        Op::And => join_each(alloc, gates, Joint::And, xs, ys),
        Op::Or => join_each(alloc, gates, Joint::Or, xs, ys),
        Op::Xor => join_each(alloc, gates, Joint::Xor, xs, ys),
        Op::Shl => shift(alloc, gates, Way::Up, xs, ys),
        Op::Shr => shift(alloc, gates, Way::Down, xs, ys),
        Op::Imp => {
            let others = complements(alloc, xs)?;
            join_each(alloc, gates, Joint::Or, others.as_slice(), ys)
        }
        Op::Eq => is_equal(alloc, gates, xs, ys),
        Op::Ne => is_different(alloc, gates, xs, ys),
        Op::Lt => is_less(alloc, gates, xs, ys),
        Op::Le => is_at_least(alloc, gates, ys, xs),
        Op::Gt => is_less(alloc, gates, ys, xs),
        Op::Ge => is_at_least(alloc, gates, xs, ys),
    }
}
