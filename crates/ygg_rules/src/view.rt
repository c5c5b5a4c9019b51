//! What a rule sees of a term that is asked for, and what it may answer.

ghost use Rattle.std.specs.Prelude.{◌≡◌, None, Some};
ghost use Rattle.ygg_rules.specs.Views.{IsOperand, IsWidth};
ghost use Rattle.ygg_value.specs.Words.{CanApply, result_width, word};

use std::marker::Model;
use ygg_value::{Op, Word};

/// What is known of an operand of a term.
#[derive(Clone, Copy, Drop)]
pub struct Operand {
    /// The number of the operand's term.
    pub id: usize,
    /// How many binary digits the operand has.
    pub width: u8,
    /// The word that the operand always is, where that is known.
    pub known: Option<Word>,
}

impl Operand {
    /// An operand of a width from 1 to 64, of which nothing more is known.
    pub fn unknown(id: usize, width: u8) -> Operand
        requires { IsWidth width }
        ensures value { result ≡ record { id = id; width = width; known = None } }
        ensures fits { IsOperand result }
    {
        Operand {
            id,
            width,
            known: None,
        }
    }

    /// An operand that is always this word.
    pub fn known(id: usize, word: Word) -> Operand
        ensures value { result ≡ record { id = id; width = word.width; known = Some word } }
        ensures fits { IsOperand result }
    {
        Operand {
            id,
            width: word.width,
            known: Some(word),
        }
    }
}

/// What a term does with its operands.
#[derive(Clone, Copy, Drop)]
pub enum Act {
    /// A binary operation on two operands.
    Bin(Op),
    /// The complement of one operand.
    Not,
    /// One operand at the term's width.
    Resize,
    /// The second operand where the first is 1, and else the third.
    Pick,
}

/// A term that is asked for, before it is made. Contracts see it as a `Seen`, which fits: the operands that
/// the act takes are there and no others, the widths are those of such a term, and a known word has its
/// operand's width. Operands of one number are equal.
#[derive(Drop)]
pub struct View {
    /// What the term does.
    pub act: Act,
    /// How many binary digits the term has.
    pub width: u8,
    /// The operand with the number 0.
    pub one: Operand,
    /// The operand with the number 1.
    pub two: Option<Operand>,
    /// The operand with the number 2.
    pub three: Option<Operand>,
}

impl Model for View {
    ghost use Rattle.ygg_rules.specs.Views.{Seen, IsView};

    ghost Value = { Seen };

    ghost view = { λ v. record { act = v.act; width = v.width; one = v.one; two = v.two; three = v.three } };

    ghost invariant = { λ v. IsView (record { act = v.act; width = v.width; one = v.one; two = v.two; three = v.three }) };
}

impl View {
    ghost use Rattle.ygg_rules.specs.Views.{bin_of, not_of, resize_of, pick_of};

    /// The operation on two operands of widths that it takes.
    pub fn bin(op: Op, one: Operand, two: Operand) -> View
        requires one { IsOperand one }
        requires two { IsOperand two }
        requires widths { CanApply op (word one.width 0) (word two.width 0) }
        requires alike { one.id ≡ two.id → one ≡ two }
        ensures { result ≡ bin_of op one two }
    {
        View {
            act: Act::Bin(op),
            width: width_of(op, one.width),
            one,
            two: Some(two),
            three: None,
        }
    }

    /// The complement of an operand.
    pub fn not(one: Operand) -> View
        requires { IsOperand one }
        ensures { result ≡ not_of one }
    {
        View {
            act: Act::Not,
            width: one.width,
            one,
            two: None,
            three: None,
        }
    }

    /// An operand at a width from 1 to 64.
    pub fn resize(one: Operand, width: u8) -> View
        requires one { IsOperand one }
        requires width { IsWidth width }
        ensures { result ≡ resize_of one width }
    {
        View {
            act: Act::Resize,
            width,
            one,
            two: None,
            three: None,
        }
    }

    /// A pick by a test of width 1 between two operands of one width.
    pub fn pick(test: Operand, yes: Operand, no: Operand) -> View
        requires test { IsOperand test }
        requires yes { IsOperand yes }
        requires no { IsOperand no }
        requires digit { test.width ≡ 1 }
        requires widths { yes.width ≡ no.width }
        requires test_yes { test.id ≡ yes.id → test ≡ yes }
        requires test_no { test.id ≡ no.id → test ≡ no }
        requires yes_no { yes.id ≡ no.id → yes ≡ no }
        ensures { result ≡ pick_of test yes no }
    {
        let width = yes.width;
        View {
            act: Act::Pick,
            width,
            one: test,
            two: Some(yes),
            three: Some(no),
        }
    }
}

/// The width of what an operation gives, where its first operand has this width.
pub fn width_of(op: Op, width: u8) -> u8
    ensures { result ≡ result_width op width }
{
    match op {
        Op::Add | Op::Sub | Op::Mul | Op::And | Op::Or | Op::Xor | Op::Shl | Op::Shr => width,
        Op::Eq | Op::Ne | Op::Lt | Op::Le | Op::Gt | Op::Ge | Op::Imp => 1,
    }
}

/// What stands for the term that was asked for. Operands are numbered 0, 1 and 2.
#[derive(Clone, Copy, PartialEq, Eq, Drop)]
pub enum Rewrite {
    /// The term itself.
    Keep,
    /// An operand.
    Operand(u8),
    /// A constant.
    Constant(Word),
    /// A binary operation on two operands.
    Node(Op, u8, u8),
}
