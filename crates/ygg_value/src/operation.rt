/// A binary operation on words. Arithmetic is modulo 2 to the width, and comparisons are unsigned.
#[derive(Clone, Copy, PartialEq, Eq, Hash)]
pub enum Op {
    /// The sum.
    Add,
    /// The difference.
    Sub,
    /// The product.
    Mul,
    /// Both digits, at each place.
    And,
    /// Either digit, at each place.
    Or,
    /// One of the two digits alone, at each place.
    Xor,
    /// The first word shifted towards the high digits by the second; 0 from the first word's width on.
    Shl,
    /// The first word shifted towards the low digits by the second; 0 from the first word's width on.
    Shr,
    /// 1 where the words are equal, and else 0. This and each operation below gives a word of width 1.
    Eq,
    /// 1 where the words differ.
    Ne,
    /// 1 where the first word is below the second.
    Lt,
    /// 1 where the first word is at most the second.
    Le,
    /// 1 where the first word is above the second.
    Gt,
    /// 1 where the first word is at least the second.
    Ge,
    /// Of single digits: 0 where the first is 1 and the second 0, and else 1.
    Imp,
}
