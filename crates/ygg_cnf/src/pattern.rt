//! How clauses are made of the literals of a block.

ghost use Rattle.std.specs.Prelude.{◌≡◌, ◌<◌, length, true, false};
ghost use Rattle.ygg_cnf.specs.Patterns.{picked};

use crate::lit::Lit;

/// A literal of a block, or its complement.
#[derive(Clone, Copy, Drop)]
pub struct PatternLit {
    /// The place of the literal in the block, counted from 0.
    pub place: u8,
    /// Whether it is complemented.
    pub complemented: bool,
}

impl PatternLit {
    /// The literal at this place of a block.
    pub fn plain(place: u8) -> PatternLit
        ensures { result ≡ record { place = place; complemented = false } }
    {
        PatternLit {
            place,
            complemented: false,
        }
    }

    /// The complement of the literal at this place of a block.
    pub fn complemented(place: u8) -> PatternLit
        ensures { result ≡ record { place = place; complemented = true } }
    {
        PatternLit {
            place,
            complemented: true,
        }
    }

    /// What it is in a block.
    #[inline]
    pub fn pick(self, block: &[Lit]) -> Lit
        requires { self.place < length block.now }
        ensures { result ≡ picked block.now self }
    {
        let lit = block[self.place as usize];
        if self.complemented {
            lit.complement()
        } else {
            lit
        }
    }
}

/// How a clause of two or three literals is made of those of a block, which stand at different places.
#[derive(Clone, Copy, Drop)]
pub struct Pattern {
    /// The first literal.
    pub one: PatternLit,
    /// The second one.
    pub two: PatternLit,
    /// The third one, of a clause of three.
    pub three: Option<PatternLit>,
}
