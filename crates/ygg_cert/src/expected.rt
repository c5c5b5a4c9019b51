//! A line that alone may stand at a place.

ghost use Rattle.std.specs.Prelude.{◌≡◌, ◌∷◌, ◌++◌, [], List, ℕ, slice_get};
ghost use Rattle.ygg_cert.specs.Matching.{IsMatching, Matches};

use crate::verdict::Heard;
use ygg_base::Text;

/// A line, and how many of its bytes are read.
#[derive(Drop)]
pub struct Expected {
    line: Text,
    matched: usize,
}

impl Expected {
    /// A line of which nothing is read.
    pub fn new(line: Text) -> Expected
        ensures line { result.line ≡ line }
        ensures matched { result.matched ≡ 0 }
    {
        Expected { line, matched: 0 }
    }

    /// The byte that comes next, where one is to come.
    #[tactic(auto, using(std::proofs::lemmas::Option::slice_get_past))]
    fn wanted(&self) -> Option<u8>
        ensures { result ≡ slice_get self.now.line self.now.matched }
    {
        if self.matched < self.line.len() {
            Some(*self.line.at(self.matched))
        } else {
            None
        }
    }

    /// Reads a byte.
    #[tactic(auto, using(crate::proofs::Matched::match_wrong, crate::proofs::Matched::some_wanted, crate::proofs::Matched::match_whole))]
    pub fn read(&mut self, byte: u8) -> Heard
        ensures { (line before : List ℕ) → IsMatching line before self.old → Matches line (before ++ byte ∷ []) self.new result }
    {
        match self.wanted() {
            Some(wanted) => {
                if wanted != byte {
                    return Heard::Wrong;
                }
            }
            None => return Heard::Wrong,
        }
        self.matched = self.matched.saturating_add(1);
        if self.matched == self.line.len() {
            Heard::Whole
        } else {
            Heard::More
        }
    }
}
