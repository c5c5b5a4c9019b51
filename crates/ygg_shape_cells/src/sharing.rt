//! The test that most of the words of two rows share.

ghost use Rattle.std.specs.Prelude.{◌≡◌, slice_get};
ghost use Rattle.ygg_shape_words.specs.ygg_bank.Nodes.{Stands};
ghost use Rattle.ygg_shape_words.specs.Forms.{WordsAlike};
ghost use Rattle.ygg_shape_cells.specs.Pairs.{PairsFit};
ghost use Rattle.ygg_shape_cells.specs.Sharing.{better, better_of, count, is_best, most_shared, shared, test_of};

use crate::pairs::{Pair, has_test};
use ygg_shape_words::{Bank, Id, Node};

/// A test that pairs may be split on.
#[derive(Clone, Copy, Drop)]
pub struct Candidate {
    /// The test.
    pub test: Id,
    /// How many pairs have it.
    pub count: usize,
}

/// The test of a word that is a pick.
fn test_of(bank: &Bank, word: Id) -> Option<Id>
    requires { Stands bank.now word }
    ensures { result ≡ test_of (slice_get bank.now word.0) }
{
    match bank.node(word) {
        Node::Pick { test, .. } => Some(test),
        _ => None,
    }
}

/// How many of the pairs have the test.
fn count(bank: &Bank, test: Id, pairs: &[Pair]) -> usize
    requires { PairsFit bank.now pairs.now }
    ensures { result ≡ count bank.now test pairs.now }
{
    let mut found = 0;
    for pair in pairs {
        if has_test(bank, test, *pair) {
            found += 1;
        }
    }
    found
}

/// Whether a test is that of a candidate which two pairs have.
fn is_best(best: Candidate, test: Id) -> bool
    ensures { result ≡ is_best best test }
{
    best.count > 1 && best.test.0 == test.0
}

/// The best so far, or the test of the word, if it is a pick on one that more pairs have. The best's own pairs aren't counted again.
fn better(bank: &Bank, pairs: &[Pair], best: Candidate, word: Id) -> Candidate
    requires pairs { PairsFit bank.now pairs.now }
    requires word { Stands bank.now word }
    ensures { result ≡ better bank.now pairs.now best word }
{
    match test_of(bank, word) {
        Some(test) => {
            if is_best(best, test) {
                return best;
            }
            let count = count(bank, test, pairs);
            if best.count < count {
                Candidate { test, count }
            } else {
                best
            }
        }
        None => best,
    }
}

/// The best so far, or a test of the pair's words that more pairs have.
fn better_of(bank: &Bank, pairs: &[Pair], best: Candidate, pair: Pair) -> Candidate
    requires pairs { PairsFit bank.now pairs.now }
    requires pair { WordsAlike bank.now pair.one pair.two }
    ensures { result ≡ better_of bank.now pairs.now best pair }
{
    let first = better(bank, pairs, best, pair.one);
    better(bank, pairs, first, pair.two)
}

/// The test that most pairs have, and of several the first; what one pair alone has counts as none.
fn most_shared(bank: &Bank, pairs: &[Pair]) -> Candidate
    requires { PairsFit bank.now pairs.now }
    ensures { result ≡ most_shared bank.now pairs.now }
{
    let mut best = Candidate {
        test: Id(0),
        count: 1,
    };
    for pair in pairs {
        best = better_of(bank, pairs, best, *pair);
    }
    best
}

/// The test that the pairs are split on: the one that most of them have, if two have it, and at least half of all.
pub fn shared(bank: &Bank, pairs: &[Pair]) -> Option<Id>
    requires { PairsFit bank.now pairs.now }
    ensures { result ≡ shared bank.now pairs.now }
{
    let best = most_shared(bank, pairs);
    if best.count > 1 && pairs.len().saturating_sub(best.count) <= best.count {
        Some(best.test)
    } else {
        None
    }
}
