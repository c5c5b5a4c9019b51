//! Which value a test has where another one has a value.

ghost use Rattle.std.specs.Prelude.{◌≡◌, slice_get};
ghost use Rattle.ygg_bank.specs.Nodes.{IsBank, Stands};
ghost use Rattle.ygg_shape_words.specs.Deciding.{by_digits, by_nodes, by_number, by_numbers, decided, of_digits};

use crate::picking::known;
use ygg_bank::{Bank, Id, Node};
use ygg_value::{Op, Word, resize};

/// The value of the second test where the first one has this value, if that decides it: of one test the value itself, and of an equality
/// with a constant what another equality with a constant says of it.
pub fn decided(bank: &Bank, test: Id, value: bool, own: Id) -> Option<bool>
    requires bank { IsBank bank.now }
    requires test { Stands bank.now test }
    requires own { Stands bank.now own }
    ensures { result ≡ decided bank.now test value own }
{
    if own.0 == test.0 {
        Some(value)
    } else if value {
        by_nodes(bank, test, own)
    } else {
        None
    }
}

/// The value of the second test where the first is 1.
fn by_nodes(bank: &Bank, test: Id, own: Id) -> Option<bool>
    requires bank { IsBank bank.now }
    requires test { Stands bank.now test }
    requires own { Stands bank.now own }
    ensures { result ≡ by_nodes bank.now (slice_get bank.now test.0) (slice_get bank.now own.0) }
{
    match (bank.node(test), bank.node(own)) {
        (
            Node::Bin {
                op: Op::Eq,
                a: x,
                b: k,
            },
            Node::Bin {
                op: Op::Eq,
                a: y,
                b: m,
            },
        ) => by_numbers(bank, x, y, known(bank, k), known(bank, m)),
        _ => None,
    }
}

/// Whether the second word is a constant where the first one is.
fn by_numbers(bank: &Bank, x: Id, y: Id, one: Option<Word>, two: Option<Word>) -> Option<bool>
    requires bank { IsBank bank.now }
    requires x { Stands bank.now x }
    requires y { Stands bank.now y }
    ensures { result ≡ by_numbers bank.now x y one two }
{
    match (one, two) {
        (Some(k), Some(m)) => by_number(bank, x, k, y, m),
        _ => None,
    }
}

/// Whether y is m where x is k.
fn by_number(bank: &Bank, x: Id, k: Word, y: Id, m: Word) -> Option<bool>
    requires bank { IsBank bank.now }
    requires x { Stands bank.now x }
    requires y { Stands bank.now y }
    ensures { result ≡ by_number bank.now x k y m }
{
    if x.0 == y.0 {
        if k.bits == m.bits {
            Some(true)
        } else {
            Some(false)
        }
    } else {
        by_digits(bank, x, k, y, m)
    }
}

/// Whether y is m where x is k, of two words one of which may be digits of the other.
fn by_digits(bank: &Bank, x: Id, k: Word, y: Id, m: Word) -> Option<bool>
    requires bank { IsBank bank.now }
    requires x { Stands bank.now x }
    requires y { Stands bank.now y }
    ensures { result ≡ by_digits x k y m (slice_get bank.now x.0) (slice_get bank.now y.0) }
{
    match bank.node(y) {
        Node::Resize { a, width } => {
            if a.0 == x.0 {
                if resize(k, width).bits == m.bits {
                    Some(true)
                } else {
                    Some(false)
                }
            } else {
                of_digits(bank, x, k, y, m)
            }
        }
        _ => of_digits(bank, x, k, y, m),
    }
}

/// Whether y is m where x is k, which may be digits of it.
fn of_digits(bank: &Bank, x: Id, k: Word, y: Id, m: Word) -> Option<bool>
    requires bank { IsBank bank.now }
    requires x { Stands bank.now x }
    ensures { result ≡ of_digits k y m (slice_get bank.now x.0) }
{
    match bank.node(x) {
        Node::Resize { a, width } => {
            if a.0 == y.0 {
                if resize(m, width).bits == k.bits {
                    None
                } else {
                    Some(false)
                }
            } else {
                None
            }
        }
        _ => None,
    }
}
