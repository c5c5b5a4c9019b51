//! Pairs of words that are to be compared.

ghost use Rattle.std.specs.Prelude.{◌≡◌, ◌++◌, IfOk, OnOk, length, slice_get};
ghost use Rattle.ygg_shape_words.specs.ygg_bank.Nodes.{Stands};
ghost use Rattle.ygg_shape_words.specs.Forms.{WordsAlike};
ghost use Rattle.ygg_shape_cells.specs.Pairs.{PairsFit, differing, has_test, is_pick_on, side, sides, sides_of, unequal, without, without_of};

use ygg_shape_words::{Bank, Id, NoMemory, Node};

/// Two words, one of each of two rows.
#[derive(Clone, Copy, Drop)]
pub struct Pair {
    /// The word of the one row.
    pub one: Id,
    /// The word of the other row.
    pub two: Id,
}

/// The pairs of words at one place of two rows that are two terms. Its only error is out of memory.
pub fn differing(bank: &Bank, one: &[Id], two: &[Id]) -> Result<Vec<Pair>, NoMemory>
    requires { length one.now ≡ length two.now }
    ensures { IfOk result (λ pairs. pairs.items ≡ differing one.now two.now) }
{
    let mut pairs = Vec::new(bank.allocator());
    for place in 0..one.len() {
        put_unequal(&mut pairs, one[place], two[place])?;
    }
    Ok(pairs)
}

/// Two words, put after other pairs unless they are one term. Its only error is out of memory.
fn put_unequal(pairs: &mut Vec<Pair>, one: Id, two: Id) -> Result<(), NoMemory>
    ensures { OnOk result (pairs.new.items ≡ pairs.old.items ++ unequal one two) }
{
    if one.0 == two.0 {
        return Ok(());
    }
    if pairs.push(Pair { one, two }).is_err() {
        return Err(NoMemory);
    }
    Ok(())
}

/// Whether a word is a pick on the test.
fn is_pick_on(bank: &Bank, test: Id, word: Id) -> bool
    requires { Stands bank.now word }
    ensures { result ≡ is_pick_on test (slice_get bank.now word.0) }
{
    match bank.node(word) {
        Node::Pick { test: own, .. } => own.0 == test.0,
        _ => false,
    }
}

/// Whether one of two words is a pick on the test.
pub fn has_test(bank: &Bank, test: Id, pair: Pair) -> bool
    requires { WordsAlike bank.now pair.one pair.two }
    ensures { result ≡ has_test bank.now test pair }
{
    is_pick_on(bank, test, pair.one) || is_pick_on(bank, test, pair.two)
}

/// The word where the test has this value: of a pick on it that side, and any other word itself.
fn side(bank: &Bank, test: Id, value: bool, word: Id) -> Id
    requires { Stands bank.now word }
    ensures { result ≡ side test value word (slice_get bank.now word.0) }
{
    match bank.node(word) {
        Node::Pick { test: own, yes, no } => {
            if own.0 != test.0 {
                word
            } else if value {
                yes
            } else {
                no
            }
        }
        _ => word,
    }
}

/// Of the pairs that have the test, their words where it has this value, unless these are one term. Its only error is out of memory.
pub fn sides(bank: &Bank, test: Id, value: bool, pairs: &[Pair]) -> Result<Vec<Pair>, NoMemory>
    requires { PairsFit bank.now pairs.now }
    ensures { IfOk result (λ found. found.items ≡ sides bank.now test value pairs.now) }
{
    let mut found = Vec::new(bank.allocator());
    for pair in pairs {
        put_sides(bank, test, value, *pair, &mut found)?;
    }
    Ok(found)
}

/// The sides of one pair, put after those of others. Its only error is out of memory.
fn put_sides(
    bank: &Bank,
    test: Id,
    value: bool,
    pair: Pair,
    found: &mut Vec<Pair>,
) -> Result<(), NoMemory>
    requires { WordsAlike bank.now pair.one pair.two }
    ensures { OnOk result (found.new.items ≡ found.old.items ++ sides_of bank.now test value pair) }
{
    if !has_test(bank, test, pair) {
        return Ok(());
    }
    let one = side(bank, test, value, pair.one);
    let two = side(bank, test, value, pair.two);
    put_unequal(found, one, two)
}

/// The pairs that don't have the test. Its only error is out of memory.
pub fn without(bank: &Bank, test: Id, pairs: &[Pair]) -> Result<Vec<Pair>, NoMemory>
    requires { PairsFit bank.now pairs.now }
    ensures { IfOk result (λ found. found.items ≡ without bank.now test pairs.now) }
{
    let mut found = Vec::new(bank.allocator());
    for pair in pairs {
        put_without(bank, test, *pair, &mut found)?;
    }
    Ok(found)
}

/// One pair, put after others unless it has the test. Its only error is out of memory.
fn put_without(bank: &Bank, test: Id, pair: Pair, found: &mut Vec<Pair>) -> Result<(), NoMemory>
    requires { WordsAlike bank.now pair.one pair.two }
    ensures { OnOk result (found.new.items ≡ found.old.items ++ without_of bank.now test pair) }
{
    if has_test(bank, test, pair) {
        return Ok(());
    }
    if found.push(pair).is_err() {
        return Err(NoMemory);
    }
    Ok(())
}
