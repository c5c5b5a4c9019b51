//! The equality of two rows.

ghost use Rattle.std.specs.Prelude.{◌≡◌, IfOk, OnOk};
ghost use Rattle.ygg_shape_sums.specs.ygg_bank.Inputs.{KeepsInputs};
ghost use Rattle.ygg_shape_sums.specs.ygg_bank.Nodes.{Extends, HasWidth, IsBank};
ghost use Rattle.ygg_shape_sums.specs.ygg_bank.Values.{KeepsValues};
ghost use Rattle.ygg_shape_sums.specs.ygg_bank.Making.{made};
ghost use Rattle.ygg_shape_sums.specs.ygg_bank.declared.node.Node.TheVariants as node;
ghost use Rattle.ygg_value.specs.declared.operation.Op.TheVariants as op;
ghost use Rattle.ygg_shape_sums.specs.ygg_shape_words.Forms.{WordsAlike};
ghost use Rattle.ygg_shape.specs.Equates.{AreSame, IsMade, equal_within, equated_rows, joined, one_by_one};
ghost use Rattle.ygg_shape_cells.specs.Pairs.{PairsFit, RowsFit};

use ygg_shape_cells::pairs::{Pair, differing, sides, without};
use ygg_shape_cells::sharing::shared;
use ygg_shape_sums::{Bank, Book, Id, NoMemory, Node, equate, pick};
use ygg_value::{Op, Word};

/// How many splits of a row may stand one within another.
pub const ROW_DEPTH: u32 = 8;

/// The term that is 1 where two rows have the same words, and 0 where they haven't, in every environment. While half of the words that are
/// two terms are picks on one test, those are compared where it is 1 and where it is 0; all others are compared one by one, as `equate`
/// has it. Its only error is out of memory, after which the bank may have more nodes.
pub fn equate_rows<B: Book>(
    bank: &mut Bank,
    book: &B,
    one: &[Id],
    two: &[Id],
) -> Result<Id, NoMemory>
    requires rows { RowsFit bank.old one.now two.now }
    ensures nodes { OnOk result (bank.new ≡ (equated_rows (B.kinds book.now) one.now two.now bank.old).nodes) }
    ensures form { IfOk result (λ id. id ≡ (equated_rows (B.kinds book.now) one.now two.now bank.old).value) }
    ensures width { IfOk result (λ id. HasWidth bank.new id 1) }
    ensures value { IfOk result (AreSame bank.new one.now two.now) }
    ensures grows { Extends bank.old bank.new }
    ensures keeps { KeepsValues bank.old bank.new }
    ensures bank { IsBank bank.new }
    ensures inputs { OnOk result (KeepsInputs bank.old bank.new) }
{
    // the bank's nodes stand in order
    let _ = bank.len();
    equate_rows_by(bank, book, one, two)
}

/// What `equate_rows` does.
fn equate_rows_by<B: Book>(
    bank: &mut Bank,
    book: &B,
    one: &[Id],
    two: &[Id],
) -> Result<Id, NoMemory>
    requires bank { IsBank bank.old }
    requires rows { RowsFit bank.old one.now two.now }
    ensures nodes { OnOk result (bank.new ≡ (equated_rows (B.kinds book.now) one.now two.now bank.old).nodes) }
    ensures form { IfOk result (λ id. id ≡ (equated_rows (B.kinds book.now) one.now two.now bank.old).value) }
    ensures width { IfOk result (λ id. HasWidth bank.new id 1) }
    ensures grows { Extends bank.old bank.new }
    ensures bank { IsBank bank.new }
{
    let pairs = differing(bank, one, two)?;
    let answer = equal_within(bank, book, ROW_DEPTH, pairs.as_slice())?;
    Ok(answer)
}

/// Whether the words of each pair are equal, with so many splits one within another.
fn equal_within<B: Book>(
    bank: &mut Bank,
    book: &B,
    depth: u32,
    pairs: &[Pair],
) -> Result<Id, NoMemory>
    requires bank { IsBank bank.old }
    requires pairs { PairsFit bank.old pairs.now }
    ensures made { IfOk result (IsMade (equal_within (B.kinds book.now) depth pairs.now) bank.old bank.new) }
    ensures width { IfOk result (λ id. HasWidth bank.new id 1) }
    ensures grows { Extends bank.old bank.new }
    ensures bank { IsBank bank.new }
{
    if depth == 0 {
        let answer = one_by_one(bank, book, pairs)?;
        return Ok(answer);
    }
    match shared(bank, pairs) {
        None => {
            let answer = one_by_one(bank, book, pairs)?;
            Ok(answer)
        }
        Some(test) => {
            let yes_sides = sides(bank, test, true, pairs)?;
            let no_sides = sides(bank, test, false, pairs)?;
            let others = without(bank, test, pairs)?;
            let yes = equal_within(bank, book, depth - 1, yes_sides.as_slice())?;
            let no = equal_within(bank, book, depth - 1, no_sides.as_slice())?;
            let split = pick(bank, book, test, yes, no)?;
            let rest = equal_within(bank, book, depth - 1, others.as_slice())?;
            let answer = both(bank, book, split, rest)?;
            Ok(answer)
        }
    }
}

/// Whether the words of each pair are equal, pair by pair.
fn one_by_one<B: Book>(bank: &mut Bank, book: &B, pairs: &[Pair]) -> Result<Id, NoMemory>
    requires bank { IsBank bank.old }
    requires pairs { PairsFit bank.old pairs.now }
    ensures nodes { OnOk result (bank.new ≡ (one_by_one (B.kinds book.now) pairs.now bank.old).nodes) }
    ensures form { IfOk result (λ id. id ≡ (one_by_one (B.kinds book.now) pairs.now bank.old).value) }
    ensures width { IfOk result (λ id. HasWidth bank.new id 1) }
    ensures grows { Extends bank.old bank.new }
    ensures bank { IsBank bank.new }
{
    let mut all = bank.make(Node::Const(Word { width: 1, bits: 1 }), book)?;
    for pair in pairs {
        all = join(bank, book, all, *pair)?;
    }
    Ok(all)
}

/// Whether the words of a pair are equal, joined to what is known so far.
fn join<B: Book>(bank: &mut Bank, book: &B, so_far: Id, pair: Pair) -> Result<Id, NoMemory>
    requires so_far { HasWidth bank.old so_far 1 }
    requires pair { WordsAlike bank.old pair.one pair.two }
    ensures nodes { OnOk result (bank.new ≡ (joined (B.kinds book.now) so_far pair bank.old).nodes) }
    ensures form { IfOk result (λ id. id ≡ (joined (B.kinds book.now) so_far pair bank.old).value) }
    ensures width { IfOk result (λ id. HasWidth bank.new id 1) }
    ensures grows { Extends bank.old bank.new }
    ensures bank { IsBank bank.new }
{
    let same = equate(bank, book, pair.one, pair.two)?;
    both(bank, book, so_far, same)
}

/// The conjunction of two single digits.
fn both<B: Book>(bank: &mut Bank, book: &B, one: Id, two: Id) -> Result<Id, NoMemory>
    requires one { HasWidth bank.old one 1 }
    requires two { HasWidth bank.old two 1 }
    ensures nodes { OnOk result (bank.new ≡ (made (B.kinds book.now) (node.Bin op.And one two) bank.old).nodes) }
    ensures form { IfOk result (λ id. id ≡ (made (B.kinds book.now) (node.Bin op.And one two) bank.old).value) }
    ensures width { IfOk result (λ id. HasWidth bank.new id 1) }
    ensures grows { Extends bank.old bank.new }
    ensures bank { IsBank bank.new }
{
    let op = Op::And;
    bank.make(Node::Bin { op, a: one, b: two }, book)
}
