//! One word where a test is 1, and else another, which may be a pick of the first word already.

ghost use Rattle.std.specs.Prelude.{◌≡◌, IfOk, OnOk};
ghost use Rattle.ygg_shape_words.specs.ygg_bank.Nodes.{CanPick, Extends, IsBank};
ghost use Rattle.ygg_shape_joins.specs.Joining.{joined_pick, joined_word};

use ygg_shape_words::{Bank, Book, Id, NoMemory, Node, pick};
use ygg_value::Op;

/// The word `yes` where the test is 1, and else `no`. Where `no` is a pick of `yes` under another test, one pick stands under either test.
pub fn join_word<B: Book>(
    bank: &mut Bank,
    book: &B,
    test: Id,
    yes: Id,
    no: Id,
) -> Result<Id, NoMemory>
    requires bank { IsBank bank.old }
    requires pick { CanPick bank.old test yes no }
    ensures nodes { OnOk result (bank.new ≡ (joined_word (B.kinds book.now) test yes no bank.old).nodes) }
    ensures form { IfOk result (λ id. id ≡ (joined_word (B.kinds book.now) test yes no bank.old).value) }
    ensures grows { Extends bank.old bank.new }
    ensures bank { IsBank bank.new }
{
    match bank.node(no) {
        Node::Pick {
            test: other,
            yes: same,
            no: rest,
        } => join_pick(bank, book, test, yes, no, other, same, rest),
        _ => pick(bank, book, test, yes, no),
    }
}

/// The same, where `no` is this pick.
fn join_pick<B: Book>(
    bank: &mut Bank,
    book: &B,
    test: Id,
    yes: Id,
    no: Id,
    other: Id,
    same: Id,
    rest: Id,
) -> Result<Id, NoMemory>
    requires bank { IsBank bank.old }
    requires pick { CanPick bank.old test yes no }
    requires other { CanPick bank.old other yes rest }
    ensures nodes { OnOk result (bank.new ≡ (joined_pick (B.kinds book.now) test yes no other same rest bank.old).nodes) }
    ensures form { IfOk result (λ id. id ≡ (joined_pick (B.kinds book.now) test yes no other same rest bank.old).value) }
    ensures grows { Extends bank.old bank.new }
    ensures bank { IsBank bank.new }
{
    if same.0 != yes.0 {
        return pick(bank, book, test, yes, no);
    }
    let either = bank.make(
        Node::Bin {
            op: Op::Or,
            a: test,
            b: other,
        },
        book,
    )?;
    pick(bank, book, either, yes, rest)
}
