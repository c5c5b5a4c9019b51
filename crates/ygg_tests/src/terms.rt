//! The worked rows of rules and of clauses. That the bank shares terms, `tests/run` asks `ygg_bench`.

ghost use Rattle.std.specs.Prelude.{◌≡◌, []};

use std::alloc::Global;
use ygg_bank::{Bank, Id, NoMemory, Node};
use ygg_blast::clauses_of;
use ygg_cnf::{Clause, Lit};
use ygg_rules::{Operand, Rewrite, Rule, RuleBook, RuleKind, View, add_zero};
use ygg_value::{Op, Word};

/// What a book answers of the sum of an unknown operand and 0.
fn of_sum_with_zero(book: &RuleBook) -> Rewrite {
    let zero = Operand::known(1, Word { width: 8, bits: 0 });
    book.view(&View::bin(Op::Add, Operand::unknown(0, 8), zero))
}

/// Whether a book of this rule answers its operand.
fn rewrites(alloc: Global, rule: Rule) -> bool {
    let mut rules = Vec::new(alloc);
    let pushed = rules.push(rule).is_ok();
    let book = RuleBook::new(rules);
    pushed & (of_sum_with_zero(&book) == Rewrite::Operand(0))
}

/// Whether the rule for it answers its operand.
fn is_rewritten(alloc: Global) -> bool {
    match Box::new(alloc, add_zero) {
        Ok(judge) => rewrites(alloc, Rule::new(RuleKind::AddZero, judge)),
        Err(_) => false,
    }
}

/// The conjunction of two inputs of one digit, in a bank without nodes.
fn conjunction(bank: &mut Bank, book: &RuleBook) -> Result<Id, NoMemory>
    requires { bank.old ≡ [] }
{
    let (one, two): (u64, u64) = (0, 1);
    let a = bank.make(
        Node::Input {
            number: one,
            width: 1,
        },
        book,
    )?;
    let b = bank.make(
        Node::Input {
            number: two,
            width: 1,
        },
        book,
    )?;
    bank.make(Node::Bin { op: Op::And, a, b }, book)
}

/// A variable, or its complement where it is negated.
fn lit(var: u64, negated: bool) -> Lit {
    Lit { var, negated }
}

/// Whether these are the clauses of a conjunction of two inputs.
fn are_wanted(found: &[Clause]) -> bool {
    let not_output = lit(4, true);
    let wanted: [&[Lit]; 5] = [
        &[lit(1, false)],
        &[not_output, lit(2, false)],
        &[not_output, lit(3, false)],
        &[lit(4, false), lit(2, true), lit(3, true)],
        &[not_output],
    ];
    are_clauses(found, &wanted)
}

/// Whether these are the clauses.
fn are_clauses(found: &[Clause], wanted: &[&[Lit]]) -> bool {
    let mut same = found.len() == wanted.len();
    for (place, clause) in found.iter().enumerate() {
        same &= place < wanted.len() && clause.as_slice() == wanted[place];
    }
    same
}

/// Whether a term has these clauses.
fn has_clauses(alloc: Global, bank: &Bank, term: Id) -> bool {
    if term.0 >= bank.len() {
        return false;
    }
    match clauses_of(alloc, bank, term) {
        Ok(blasted) => {
            let wanted = are_wanted(blasted.clauses().as_slice());
            drop(blasted);
            wanted
        }
        Err(_) => false,
    }
}

/// Whether the row of clauses holds in a bank without nodes.
fn holds(alloc: Global, bank: &mut Bank, book: &RuleBook) -> bool
    requires { bank.old ≡ [] }
{
    match conjunction(bank, book) {
        Ok(term) => has_clauses(alloc, bank, term),
        Err(_) => false,
    }
}

/// Whether it does in a bank of its own.
fn holds_under(alloc: Global, book: &RuleBook) -> bool {
    match Bank::new(alloc) {
        Ok(mut bank) => {
            let held = holds(alloc, &mut bank, book);
            drop(bank);
            held
        }
        Err(_) => false,
    }
}

/// Whether it does under a book without rules, which keeps all terms.
fn holds_without_rules(alloc: Global) -> bool {
    let book = RuleBook::new(Vec::new(alloc));
    let kept = of_sum_with_zero(&book) == Rewrite::Keep;
    kept & holds_under(alloc, &book)
}

#[test]
fn terms_are_rewritten_and_have_their_clauses(rt: HostRuntime) {
    assert!(rt; is_rewritten(rt.alloc()) && holds_without_rules(rt.alloc()));
}
