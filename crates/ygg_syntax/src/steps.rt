ghost use Rattle.std.specs.Prelude.{◌≡◌, ◌≤◌, ◌-◌, min, sum, map};
ghost use Rattle.ygg_syntax.specs.Budget.{limit};
ghost use Rattle.ygg_syntax.specs.Choices.{choices_of, events_of, source_steps, stmt_steps};

use crate::budget::{LIMIT, repeated};
use crate::lists;
use crate::tree::{Block, Source, Stmt};

/// How many choices the block makes at most, or 1,000,000 where they are more. Both sides of an `if` count, and a `for`
/// counts its block as often as its bound says.
pub fn choices(block: &Block) -> u64
    ensures { result ≡ min limit (choices_of block.now) }
{
    LIMIT - statements(1, 0, lists::stmt::as_slice(&block.statements), LIMIT)
}

/// How many calls of the machine below the block makes at most, counted in the same way, or 1,000,000 where they are more.
pub fn events(block: &Block) -> u64
    ensures { result ≡ min limit (events_of block.now) }
{
    LIMIT - statements(0, 1, lists::stmt::as_slice(&block.statements), LIMIT)
}

/// What the statements leave of a budget, where a choice takes so much and a call so much.
#[cycle(steps)]
fn statements(choice: u64, call: u64, statements: &[Stmt], left: u64) -> u64
    requires { left ≤ limit }
    ensures { result ≡ left - sum (map (stmt_steps choice call) statements.now) }
{
    let mut rest = left;
    for one in statements {
        rest = statement(choice, call, one, rest);
    }
    rest
}

/// What a statement leaves of a budget.
#[cycle(steps)]
fn statement(choice: u64, call: u64, one: &Stmt, left: u64) -> u64
    requires { left ≤ limit }
    ensures { result ≡ left - stmt_steps choice call one.now }
{
    match one {
        Stmt::Let(_, from) => source(choice, call, from, left),
        Stmt::Assign(_, _, from) => source(choice, call, from, left),
        Stmt::If(_, first, second) => {
            let rest = statements(choice, call, lists::stmt::as_slice(&first.statements), left);
            statements(
                choice,
                call,
                lists::stmt::as_slice(&second.statements),
                rest,
            )
        }
        Stmt::For(_, _, count, each) => {
            let after_one = statements(choice, call, lists::stmt::as_slice(&each.statements), left);
            repeated(left, count.value, after_one)
        }
        Stmt::Call(_, _) => left.saturating_sub(call),
    }
}

/// What a right side leaves of a budget.
fn source(choice: u64, call: u64, from: &Source, left: u64) -> u64
    ensures { result ≡ left - source_steps choice call from.now }
{
    match from {
        Source::Value(_) => left,
        Source::Choose(_) => left.saturating_sub(choice),
        Source::Call(_, _, _) => left.saturating_sub(call),
    }
}
