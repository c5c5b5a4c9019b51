//! What a block or an expression leaves of a budget, over definitions that are searched for and weighed again at each use, or over a table of their weights.

ghost use Rattle.std.specs.Prelude.{◌≡◌, ◌≤◌, ◌-◌, min, sum, map, IfSome, IfNone};
ghost use Rattle.ygg_syntax.specs.Budget.{limit};
ghost use Rattle.ygg_syntax.specs.WeightSources.{known_weights};
ghost use Rattle.ygg_syntax.specs.Weights.{
  weights_of,
  weight_at,
  expr_weight,
  exprs_weight,
  indices_weight,
  source_weight,
  answer_weight,
  stmt_weight,
  block_weight,
  weight_in,
};
ghost use Rattle.ygg_syntax.specs.Definitions.{WeighsAsAt};

use crate::budget::{LIMIT, repeated};
use crate::lists;
use crate::table::Weights;
use crate::tree::{Block, Def, Expr, File, Index, Source, Stmt};

/// Where the weight of a name's definition is found.
#[derive(Clone, Copy)]
pub enum WeightSource<'a, 'b> {
    /// Among definitions, whose expressions are weighed at each use, each over those before it. This takes no memory.
    Defs(&'a [Def]),
    /// In a table, where it was counted once.
    Table(&'a Weights<'b>),
}

/// The weight of a block of a layer of the file, or 1,000,000 where it is more: one for each part, what is repeated as often,
/// and for each use of a definition the weight of its expression besides. The time is that of as many steps, and of the
/// searches for the definitions.
pub fn weight(file: &File, block: &Block) -> u64
    ensures { result ≡ min limit (weight_in file.now block.now) }
{
    LIMIT
        - self::block(
            WeightSource::Defs(lists::def::as_slice(&file.defs)),
            block,
            LIMIT,
        )
}

/// What a block leaves of a budget.
#[cycle(blocks)]
pub fn block(known: WeightSource<'_, '_>, block: &Block, left: u64) -> u64
    requires { left ≤ limit }
    ensures { result ≡ left - block_weight (known_weights known.entry) block.now }
{
    let rest = statements(known, lists::stmt::as_slice(&block.statements), left);
    answer(known, &block.answer, rest)
}

/// What statements leave of a budget.
#[cycle(blocks)]
fn statements(known: WeightSource<'_, '_>, statements: &[Stmt], left: u64) -> u64
    requires { left ≤ limit }
    ensures { result ≡ left - sum (map (stmt_weight (known_weights known.entry)) statements.now) }
{
    let mut rest = left;
    for one in statements {
        rest = statement(known, one, rest);
    }
    rest
}

/// What a statement leaves of a budget.
#[cycle(blocks)]
fn statement(known: WeightSource<'_, '_>, statement: &Stmt, left: u64) -> u64
    requires { left ≤ limit }
    ensures { result ≡ left - stmt_weight (known_weights known.entry) statement.now }
{
    if left == 0 {
        return 0;
    }
    match statement {
        Stmt::Let(_, from) => source(known, from, left - 1),
        Stmt::Assign(_, indices, from) => {
            let rest = self::indices(known, lists::index::as_slice(indices), left - 1);
            source(known, from, rest)
        }
        Stmt::If(test, first, second) => {
            let rest = expression(known, test, left - 1);
            let rest = block(known, first, rest);
            block(known, second, rest)
        }
        Stmt::For(_, _, count, each) => {
            let after_one = block(known, each, (left - 1).saturating_sub(1));
            repeated(left - 1, count.value, after_one)
        }
        Stmt::Call(_, arguments) => expressions(known, lists::expr::as_slice(arguments), left - 1),
    }
}

/// What a right side leaves of a budget.
fn source(known: WeightSource<'_, '_>, from: &Source, left: u64) -> u64
    requires { left ≤ limit }
    ensures { result ≡ left - source_weight (known_weights known.entry) from.now }
{
    match from {
        Source::Value(e) => expression(known, e, left),
        Source::Choose(_) => left.saturating_sub(1),
        Source::Call(_, _, arguments) => expressions(
            known,
            lists::expr::as_slice(arguments),
            left.saturating_sub(1),
        ),
    }
}

/// What the indices of an assignment leave of a budget.
fn indices(known: WeightSource<'_, '_>, indices: &[Index], left: u64) -> u64
    requires { left ≤ limit }
    ensures { result ≡ left - indices_weight (known_weights known.entry) indices.now }
{
    let mut rest = left;
    for index in indices {
        rest = expression(known, &index.at, rest);
    }
    rest
}

/// What a block's answer leaves of a budget.
fn answer(known: WeightSource<'_, '_>, answer: &Option<Expr>, left: u64) -> u64
    requires { left ≤ limit }
    ensures { result ≡ left - answer_weight (known_weights known.entry) answer.now }
{
    match answer {
        None => left,
        Some(e) => expression(known, e, left.saturating_sub(1)),
    }
}

/// What expressions leave of a budget.
#[cycle(expression)]
fn expressions(known: WeightSource<'_, '_>, expressions: &[Expr], left: u64) -> u64
    requires { left ≤ limit }
    ensures { result ≡ left - exprs_weight (known_weights known.entry) expressions.now }
{
    let mut rest = left;
    for e in expressions {
        rest = expression(known, e, rest);
    }
    rest
}

/// What an expression leaves of a budget.
#[cycle(expression)]
pub fn expression(known: WeightSource<'_, '_>, e: &Expr, left: u64) -> u64
    requires { left ≤ limit }
    ensures { result ≡ left - expr_weight (known_weights known.entry) e.now }
{
    if left == 0 {
        return 0;
    }
    let rest = left - 1;
    match e {
        Expr::Constant(_, _) => rest,
        Expr::Low(_, _) => rest,
        Expr::Variable(_) => rest,
        Expr::Apply(f, arguments) => {
            let rest = expressions(known, lists::expr::as_slice(arguments), rest);
            definition(known, f.text.as_slice(), rest)
        }
        Expr::Binary(_, first, _, _, second) => {
            let rest = expression(known, lists::expr::get(first), rest);
            expression(known, lists::expr::get(second), rest)
        }
        Expr::Not(_, part) => expression(known, lists::expr::get(part), rest),
        Expr::At(whole, _, index) => {
            let rest = expression(known, lists::expr::get(whole), rest);
            expression(known, lists::expr::get(index), rest)
        }
        Expr::Pick(_, test, first, second) => {
            let rest = expression(known, lists::expr::get(test), rest);
            let rest = expression(known, lists::expr::get(first), rest);
            expression(known, lists::expr::get(second), rest)
        }
        Expr::Resize(_, part, _) => expression(known, lists::expr::get(part), rest),
        Expr::Fill(_, _, part) => expression(known, lists::expr::get(part), rest),
        Expr::Row(_, parts) => expressions(known, lists::expr::as_slice(parts), rest),
        Expr::Quantified(_, _, _, _, count, part) => {
            if count.value == 0 {
                return rest;
            }
            let after_one = expression(known, lists::expr::get(part), rest.saturating_sub(1));
            repeated(rest, count.value, after_one)
        }
    }
}

/// What the expression of a name's definition leaves of a budget.
#[cycle(expression)]
fn definition(known: WeightSource<'_, '_>, name: &[u8], left: u64) -> u64
    requires { left ≤ limit }
    ensures { result ≡ left - weight_at (known_weights known.entry) name.now }
{
    match known {
        WeightSource::Defs(defs) => match first_of(defs, name) {
            Some(place) => expression(WeightSource::Defs(&defs[..place]), &defs[place].body, left),
            None => left,
        },
        WeightSource::Table(table) => left.saturating_sub(table.first_of(name)),
    }
}

/// The place of the first definition of the name, which is the one that counts.
fn first_of(defs: &[Def], name: &[u8]) -> Option<usize>
    ensures some { IfSome result (λ place. WeighsAsAt defs.now name.now place) }
    ensures none { IfNone result (weight_at (weights_of defs.now) name.now ≡ 0) }
{
    for (place, def) in defs.iter().enumerate() {
        if def.name.text.as_slice() == name {
            return Some(place);
        }
    }
    None
}
