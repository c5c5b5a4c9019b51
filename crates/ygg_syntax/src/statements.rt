//! Whether statements and blocks are the same but for places.

ghost use Rattle.std.specs.Prelude.{◌≡◌, IsTrue, ◌↔◌, map};
ghost use Rattle.ygg_syntax.specs.Bare.{bare_source, bare_index, bare_statement, bare_block};

use crate::expressions::{call, expression, name, range};
use crate::lists;
use crate::parts::{Alike, items, optional};
use crate::tree::{Block, Index, Source, Stmt};

impl Alike for Index {
    ghost without_places = { bare_index };

    fn same(&self, other: &Index) -> bool {
        expression(&self.at, &other.at)
    }
}

impl Alike for Block {
    ghost without_places = { bare_block };

    fn same(&self, other: &Block) -> bool {
        block(self, other)
    }
}

/// Whether the blocks are the same.
#[cycle(blocks)]
pub fn block(a: &Block, b: &Block) -> bool
    ensures { IsTrue result ↔ (bare_block a.now ≡ bare_block b.now) }
{
    statements(
        lists::stmt::as_slice(&a.statements),
        lists::stmt::as_slice(&b.statements),
    ) && optional(&a.answer, &b.answer)
}

/// Whether there are as many statements, each the same.
#[cycle(blocks)]
fn statements(a: &[Stmt], b: &[Stmt]) -> bool
    ensures { IsTrue result ↔ (map bare_statement a.now ≡ map bare_statement b.now) }
{
    let mut rest = b;
    for one in a {
        let Some((other, others)) = rest.split_first() else {
            return false;
        };
        if !statement(one, other) {
            return false;
        }
        rest = others;
    }
    rest.is_empty()
}

/// Whether the statements are the same.
#[cycle(blocks)]
fn statement(a: &Stmt, b: &Stmt) -> bool
    ensures { IsTrue result ↔ (bare_statement a.now ≡ bare_statement b.now) }
{
    match (a, b) {
        (Stmt::Let(x, e), Stmt::Let(y, d)) => name(x, y) && source(e, d),
        (Stmt::Assign(x, places, e), Stmt::Assign(y, others, d)) => {
            name(x, y)
                && (items(
                    lists::index::as_slice(places),
                    lists::index::as_slice(others),
                ) && source(e, d))
        }
        (Stmt::If(e, f, g), Stmt::If(d, h, k)) => expression(e, d) && (block(f, h) && block(g, k)),
        (Stmt::For(x, w, n, f), Stmt::For(y, v, m, g)) => range(x, w, n, y, v, m) && block(f, g),
        (Stmt::Call(f, es), Stmt::Call(g, ds)) => call(f, es, g, ds),
        _ => false,
    }
}

/// Whether the right sides are the same.
fn source(a: &Source, b: &Source) -> bool
    ensures { IsTrue result ↔ (bare_source a.now ≡ bare_source b.now) }
{
    match (a, b) {
        (Source::Value(e), Source::Value(d)) => expression(e, d),
        (Source::Choose(_), Source::Choose(_)) => true,
        (Source::Call(_, f, es), Source::Call(_, g, ds)) => call(f, es, g, ds),
        _ => false,
    }
}
