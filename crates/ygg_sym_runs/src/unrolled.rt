//! How many places a block has in the unrolled text.

ghost use Rattle.std.specs.Prelude.{map};
ghost use Rattle.ygg_meaning_laws.specs.Direct.{block_room, room_of, source_space, stmt_room, total};
ghost use Rattle.ygg_syntax.specs.declared.tree.Stmt.TheFolds.{fold-Stmt};
ghost use Rattle.std.specs.Prelude.{ℕ};
ghost use Rattle.ygg_sym_runs.specs.Lower.{Counts};

use crate::lower::SymLower;
use ygg_syntax::lists;
use ygg_syntax::tree::{Block, Source, Stmt};

/// How many places the calls and choices of a block have on a machine, where that is below 2^64.
#[cycle(room)]
pub fn room<W: SymLower>(machine: &W, b: &Block) -> Option<u64>
    ensures { Counts (room_of (W.means machine.now).space b.now) result }
{
    rooms(machine, lists::stmt::as_slice(&b.statements))
}

/// Those of statements.
#[cycle(room)]
fn rooms<W: SymLower>(machine: &W, all: &[Stmt]) -> Option<u64>
    ensures { Counts (total (map (fold-Stmt ℕ ℕ (stmt_room (W.means machine.now).space) (block_room (W.means machine.now).space)) all.now)) result }
{
    let mut sum: u64 = 0;
    for s in all {
        let one = statement_room(machine, s)?;
        sum = sum.checked_add(one)?;
    }
    Some(sum)
}

/// Those of a statement.
#[cycle(room)]
fn statement_room<W: SymLower>(machine: &W, s: &Stmt) -> Option<u64>
    ensures { Counts (fold-Stmt ℕ ℕ (stmt_room (W.means machine.now).space) (block_room (W.means machine.now).space) s.now) result }
{
    match s {
        Stmt::Let(_, from) => source_room(machine, from),
        Stmt::Assign(_, _, from) => source_room(machine, from),
        Stmt::If(_, first, second) => {
            let one = room(machine, first)?;
            let two = room(machine, second)?;
            one.checked_add(two)
        }
        Stmt::For(_, _, n, each) => {
            if n.value == 0 {
                return Some(0);
            }
            let one = room(machine, each)?;
            one.checked_mul(n.value)
        }
        Stmt::Call(f, _) => machine.space(f.text.as_slice()),
    }
}

/// Those of a right side.
fn source_room<W: SymLower>(machine: &W, from: &Source) -> Option<u64>
    ensures { Counts (source_space (W.means machine.now).space from.now) result }
{
    match from {
        Source::Value(_) => Some(0),
        Source::Choose(_) => Some(1),
        Source::Call(_, f, _) => machine.space(f.text.as_slice()),
    }
}
