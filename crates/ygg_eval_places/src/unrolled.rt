//! How many places a block has in the unrolled text. No machine has memory for 2^64 of them: where there are as many the answer is out of memory.

ghost use Rattle.std.specs.Prelude.{◌≡◌, ◌+◌, ◌*◌, ℕ, IfOk, map};
ghost use Rattle.ygg_meaning_laws.specs.Direct.{block_room, room_of, source_space, stmt_room, total};
ghost use Rattle.ygg_syntax.specs.declared.tree.Stmt.TheFolds.{fold-Stmt};

use crate::places::Places;
use ygg_list::NoMemory;
use ygg_syntax::lists;
use ygg_syntax::tree::{Block, Source, Stmt};

/// How many places the calls and choices of a block have on a machine. Its only error is out of memory.
#[cycle(room)]
pub fn room<W: Places>(machine: &W, b: &Block) -> Result<u64, NoMemory>
    requires serves { (W.means machine.now).Serves }
    ensures room { IfOk result (λ n. n ≡ room_of (W.means machine.now).space b.now) }
{
    rooms(machine, lists::stmt::as_slice(&b.statements))
}

/// Those of statements.
#[cycle(room)]
fn rooms<W: Places>(machine: &W, all: &[Stmt]) -> Result<u64, NoMemory>
    requires serves { (W.means machine.now).Serves }
    ensures { IfOk result (λ n. n
        ≡ total (map (fold-Stmt ℕ ℕ (stmt_room (W.means machine.now).space) (block_room (W.means machine.now).space)) all.now)) }
{
    let mut sum: u64 = 0;
    for s in all {
        let one = statement_room(machine, s)?;
        sum = add(sum, one)?;
    }
    Ok(sum)
}

/// Those of a statement.
#[cycle(room)]
fn statement_room<W: Places>(machine: &W, s: &Stmt) -> Result<u64, NoMemory>
    requires serves { (W.means machine.now).Serves }
    ensures { IfOk result (λ n. n ≡ fold-Stmt ℕ ℕ (stmt_room (W.means machine.now).space) (block_room (W.means machine.now).space) s.now) }
{
    match s {
        Stmt::Let(_, from) => source_room(machine, from),
        Stmt::Assign(_, _, from) => source_room(machine, from),
        Stmt::If(_, first, second) => {
            let one = room(machine, first)?;
            let two = room(machine, second)?;
            add(one, two)
        }
        Stmt::For(_, _, n, each) => {
            let one = room(machine, each)?;
            times(n.value, one)
        }
        Stmt::Call(f, _) => machine.space(&f.text),
    }
}

/// Those of a right side.
pub fn source_room<W: Places>(machine: &W, from: &Source) -> Result<u64, NoMemory>
    requires serves { (W.means machine.now).Serves }
    ensures { IfOk result (λ n. n ≡ source_space (W.means machine.now).space from.now) }
{
    match from {
        Source::Value(_) => Ok(0),
        Source::Choose(_) => Ok(1),
        Source::Call(_, f, _) => machine.space(&f.text),
    }
}

/// The place after those of a block that begin at a place.
pub fn rooms_after<W: Places>(machine: &W, b: &Block, place: u64) -> Result<u64, NoMemory>
    requires serves { (W.means machine.now).Serves }
    ensures { IfOk result (λ end. end ≡ place + room_of (W.means machine.now).space b.now) }
{
    let places = room(machine, b)?;
    add(place, places)
}

/// A place further on.
pub fn add(place: u64, room: u64) -> Result<u64, NoMemory>
    ensures { IfOk result (λ end. end ≡ place + room) }
{
    match place.checked_add(room) {
        Some(end) => Ok(end),
        None => Err(NoMemory),
    }
}

/// So many times the places of a block.
fn times(count: u64, room: u64) -> Result<u64, NoMemory>
    ensures { IfOk result (λ all. all ≡ count * room) }
{
    match count.checked_mul(room) {
        Some(all) => Ok(all),
        None => Err(NoMemory),
    }
}
