//! Blocks, and the statements that have blocks inside.

ghost use Rattle.std.specs.Prelude.{◌≡◌, ◌<◌, ◌≤◌, List, [], ◌∷◌, length, true, false};
ghost use Rattle.ygg_base.specs.declared.token.Keyword.TheVariants as word;
ghost use Rattle.ygg_base.specs.declared.token.Symbol.TheVariants as sign;
ghost use Rattle.ygg_base.specs.declared.token.Mark.TheVariants as mark;
ghost use Rattle.ygg_syntax.specs.Blocks.{statement, block, answering, optional, block_phrase, is_unwritten};
ghost use Rattle.ygg_syntax.specs.Pending as pending;
ghost use Rattle.ygg_read.specs.ExpressionSteps.{Reads, Goes, Stops, IfRead, OnRead, IfRefused};
ghost use Rattle.ygg_read.specs.Steps.{statements_of, ReadsAfter, GoesAsStatement, ForPart, begins};

use crate::both::{added, both};
use crate::{Reader, parts};
use sqlite_items::Items;
use std::alloc::Global;
use ygg_base::{Keyword, Symbol};
use ygg_list::NoMemory;
use ygg_syntax::grammar::BlockKind;
use ygg_syntax::tree::{Block, Place, Stmt};

/// Reads a block without an answer. Where none comes nothing is answered, and the first token that can't come is the next
/// one.
#[cycle(blocks)]
pub fn block(reader: &mut Reader<'_>, kind: BlockKind) -> Result<Option<Block>, NoMemory>
    ensures reads { IfRead result (λ b. Reads (block kind b ∷ []) reader.old reader.new) }
    ensures goes { OnRead result (Goes (pending.block kind ∷ []) reader.old reader.new) }
    ensures refused { IfRefused result (Stops (pending.block kind ∷ []) reader.old reader.new) }
    ensures shorter { OnRead result (length reader.new < length reader.old) }
{
    let Some(place) = reader.symbol(Symbol::BraceOpen) else {
        return Ok(None);
    };
    let Some(statements) = statements(reader, kind)? else {
        return Ok(None);
    };
    let Some(statements) = reader.symbol_after(statements, Symbol::BraceClose) else {
        return Ok(None);
    };
    Ok(Some(Block {
        place,
        statements,
        answer: None,
    }))
}

/// Reads a block that ends with its answer. Where none comes nothing is answered, and the first token that can't come is
/// the next one.
pub fn answering(reader: &mut Reader<'_>, kind: BlockKind) -> Result<Option<Block>, NoMemory>
    ensures reads { IfRead result (λ b. Reads (answering kind b ∷ []) reader.old reader.new) }
    ensures goes { OnRead result (Goes (pending.answering kind ∷ []) reader.old reader.new) }
    ensures refused { IfRefused result (Stops (pending.answering kind ∷ []) reader.old reader.new) }
    ensures shorter { OnRead result (length reader.new < length reader.old) }
{
    let Some(place) = reader.symbol(Symbol::BraceOpen) else {
        return Ok(None);
    };
    let Some(statements) = statements(reader, kind)? else {
        return Ok(None);
    };
    let Some((statements, answer)) = both(statements, parts::answer(reader))? else {
        return Ok(None);
    };
    Ok(Some(Block {
        place,
        statements,
        answer: Some(answer),
    }))
}

/// Reads a keyword and a block, or nothing where the keyword doesn't come. Where a block has to come after the keyword and
/// none does nothing is answered, and the first token that can't come is the next one.
#[cycle(blocks)]
pub fn optional(
    reader: &mut Reader<'_>,
    keyword: Keyword,
    kind: BlockKind,
) -> Result<Option<Block>, NoMemory>
    ensures reads { IfRead result (λ b. Reads (optional keyword kind b ∷ []) reader.old reader.new) }
    ensures goes { OnRead result (ForPart keyword kind (λ p. Goes (pending.perhaps p ∷ []) reader.old reader.new)) }
    ensures refused { IfRefused result (ForPart keyword kind (λ p. Stops (pending.perhaps p ∷ []) reader.old reader.new)) }
    ensures shorter { OnRead result (length reader.new ≤ length reader.old) }
{
    let Some(_) = reader.keyword(keyword) else {
        return Ok(Some(unwritten(reader.alloc())));
    };
    block(reader, kind)
}

/// The block that stands for one that is not written.
pub fn unwritten(alloc: Global) -> Block
    ensures { is_unwritten (block_phrase result) ≡ true }
{
    Block {
        place: Place { line: 0, column: 0 },
        statements: Items::new(alloc),
        answer: None,
    }
}

/// Reads as many statements as come.
#[cycle(blocks)]
fn statements(reader: &mut Reader<'_>, kind: BlockKind) -> Result<Option<Items<Stmt>>, NoMemory>
    ensures reads { IfRead result (λ ss. Reads (statements_of kind ss) reader.old reader.new) }
    ensures goes { OnRead result (Goes (pending.statements kind ∷ []) reader.old reader.new) }
    ensures refused { IfRefused result (Stops (pending.statements kind ∷ []) reader.old reader.new) }
    ensures shorter { OnRead result (length reader.new ≤ length reader.old) }
{
    let mut read = Items::new(reader.alloc());
    while parts::begins(reader, kind) {
        let Some(more) = added(read, statement(reader, kind))? else {
            return Ok(None);
        };
        read = more;
    }
    Ok(Some(read))
}

/// Reads a statement, where one begins.
#[cycle(blocks)]
fn statement(reader: &mut Reader<'_>, kind: BlockKind) -> Result<Option<Stmt>, NoMemory>
    requires { begins kind reader.old ≡ true }
    ensures reads { IfRead result (λ s. Reads (statement s kind ∷ []) reader.old reader.new) }
    ensures goes { OnRead result (GoesAsStatement kind reader.old reader.new) }
    ensures refused { IfRefused result (Stops (pending.statements kind ∷ []) reader.old reader.new) }
    ensures shorter { OnRead result (length reader.new < length reader.old) }
{
    if let Some(name) = reader.name()? {
        return parts::assignment(reader, kind, name);
    }
    if let Some(_) = reader.keyword(Keyword::Let) {
        return parts::binding(reader, kind);
    }
    if let Some(_) = reader.keyword(Keyword::If) {
        return branch(reader, kind);
    }
    if let Some(_) = reader.keyword(Keyword::For) {
        return repetition(reader, kind);
    }
    // in an implementation, since a statement begins so there alone
    if let Some(_) = reader.keyword(Keyword::Call) {
        return parts::call(reader);
    }
    Ok(None)
}

/// Reads what follows an `if`.
#[cycle(blocks)]
fn branch(reader: &mut Reader<'_>, kind: BlockKind) -> Result<Option<Stmt>, NoMemory>
    ensures reads { IfRead result (λ s. ReadsAfter (mark.Keyword word.If) kind s reader.old reader.new) }
    ensures goes { OnRead result (Goes (pending.expression ∷ pending.block kind ∷ pending.perhaps (pending.else_block kind) ∷ []) reader.old reader.new) }
    ensures refused { IfRefused result (Stops (pending.expression ∷ pending.block kind ∷ pending.perhaps (pending.else_block kind) ∷ []) reader.old
        reader.new) }
    ensures shorter { OnRead result (length reader.new < length reader.old) }
{
    let Some(test) = reader.expression()? else {
        return Ok(None);
    };
    let Some(read) = both(test, sides(reader, kind))? else {
        return Ok(None);
    };
    let (test, (first, second)) = read;
    Ok(Some(Stmt::If(test, first, second)))
}

/// Reads the two blocks of an `if`, of which the second may be left out.
#[cycle(blocks)]
fn sides(reader: &mut Reader<'_>, kind: BlockKind) -> Result<Option<(Block, Block)>, NoMemory>
    ensures reads { IfRead result (λ read. Reads (block kind read.0 ∷ optional word.Else kind read.1 ∷ []) reader.old reader.new) }
    ensures goes { OnRead result (Goes (pending.block kind ∷ pending.perhaps (pending.else_block kind) ∷ []) reader.old reader.new) }
    ensures refused { IfRefused result (Stops (pending.block kind ∷ pending.perhaps (pending.else_block kind) ∷ []) reader.old reader.new) }
    ensures shorter { OnRead result (length reader.new < length reader.old) }
{
    let Some(first) = block(reader, kind)? else {
        return Ok(None);
    };
    both(first, optional(reader, Keyword::Else, kind))
}

/// Reads what follows a `for`.
#[cycle(blocks)]
fn repetition(reader: &mut Reader<'_>, kind: BlockKind) -> Result<Option<Stmt>, NoMemory>
    ensures reads { IfRead result (λ s. ReadsAfter (mark.Keyword word.For) kind s reader.old reader.new) }
    ensures goes { OnRead result (Goes (pending.name ∷ pending.sign_of sign.Colon ∷ pending.number ∷ pending.word_of word.Below ∷ pending.number
        ∷ pending.block kind ∷ []) reader.old reader.new) }
    ensures refused { IfRefused result (Stops (pending.name ∷ pending.sign_of sign.Colon ∷ pending.number ∷ pending.word_of word.Below
        ∷ pending.number ∷ pending.block kind ∷ []) reader.old reader.new) }
    ensures shorter { OnRead result (length reader.new < length reader.old) }
{
    let Some(range) = reader.range()? else {
        return Ok(None);
    };
    let Some((range, each)) = both(range, block(reader, kind))? else {
        return Ok(None);
    };
    let (name, width, bound) = range;
    Ok(Some(Stmt::For(name, width, bound, each)))
}
