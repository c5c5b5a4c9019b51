//! What blocks are made of, but for the statements that have blocks inside.

ghost use Rattle.std.specs.Prelude.{◌≡◌, ◌<◌, ◌≤◌, List, [], ◌∷◌, length};
ghost use Rattle.ygg_base.specs.declared.token.Keyword.TheVariants as word;
ghost use Rattle.ygg_base.specs.declared.token.Symbol.TheVariants as sign;
ghost use Rattle.ygg_base.specs.declared.token.Mark.TheVariants as mark;
ghost use Rattle.ygg_syntax.specs.declared.grammar.BlockKind.TheVariants as purpose;
ghost use Rattle.ygg_syntax.specs.Reading.{token, in_turn};
ghost use Rattle.ygg_syntax.specs.Expressions.{expr, symbol, keyword};
ghost use Rattle.ygg_syntax.specs.Blocks.{statement, source_in, indices_of};
ghost use Rattle.ygg_syntax.specs.Pending as pending;
ghost use Rattle.ygg_read.specs.ExpressionSteps.{Reads, Goes, Stops, IfRead, OnRead, IfRefused};
ghost use Rattle.ygg_read.specs.Steps.{ReadsAfter, begins};

use crate::Reader;
use crate::both::{added, part};
use sqlite_items::Items;
use ygg_base::{Keyword, Mark, Symbol};
use ygg_list::NoMemory;
use ygg_syntax::grammar::BlockKind;
use ygg_syntax::tree::{Expr, Index, Name, Place, Source, Stmt};

/// Whether a statement begins with the next token.
pub fn begins(reader: &Reader<'_>, kind: BlockKind) -> bool
    ensures { result ≡ begins kind reader.now }
{
    let Some(first) = reader.left().first() else {
        return false;
    };
    match &first.mark {
        Mark::Name(_) => true,
        Mark::Keyword(Keyword::Let | Keyword::If | Keyword::For) => true,
        Mark::Keyword(Keyword::Call) => matches!(kind, BlockKind::Impl),
        _ => false,
    }
}

/// Reads what a block answers, and the brace after it.
pub fn answer(reader: &mut Reader<'_>) -> Result<Option<Expr>, NoMemory>
    ensures reads { IfRead result (λ e. Reads (keyword word.Return ∷ expr e ∷ symbol sign.Semicolon ∷ symbol sign.BraceClose ∷ []) reader.old reader.new) }
    ensures goes { OnRead result (Goes (pending.word_of word.Return ∷ pending.expression ∷ pending.sign_of sign.Semicolon
        ∷ pending.sign_of sign.BraceClose ∷ []) reader.old reader.new) }
    ensures refused { IfRefused result (Stops (pending.word_of word.Return ∷ pending.expression ∷ pending.sign_of sign.Semicolon
        ∷ pending.sign_of sign.BraceClose ∷ []) reader.old reader.new) }
    ensures shorter { OnRead result (length reader.new < length reader.old) }
{
    let Some(_) = reader.keyword(Keyword::Return) else {
        return Ok(None);
    };
    let e = part!(expression_before(reader, Symbol::Semicolon));
    Ok(reader.symbol_after(e, Symbol::BraceClose))
}

/// Reads an expression and this symbol after it.
pub fn expression_before(reader: &mut Reader<'_>, after: Symbol) -> Result<Option<Expr>, NoMemory>
    ensures reads { IfRead result (λ e. Reads (expr e ∷ symbol after ∷ []) reader.old reader.new) }
    ensures goes { OnRead result (Goes (pending.expression ∷ pending.sign_of after ∷ []) reader.old reader.new) }
    ensures refused { IfRefused result (Stops (pending.expression ∷ pending.sign_of after ∷ []) reader.old reader.new) }
    ensures shorter { OnRead result (length reader.new < length reader.old) }
{
    let e = part!(reader.expression());
    Ok(reader.symbol_after(e, after))
}

/// Reads a right side and the semicolon after it.
fn value(reader: &mut Reader<'_>, kind: BlockKind) -> Result<Option<Source>, NoMemory>
    ensures reads { IfRead result (λ s. Reads (source_in kind s ∷ symbol sign.Semicolon ∷ []) reader.old reader.new) }
    ensures goes { OnRead result (Goes (pending.right_side kind ∷ pending.sign_of sign.Semicolon ∷ []) reader.old reader.new) }
    ensures refused { IfRefused result (Stops (pending.right_side kind ∷ pending.sign_of sign.Semicolon ∷ []) reader.old reader.new) }
    ensures shorter { OnRead result (length reader.new < length reader.old) }
{
    let source = part!(reader.source(kind));
    Ok(reader.symbol_after(source, Symbol::Semicolon))
}

/// Reads what follows a `let`.
pub fn binding(reader: &mut Reader<'_>, kind: BlockKind) -> Result<Option<Stmt>, NoMemory>
    ensures reads { IfRead result (λ s. ReadsAfter (mark.Keyword word.Let) kind s reader.old reader.new) }
    ensures goes { OnRead result (Goes (pending.name ∷ pending.sign_of sign.Assign ∷ pending.right_side kind ∷ pending.sign_of sign.Semicolon ∷ [])
        reader.old reader.new) }
    ensures refused { IfRefused result (Stops (pending.name ∷ pending.sign_of sign.Assign ∷ pending.right_side kind ∷ pending.sign_of sign.Semicolon ∷
        []) reader.old reader.new) }
    ensures shorter { OnRead result (length reader.new < length reader.old) }
{
    let name = part!(reader.name_before(Symbol::Assign));
    let source = part!(value(reader, kind));
    Ok(Some(Stmt::Let(name, source)))
}

/// Reads what follows the name that an assignment begins with.
pub fn assignment(
    reader: &mut Reader<'_>,
    kind: BlockKind,
    name: Name,
) -> Result<Option<Stmt>, NoMemory>
    ensures reads { IfRead result (λ s. Reads (statement s kind ∷ []) (token (mark.Name name.text) name.place ∷ reader.old) reader.new) }
    ensures goes { OnRead result (Goes (pending.indices ∷ pending.sign_of sign.Assign ∷ pending.right_side kind ∷ pending.sign_of sign.Semicolon ∷ [])
        reader.old reader.new) }
    ensures refused { IfRefused result (Stops (pending.indices ∷ pending.sign_of sign.Assign ∷ pending.right_side kind
        ∷ pending.sign_of sign.Semicolon ∷ []) reader.old reader.new) }
    ensures shorter { OnRead result (length reader.new < length reader.old) }
{
    let read = part!(indexed_value(reader, kind));
    let (indices, source) = read;
    Ok(Some(Stmt::Assign(name, indices, source)))
}

/// Reads indices, and a right side and the semicolon after it.
fn indexed_value(
    reader: &mut Reader<'_>,
    kind: BlockKind,
) -> Result<Option<(Items<Index>, Source)>, NoMemory>
    ensures reads { IfRead result (λ read. Reads (in_turn (indices_of read.0) ∷ symbol sign.Assign ∷ source_in kind read.1 ∷ symbol sign.Semicolon ∷
        []) reader.old reader.new) }
    ensures goes { OnRead result (Goes (pending.indices ∷ pending.sign_of sign.Assign ∷ pending.right_side kind ∷ pending.sign_of sign.Semicolon ∷ [])
        reader.old reader.new) }
    ensures refused { IfRefused result (Stops (pending.indices ∷ pending.sign_of sign.Assign ∷ pending.right_side kind
        ∷ pending.sign_of sign.Semicolon ∷ []) reader.old reader.new) }
    ensures shorter { OnRead result (length reader.new < length reader.old) }
{
    let indices = part!(indices(reader));
    let Some(_) = reader.symbol(Symbol::Assign) else {
        return Ok(None);
    };
    let source = part!(value(reader, kind));
    Ok(Some((indices, source)))
}

/// Reads as many indices as come.
fn indices(reader: &mut Reader<'_>) -> Result<Option<Items<Index>>, NoMemory>
    ensures reads { IfRead result (λ is. Reads (indices_of is) reader.old reader.new) }
    ensures goes { OnRead result (Goes (pending.indices ∷ []) reader.old reader.new) }
    ensures refused { IfRefused result (Stops (pending.indices ∷ []) reader.old reader.new) }
    ensures shorter { OnRead result (length reader.new ≤ length reader.old) }
{
    let mut read = Items::new(reader.alloc());
    while let Some(bracket) = reader.symbol(Symbol::SquareOpen) {
        let Some(more) = added(read, index(reader, bracket))? else {
            return Ok(None);
        };
        read = more;
    }
    Ok(Some(read))
}

/// Reads what follows the bracket of an index.
fn index(reader: &mut Reader<'_>, bracket: Place) -> Result<Option<Index>, NoMemory>
    ensures reads { IfRead result (λ i. Reads (expr i.at ∷ symbol sign.SquareClose ∷ []) reader.old reader.new) }
    ensures place { IfRead result (λ i. i.bracket ≡ bracket) }
    ensures goes { OnRead result (Goes (pending.expression ∷ pending.sign_of sign.SquareClose ∷ []) reader.old reader.new) }
    ensures refused { IfRefused result (Stops (pending.expression ∷ pending.sign_of sign.SquareClose ∷ []) reader.old reader.new) }
    ensures shorter { OnRead result (length reader.new < length reader.old) }
{
    let at = part!(expression_before(reader, Symbol::SquareClose));
    Ok(Some(Index { bracket, at }))
}

/// Reads what follows a `call` that begins a statement.
pub fn call(reader: &mut Reader<'_>) -> Result<Option<Stmt>, NoMemory>
    ensures reads { IfRead result (λ s. ReadsAfter (mark.Keyword word.Call) purpose.Impl s reader.old reader.new) }
    ensures goes { OnRead result (Goes (pending.name ∷ pending.sign_of sign.RoundOpen ∷ pending.rest_of_arguments ∷ pending.sign_of sign.Semicolon ∷
        []) reader.old reader.new) }
    ensures refused { IfRefused result (Stops (pending.name ∷ pending.sign_of sign.RoundOpen ∷ pending.rest_of_arguments
        ∷ pending.sign_of sign.Semicolon ∷ []) reader.old reader.new) }
    ensures shorter { OnRead result (length reader.new < length reader.old) }
{
    let call = part!(reader.called());
    let Some((name, arguments)) = reader.symbol_after(call, Symbol::Semicolon) else {
        return Ok(None);
    };
    Ok(Some(Stmt::Call(name, arguments)))
}
