ghost use Rattle.std.specs.Prelude.{◌≡◌, ◌<◌, ◌≤◌, List, [], ◌∷◌, length, map};
ghost use Rattle.ygg_base.specs.declared.token.Keyword.TheVariants as word;
ghost use Rattle.ygg_base.specs.declared.token.Symbol.TheVariants as sign;
ghost use Rattle.ygg_base.specs.declared.token.Mark.TheVariants as mark;
ghost use Rattle.ygg_syntax.specs.declared.grammar.BlockKind.TheVariants.{Spec, Impl};
ghost use Rattle.ygg_syntax.specs.declared.grammar.Sort.TheVariants as sorts;
ghost use Rattle.ygg_syntax.specs.declared.tree.Name.{Name};
ghost use Rattle.ygg_syntax.specs.declared.tree.Declared.{Declared};
ghost use Rattle.ygg_syntax.specs.Reading.{in_turn};
ghost use Rattle.ygg_syntax.specs.Expressions.{keyword};
ghost use Rattle.ygg_syntax.specs.Files.{operation, operation_blocks, on_crash, tick};
ghost use Rattle.ygg_syntax.specs.Blocks.{block, answering};
ghost use Rattle.ygg_syntax.specs.Pending.{some_type, perhaps, repeated, rest_of, word_of};
ghost use Rattle.ygg_syntax.specs.Pending as pending;
ghost use Rattle.ygg_read.specs.ExpressionSteps.{Reads, Goes, Stops, IfRead, OnRead, IfRefused};
ghost use Rattle.ygg_read.specs.LayerParts.{ReadsAfter};
ghost use Rattle.ygg_read.specs.Parts.{operation_of};

use crate::Reader;
use crate::blocks::{answering, block};
use crate::both::{added, part};
use crate::types::type_text;
use crate::variables::named_list;
use sqlite_items::Items;
use ygg_base::{Keyword, Symbol};
use ygg_list::NoMemory;
use ygg_syntax::grammar::{BlockKind, Sort};
use ygg_syntax::tree::{Block, Operation, Tick, TypeText};

/// The answer of an operation and its blocks.
#[derive(Drop)]
struct OperationBlocks {
    answer: Option<TypeText>,
    spec: Block,
    on_crash: Option<Block>,
    implementation: Block,
}

/// Reads as many operations as come.
pub fn operations(reader: &mut Reader<'_>) -> Result<Option<Items<Operation>>, NoMemory>
    ensures reads { IfRead result (λ os. Reads (in_turn (map operation os) ∷ []) reader.old reader.new) }
    ensures goes { OnRead result (Goes (repeated pending.operation ∷ []) reader.old reader.new) }
    ensures refused { IfRefused result (Stops (repeated pending.operation ∷ []) reader.old reader.new) }
    ensures shorter { OnRead result (length reader.new ≤ length reader.old) }
{
    let mut all = Items::new(reader.alloc());
    while let Some(_) = reader.keyword(Keyword::Op) {
        let Some(more) = added(all, rest_of_operation(reader))? else {
            return Ok(None);
        };
        all = more;
    }
    Ok(Some(all))
}

/// Reads what follows the keyword of an operation.
fn rest_of_operation(reader: &mut Reader<'_>) -> Result<Option<Operation>, NoMemory>
    ensures reads { IfRead result (λ o. ReadsAfter (mark.Keyword word.Op) (operation o) reader.old reader.new) }
    ensures goes { OnRead result (Goes (rest_of pending.operation) reader.old reader.new) }
    ensures refused { IfRefused result (Stops (rest_of pending.operation) reader.old reader.new) }
    ensures shorter { OnRead result (length reader.new < length reader.old) }
{
    let head = part!(named_list(reader, Sort::Small));
    let blocks = part!(blocks(reader));
    let (name, arguments) = head;
    let OperationBlocks {
        answer,
        spec,
        on_crash,
        implementation,
    } = blocks;
    Ok(Some(Operation {
        name,
        arguments,
        answer,
        spec,
        on_crash,
        implementation,
    }))
}

/// Reads what follows the arguments of an operation.
fn blocks(reader: &mut Reader<'_>) -> Result<Option<OperationBlocks>, NoMemory>
    ensures reads { IfRead result (λ b. (x : Name) (arguments : List Declared) →
        Reads (operation_blocks (operation_of x arguments b) b.answer ∷ []) reader.old reader.new) }
    ensures goes { OnRead result (Goes (pending.rest_of_operation ∷ []) reader.old reader.new) }
    ensures refused { IfRefused result (Stops (pending.rest_of_operation ∷ []) reader.old reader.new) }
    ensures shorter { OnRead result (length reader.new < length reader.old) }
{
    if let Some(_) = reader.keyword(Keyword::Spec) {
        return silent(reader);
    }
    if let Some(_) = reader.symbol(Symbol::Arrow) {
        return answered(reader);
    }
    Ok(None)
}

/// Reads the blocks of an operation without an answer, after the keyword of the first.
fn silent(reader: &mut Reader<'_>) -> Result<Option<OperationBlocks>, NoMemory>
    ensures reads { IfRead result (λ b. (x : Name) (arguments : List Declared) →
        ReadsAfter (mark.Keyword word.Spec) (operation_blocks (operation_of x arguments b) b.answer) reader.old reader.new) }
    ensures goes { OnRead result (Goes (pending.block Spec ∷ perhaps pending.on_crash ∷ word_of word.Impl ∷ pending.block Impl ∷ []) reader.old reader.new) }
    ensures refused { IfRefused result (Stops (pending.block Spec ∷ perhaps pending.on_crash ∷ word_of word.Impl ∷ pending.block Impl ∷ []) reader.old
        reader.new) }
    ensures shorter { OnRead result (length reader.new < length reader.old) }
{
    let spec = part!(block(reader, BlockKind::Spec));
    let code = part!(silent_code(reader));
    let (on_crash, implementation) = code;
    Ok(Some(OperationBlocks {
        answer: None,
        spec,
        on_crash,
        implementation,
    }))
}

/// Reads what follows the first block of an operation without an answer.
fn silent_code(reader: &mut Reader<'_>) -> Result<Option<(Option<Block>, Block)>, NoMemory>
    ensures reads { IfRead result (λ read. Reads (on_crash read.0 ∷ keyword word.Impl ∷ block Impl read.1 ∷ []) reader.old reader.new) }
    ensures goes { OnRead result (Goes (perhaps pending.on_crash ∷ word_of word.Impl ∷ pending.block Impl ∷ []) reader.old reader.new) }
    ensures refused { IfRefused result (Stops (perhaps pending.on_crash ∷ word_of word.Impl ∷ pending.block Impl ∷ []) reader.old reader.new) }
    ensures shorter { OnRead result (length reader.new < length reader.old) }
{
    let on_crash = part!(crash_case(reader));
    let code = part!(block(reader, BlockKind::Impl));
    Ok(Some((on_crash, code)))
}

/// Reads the answer and the blocks of an operation, after the arrow.
fn answered(reader: &mut Reader<'_>) -> Result<Option<OperationBlocks>, NoMemory>
    ensures reads { IfRead result (λ b. (x : Name) (arguments : List Declared) →
        ReadsAfter (mark.Symbol sign.Arrow) (operation_blocks (operation_of x arguments b) b.answer) reader.old reader.new) }
    ensures goes { OnRead result (Goes (some_type sorts.Small ∷ word_of word.Spec ∷ pending.answering Spec ∷ perhaps pending.on_crash
        ∷ word_of word.Impl ∷ pending.answering Impl ∷ []) reader.old reader.new) }
    ensures refused { IfRefused result (Stops (some_type sorts.Small ∷ word_of word.Spec ∷ pending.answering Spec ∷ perhaps pending.on_crash
        ∷ word_of word.Impl ∷ pending.answering Impl ∷ []) reader.old reader.new) }
    ensures shorter { OnRead result (length reader.new < length reader.old) }
{
    let Some(answer) = type_text(reader, Sort::Small) else {
        return Ok(None);
    };
    let Some(_) = reader.keyword(Keyword::Spec) else {
        return Ok(None);
    };
    let spec = part!(answering(reader, BlockKind::Spec));
    let code = part!(answering_code(reader));
    let (on_crash, implementation) = code;
    Ok(Some(OperationBlocks {
        answer: Some(answer),
        spec,
        on_crash,
        implementation,
    }))
}

/// Reads what follows the first block of an operation with an answer.
fn answering_code(reader: &mut Reader<'_>) -> Result<Option<(Option<Block>, Block)>, NoMemory>
    ensures reads { IfRead result (λ read. Reads (on_crash read.0 ∷ keyword word.Impl ∷ answering Impl read.1 ∷ []) reader.old reader.new) }
    ensures goes { OnRead result (Goes (perhaps pending.on_crash ∷ word_of word.Impl ∷ pending.answering Impl ∷ []) reader.old reader.new) }
    ensures refused { IfRefused result (Stops (perhaps pending.on_crash ∷ word_of word.Impl ∷ pending.answering Impl ∷ []) reader.old reader.new) }
    ensures shorter { OnRead result (length reader.new < length reader.old) }
{
    let on_crash = part!(crash_case(reader));
    let code = part!(answering(reader, BlockKind::Impl));
    Ok(Some((on_crash, code)))
}

/// Reads the block for a crash, where one is written, and the keyword of the implementation.
fn crash_case(reader: &mut Reader<'_>) -> Result<Option<Option<Block>>, NoMemory>
    ensures reads { IfRead result (λ b. Reads (on_crash b ∷ keyword word.Impl ∷ []) reader.old reader.new) }
    ensures goes { OnRead result (Goes (perhaps pending.on_crash ∷ word_of word.Impl ∷ []) reader.old reader.new) }
    ensures refused { IfRefused result (Stops (perhaps pending.on_crash ∷ word_of word.Impl ∷ []) reader.old reader.new) }
    ensures shorter { OnRead result (length reader.new < length reader.old) }
{
    let on_crash = part!(on_crash(reader));
    Ok(reader.keyword_after(on_crash, Keyword::Impl))
}

/// Reads the block for a crash, or nothing where its keyword doesn't come.
fn on_crash(reader: &mut Reader<'_>) -> Result<Option<Option<Block>>, NoMemory>
    ensures reads { IfRead result (λ b. Reads (on_crash b ∷ []) reader.old reader.new) }
    ensures goes { OnRead result (Goes (perhaps pending.on_crash ∷ []) reader.old reader.new) }
    ensures refused { IfRefused result (Stops (perhaps pending.on_crash ∷ []) reader.old reader.new) }
    ensures shorter { OnRead result (length reader.new ≤ length reader.old) }
{
    let Some(_) = reader.keyword(Keyword::On) else {
        return Ok(Some(None));
    };
    let Some(_) = reader.keyword(Keyword::Crash) else {
        return Ok(None);
    };
    let block = part!(block(reader, BlockKind::Spec));
    Ok(Some(Some(block)))
}

/// Reads as many background steps as come.
pub fn ticks(reader: &mut Reader<'_>) -> Result<Option<Items<Tick>>, NoMemory>
    ensures reads { IfRead result (λ ts. Reads (in_turn (map tick ts) ∷ []) reader.old reader.new) }
    ensures goes { OnRead result (Goes (repeated pending.tick ∷ []) reader.old reader.new) }
    ensures refused { IfRefused result (Stops (repeated pending.tick ∷ []) reader.old reader.new) }
    ensures shorter { OnRead result (length reader.new ≤ length reader.old) }
{
    let mut all = Items::new(reader.alloc());
    while let Some(_) = reader.keyword(Keyword::Tick) {
        let Some(more) = added(all, rest_of_tick(reader))? else {
            return Ok(None);
        };
        all = more;
    }
    Ok(Some(all))
}

/// Reads what follows the keyword of a background step.
fn rest_of_tick(reader: &mut Reader<'_>) -> Result<Option<Tick>, NoMemory>
    ensures reads { IfRead result (λ t. ReadsAfter (mark.Keyword word.Tick) (tick t) reader.old reader.new) }
    ensures goes { OnRead result (Goes (rest_of pending.tick) reader.old reader.new) }
    ensures refused { IfRefused result (Stops (rest_of pending.tick) reader.old reader.new) }
    ensures shorter { OnRead result (length reader.new < length reader.old) }
{
    let name = part!(reader.name());
    let body = part!(block(reader, BlockKind::Impl));
    Ok(Some(Tick { name, body }))
}
