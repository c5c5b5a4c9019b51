ghost use Rattle.std.specs.Prelude.{◌≡◌, ◌<◌, ◌≤◌, [], ◌∷◌, ◌++◌, length, map};
ghost use Rattle.ygg_base.specs.declared.token.Keyword.TheVariants as word;
ghost use Rattle.ygg_base.specs.declared.token.Mark.TheVariants as mark;
ghost use Rattle.ygg_syntax.specs.declared.grammar.BlockKind.TheVariants.{Impl};
ghost use Rattle.ygg_syntax.specs.Reading.{token, in_turn};
ghost use Rattle.ygg_syntax.specs.Blocks.{optional};
ghost use Rattle.ygg_syntax.specs.Files.{variable, tick, layer, layers, crash_block};
ghost use Rattle.ygg_syntax.specs.Pending.{perhaps, repeated, rest_of_variable, rest_of_layer, word_of};
ghost use Rattle.ygg_syntax.specs.Pending as pending;
ghost use Rattle.ygg_read.specs.ExpressionSteps.{Reads, Goes, Stops, IfRead, OnRead, IfRefused};
ghost use Rattle.ygg_read.specs.Steps.{ForPart};
ghost use Rattle.ygg_read.specs.LayerParts.{ForRepeated, claims_pending, claims_read};
ghost use Rattle.ygg_read.specs.Parts.{setup_pending, setup_read, steps_pending, steps_read};

use crate::Reader;
use crate::blocks::{block, optional, unwritten};
use crate::both::{added, part};
use crate::claims::{LayerClaims, claims};
use crate::operations::{operations, ticks};
use crate::variables::variables;
use sqlite_items::Items;
use ygg_base::{Keyword, Symbol};
use ygg_list::NoMemory;
use ygg_syntax::grammar::BlockKind;
use ygg_syntax::tree::{Block, Declared, Layer, Operation, Place, Tick};

/// The variables of a layer and the blocks that set them up.
#[derive(Drop)]
struct LayerSetup {
    state: Items<Declared>,
    start: Block,
    memory: Items<Declared>,
    format: Block,
}

/// What a layer does.
#[derive(Drop)]
struct LayerSteps {
    operations: Items<Operation>,
    crash_place: Place,
    crash: Block,
    ticks: Items<Tick>,
    recover: Block,
}

/// Reads one layer or more.
pub fn layers(reader: &mut Reader<'_>) -> Result<Option<Items<Layer>>, NoMemory>
    ensures reads { IfRead result (λ ls. Reads (layers ls ∷ []) reader.old reader.new) }
    ensures goes { OnRead result (Goes (word_of word.Layer ∷ rest_of_layer ++ repeated pending.next_layer ∷ []) reader.old reader.new) }
    ensures refused { IfRefused result (Stops (word_of word.Layer ∷ rest_of_layer ++ repeated pending.next_layer ∷ []) reader.old reader.new) }
{
    let Some(place) = reader.keyword(Keyword::Layer) else {
        return Ok(None);
    };
    let none = Items::new(reader.alloc());
    let Some(first) = added(none, layer(reader, place))? else {
        return Ok(None);
    };
    let mut all = first;
    while let Some(place) = reader.keyword(Keyword::Layer) {
        let Some(more) = added(all, layer(reader, place))? else {
            return Ok(None);
        };
        all = more;
    }
    Ok(Some(all))
}

/// Reads what follows the keyword of a layer, which stands at this place.
fn layer(reader: &mut Reader<'_>, place: Place) -> Result<Option<Layer>, NoMemory>
    ensures reads { IfRead result (λ l. Reads (layer l ∷ []) (token (mark.Keyword word.Layer) place ∷ reader.old) reader.new) }
    ensures goes { OnRead result (Goes rest_of_layer reader.old reader.new) }
    ensures refused { IfRefused result (Stops rest_of_layer reader.old reader.new) }
    ensures shorter { OnRead result (length reader.new < length reader.old) }
{
    let name = part!(reader.name_before(Symbol::BraceOpen));
    let parts = part!(parts(reader));
    let (setup, (steps, claims)) = parts;
    Ok(Some(Layer {
        place,
        name,
        state: setup.state,
        start: setup.start,
        memory: setup.memory,
        format: setup.format,
        operations: steps.operations,
        crash_place: steps.crash_place,
        crash: steps.crash,
        ticks: steps.ticks,
        recover: steps.recover,
        relate: claims.relate,
        always: claims.always,
        settled: claims.settled,
        maybe: claims.maybe,
    }))
}

/// Reads what stands in the braces of a layer, and the last of them.
fn parts(
    reader: &mut Reader<'_>,
) -> Result<Option<(LayerSetup, (LayerSteps, LayerClaims))>, NoMemory>
    ensures reads { IfRead result (λ read. Reads (setup_read read.0 ++ (steps_read read.1.0 ++ claims_read read.1.1)) reader.old reader.new) }
    ensures goes { OnRead result (Goes (setup_pending ++ (steps_pending ++ claims_pending)) reader.old reader.new) }
    ensures refused { IfRefused result (Stops (setup_pending ++ (steps_pending ++ claims_pending)) reader.old reader.new) }
    ensures shorter { OnRead result (length reader.new ≤ length reader.old) }
{
    let setup = part!(setup(reader));
    let rest = part!(code(reader));
    Ok(Some((setup, rest)))
}

/// Reads the variables of a layer and the blocks that set them up.
fn setup(reader: &mut Reader<'_>) -> Result<Option<LayerSetup>, NoMemory>
    ensures reads { IfRead result (λ s. Reads (setup_read s) reader.old reader.new) }
    ensures goes { OnRead result (Goes setup_pending reader.old reader.new) }
    ensures refused { IfRefused result (Stops setup_pending reader.old reader.new) }
    ensures shorter { OnRead result (length reader.new ≤ length reader.old) }
{
    let seen = part!(variables_and_block(reader, Keyword::State, Keyword::Start, BlockKind::Plain));
    let unseen = part!(variables_and_block(
        reader,
        Keyword::Memory,
        Keyword::Format,
        BlockKind::Impl
    ));
    let (state, start) = seen;
    let (memory, format) = unseen;
    Ok(Some(LayerSetup {
        state,
        start,
        memory,
        format,
    }))
}

/// Reads as many variables as come, each after one keyword, and the block after the other keyword or nothing.
fn variables_and_block(
    reader: &mut Reader<'_>,
    each: Keyword,
    setup: Keyword,
    kind: BlockKind,
) -> Result<Option<(Items<Declared>, Block)>, NoMemory>
    ensures reads { IfRead result (λ read. Reads (in_turn (map (variable each) read.0) ∷ optional setup kind read.1 ∷ []) reader.old reader.new) }
    ensures goes { OnRead result (ForRepeated each rest_of_variable (λ p. ForPart setup kind (λ q. Goes (repeated p ∷ perhaps q ∷ []) reader.old reader.new))) }
    ensures refused { IfRefused result (ForRepeated each rest_of_variable
        (λ p. ForPart setup kind (λ q. Stops (repeated p ∷ perhaps q ∷ []) reader.old reader.new))) }
    ensures shorter { OnRead result (length reader.new ≤ length reader.old) }
{
    let all = part!(variables(reader, each));
    let block = part!(optional(reader, setup, kind));
    Ok(Some((all, block)))
}

/// Reads what a layer does and what it claims.
fn code(reader: &mut Reader<'_>) -> Result<Option<(LayerSteps, LayerClaims)>, NoMemory>
    ensures reads { IfRead result (λ read. Reads (steps_read read.0 ++ claims_read read.1) reader.old reader.new) }
    ensures goes { OnRead result (Goes (steps_pending ++ claims_pending) reader.old reader.new) }
    ensures refused { IfRefused result (Stops (steps_pending ++ claims_pending) reader.old reader.new) }
    ensures shorter { OnRead result (length reader.new ≤ length reader.old) }
{
    let steps = part!(steps(reader));
    let claims = part!(claims(reader));
    Ok(Some((steps, claims)))
}

/// Reads what a layer does.
fn steps(reader: &mut Reader<'_>) -> Result<Option<LayerSteps>, NoMemory>
    ensures reads { IfRead result (λ s. Reads (steps_read s) reader.old reader.new) }
    ensures goes { OnRead result (Goes steps_pending reader.old reader.new) }
    ensures refused { IfRefused result (Stops steps_pending reader.old reader.new) }
    ensures shorter { OnRead result (length reader.new ≤ length reader.old) }
{
    let operations = part!(operations(reader));
    let after = part!(after_operations(reader));
    let ((crash_place, crash), (ticks, recover)) = after;
    Ok(Some(LayerSteps {
        operations,
        crash_place,
        crash,
        ticks,
        recover,
    }))
}

/// A block and the place of its keyword, and background steps and the block that recovers.
type AfterOperations = ((Place, Block), (Items<Tick>, Block));

/// Reads what a layer does after its operations.
fn after_operations(reader: &mut Reader<'_>) -> Result<Option<AfterOperations>, NoMemory>
    ensures reads { IfRead result (λ read. Reads (crash_block read.0.0 read.0.1 ∷ in_turn (map tick read.1.0) ∷ optional word.Recover Impl read.1.1 ∷
        []) reader.old reader.new) }
    ensures goes { OnRead result (Goes (perhaps pending.crash_block ∷ repeated pending.tick ∷ perhaps pending.recover_block ∷ []) reader.old reader.new) }
    ensures refused { IfRefused result (Stops (perhaps pending.crash_block ∷ repeated pending.tick ∷ perhaps pending.recover_block ∷ []) reader.old
        reader.new) }
    ensures shorter { OnRead result (length reader.new ≤ length reader.old) }
{
    let crash = part!(crash(reader));
    let rest = part!(ticks_and_recover(reader));
    Ok(Some((crash, rest)))
}

/// Reads the keyword `crash` and its block, or nothing where the keyword doesn't come.
fn crash(reader: &mut Reader<'_>) -> Result<Option<(Place, Block)>, NoMemory>
    ensures reads { IfRead result (λ read. Reads (crash_block read.0 read.1 ∷ []) reader.old reader.new) }
    ensures goes { OnRead result (Goes (perhaps pending.crash_block ∷ []) reader.old reader.new) }
    ensures refused { IfRefused result (Stops (perhaps pending.crash_block ∷ []) reader.old reader.new) }
    ensures shorter { OnRead result (length reader.new ≤ length reader.old) }
{
    let Some(place) = reader.keyword(Keyword::Crash) else {
        let nowhere = Place { line: 0, column: 0 };
        return Ok(Some((nowhere, unwritten(reader.alloc()))));
    };
    let block = part!(block(reader, BlockKind::Spec));
    Ok(Some((place, block)))
}

/// Reads the background steps and the block that recovers.
fn ticks_and_recover(reader: &mut Reader<'_>) -> Result<Option<(Items<Tick>, Block)>, NoMemory>
    ensures reads { IfRead result (λ read. Reads (in_turn (map tick read.0) ∷ optional word.Recover Impl read.1 ∷ []) reader.old reader.new) }
    ensures goes { OnRead result (Goes (repeated pending.tick ∷ perhaps pending.recover_block ∷ []) reader.old reader.new) }
    ensures refused { IfRefused result (Stops (repeated pending.tick ∷ perhaps pending.recover_block ∷ []) reader.old reader.new) }
    ensures shorter { OnRead result (length reader.new ≤ length reader.old) }
{
    let all = part!(ticks(reader));
    let recover = part!(optional(reader, Keyword::Recover, BlockKind::Impl));
    Ok(Some((all, recover)))
}
