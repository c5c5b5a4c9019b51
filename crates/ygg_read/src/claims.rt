ghost use Rattle.std.specs.Prelude.{◌≡◌, ◌<◌, ◌≤◌, [], ◌∷◌, length, map};
ghost use Rattle.ygg_base.specs.declared.token.Keyword.{Keyword};
ghost use Rattle.ygg_base.specs.declared.token.Keyword.TheVariants as word;
ghost use Rattle.ygg_base.specs.declared.token.Symbol.TheVariants as sign;
ghost use Rattle.ygg_base.specs.declared.token.Mark.TheVariants as mark;
ghost use Rattle.ygg_syntax.specs.Reading.{in_turn};
ghost use Rattle.ygg_syntax.specs.Files.{claim};
ghost use Rattle.ygg_syntax.specs.Expressions.{symbol};
ghost use Rattle.ygg_syntax.specs.Pending.{repeated, sign_of, word_of};
ghost use Rattle.ygg_syntax.specs.Pending as pending;
ghost use Rattle.ygg_read.specs.ExpressionSteps.{Reads, Goes, Stops, IfRead, OnRead, IfRefused};
ghost use Rattle.ygg_read.specs.LayerParts.{ReadsAfter, ForRepeated, rest_of_claim, claims_pending, claims_read};

use crate::Reader;
use crate::both::{added, both};
use crate::parts::expression_before;
use sqlite_items::Items;
use ygg_base::{Keyword, Symbol};
use ygg_list::NoMemory;
use ygg_syntax::tree::Expr;

/// What a layer claims.
#[derive(Drop)]
pub struct LayerClaims {
    pub relate: Expr,
    pub always: Items<Expr>,
    pub settled: Items<Expr>,
    pub maybe: Items<Expr>,
}

/// Reads the claims of a layer and the brace after them.
pub fn claims(reader: &mut Reader<'_>) -> Result<Option<LayerClaims>, NoMemory>
    ensures reads { IfRead result (λ c. Reads (claims_read c) reader.old reader.new) }
    ensures goes { OnRead result (Goes claims_pending reader.old reader.new) }
    ensures refused { IfRefused result (Stops claims_pending reader.old reader.new) }
    ensures shorter { OnRead result (length reader.new ≤ length reader.old) }
{
    let Some(relate) = relation(reader)? else {
        return Ok(None);
    };
    let Some((relate, rest)) = both(relate, from_always(reader))? else {
        return Ok(None);
    };
    let (always, (settled, maybe)) = rest;
    Ok(Some(LayerClaims {
        relate,
        always,
        settled,
        maybe,
    }))
}

/// Reads the relation of a layer.
fn relation(reader: &mut Reader<'_>) -> Result<Option<Expr>, NoMemory>
    ensures reads { IfRead result (λ e. Reads (claim word.Relate e ∷ []) reader.old reader.new) }
    ensures goes { OnRead result (Goes (word_of word.Relate ∷ rest_of_claim) reader.old reader.new) }
    ensures refused { IfRefused result (Stops (word_of word.Relate ∷ rest_of_claim) reader.old reader.new) }
    ensures shorter { OnRead result (length reader.new ≤ length reader.old) }
{
    let Some(_) = reader.keyword(Keyword::Relate) else {
        return Ok(None);
    };
    rest_of_claim(reader)
}

/// Reads the claims after the relation, and the brace after them.
fn from_always(
    reader: &mut Reader<'_>,
) -> Result<Option<(Items<Expr>, (Items<Expr>, Items<Expr>))>, NoMemory>
    ensures reads { IfRead result (λ read. Reads (in_turn (map (claim word.Always) read.0) ∷ in_turn (map (claim word.Settled) read.1.0) ∷ in_turn
        (map (claim word.Maybe) read.1.1) ∷ symbol sign.BraceClose ∷ []) reader.old reader.new) }
    ensures goes { OnRead result (Goes (repeated pending.always ∷ repeated pending.settled ∷ repeated pending.maybe ∷ sign_of sign.BraceClose ∷ [])
        reader.old reader.new) }
    ensures refused { IfRefused result (Stops (repeated pending.always ∷ repeated pending.settled ∷ repeated pending.maybe ∷ sign_of sign.BraceClose ∷
        []) reader.old reader.new) }
    ensures shorter { OnRead result (length reader.new ≤ length reader.old) }
{
    let Some(always) = repeated(reader, Keyword::Always)? else {
        return Ok(None);
    };
    both(always, from_settled(reader))
}

/// Reads the claims on the settled state and those that may hold, and the brace after them.
fn from_settled(reader: &mut Reader<'_>) -> Result<Option<(Items<Expr>, Items<Expr>)>, NoMemory>
    ensures reads { IfRead result (λ read. Reads (in_turn (map (claim word.Settled) read.0) ∷ in_turn (map (claim word.Maybe) read.1)
        ∷ symbol sign.BraceClose ∷ []) reader.old reader.new) }
    ensures goes { OnRead result (Goes (repeated pending.settled ∷ repeated pending.maybe ∷ sign_of sign.BraceClose ∷ []) reader.old reader.new) }
    ensures refused { IfRefused result (Stops (repeated pending.settled ∷ repeated pending.maybe ∷ sign_of sign.BraceClose ∷ []) reader.old reader.new) }
    ensures shorter { OnRead result (length reader.new ≤ length reader.old) }
{
    let Some(settled) = repeated(reader, Keyword::Settled)? else {
        return Ok(None);
    };
    both(settled, from_maybe(reader))
}

/// Reads the claims that may hold, and the brace after them.
fn from_maybe(reader: &mut Reader<'_>) -> Result<Option<Items<Expr>>, NoMemory>
    ensures reads { IfRead result (λ es. Reads (in_turn (map (claim word.Maybe) es) ∷ symbol sign.BraceClose ∷ []) reader.old reader.new) }
    ensures goes { OnRead result (Goes (repeated pending.maybe ∷ sign_of sign.BraceClose ∷ []) reader.old reader.new) }
    ensures refused { IfRefused result (Stops (repeated pending.maybe ∷ sign_of sign.BraceClose ∷ []) reader.old reader.new) }
    ensures shorter { OnRead result (length reader.new ≤ length reader.old) }
{
    let Some(maybe) = repeated(reader, Keyword::Maybe)? else {
        return Ok(None);
    };
    Ok(reader.symbol_after(maybe, Symbol::BraceClose))
}

/// Reads as many claims as come, each after this keyword.
fn repeated(reader: &mut Reader<'_>, keyword: Keyword) -> Result<Option<Items<Expr>>, NoMemory>
    ensures reads { IfRead result (λ es. Reads (in_turn (map (claim keyword) es) ∷ []) reader.old reader.new) }
    ensures goes { OnRead result (ForRepeated keyword rest_of_claim (λ p. Goes (repeated p ∷ []) reader.old reader.new)) }
    ensures refused { IfRefused result (ForRepeated keyword rest_of_claim (λ p. Stops (repeated p ∷ []) reader.old reader.new)) }
    ensures shorter { OnRead result (length reader.new ≤ length reader.old) }
{
    let mut all = Items::new(reader.alloc());
    while let Some(_) = reader.keyword(keyword) {
        let Some(more) = added(all, rest_of_claim(reader))? else {
            return Ok(None);
        };
        all = more;
    }
    Ok(Some(all))
}

/// Reads what follows the keyword of a claim.
fn rest_of_claim(reader: &mut Reader<'_>) -> Result<Option<Expr>, NoMemory>
    ensures reads { IfRead result (λ e. (k : Keyword) → ReadsAfter (mark.Keyword k) (claim k e) reader.old reader.new) }
    ensures goes { OnRead result (Goes rest_of_claim reader.old reader.new) }
    ensures refused { IfRefused result (Stops rest_of_claim reader.old reader.new) }
    ensures shorter { OnRead result (length reader.new < length reader.old) }
{
    expression_before(reader, Symbol::Semicolon)
}
