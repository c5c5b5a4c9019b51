ghost use Rattle.std.specs.Prelude.{◌≡◌, ◌<◌, ◌≤◌, [], ◌∷◌, length, map};
ghost use Rattle.ygg_base.specs.declared.token.Keyword.{Keyword};
ghost use Rattle.ygg_base.specs.declared.token.Keyword.TheVariants as word;
ghost use Rattle.ygg_base.specs.declared.token.Symbol.TheVariants as sign;
ghost use Rattle.ygg_base.specs.declared.token.Mark.TheVariants as mark;
ghost use Rattle.ygg_syntax.specs.declared.grammar.Sort.TheVariants as sorts;
ghost use Rattle.ygg_syntax.specs.Reading.{in_turn};
ghost use Rattle.ygg_syntax.specs.Expressions.{symbol, named, expr};
ghost use Rattle.ygg_syntax.specs.Files.{type_in, any_declared, variable, definition};
ghost use Rattle.ygg_syntax.specs.Pending.{name, expression, some_type, rest_of, rest_of_declared, rest_of_variable, repeated, sign_of};
ghost use Rattle.ygg_syntax.specs.Pending as pending;
ghost use Rattle.ygg_read.specs.ExpressionSteps.{Reads, Goes, Stops, IfRead, OnRead, IfRefused};
ghost use Rattle.ygg_read.specs.LayerParts.{ReadsAfter, ForRepeated};

use crate::Reader;
use crate::both::{added, both};
use crate::parts::expression_before;
use crate::types::{declared, parameters, type_text};
use sqlite_items::Items;
use ygg_base::{Keyword, Symbol};
use ygg_list::NoMemory;
use ygg_syntax::grammar::Sort;
use ygg_syntax::tree::{Declared, Def, Expr, Name, TypeText};

/// Reads as many variables as come, each after this keyword.
pub fn variables(
    reader: &mut Reader<'_>,
    keyword: Keyword,
) -> Result<Option<Items<Declared>>, NoMemory>
    ensures reads { IfRead result (λ ds. Reads (in_turn (map (variable keyword) ds) ∷ []) reader.old reader.new) }
    ensures goes { OnRead result (ForRepeated keyword rest_of_variable (λ p. Goes (repeated p ∷ []) reader.old reader.new)) }
    ensures refused { IfRefused result (ForRepeated keyword rest_of_variable (λ p. Stops (repeated p ∷ []) reader.old reader.new)) }
    ensures shorter { OnRead result (length reader.new ≤ length reader.old) }
{
    let mut all = Items::new(reader.alloc());
    while let Some(_) = reader.keyword(keyword) {
        let Some(more) = added(all, rest_of_variable(reader))? else {
            return Ok(None);
        };
        all = more;
    }
    Ok(Some(all))
}

/// Reads what follows the keyword of a variable.
fn rest_of_variable(reader: &mut Reader<'_>) -> Result<Option<Declared>, NoMemory>
    ensures reads { IfRead result (λ d. (k : Keyword) → ReadsAfter (mark.Keyword k) (variable k d) reader.old reader.new) }
    ensures goes { OnRead result (Goes rest_of_variable reader.old reader.new) }
    ensures refused { IfRefused result (Stops rest_of_variable reader.old reader.new) }
    ensures shorter { OnRead result (length reader.new < length reader.old) }
{
    let Some(read) = declared(reader, Sort::All)? else {
        return Ok(None);
    };
    Ok(reader.symbol_after(read, Symbol::Semicolon))
}

/// Reads as many definitions as come.
pub fn definitions(reader: &mut Reader<'_>) -> Result<Option<Items<Def>>, NoMemory>
    ensures reads { IfRead result (λ ds. Reads (in_turn (map definition ds) ∷ []) reader.old reader.new) }
    ensures goes { OnRead result (Goes (repeated pending.definition ∷ []) reader.old reader.new) }
    ensures refused { IfRefused result (Stops (repeated pending.definition ∷ []) reader.old reader.new) }
    ensures shorter { OnRead result (length reader.new ≤ length reader.old) }
{
    let mut all = Items::new(reader.alloc());
    while let Some(_) = reader.keyword(Keyword::Def) {
        let Some(more) = added(all, rest_of_definition(reader))? else {
            return Ok(None);
        };
        all = more;
    }
    Ok(Some(all))
}

/// Reads what follows the keyword of a definition.
fn rest_of_definition(reader: &mut Reader<'_>) -> Result<Option<Def>, NoMemory>
    ensures reads { IfRead result (λ d. ReadsAfter (mark.Keyword word.Def) (definition d) reader.old reader.new) }
    ensures goes { OnRead result (Goes (rest_of pending.definition) reader.old reader.new) }
    ensures refused { IfRefused result (Stops (rest_of pending.definition) reader.old reader.new) }
    ensures shorter { OnRead result (length reader.new < length reader.old) }
{
    let Some(head) = named_list(reader, Sort::All)? else {
        return Ok(None);
    };
    let Some((head, rest)) = both(head, typed_expression(reader))? else {
        return Ok(None);
    };
    let (name, parameters) = head;
    let (shape, body) = rest;
    Ok(Some(Def {
        name,
        parameters,
        shape,
        body,
    }))
}

/// Reads a name, and names with their types in brackets.
pub fn named_list(
    reader: &mut Reader<'_>,
    sort: Sort,
) -> Result<Option<(Name, Items<Declared>)>, NoMemory>
    ensures reads { IfRead result (λ read. Reads (named read.0 ∷ symbol sign.RoundOpen ∷ any_declared sort read.1 ∷ symbol sign.RoundClose ∷ [])
        reader.old reader.new) }
    ensures goes { OnRead result (Goes (name ∷ sign_of sign.RoundOpen ∷ rest_of_declared sort ∷ []) reader.old reader.new) }
    ensures refused { IfRefused result (Stops (name ∷ sign_of sign.RoundOpen ∷ rest_of_declared sort ∷ []) reader.old reader.new) }
    ensures shorter { OnRead result (length reader.new < length reader.old) }
{
    let Some(name) = reader.name_before(Symbol::RoundOpen)? else {
        return Ok(None);
    };
    both(name, parameters(reader, sort))
}

/// Reads what follows the parameters of a definition.
fn typed_expression(reader: &mut Reader<'_>) -> Result<Option<(TypeText, Expr)>, NoMemory>
    ensures reads { IfRead result (λ read. Reads (symbol sign.Arrow ∷ type_in sorts.All read.0 ∷ symbol sign.Assign ∷ expr read.1
        ∷ symbol sign.Semicolon ∷ []) reader.old reader.new) }
    ensures goes { OnRead result (Goes (sign_of sign.Arrow ∷ some_type sorts.All ∷ sign_of sign.Assign ∷ expression ∷ sign_of sign.Semicolon ∷ [])
        reader.old reader.new) }
    ensures refused { IfRefused result (Stops (sign_of sign.Arrow ∷ some_type sorts.All ∷ sign_of sign.Assign ∷ expression ∷ sign_of sign.Semicolon ∷
        []) reader.old reader.new) }
    ensures shorter { OnRead result (length reader.new < length reader.old) }
{
    let Some(_) = reader.symbol(Symbol::Arrow) else {
        return Ok(None);
    };
    let Some(shape) = type_text(reader, Sort::All) else {
        return Ok(None);
    };
    let Some(_) = reader.symbol(Symbol::Assign) else {
        return Ok(None);
    };
    let Some(body) = expression_before(reader, Symbol::Semicolon)? else {
        return Ok(None);
    };
    Ok(Some((shape, body)))
}
