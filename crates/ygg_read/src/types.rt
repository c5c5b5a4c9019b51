ghost use Rattle.std.specs.Prelude.{◌≡◌, ◌<◌, List, [], ◌∷◌, length, false, IfSome, OnSome, IfNone};
ghost use Rattle.ygg_base.specs.declared.token.Keyword.TheVariants as word;
ghost use Rattle.ygg_base.specs.declared.token.Symbol.TheVariants as sign;
ghost use Rattle.ygg_base.specs.declared.token.Mark.TheVariants as mark;
ghost use Rattle.ygg_syntax.specs.declared.grammar.Sort.TheVariants as sorts;
ghost use Rattle.ygg_syntax.specs.Reading.{starts};
ghost use Rattle.ygg_syntax.specs.Expressions.{symbol, keyword, numbered};
ghost use Rattle.ygg_syntax.specs.Files.{type_in, declared, any_declared};
ghost use Rattle.ygg_syntax.specs.Pending.{name, number, some_type, rest_of_declared, repeated, next_declared, sign_of, word_of};
ghost use Rattle.ygg_read.specs.ExpressionSteps.{Reads, Goes, Stops, IfRead, OnRead, IfRefused};

use crate::Reader;
use crate::both::added;
use sqlite_items::Items;
use ygg_base::{Keyword, Symbol};
use ygg_list::NoMemory;
use ygg_syntax::grammar::Sort;
use ygg_syntax::tree::{Declared, Numeral, TypeText};

/// Reads `NUM of NUM`.
fn two(reader: &mut Reader<'_>) -> Option<(Numeral, Numeral)>
    ensures reads { IfSome result (λ read. Reads (numbered read.0 ∷ keyword word.Of ∷ numbered read.1 ∷ []) reader.old reader.new) }
    ensures goes { OnSome result (Goes (number ∷ word_of word.Of ∷ number ∷ []) reader.old reader.new) }
    ensures refused { IfNone result (Stops (number ∷ word_of word.Of ∷ number ∷ []) reader.old reader.new) }
    ensures shorter { OnSome result (length reader.new < length reader.old) }
{
    let Some(first) = reader.number() else {
        return None;
    };
    let Some(_) = reader.keyword(Keyword::Of) else {
        return None;
    };
    let Some(second) = reader.number() else {
        return None;
    };
    Some((first, second))
}

/// Reads `NUM of NUM of NUM`.
pub fn three(reader: &mut Reader<'_>) -> Option<(Numeral, Numeral, Numeral)>
    ensures reads { IfSome result (λ read. Reads (numbered read.0 ∷ keyword word.Of ∷ numbered read.1 ∷ keyword word.Of ∷ numbered read.2 ∷ [])
        reader.old reader.new) }
    ensures goes { OnSome result (Goes (number ∷ word_of word.Of ∷ number ∷ word_of word.Of ∷ number ∷ []) reader.old reader.new) }
    ensures refused { IfNone result (Stops (number ∷ word_of word.Of ∷ number ∷ word_of word.Of ∷ number ∷ []) reader.old reader.new) }
    ensures shorter { OnSome result (length reader.new < length reader.old) }
{
    let Some(first) = reader.number() else {
        return None;
    };
    let Some(_) = reader.keyword(Keyword::Of) else {
        return None;
    };
    let Some((second, third)) = two(reader) else {
        return None;
    };
    Some((first, second, third))
}

/// Reads a type of those that may stand here. Where nothing is answered, the first token that can't come is the next one.
pub fn type_text(reader: &mut Reader<'_>, sort: Sort) -> Option<TypeText>
    ensures reads { IfSome result (λ t. Reads (type_in sort t ∷ []) reader.old reader.new) }
    ensures goes { OnSome result (Goes (some_type sort ∷ []) reader.old reader.new) }
    ensures refused { IfNone result (Stops (some_type sort ∷ []) reader.old reader.new) }
    ensures shorter { OnSome result (length reader.new < length reader.old) }
{
    if let Some(_) = reader.keyword(Keyword::Word) {
        let Some(width) = reader.number() else {
            return None;
        };
        return Some(TypeText::Word(width));
    }
    if let Some(_) = reader.keyword(Keyword::Row) {
        let Some((words, width)) = two(reader) else {
            return None;
        };
        return Some(TypeText::Row(words, width));
    }
    match sort {
        Sort::All => table(reader),
        Sort::Small => None,
    }
}

/// Reads a table, where neither a word nor a row comes.
fn table(reader: &mut Reader<'_>) -> Option<TypeText>
    requires no_word { starts (mark.Keyword word.Word) reader.old ≡ false }
    requires no_row { starts (mark.Keyword word.Row) reader.old ≡ false }
    ensures reads { IfSome result (λ t. Reads (type_in sorts.All t ∷ []) reader.old reader.new) }
    ensures goes { OnSome result (Goes (some_type sorts.All ∷ []) reader.old reader.new) }
    ensures refused { IfNone result (Stops (some_type sorts.All ∷ []) reader.old reader.new) }
    ensures shorter { OnSome result (length reader.new < length reader.old) }
{
    let Some(_) = reader.keyword(Keyword::Table) else {
        return None;
    };
    let Some((rows, words, width)) = three(reader) else {
        return None;
    };
    Some(TypeText::Table(rows, words, width))
}

/// Reads a name and its type.
pub fn declared(reader: &mut Reader<'_>, sort: Sort) -> Result<Option<Declared>, NoMemory>
    ensures reads { IfRead result (λ d. Reads (declared sort d ∷ []) reader.old reader.new) }
    ensures goes { OnRead result (Goes (name ∷ sign_of sign.Colon ∷ some_type sort ∷ []) reader.old reader.new) }
    ensures refused { IfRefused result (Stops (name ∷ sign_of sign.Colon ∷ some_type sort ∷ []) reader.old reader.new) }
    ensures shorter { OnRead result (length reader.new < length reader.old) }
{
    let Some(name) = reader.name_before(Symbol::Colon)? else {
        return Ok(None);
    };
    let Some(shape) = type_text(reader, sort) else {
        return Ok(None);
    };
    Ok(Some(Declared { name, shape }))
}

/// Reads names with their types, or none, and the bracket after them.
pub fn parameters(reader: &mut Reader<'_>, sort: Sort) -> Result<Option<Items<Declared>>, NoMemory>
    ensures reads { IfRead result (λ ds. Reads (any_declared sort ds ∷ symbol sign.RoundClose ∷ []) reader.old reader.new) }
    ensures goes { OnRead result (Goes (rest_of_declared sort ∷ []) reader.old reader.new) }
    ensures refused { IfRefused result (Stops (rest_of_declared sort ∷ []) reader.old reader.new) }
    ensures shorter { OnRead result (length reader.new < length reader.old) }
{
    if let Some(_) = reader.symbol(Symbol::RoundClose) {
        return Ok(Some(Items::new(reader.alloc())));
    }
    list(reader, sort)
}

/// Reads one name with its type or more, and the bracket after them.
fn list(reader: &mut Reader<'_>, sort: Sort) -> Result<Option<Items<Declared>>, NoMemory>
    ensures reads { IfRead result (λ ds. Reads (any_declared sort ds ∷ symbol sign.RoundClose ∷ []) reader.old reader.new) }
    ensures goes { OnRead result (Goes (name ∷ sign_of sign.Colon ∷ some_type sort ∷ repeated (next_declared sort) ∷ sign_of sign.RoundClose ∷ [])
        reader.old reader.new) }
    ensures refused { IfRefused result (Stops (name ∷ sign_of sign.Colon ∷ some_type sort ∷ repeated (next_declared sort) ∷ sign_of sign.RoundClose ∷
        []) reader.old reader.new) }
    ensures shorter { OnRead result (length reader.new < length reader.old) }
{
    let none = Items::new(reader.alloc());
    let Some(first) = added(none, declared(reader, sort))? else {
        return Ok(None);
    };
    let mut all = first;
    while let Some(_) = reader.symbol(Symbol::Comma) {
        let Some(more) = added(all, declared(reader, sort))? else {
            return Ok(None);
        };
        all = more;
    }
    Ok(reader.symbol_after(all, Symbol::RoundClose))
}
