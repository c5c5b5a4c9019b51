ghost use Rattle.std.specs.Prelude.{◌≡◌, ◌==◌, ◌≤◌, [], ◌∷◌, length, IfOk, IfErr, OnSome, IfNone};
ghost use Rattle.ygg_base.specs.declared.token.Keyword.TheVariants as word;
ghost use Rattle.ygg_base.specs.declared.token.Symbol.TheVariants as sign;
ghost use Rattle.ygg_base.specs.declared.token.Mark.TheVariants as mark;
ghost use Rattle.ygg_base.specs.Failure.{IfRefused as IfNoMore};
ghost use Rattle.ygg_syntax.specs.Reading.{starts, passes};
ghost use Rattle.ygg_syntax.specs.Expressions.{keyword, symbol};
ghost use Rattle.ygg_syntax.specs.Files.{whole_file, Derives};
ghost use Rattle.ygg_syntax.specs.Pending.{exactly, word_of, sign_of, outcome, stops};
ghost use Rattle.ygg_syntax.specs.Pending as pending;
ghost use Rattle.ygg_read.specs.ExpressionSteps.{Reads, Goes, Stops, IfRead, OnRead, IfRefused};
ghost use Rattle.ygg_read.specs.Refused.{IsRefusal, place_with};

use crate::Reader;
use crate::both::both;
use crate::disk::disk;
use crate::layer::layers;
use crate::variables::definitions;
use std::alloc::Global;
use ygg_base::{Keyword, Mark, Reason, Refuse, Symbol, Token, Tokens};
use ygg_list::NoMemory;
use ygg_syntax::tree::{File, Numeral, Place};

/// The file that derives from the tokens. Where none does they are refused 3 at the first token that can't come, or at the
/// end of the text. The other error is out of memory.
pub fn read(alloc: Global, tokens: &Tokens) -> Result<File, Refuse>
    ensures derives { IfOk result (λ file. Derives tokens.now.items file) }
    ensures refused { IfErr result (λ refuse. IfNoMore refuse (λ refusal. IsRefusal tokens.now refusal)) }
{
    let mut reader = Reader::new(alloc, tokens.as_slice());
    match whole(&mut reader) {
        Ok(Some(file)) => Ok(file),
        Ok(None) => {
            let place = place(tokens, reader.left().len());
            Err(Refuse::At(Reason::Syntax.at(place.line, place.column)))
        }
        Err(_) => Err(Refuse::Memory),
    }
}

/// The place where so many tokens are left: that of the first of them, or the end of the text.
fn place(tokens: &Tokens, left: usize) -> Place
    requires { left ≤ length tokens.now.items }
    ensures { result ≡ place_with tokens.now left }
{
    match tokens.as_slice().get(tokens.len() - left) {
        Some(token) => Place {
            line: token.line,
            column: token.column,
        },
        None => Place {
            line: tokens.line,
            column: tokens.column,
        },
    }
}

/// Reads a file and nothing after it.
fn whole(reader: &mut Reader<'_>) -> Result<Option<File>, NoMemory>
    ensures derives { IfRead result (λ file. Derives reader.old file) }
    ensures refused { IfRefused result (outcome (pending.file ∷ []) reader.old ≡ stops (length reader.new)) }
{
    let Some(file) = file(reader)? else {
        return Ok(None);
    };
    if !ends(reader) {
        return Ok(None);
    }
    Ok(Some(file))
}

/// Whether no token is left.
fn ends(reader: &Reader<'_>) -> bool
    ensures { result ≡ (length reader.now == 0) }
{
    reader.left().is_empty()
}

/// Reads a file.
fn file(reader: &mut Reader<'_>) -> Result<Option<File>, NoMemory>
    ensures reads { IfRead result (λ f. Reads (whole_file f ∷ []) reader.old reader.new) }
    ensures goes { OnRead result (Goes (pending.file ∷ []) reader.old reader.new) }
    ensures refused { IfRefused result (Stops (pending.file ∷ []) reader.old reader.new) }
{
    let Some(_) = version(reader) else {
        return Ok(None);
    };
    let Some(disk) = disk(reader) else {
        return Ok(None);
    };
    let Some(defs) = definitions(reader)? else {
        return Ok(None);
    };
    let Some((defs, layers)) = both(defs, layers(reader))? else {
        return Ok(None);
    };
    Ok(Some(File { disk, defs, layers }))
}

/// Reads the keyword that a file begins with, the version of the language, and a semicolon.
fn version(reader: &mut Reader<'_>) -> Option<Place>
    ensures reads { OnSome result (Reads (keyword word.Yggdrasil ∷ passes (mark.Num 1) ∷ symbol sign.Semicolon ∷ []) reader.old reader.new) }
    ensures goes { OnSome result (Goes (word_of word.Yggdrasil ∷ exactly (mark.Num 1) ∷ sign_of sign.Semicolon ∷ []) reader.old reader.new) }
    ensures refused { IfNone result (Stops (word_of word.Yggdrasil ∷ exactly (mark.Num 1) ∷ sign_of sign.Semicolon ∷ []) reader.old reader.new) }
{
    let Some(_) = reader.keyword(Keyword::Yggdrasil) else {
        return None;
    };
    let Some(_) = one(reader) else {
        return None;
    };
    reader.symbol(Symbol::Semicolon)
}

/// Reads the number 1.
fn one(reader: &mut Reader<'_>) -> Option<Numeral>
    ensures reads { OnSome result (Reads (passes (mark.Num 1) ∷ []) reader.old reader.new) }
    ensures goes { OnSome result (Goes (exactly (mark.Num 1) ∷ []) reader.old reader.new) }
    ensures refused { IfNone result (Stops (exactly (mark.Num 1) ∷ []) reader.old reader.new) }
{
    if !is_one(reader.left()) {
        return None;
    }
    reader.number()
}

/// Whether the next token is the number 1.
fn is_one(tokens: &[Token]) -> bool
    ensures { result ≡ starts (mark.Num 1) tokens.now }
{
    let Some(first) = tokens.first() else {
        return false;
    };
    match &first.mark {
        Mark::Num(value) => *value == 1,
        _ => false,
    }
}
