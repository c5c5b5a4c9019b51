//! Tokens by their places in a layer file.

use std::alloc::Global;
use ygg_base::{Keyword, Mark, Refusal, Symbol, Token, Tokens};
use ygg_lex::tokens;

/// The longest layer file.
const MOST_BYTES: usize = 1_048_576;

/// The tokens of a layer file.
pub fn tokens_in(alloc: Global, text: &[u8]) -> Option<Tokens> {
    if text.len() > MOST_BYTES {
        return None;
    }
    tokens(alloc, text).ok()
}

/// The keyword that is the token at a place.
pub fn keyword_at(all: &[Token], place: usize) -> Option<Keyword> {
    match all.get(place) {
        Some(
            Token {
                mark: Mark::Keyword(keyword),
                ..
            },
        ) => Some(*keyword),
        _ => None,
    }
}

/// The symbol that is the token at a place.
pub fn symbol_at(all: &[Token], place: usize) -> Option<Symbol> {
    match all.get(place) {
        Some(
            Token {
                mark: Mark::Symbol(symbol),
                ..
            },
        ) => Some(*symbol),
        _ => None,
    }
}

/// Whether the token at a place is this keyword.
pub fn is_keyword(all: &[Token], place: usize, wanted: Keyword) -> bool {
    keyword_at(all, place) == Some(wanted)
}

/// Whether the token at a place is this symbol.
pub fn is_symbol(all: &[Token], place: usize, wanted: Symbol) -> bool {
    symbol_at(all, place) == Some(wanted)
}

/// The name that is the token at a place.
pub fn name_at(all: &[Token], place: usize) -> Option<&[u8]> {
    match all.get(place) {
        Some(
            Token {
                mark: Mark::Name(name),
                ..
            },
        ) => Some(name.as_slice()),
        _ => None,
    }
}

/// The number that is the token at a place.
pub fn number_at(all: &[Token], place: usize) -> Option<u64> {
    match all.get(place) {
        Some(
            Token {
                mark: Mark::Num(number),
                ..
            },
        ) => Some(*number),
        _ => None,
    }
}

/// The place among the tokens of the one that begins at a line and a column.
pub fn place_of(all: &[Token], refusal: Refusal) -> Option<usize> {
    all.iter().position(|token| token.line == refusal.line && token.column == refusal.column)
}

/// The place of a token before another one.
pub fn before(place: usize, count: usize) -> Option<usize> {
    place.checked_sub(count)
}

/// The place of a token behind another one.
pub fn behind(place: usize, count: usize) -> usize {
    place.saturating_add(count)
}
