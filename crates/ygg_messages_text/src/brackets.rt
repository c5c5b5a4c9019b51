//! Where brackets and expressions of a layer file end.

use crate::tokens::{behind, is_symbol, keyword_at, symbol_at};
use ygg_base::{Keyword, Mark, Symbol, Token};

/// Whether a symbol opens brackets.
fn opens(symbol: Symbol) -> bool {
    symbol == Symbol::RoundOpen || symbol == Symbol::SquareOpen || symbol == Symbol::BraceOpen
}

/// Whether a symbol closes brackets.
fn closes(symbol: Symbol) -> bool {
    symbol == Symbol::RoundClose || symbol == Symbol::SquareClose || symbol == Symbol::BraceClose
}

/// The place of what closes the brackets that are opened at a place.
pub fn closing(all: &[Token], place: usize) -> Option<usize> {
    if !opens(symbol_at(all, place)?) {
        return None;
    }
    let mut depth = 0usize;
    for at in place..all.len() {
        let Some(symbol) = symbol_at(all, at) else {
            continue;
        };
        if opens(symbol) {
            depth = depth.saturating_add(1);
        } else if closes(symbol) {
            depth = depth.saturating_sub(1);
            if depth == 0 {
                return Some(at);
            }
        }
    }
    None
}

/// The place of what opens the brackets round a place, and how many commas stand between the two outside of other brackets.
pub fn opening(all: &[Token], place: usize) -> Option<(usize, usize)> {
    let mut depth = 0usize;
    let mut commas = 0usize;
    for at in (0..place).rev() {
        let Some(symbol) = symbol_at(all, at) else {
            continue;
        };
        if closes(symbol) {
            depth = depth.saturating_add(1);
        } else if opens(symbol) {
            if depth == 0 {
                return Some((at, commas));
            }
            depth = depth.saturating_sub(1);
        } else if symbol == Symbol::Comma && depth == 0 {
            commas = commas.saturating_add(1);
        }
    }
    None
}

/// The place behind what closes the brackets that are opened at a place.
fn past(all: &[Token], place: usize) -> Option<usize> {
    let end = closing(all, place)?;
    Some(behind(end, 1))
}

/// The place behind the `~` that begin at a place.
pub fn past_tildes(all: &[Token], place: usize) -> usize {
    let mut at = place;
    for _ in place..all.len() {
        if !is_symbol(all, at, Symbol::Tilde) {
            break;
        }
        at = behind(at, 1);
    }
    at
}

/// The place behind what a keyword begins.
fn past_keyword(all: &[Token], place: usize) -> Option<usize> {
    match keyword_at(all, place)? {
        Keyword::Low => Some(behind(place, 3)),
        Keyword::Call => past(all, behind(place, 2)),
        Keyword::Choose => Some(behind(place, 1)),
        _ => past(all, behind(place, 1)),
    }
}

/// The place behind the atom that begins at a place: an expression without `~` and indices.
pub fn atom_end(all: &[Token], place: usize) -> Option<usize> {
    let next = behind(place, 1);
    match &all.get(place)?.mark {
        Mark::Num(_) if is_symbol(all, next, Symbol::Colon) => Some(behind(place, 3)),
        Mark::Num(_) => None,
        Mark::Name(_) if is_symbol(all, next, Symbol::RoundOpen) => past(all, next),
        Mark::Name(_) => Some(next),
        Mark::Keyword(_) => past_keyword(all, place),
        Mark::Symbol(Symbol::RoundOpen) => past(all, place),
        Mark::Symbol(_) => None,
    }
}

/// How many indices stand from a place on and before an end, and the place behind them.
pub fn indices(all: &[Token], place: usize, end: usize) -> Option<(usize, usize)> {
    let mut count = 0usize;
    let mut at = place;
    for _ in place..all.len() {
        if at >= end || !is_symbol(all, at, Symbol::SquareOpen) {
            break;
        }
        at = past(all, at)?;
        count = count.saturating_add(1);
    }
    Some((count, at))
}

/// The place behind the expression that begins at a place.
pub fn expression_end(all: &[Token], place: usize) -> Option<usize> {
    let atom = past_tildes(all, place);
    let (_, end) = indices(all, atom_end(all, atom)?, all.len())?;
    Some(end)
}

/// The place of an argument, counted from 0, in the round brackets that are opened at a place; what closes them where there are no more.
pub fn argument_at(all: &[Token], open: usize, count: usize) -> Option<usize> {
    let mut at = behind(open, 1);
    for _ in 0..count {
        let end = expression_end(all, at)?;
        if !is_symbol(all, end, Symbol::Comma) {
            return None;
        }
        at = behind(end, 1);
    }
    Some(at)
}

/// How many arguments stand in the round brackets that are opened at a place.
pub fn arguments(all: &[Token], open: usize) -> usize {
    let first = behind(open, 1);
    if is_symbol(all, first, Symbol::RoundClose) {
        return 0;
    }
    match closing(all, open) {
        Some(end) => match opening(all, end) {
            Some((_, commas)) => commas.saturating_add(1),
            None => 0,
        },
        None => 0,
    }
}
