//! The shapes of expressions of a layer file, by its tokens.

use crate::brackets::{argument_at, arguments, atom_end, expression_end, indices, past_tildes};
use crate::declared::{Declared, answered, declared_as, low};
use crate::tokens::{before, behind, is_symbol, keyword_at, name_at, number_at, symbol_at};
use crate::written::{part_of, row, width_of, word};
use ygg_base::{Keyword, Mark, Symbol, Token};
use ygg_value::Shape;

/// So deep is looked for the shape of an expression at most.
const DEPTH: u32 = 64;

/// What an atom's shape is: known, that of the expression at a place, or that of a row of so many words like that one.
#[derive(Clone, Copy, Drop)]
enum Nature {
    Known(Shape),
    As(usize),
    RowOf(u64, usize),
}

/// The nature of a known shape.
fn known(shape: Option<Shape>) -> Option<Nature> {
    Some(Nature::Known(shape?))
}

/// The nature of what a keyword begins at a place.
fn keyword_nature(all: &[Token], place: usize) -> Option<Nature> {
    let open = behind(place, 1);
    let first = behind(place, 2);
    match keyword_at(all, place)? {
        Keyword::Low => known(low(all, first)),
        Keyword::Pick => Some(Nature::As(argument_at(all, open, 1)?)),
        Keyword::Resize => known(word(number_at(all, argument_at(all, open, 1)?)?)),
        Keyword::Fill => Some(Nature::RowOf(number_at(all, first)?, behind(place, 4))),
        Keyword::Row => Some(Nature::RowOf(arguments(all, open) as u64, first)),
        Keyword::All | Keyword::Any | Keyword::Choose => known(word(1)),
        Keyword::Call => known(answered(all, open)),
        _ => None,
    }
}

/// Whether an operator answers a bit, whatever its operands are.
fn compares(symbol: Symbol) -> bool {
    match symbol {
        Symbol::Equal
        | Symbol::NotEqual
        | Symbol::Less
        | Symbol::LessOrEqual
        | Symbol::Greater
        | Symbol::GreaterOrEqual
        | Symbol::Implies => true,
        _ => false,
    }
}

/// The nature of two operands and their operator in the brackets that are opened at a place.
fn operator_nature(all: &[Token], place: usize) -> Option<Nature> {
    let left = behind(place, 1);
    let operator = symbol_at(all, expression_end(all, left)?)?;
    if compares(operator) {
        known(word(1))
    } else {
        Some(Nature::As(left))
    }
}

/// The nature of the name at a place, which is a definition's where brackets follow it.
fn name_nature(all: &[Token], place: usize, name: &[u8]) -> Option<Nature> {
    if is_symbol(all, behind(place, 1), Symbol::RoundOpen) {
        return known(answered(all, place));
    }
    match declared_as(all, place, name)? {
        Declared::Shape(shape) => Some(Nature::Known(shape)),
        Declared::As(other) => Some(Nature::As(other)),
    }
}

/// The nature of the atom that begins at a place.
fn atom_nature(all: &[Token], place: usize) -> Option<Nature> {
    if let Some(name) = name_at(all, place) {
        return name_nature(all, place, name);
    }
    match &all.get(place)?.mark {
        Mark::Num(_) => known(word(number_at(all, behind(place, 2))?)),
        Mark::Keyword(_) => keyword_nature(all, place),
        Mark::Symbol(Symbol::RoundOpen) => operator_nature(all, place),
        _ => None,
    }
}

/// The shape of the expression that begins at a place, with those of its indices that stand before an end.
fn shape_within(all: &[Token], place: usize, end: usize, depth: u32) -> Option<Shape> {
    if depth == 0 {
        return None;
    }
    let atom = past_tildes(all, place);
    let whole = match atom_nature(all, atom)? {
        Nature::Known(shape) => shape,
        Nature::As(other) => shape_within(all, other, all.len(), depth - 1)?,
        Nature::RowOf(words, other) => {
            let part = shape_within(all, other, all.len(), depth - 1)?;
            row(words, width_of(part) as u64)?
        }
    };
    let (count, _) = indices(all, atom_end(all, atom)?, end)?;
    part_of(whole, count)
}

/// The shape of the expression that begins at a place, with those of its indices that stand before an end; `call ..` and `choose` too.
pub fn shape_until(all: &[Token], place: usize, end: usize) -> Option<Shape> {
    shape_within(all, place, end, DEPTH)
}

/// The shape of the expression that begins at a place; `call ..` and `choose` too.
pub fn shape_at(all: &[Token], place: usize) -> Option<Shape> {
    shape_within(all, place, all.len(), DEPTH)
}

/// Whether an atom with its indices before an end ends there.
fn ends_there(all: &[Token], place: usize, end: usize) -> bool {
    let Some(atom) = atom_end(all, place) else {
        return false;
    };
    match indices(all, atom, end) {
        Some((_, at)) => at == end,
        None => false,
    }
}

/// The place where the expression begins that ends before a place, without the `~` before it.
pub fn begin_of(all: &[Token], end: usize) -> Option<usize> {
    let at = (0..end).rev().find(|at| ends_there(all, *at, end))?;
    for count in [2, 1] {
        if let Some(wider) = before(at, count) {
            if ends_there(all, wider, end) {
                return Some(wider);
            }
        }
    }
    Some(at)
}
