//! What is declared in a layer file, by its tokens.

use crate::brackets::closing;
use crate::tokens::{before, behind, is_keyword, is_symbol, name_at, number_at};
use crate::written::{row, shape_written, table, word};
use ygg_base::{Keyword, Symbol, Token};
use ygg_value::Shape;

/// What a name is declared as: by its type, or by `let`, as what stands at a place.
#[derive(Clone, Copy, Drop)]
pub enum Declared {
    Shape(Shape),
    As(usize),
}

/// Whether a name is declared at a place: a type or a width follows it, or it follows `let`.
fn is_declared(all: &[Token], place: usize, name: &[u8]) -> bool {
    let is_let = before(place, 1).is_some_and(|at| is_keyword(all, at, Keyword::Let));
    name_at(all, place) == Some(name) && (is_let || is_symbol(all, behind(place, 1), Symbol::Colon))
}

/// What a name is declared as before a place. A name means one thing in all that can see it, so that the last place where one is declared counts.
pub fn declared_as(all: &[Token], place: usize, name: &[u8]) -> Option<Declared> {
    let at = (0..place).rev().find(|at| is_declared(all, *at, name))?;
    let next = behind(at, 2);
    if !is_symbol(all, behind(at, 1), Symbol::Colon) {
        return Some(Declared::As(next));
    }
    let shape = match number_at(all, next) {
        Some(width) => word(width),
        None => shape_written(all, next),
    };
    Some(Declared::Shape(shape?))
}

/// The place of the keyword `layer` that stands last before a place.
pub fn layer_before(all: &[Token], place: usize) -> Option<usize> {
    (0..place)
        .rev()
        .find(|at| is_keyword(all, *at, Keyword::Layer))
}

/// The place of a name behind a keyword, between two places.
fn declaration(
    all: &[Token],
    from: usize,
    to: usize,
    keyword: Keyword,
    name: &[u8],
) -> Option<usize> {
    let at = (from..to).find(|at| is_keyword(all, *at, keyword)
        && name_at(all, behind(*at, 1)) == Some(name))?;
    Some(behind(at, 1))
}

/// What may be called with arguments.
#[derive(Clone, Copy, Drop)]
pub enum Callee {
    /// A definition, or an operation of the layer below, whose name is declared at this place.
    Declared(usize),
    /// An operation of the disk.
    Disk,
}

/// What is called at a place, by its name.
pub fn callee_at(all: &[Token], place: usize) -> Option<Callee> {
    let name = name_at(all, place)?;
    if !is_keyword(all, before(place, 1)?, Keyword::Call) {
        return Some(Callee::Declared(declaration(all, 0, place, Keyword::Def, name)?));
    }
    let own = layer_before(all, place)?;
    match layer_before(all, own) {
        Some(lower) => Some(Callee::Declared(declaration(all, lower, own, Keyword::Op, name)?)),
        None => Some(Callee::Disk),
    }
}

/// The size of the disk: its rows, the words of each, and their width.
fn disk(all: &[Token]) -> Option<(u64, u64, u64)> {
    // yggdrasil 1 ; disk sync N of M of W ;
    let at = (0..all.len()).find(|at| is_keyword(all, *at, Keyword::Of))?;
    Some((
        number_at(all, before(at, 1)?)?,
        number_at(all, behind(at, 1))?,
        number_at(all, behind(at, 3))?,
    ))
}

/// The shape of a row of the disk.
fn disk_row(all: &[Token]) -> Option<Shape> {
    let (_, words, width) = disk(all)?;
    row(words, width)
}

/// The shape of a parameter of what is declared at a place: its name, the opening bracket, and the parameters follow there.
fn parameter(all: &[Token], place: usize, argument: usize) -> Option<Shape> {
    let open = behind(place, 1);
    let end = closing(all, open)?;
    let at = (open..end)
        .filter(|at| is_symbol(all, *at, Symbol::Colon))
        .nth(argument)?;
    shape_written(all, behind(at, 1))
}

/// The shape that what is called at a place wants of an argument.
pub fn wanted(all: &[Token], place: usize, argument: usize) -> Option<Shape> {
    match callee_at(all, place)? {
        Callee::Declared(at) => parameter(all, at, argument),
        Callee::Disk => {
            let name = name_at(all, place)?;
            let is_write = name == b"write".as_slice();
            match argument {
                0 if is_write || name == b"read".as_slice() => word(8),
                1 if is_write => disk_row(all),
                _ => None,
            }
        }
    }
}

/// The shape of what is answered by what is called at a place.
pub fn answered(all: &[Token], place: usize) -> Option<Shape> {
    match callee_at(all, place)? {
        Callee::Declared(at) => {
            let arrow = behind(closing(all, behind(at, 1))?, 1);
            if is_symbol(all, arrow, Symbol::Arrow) {
                shape_written(all, behind(arrow, 1))
            } else {
                None
            }
        }
        Callee::Disk if name_at(all, place) == Some(b"read".as_slice()) => disk_row(all),
        Callee::Disk => None,
    }
}

/// The shape of `low.` and the name at a place: a table of the disk, or a state variable of the layer below.
pub fn low(all: &[Token], place: usize) -> Option<Shape> {
    let name = name_at(all, place)?;
    let own = layer_before(all, place)?;
    match layer_before(all, own) {
        Some(lower) => {
            let at = declaration(all, lower, own, Keyword::State, name)?;
            shape_written(all, behind(at, 2))
        }
        None => {
            let (rows, words, width) = disk(all)?;
            table(rows, words, width)
        }
    }
}
