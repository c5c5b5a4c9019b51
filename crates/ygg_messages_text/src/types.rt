//! The types that don't fit where a width or a type is refused, as far as they follow from the tokens of the file.

use crate::brackets::{argument_at, opening};
use crate::declared::{Callee, answered, callee_at, wanted};
use crate::shapes::{begin_of, shape_at, shape_until};
use crate::tokens::{
    before, behind, is_keyword, is_symbol, keyword_at, name_at, number_at, place_of, symbol_at,
    tokens_in,
};
use crate::written::{is_word, shape_written, shown, width_of, word};
use std::alloc::{AllocError, Global};
use std::str;
use ygg_base::{Keyword, Refusal, Symbol, Token};
use ygg_value::Shape;

/// As many arguments are told of at most.
const MOST_ARGUMENTS: usize = 16;

/// What is wanted at a place: words for it, and the shape where there is one.
#[derive(Drop)]
struct Wanted {
    said: String,
    shape: Option<Shape>,
}

/// What is wanted where any word will do.
fn any_word(alloc: Global, said: &str) -> Result<Option<Wanted>, AllocError> {
    Ok(Some(Wanted {
        said: format!(in alloc; "{said}")?,
        shape: None,
    }))
}

/// What is wanted where a bit is.
fn bit(alloc: Global, what: &str) -> Result<Option<Wanted>, AllocError> {
    Ok(Some(Wanted {
        said: format!(in alloc; "{what} is a bit (word 1)")?,
        shape: word(1),
    }))
}

/// What is wanted where a shape is that there may be.
fn shaped(alloc: Global, what: &str, shape: Option<Shape>) -> Result<Option<Wanted>, AllocError> {
    let Some(known) = shape else {
        return Ok(None);
    };
    let shown = shown(alloc, known)?;
    Ok(Some(Wanted {
        said: format!(in alloc; "{what} {shown}")?,
        shape,
    }))
}

/// The name at a place as text.
fn text_at(all: &[Token], place: usize) -> &str {
    match name_at(all, place) {
        Some(name) => str::from_utf8(name).unwrap_or(""),
        None => "",
    }
}

/// An argument of a definition or an operation as a person is told of it, where it has one of that number.
fn argument_shown(
    alloc: Global,
    all: &[Token],
    callee: usize,
    argument: usize,
) -> Result<Option<String>, AllocError> {
    let Some(shape) = wanted(all, callee, argument) else {
        return Ok(None);
    };
    let shown = shown(alloc, shape)?;
    match callee_at(all, callee) {
        Some(Callee::Disk) if argument == 0 => Ok(Some(format!(in alloc;
            "{shown} (a disk address)"
        )?)),
        _ => Ok(Some(shown)),
    }
}

/// What is wanted of an argument of a definition or an operation.
fn wanted_argument(
    alloc: Global,
    all: &[Token],
    callee: usize,
    argument: usize,
) -> Result<Option<Wanted>, AllocError> {
    let name = text_at(all, callee);
    let shown = argument_shown(alloc, all, callee, argument)?;
    let Some(shown) = shown else {
        return Ok(None);
    };
    Ok(Some(Wanted {
        said: format!(in alloc; "{name} wants {shown} here")?,
        shape: wanted(all, callee, argument),
    }))
}

/// What is wanted of a word of `row(..)`: as many bits as the first one has.
fn wanted_of_row(
    alloc: Global,
    all: &[Token],
    open: usize,
    argument: usize,
) -> Result<Option<Wanted>, AllocError> {
    let first = match argument_at(all, open, 0) {
        Some(first) if argument > 0 => shape_at(all, first),
        _ => None,
    };
    match first {
        Some(first) => shaped(
            alloc,
            "a row's words have one width: here",
            word(width_of(first) as u64),
        ),
        None => any_word(alloc, "a row is of words"),
    }
}

/// What is wanted between round brackets, by what stands before them.
fn wanted_between(
    alloc: Global,
    all: &[Token],
    open: usize,
    argument: usize,
) -> Result<Option<Wanted>, AllocError> {
    let Some(callee) = before(open, 1) else {
        return Ok(None);
    };
    match keyword_at(all, callee) {
        Some(Keyword::Pick) if argument == 0 => bit(alloc, "what pick tests"),
        Some(Keyword::Pick) => {
            let first = match argument_at(all, open, 1) {
                Some(first) => shape_at(all, first),
                None => None,
            };
            shaped(alloc, "both values of pick have one type: here", first)
        }
        Some(Keyword::Row) => wanted_of_row(alloc, all, open, argument),
        Some(Keyword::Resize) => any_word(alloc, "resize takes a word"),
        Some(Keyword::Fill) => any_word(alloc, "fill takes a word"),
        Some(Keyword::All | Keyword::Any) => bit(alloc, "what is said of each number"),
        Some(_) => Ok(None),
        None => wanted_argument(alloc, all, callee, argument),
    }
}

/// The shape of the answer, or of the definition, whose arrow stands last before a place.
fn arrow_before(all: &[Token], place: usize) -> Option<Shape> {
    let arrow = (0..place)
        .rev()
        .find(|at| is_symbol(all, *at, Symbol::Arrow))?;
    shape_written(all, behind(arrow, 1))
}

/// What is wanted behind `=` at a place: what a variable or a part of it is, or what a definition is to give.
fn wanted_by_target(
    alloc: Global,
    all: &[Token],
    place: usize,
) -> Result<Option<Wanted>, AllocError> {
    let Some(last) = before(place, 1) else {
        return Ok(None);
    };
    if number_at(all, last).is_some() {
        return shaped(alloc, "the definition gives", arrow_before(all, place));
    }
    let Some(target) = begin_of(all, place) else {
        return Ok(None);
    };
    let name = text_at(all, target);
    let what = if target == last {
        format!(in alloc; "{name} is")?
    } else {
        format!(in alloc; "that part of {name} is")?
    };
    shaped(alloc, what.as_str(), shape_until(all, target, place))
}

/// What is wanted of the expression that begins at a place, by what stands before it.
fn wanted_at(alloc: Global, all: &[Token], place: usize) -> Result<Option<Wanted>, AllocError> {
    let Some(last) = before(place, 1) else {
        return Ok(None);
    };
    match keyword_at(all, last) {
        Some(Keyword::Return) => {
            return shaped(alloc, "the answer is", arrow_before(all, place));
        }
        Some(Keyword::If) => return bit(alloc, "a condition"),
        Some(Keyword::Relate | Keyword::Always | Keyword::Settled | Keyword::Maybe) => {
            return bit(alloc, "what is to hold");
        }
        _ => {}
    }
    match symbol_at(all, last) {
        Some(Symbol::Assign) => wanted_by_target(alloc, all, last),
        Some(Symbol::Tilde) => any_word(alloc, "`~` takes a word"),
        Some(Symbol::SquareOpen) => any_word(alloc, "an index is a word"),
        Some(Symbol::RoundOpen | Symbol::Comma) => match opening(all, place) {
            Some((open, argument)) => wanted_between(alloc, all, open, argument),
            None => Ok(None),
        },
        _ => Ok(None),
    }
}

/// Whether a value of one shape does where another, or any word, is wanted.
fn fits(given: Shape, wanted: Option<Shape>) -> bool {
    match wanted {
        Some(wanted) => given == wanted,
        None => is_word(given),
    }
}

/// What is said of an expression at a place, of what is wanted there and what it is. Where it fits something else is wrong, and nothing is said.
fn of_expression(alloc: Global, all: &[Token], place: usize) -> Result<Option<String>, AllocError> {
    let wanted = wanted_at(alloc, all, place)?;
    let Some(Wanted { said, shape }) = wanted else {
        return Ok(None);
    };
    match shape_at(all, place) {
        None => Ok(Some(said)),
        Some(given) if fits(given, shape) => Ok(None),
        Some(given) => {
            let given = shown(alloc, given)?;
            Ok(Some(format!(in alloc; "{said}, and this is {given}")?))
        }
    }
}

/// What is said of a number at a place that is too great for its width, or of a width.
fn of_number(alloc: Global, all: &[Token], place: usize) -> Result<Option<String>, AllocError> {
    let Some(number) = number_at(all, place) else {
        return Ok(None);
    };
    if let Some(width) = number_at(all, behind(place, 2)) {
        let is_constant = is_symbol(all, behind(place, 1), Symbol::Colon);
        if is_constant && width < 64 && number.checked_shr(width as u32).unwrap_or(0) > 0 {
            return Ok(Some(format!(in alloc; "{number} doesn't fit in {width} bits")?));
        }
    }
    let is_width = before(place, 1).is_some_and(|at| !is_symbol(all, at, Symbol::RoundOpen));
    if is_width
        && (number == 0 || number > 64)
        && !is_symbol(all, behind(place, 1), Symbol::Colon)
    {
        return Ok(Some(format!(in alloc; "a word has 1 to 64 bits")?));
    }
    Ok(None)
}

/// What is said of the name of what is called with another number of arguments, or whose answer is used though it has none.
fn of_call(alloc: Global, all: &[Token], place: usize) -> Result<Option<String>, AllocError> {
    if callee_at(all, place).is_none() || !is_symbol(all, behind(place, 1), Symbol::RoundOpen) {
        return Ok(None);
    }
    let name = text_at(all, place);
    let is_used = before(place, 2).is_some_and(|at| is_symbol(all, at, Symbol::Assign));
    if is_used && answered(all, place).is_none() {
        return Ok(Some(format!(in alloc; "{name} has no answer")?));
    }
    let mut out = format!(in alloc; "{name} takes")?;
    for argument in 0..MOST_ARGUMENTS {
        if let Some(shown) = argument_shown(alloc, all, place, argument)? {
            out.push_str(if argument == 0 { " " } else { " and " })?;
            out.push_str(shown.as_str())?;
        }
    }
    if wanted(all, place, 0).is_none() {
        out.push_str(" no arguments")?;
    }
    Ok(Some(out))
}

/// What is said of an operator at a place, of what stands on either side.
fn of_operator(alloc: Global, all: &[Token], place: usize) -> Result<Option<String>, AllocError> {
    let Some((open, 0)) = opening(all, place) else {
        return Ok(None);
    };
    let Some(left) = shape_until(all, behind(open, 1), place) else {
        return Ok(None);
    };
    let Some(right) = shape_at(all, behind(place, 1)) else {
        return Ok(None);
    };
    let left = shown(alloc, left)?;
    let right = shown(alloc, right)?;
    Ok(Some(format!(in alloc; "on the left is {left}, on the right {right}")?))
}

/// What is said of an index at a place, of what has no parts.
fn of_index(alloc: Global, all: &[Token], place: usize) -> Result<Option<String>, AllocError> {
    let whole = match begin_of(all, place) {
        Some(begin) => shape_until(all, begin, place),
        None => None,
    };
    match whole {
        Some(whole) if is_word(whole) => {
            let whole = shown(alloc, whole)?;
            Ok(Some(format!(in alloc;
                "what stands before the index is {whole}, which has no parts"
            )?))
        }
        _ => Ok(None),
    }
}

/// Whether a symbol is an operator between two operands.
fn is_operator(symbol: Symbol) -> bool {
    match symbol {
        Symbol::Equal
        | Symbol::NotEqual
        | Symbol::Less
        | Symbol::LessOrEqual
        | Symbol::Greater
        | Symbol::GreaterOrEqual
        | Symbol::Plus
        | Symbol::Minus
        | Symbol::Star
        | Symbol::Ampersand
        | Symbol::Bar
        | Symbol::Caret
        | Symbol::ShiftLeft
        | Symbol::ShiftRight
        | Symbol::Implies => true,
        _ => false,
    }
}

/// What is said of the types at a place among the tokens.
fn said_at(alloc: Global, all: &[Token], place: usize) -> Result<Option<String>, AllocError> {
    match symbol_at(all, place) {
        Some(Symbol::SquareOpen) => return of_index(alloc, all, place),
        Some(symbol) if is_operator(symbol) => return of_operator(alloc, all, place),
        _ => {}
    }
    let said = of_number(alloc, all, place)?;
    if said.is_some() {
        return Ok(said);
    }
    let said = of_expression(alloc, all, place)?;
    if said.is_some() {
        return Ok(said);
    }
    of_call(alloc, all, place)
}

/// What is said of the types at the place of a refusal; nothing where they don't follow from the tokens.
pub fn types_at(
    alloc: Global,
    text: &[u8],
    refusal: Refusal,
) -> Result<Option<String>, AllocError> {
    let Some(tokens) = tokens_in(alloc, text) else {
        return Ok(None);
    };
    let all = tokens.items.as_slice();
    match place_of(all, refusal) {
        Some(place) => said_at(alloc, all, place),
        None => Ok(None),
    }
}
