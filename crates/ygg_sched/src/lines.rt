//! The kinds of lines of a schedule, each read from the front of what is left of a text. Their errors are a line's refusal and out of memory.

ghost use Rattle.std.specs.Prelude.{◌≡◌, None, MatchOption};
ghost use Rattle.std.specs.Option.{option_copied};
ghost use Rattle.ygg_sched.specs.Flaws.{refusal_at};
ghost use Rattle.ygg_sched.specs.Sites.{site_in};
ghost use Rattle.ygg_sched.specs.Lines.{
  left_of,
  Gives,
  line_at,
  fixed_at,
  obligation_in,
  obligation_at,
  variable_in,
  variable_at,
  stop_at,
  bits_at,
  nothing_at,
};

use crate::bits::bits_in;
use crate::claim::Claim;
use crate::decimal::stop_in;
use crate::flaw::ScheduleFlaw;
use crate::naming::claim_named;
use crate::rest::Rest;
use crate::schedule::Halt;
use crate::value_reading::value_in;
use crate::words::{after_front, cut, is_word, words_in};
use std::alloc::Global;
use ygg_base::{Bits, Refuse};
use ygg_syntax::tree::{File, TypeText};
use ygg_value::Value;

/// The refusal of the line that comes next, for a flaw.
fn refused(at: Rest<'_>, flaw: ScheduleFlaw) -> Refuse
    ensures { result ≡ Refuse.At (refusal_at flaw at.entry.line) }
{
    Refuse::At(flaw.at(at.line))
}

/// The next line, and what is left after it.
fn line_at(at: Rest<'_>) -> Result<(&[u8], Rest<'_>), Refuse>
    ensures { Gives (λ x. (x.0.now, left_of x.1)) result (line_at (left_of at.entry)) }
{
    let (line, more) = cut(at.bytes, b'\n');
    match more {
        Some(bytes) => Ok((
            line,
            Rest {
                bytes,
                line: at.line + 1,
            },
        )),
        None => Err(refused(at, ScheduleFlaw::Missing)),
    }
}

/// A line that is always the same: the first and the last.
#[tactic(auto, unfolding(crate::specs::Lines::fixed_at))]
pub fn fixed_line<'a>(at: Rest<'a>, text: &[u8]) -> Result<Rest<'a>, Refuse>
    ensures { Gives left_of result (fixed_at text.now (left_of at.entry)) }
{
    let (line, after) = line_at(at)?;
    if line != text {
        return Err(refused(at, ScheduleFlaw::Line));
    }
    Ok(after)
}

/// The name in a line `obligation NAME`.
fn obligation_in(line: &[u8]) -> Option<&[u8]>
    ensures { option_copied result ≡ obligation_in line.now }
{
    let name = after_front(line, b"obligation ")?;
    if is_word(name) { Some(name) } else { None }
}

/// The line of the obligation, which is one of the file: its name, and what it is.
#[tactic(auto, unfolding(crate::specs::Lines::obligation_at))]
pub fn obligation_line<'a, 'f>(
    at: Rest<'a>,
    file: &'f File,
) -> Result<(&'a [u8], Claim<'f>, Rest<'a>), Refuse>
    ensures { Gives (λ x. ((x.0.now, site_in x.1), left_of x.2)) result (obligation_at file.now (left_of at.entry)) }
{
    let (line, after) = line_at(at)?;
    let Some(name) = obligation_in(line) else {
        return Err(refused(at, ScheduleFlaw::Line));
    };
    let Some(claim) = claim_named(file, name) else {
        return Err(refused(at, ScheduleFlaw::Name));
    };
    Ok((name, claim, after))
}

/// The variable and the value in a line that begins with a word and a space.
fn variable_in<'a>(line: &'a [u8], word: &[u8]) -> Option<(&'a [u8], &'a [u8])>
    ensures { MatchOption result (variable_in word.now line.now ≡ None) (λ words. variable_in word.now line.now ≡ Some (words.0.now, words.1.now)) }
{
    words_in(after_front(line, word)?)
}

/// The line of a variable of this name and type, which begins with a word and a space.
#[tactic(auto, unfolding(crate::specs::Lines::variable_at))]
pub fn variable_line<'a>(
    alloc: Global,
    at: Rest<'a>,
    word: &[u8],
    name: &[u8],
    text: TypeText,
) -> Result<(Value, Rest<'a>), Refuse>
    ensures { Gives (λ x. (x.0, left_of x.1)) result (variable_at word.now name.now text (left_of at.entry)) }
{
    let (line, after) = line_at(at)?;
    let Some((variable, written)) = variable_in(line, word) else {
        return Err(refused(at, ScheduleFlaw::Line));
    };
    if variable != name {
        return Err(refused(at, ScheduleFlaw::Name));
    }
    match value_in(alloc, text, written) {
        Ok(Some(value)) => Ok((value, after)),
        Ok(None) => Err(refused(at, ScheduleFlaw::Width)),
        Err(_) => Err(Refuse::Memory),
    }
}

/// The line of the stop.
#[tactic(auto, unfolding(crate::specs::Lines::stop_at))]
pub fn stop_line(at: Rest<'_>) -> Result<(Halt, Rest<'_>), Refuse>
    ensures { Gives (λ x. (x.0, left_of x.1)) result (stop_at (left_of at.entry)) }
{
    let (line, after) = line_at(at)?;
    match stop_in(line) {
        Some(halt) => Ok((halt, after)),
        None => Err(refused(at, ScheduleFlaw::Line)),
    }
}

/// A line of picks, which begins with a word and a space.
#[tactic(auto, unfolding(crate::specs::Lines::bits_at))]
pub fn bits_line<'a>(alloc: Global, at: Rest<'a>, word: &[u8]) -> Result<(Bits, Rest<'a>), Refuse>
    ensures { Gives (λ x. (x.0, left_of x.1)) result (bits_at word.now (left_of at.entry)) }
{
    let (line, after) = line_at(at)?;
    let Some(written) = after_front(line, word) else {
        return Err(refused(at, ScheduleFlaw::Line));
    };
    match bits_in(alloc, written) {
        Ok(Some(bits)) => Ok((bits, after)),
        Ok(None) => Err(refused(at, ScheduleFlaw::Line)),
        Err(_) => Err(Refuse::Memory),
    }
}

/// That nothing is left.
#[tactic(auto, unfolding(crate::specs::Lines::nothing_at))]
pub fn nothing(at: Rest<'_>) -> Result<(), Refuse>
    ensures { Gives (λ x. x) result (nothing_at (left_of at.entry)) }
{
    if at.bytes.is_empty() {
        Ok(())
    } else {
        Err(refused(at, ScheduleFlaw::Line))
    }
}
