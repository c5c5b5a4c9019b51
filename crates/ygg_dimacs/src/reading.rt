//! From a text to its clauses.

ghost use Rattle.std.specs.Prelude.{◌≡◌, ◌<◌, ◌≤◌, ◌+◌, [], ◌∷◌, ◌++◌, Some, length, All, IfOk, OnOk};
ghost use Rattle.ygg_dimacs.specs.Places.{TextWord as a_word};
ghost use Rattle.ygg_dimacs.specs.Headers.{most_variables};
ghost use Rattle.ygg_dimacs.specs.Numbers.{literal_in as literal_of};
ghost use Rattle.ygg_dimacs.specs.Words.{words_of_all};
ghost use Rattle.ygg_dimacs.specs.Reading.{Gives, clauses_in, cnf_of};
ghost use Rattle.ygg_dimacs.specs.Left.{left_content, left_end, left_words, word_of};
ghost use Rattle.ygg_dimacs.specs.States.{IsReady, Goes, Takes, TakesAll};

use crate::cnf::Cnf;
use crate::flaw::ClausesFlaw;
use crate::header::{Header, header_in};
use crate::lines::next_content;
use crate::marks::{clear, include};
use crate::numbers::literal_in;
use crate::places::{Line, Onward, TextPlace, TextRest, TextWord};
use crate::words::next_word;
use std::alloc::Global;
use std::mem;
use ygg_base::{NoMemory, Refuse};
use ygg_cnf::{Clause, Clauses, Lit};

/// What has been read of the clauses.
#[derive(Drop)]
pub struct State {
    alloc: Global,
    /// The number of variables.
    pub variables: u64,
    /// How many clauses are still to end.
    pub left: u64,
    /// The literals of the next of them so far.
    pub part: Clause,
    /// Marks for the literals of that one.
    pub marks: Vec<bool>,
    /// The clauses that have ended.
    pub done: Clauses,
}

/// Ends the clause. Its only error is out of memory.
fn end_clause(state: &mut State) -> Result<(), NoMemory>
    requires ready { IsReady state.old }
    requires left { 0 < state.old.left }
    ensures left { OnOk result (state.new.left + 1 ≡ state.old.left) }
    ensures part { OnOk result (state.new.part ≡ []) }
    ensures done { OnOk result (state.new.done ≡ state.old.done ++ state.old.part ∷ []) }
    ensures variables { state.new.variables ≡ state.old.variables }
    ensures ready { OnOk result (IsReady state.new) }
{
    clear(&mut state.marks, &state.part);
    let clause = mem::replace(&mut state.part, Clause::new(state.alloc));
    state.done.push(clause)?;
    state.left -= 1;
    Ok(())
}

/// Takes a literal into the clause; that of variable 0 ends it. Its only error is out of memory.
#[tactic(auto, using(crate::proofs::Taking::goes_on))]
fn take_literal(state: &mut State, literal: Lit) -> Result<(), NoMemory>
    requires ready { IsReady state.old }
    requires left { 0 < state.old.left }
    requires within { literal.var ≤ state.old.variables }
    ensures goes { (w : a_word) → literal_of state.old.variables w.bytes ≡ Some literal → OnOk result (Goes state.old (w ∷ []) state.new) }
    ensures ready { OnOk result (IsReady state.new) }
{
    if literal.var == 0 {
        end_clause(state)?;
        return Ok(());
    }
    include(&mut state.part, &mut state.marks, literal)?;
    Ok(())
}

/// Takes the next word.
fn take_word(state: &mut State, word: TextWord<'_>) -> Result<(), Refuse>
    requires { IsReady state.old }
    ensures { Takes state.old (word_of word.entry ∷ []) state.new result }
{
    if state.left == 0 {
        return Err(Refuse::At(ClausesFlaw::Count.at(word.line, word.column)));
    }
    let Some(literal) = literal_in(word.bytes, state.variables) else {
        return Err(Refuse::At(ClausesFlaw::Number.at(word.line, word.column)));
    };
    match take_literal(state, literal) {
        Ok(()) => Ok(()),
        Err(_) => Err(Refuse::Memory),
    }
}

/// Takes the words that are left of a line.
fn take_words(state: &mut State, at: Onward<'_>) -> Result<(), Refuse>
    requires { IsReady state.old }
    ensures { Takes state.old (left_words at.entry) state.new result }
{
    let mut left = at;
    while let Some((word, after)) = next_word(left) {
        take_word(state, word)?;
        left = after;
    }
    Ok(())
}

/// Takes the lines that are left, and gives the end of what is read.
fn take_lines(state: &mut State, rest: TextRest<'_>) -> Result<TextPlace, Refuse>
    requires { IsReady state.old }
    ensures { TakesAll state.old (words_of_all (left_content rest.entry)) (left_end rest.entry) state.new result }
{
    let mut left = rest;
    loop {
        match next_content(left) {
            Ok((line, after)) => {
                take_words(
                    state,
                    Onward {
                        bytes: line.bytes,
                        line: line.number,
                        column: 1,
                    },
                )?;
                left = after;
            }
            Err(end) => return Ok(end),
        }
    }
}

/// The clauses of the lines after a header.
fn read_clauses(alloc: Global, header: Header, rest: TextRest<'_>) -> Result<Clauses, Refuse>
    requires { header.variables ≤ most_variables }
    ensures { Gives (λ x. x) result (clauses_in header.variables (left_end rest.entry) header.clauses [] (words_of_all (left_content rest.entry))) }
{
    let mut state = State {
        alloc,
        variables: header.variables,
        left: header.clauses,
        part: Clause::new(alloc),
        marks: Vec::new(alloc),
        done: Clauses::new(alloc),
    };
    let end = match take_lines(&mut state, rest) {
        Ok(end) => end,
        Err(refuse) => return Err(refuse),
    };
    if state.left > 0 {
        return Err(Refuse::At(ClausesFlaw::Count.at(end.line, end.column)));
    }
    let State { done, .. } = state;
    Ok(done)
}

/// What `read_cnf` does.
fn read_text(alloc: Global, text: &[u8]) -> Result<Cnf, Refuse>
    requires { length text.now ≤ 67108864 }
    ensures { Gives (λ x. x) result (cnf_of text.now) }
{
    let start = TextRest {
        bytes: Some(text),
        line: 1,
        column: 1,
    };
    match next_content(start) {
        Ok((first, rest)) => match header_in(first.bytes) {
            Some(header) => {
                let clauses = read_clauses(alloc, header, rest)?;
                Ok(Cnf {
                    variables: header.variables,
                    clauses,
                })
            }
            None => Err(Refuse::At(ClausesFlaw::Header.at(first.number, 1))),
        },
        Err(end) => Err(Refuse::At(ClausesFlaw::Header.at(end.line, end.column))),
    }
}

/// The clauses that a text is. Words stand between spaces, tabs, carriage returns and line feeds. Lines of blanks and lines that begin with `c` are passed
/// over; a line that begins with `%` isn't read, and neither is what follows it. The first other line is `p cnf V C`, with at most 4,000,000 variables and
/// 4,294,967,295 clauses; then come numbers of 1 to 10 digits with or without `-` before them, up to V, of which 0 ends a clause. A clause keeps a literal
/// once.
///
/// A text that is none is refused at its first place that is at fault: 61 at the first byte of the first line that counts and isn't the header, or at the end
/// of what is read; 62 at a word that is no such number, while fewer than C clauses have ended; 63 at the first word after them, or at the end of what is
/// read where fewer have ended. The other error is out of memory. Its time grows with the text's length.
pub fn read_cnf(alloc: Global, text: &[u8]) -> Result<Cnf, Refuse>
    requires { length text.now ≤ 67108864 }
    // They are the clauses that the text is, or the refusal of the first place that is at fault.
    ensures exact { Gives (λ x. x) result (cnf_of text.now) }
    // Their variables are numbered from 1.
    ensures numbered { IfOk result (λ c. All (All (λ x. 0 < x.var)) c.clauses) }
{
    read_text(alloc, text)
}
