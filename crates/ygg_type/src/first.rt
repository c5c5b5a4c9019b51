//! The first of the type errors found so far.

ghost use Rattle.std.specs.Prelude.{◌≡◌};
ghost use Rattle.ygg_type_rules.specs.TypeErrors.{comes_before, first_after, type_error, type_error_at, one, none, unless};
ghost use Rattle.ygg_type_rules.specs.Definitions.{type_text_errors, answer_type_errors};

use crate::limits::{is_row_count, is_width, is_word_count, is_word_count_in};
use ygg_base::Reason;
use ygg_syntax::tree::{Place, TypeText};
use ygg_type_rules::TypeError;

/// Whether the type error stands at an earlier place, or at one place has the smaller number of the refusal.
fn precedes(a: TypeError, b: TypeError) -> bool
    ensures { result ≡ comes_before a b }
{
    if a.place.line != b.place.line {
        a.place.line < b.place.line
    } else if a.place.column != b.place.column {
        a.place.column < b.place.column
    } else {
        a.reason.number() < b.reason.number()
    }
}

/// The first of the type errors found so far, if there is one.
#[derive(Clone, Copy)]
pub struct First {
    pub type_error: Option<TypeError>,
}

impl First {
    /// One more type error.
    pub fn add(&mut self, place: Place, reason: Reason)
        ensures { self.new.type_error ≡ first_after self.old.type_error (one (type_error place reason)) }
    {
        let type_error = TypeError { place, reason };
        match self.type_error {
            None => self.type_error = Some(type_error),
            Some(found) => if precedes(type_error, found) {
                self.type_error = Some(type_error);
            },
        }
    }

    /// One more type error, if there is a reason. Answers whether there is none.
    pub fn add_some(&mut self, place: Place, reason: Option<Reason>) -> bool
        ensures none { result ≡ none (type_error_at place reason) }
        ensures first { self.new.type_error ≡ first_after self.old.type_error (type_error_at place reason) }
    {
        match reason {
            None => true,
            Some(reason) => {
                self.add(place, reason);
                false
            }
        }
    }

    /// One more type error unless the test passes. Answers whether it passes.
    pub fn check(&mut self, test: bool, reason: Reason, place: Place) -> bool
        ensures same { result ≡ test }
        ensures first { self.new.type_error ≡ first_after self.old.type_error (unless test reason place) }
    {
        if !test {
            self.add(place, reason);
        }
        test
    }

    /// The type errors of a type.
    pub fn type_text(&mut self, text: TypeText)
        ensures { self.new.type_error ≡ first_after self.old.type_error (type_text_errors text) }
    {
        match text {
            TypeText::Word(w) => {
                self.check(is_width(w.value), Reason::Width, w.place);
            }
            TypeText::Row(m, w) => {
                self.check(is_word_count(m.value), Reason::Limit, m.place);
                self.check(is_width(w.value), Reason::Width, w.place);
            }
            TypeText::Table(n, m, w) => {
                self.check(is_row_count(n.value), Reason::Limit, n.place);
                self.check(is_word_count_in(n.value, m.value), Reason::Limit, m.place);
                self.check(is_width(w.value), Reason::Width, w.place);
            }
        }
    }

    /// The type errors of an answer's type, if there is one.
    pub fn answer_type(&mut self, text: Option<TypeText>)
        ensures { self.new.type_error ≡ first_after self.old.type_error (answer_type_errors text) }
    {
        if let Some(text) = text {
            self.type_text(text);
        }
    }
}
