//! The parts of a formula, true or false, and why a false one is.

ghost use Rattle.std.specs.Prelude.{◌≡◌, ℕ, ◌++◌, IfOk, OnOk, slice_get, Some};
ghost use Rattle.ygg_syntax.specs.declared.tree.Expr.{Expr};
ghost use Rattle.ygg_eval.specs.ygg_meaning.Meaning.{is_one};
ghost use Rattle.ygg_eval_expr.specs.Known.{CanEvaluate, value_in};
ghost use Rattle.ygg_explain.specs.Parts.{Adds, part_words, true_line};
ghost use Rattle.ygg_explain.specs.Views.{AllPartsIn, PartIn, PartsIn, WhyIn, known_in};

use crate::forms::{comparison, conjunction, place_of};
use crate::lines::put_place;
use crate::sides::put_sides;
use std::alloc::Global;
use ygg_base::{NoMemory, Text};
use ygg_eval::Binding;
use ygg_eval_expr::{Evaluator, is_one};
use ygg_syntax::tree::{Def, Expr};
use ygg_value::Value;

/// What formulas are evaluated with: the definitions of their file, their own names, and those of the machine below.
#[derive(Clone, Copy)]
pub struct View<'a, 'n, 'v> {
    pub alloc: Global,
    pub defs: &'a [Def],
    pub own: &'n [Binding<'a, 'v>],
    pub low: &'n [Binding<'a, 'v>],
}

impl<'a, 'n, 'v> View<'a, 'n, 'v> {
    /// The value of an expression.
    fn value(&self, e: &'a Expr) -> Result<Value, NoMemory>
        requires { CanEvaluate (known_in self.now) e.now }
        ensures { IfOk result (λ v. v ≡ value_in (known_in self.now) e.now) }
    {
        let evaluator = Evaluator::new(self.alloc, self.defs, self.own, self.low);
        let value = evaluator.value(e)?;
        value.into_value(self.alloc)
    }

    /// Whether an expression is 1.
    fn test(&self, e: &'a Expr) -> Result<bool, NoMemory>
        requires { CanEvaluate (known_in self.now) e.now }
        ensures { IfOk result (λ b. b ≡ is_one (value_in (known_in self.now) e.now)) }
    {
        let value = self.value(e)?;
        Ok(is_one(&value))
    }

    /// Adds why an expression is false.
    fn put_why(&self, out: &mut Text, e: &'a Expr) -> Result<(), NoMemory>
        requires { CanEvaluate (known_in self.now) e.now }
        ensures { OnOk result (Adds (WhyIn self.now e.now) out.old out.new) }
    {
        match comparison(e) {
            Some((a, b)) => {
                let a = self.value(a)?;
                let b = self.value(b)?;
                put_sides(self.alloc, out, &a, &b)
            }
            None => Ok(()),
        }
    }

    /// Adds the words that a part's line begins with.
    fn put_words(
        &self,
        out: &mut Text,
        word: &[u8],
        which: &[u8],
        e: &'a Expr,
    ) -> Result<(), NoMemory>
        ensures { OnOk result (out.new ≡ out.old ++ part_words word.now which.now e.now) }
    {
        out.extend_from_slice(word)?;
        out.extend_from_slice(which)?;
        out.push(b' ')?;
        put_place(self.alloc, out, place_of(e))
    }

    /// Adds the line of a part that is true, where true ones are wanted.
    fn put_true(
        &self,
        out: &mut Text,
        wanted: bool,
        which: &[u8],
        e: &'a Expr,
    ) -> Result<(), NoMemory>
        ensures { OnOk result (out.new ≡ out.old ++ true_line wanted which.now e.now) }
    {
        if !wanted {
            return Ok(());
        }
        self.put_words(out, b"true ", which, e)?;
        out.push(b'\n')
    }

    /// Adds the line of a part.
    fn put_part(
        &self,
        out: &mut Text,
        wanted: bool,
        which: &[u8],
        e: &'a Expr,
    ) -> Result<(), NoMemory>
        requires { CanEvaluate (known_in self.now) e.now }
        ensures { OnOk result (Adds (PartIn self.now wanted which.now e.now) out.old out.new) }
    {
        if self.test(e)? {
            return self.put_true(out, wanted, which, e);
        }
        self.put_words(out, b"false ", which, e)?;
        self.put_why(out, e)?;
        out.push(b'\n')
    }

    /// Adds the lines of a formula's parts, of the true ones where they are wanted.
    pub fn put_parts(
        &self,
        out: &mut Text,
        wanted: bool,
        which: &[u8],
        e: &'a Expr,
    ) -> Result<(), NoMemory>
        requires { CanEvaluate (known_in self.now) e.now }
        ensures { OnOk result (Adds (PartsIn self.now wanted which.now e.now) out.old out.new) }
    {
        match conjunction(e) {
            Some((a, b)) => {
                self.put_parts(out, wanted, which, a)?;
                self.put_parts(out, wanted, which, b)
            }
            None => self.put_part(out, wanted, which, e),
        }
    }

    /// Adds the lines of the parts of several formulas.
    pub fn put_all_parts(
        &self,
        out: &mut Text,
        wanted: bool,
        which: &[u8],
        es: &'a [Expr],
    ) -> Result<(), NoMemory>
        requires { (i : ℕ) (e : Expr) → slice_get es.now i ≡ Some e → CanEvaluate (known_in self.now) e }
        ensures { OnOk result (Adds (AllPartsIn self.now wanted which.now es.now) out.old out.new) }
    {
        for e in es {
            self.put_parts(out, wanted, which, e)?;
        }
        Ok(())
    }
}
