//! Typing of expressions.

ghost use Rattle.std.specs.Prelude.{◌≡◌, ◌++◌, IfOk, OnOk};
ghost use Rattle.ygg_type_rules.specs.TypeErrors.{first_after};
ghost use Rattle.ygg_type_rules.specs.Expressions.{typing, typings, parts_of, type_errors_in, with_number, expected_errors};
ghost use Rattle.ygg_type_rules.specs.Definitions.{claim_errors};
ghost use Rattle.ygg_type.specs.Checking.{scope_of};

use crate::checker::Typer;
use crate::limits::is_weight;
use crate::shapes;
use ygg_base::Reason;
use ygg_list::{NoMemory, Sequence};
use ygg_syntax::lists;
use ygg_syntax::tree::{Expr, Name, Numeral};
use ygg_type_rules::TypedExpr;
use ygg_value::Shape;

impl<'a> Typer<'a> {
    /// Finds the type errors of an expression, and what it is to those around it. Its only error is out of memory.
    #[cycle(infer)]
    pub fn infer(&mut self, e: &'a Expr) -> Result<TypedExpr, NoMemory>
        ensures part { IfOk result (λ p. p ≡ (typing e.now (scope_of self.old)).part) }
        ensures first { OnOk result (self.new.first.type_error ≡ first_after self.old.first.type_error (typing e.now (scope_of self.old)).type_errors) }
        ensures same { OnOk result (scope_of self.new ≡ scope_of self.old) }
    {
        match e {
            Expr::Constant(v, w) => Ok(TypedExpr {
                place: v.place,
                shape: self.first.constant(*v, *w),
            }),
            Expr::Low(at, x) => {
                let meaning = self.low_meaning(x.text.as_slice());
                Ok(TypedExpr {
                    place: *at,
                    shape: self.first.low(x, meaning),
                })
            }
            Expr::Variable(x) => {
                let meaning = self.meaning(x.text.as_slice());
                Ok(TypedExpr {
                    place: x.place,
                    shape: self.first.name(x, meaning),
                })
            }
            Expr::Apply(f, arguments) => {
                let parts = self.infer_all(lists::expr::as_slice(arguments))?;
                let def = self.defs.find(f.text.as_slice());
                Ok(TypedExpr {
                    place: f.place,
                    shape: self.first.apply(f, def, parts.as_slice()),
                })
            }
            Expr::Binary(first, a, op, at, b) => {
                let a = self.infer(lists::expr::get(a))?;
                let b = self.infer(lists::expr::get(b))?;
                Ok(TypedExpr {
                    place: *first,
                    shape: self.first.operator(*op, *at, a, b),
                })
            }
            Expr::Not(first, a) => {
                let a = self.infer(lists::expr::get(a))?;
                Ok(TypedExpr {
                    place: *first,
                    shape: self.first.not(a),
                })
            }
            Expr::At(whole, bracket, i) => {
                let whole = self.infer(lists::expr::get(whole))?;
                let i = self.infer(lists::expr::get(i))?;
                Ok(TypedExpr {
                    place: whole.place,
                    shape: self.first.index(whole.shape, *bracket, i),
                })
            }
            Expr::Pick(first, c, a, b) => {
                let c = self.infer(lists::expr::get(c))?;
                let a = self.infer(lists::expr::get(a))?;
                let b = self.infer(lists::expr::get(b))?;
                Ok(TypedExpr {
                    place: *first,
                    shape: self.first.pick(c, a, b),
                })
            }
            Expr::Resize(first, a, w) => {
                let a = self.infer(lists::expr::get(a))?;
                Ok(TypedExpr {
                    place: *first,
                    shape: self.first.resize(a, *w),
                })
            }
            Expr::Fill(first, m, a) => {
                let a = self.infer(lists::expr::get(a))?;
                Ok(TypedExpr {
                    place: *first,
                    shape: self.first.fill(*m, a),
                })
            }
            Expr::Row(first, parts) => {
                let parts = self.infer_all(lists::expr::as_slice(parts))?;
                Ok(TypedExpr {
                    place: *first,
                    shape: self.first.row(*first, parts.as_slice()),
                })
            }
            Expr::Quantified(first, _, x, w, n, e) => {
                let taken = self.is_taken(x.text.as_slice());
                let e = self.infer_with(x, *w, lists::expr::get(e))?;
                Ok(TypedExpr {
                    place: *first,
                    shape: self.first.quantified(x, taken, *w, *n, e),
                })
            }
        }
    }

    /// The same with the number of a quantifier.
    #[cycle(infer)]
    #[tactic(auto, using(crate::proofs::Restored::cut_to, crate::proofs::Restored::grows_local))]
    fn infer_with(&mut self, x: &'a Name, w: Numeral, e: &'a Expr) -> Result<TypedExpr, NoMemory>
        ensures part { IfOk result (λ p. p ≡ (typing e.now (with_number x.now w (scope_of self.old))).part) }
        ensures first { OnOk result (self.new.first.type_error ≡ first_after self.old.first.type_error
            (typing e.now (with_number x.now w (scope_of self.old))).type_errors) }
        ensures same { OnOk result (scope_of self.new ≡ scope_of self.old) }
    {
        let before = self.locals.len();
        self.add_local(x.text.as_slice(), shapes::word(w.value), false)?;
        let part = self.infer(e);
        self.forget(before);
        part
    }

    /// Finds the type errors of expressions, and what they are to those around them. Its only error is out of memory.
    #[cycle(infer)]
    pub fn infer_all(&mut self, expressions: &'a [Expr]) -> Result<Sequence<TypedExpr>, NoMemory>
        ensures parts { IfOk result (λ ps. ps ≡ parts_of (typings expressions.now (scope_of self.old))) }
        ensures first { OnOk result (self.new.first.type_error ≡ first_after self.old.first.type_error
            (type_errors_in (typings expressions.now (scope_of self.old)))) }
        ensures same { OnOk result (scope_of self.new ≡ scope_of self.old) }
    {
        let mut parts = Sequence::new(self.alloc);
        self.infer_into(&mut parts, expressions)?;
        Ok(parts)
    }

    /// The same at the end of the parts that are there.
    #[cycle(infer)]
    fn infer_into(
        &mut self,
        parts: &mut Sequence<TypedExpr>,
        expressions: &'a [Expr],
    ) -> Result<(), NoMemory>
        ensures parts { OnOk result (parts.new ≡ parts.old ++ parts_of (typings expressions.now (scope_of self.old))) }
        ensures first { OnOk result (self.new.first.type_error ≡ first_after self.old.first.type_error
            (type_errors_in (typings expressions.now (scope_of self.old)))) }
        ensures same { OnOk result (scope_of self.new ≡ scope_of self.old) }
    {
        for e in expressions {
            parts.push(self.infer(e)?)?;
        }
        Ok(())
    }

    /// An expression where a shape is wanted, if there is one. Answers where its first token stands.
    pub fn expect(&mut self, e: &'a Expr, shape: Option<Shape>) -> Result<TypedExpr, NoMemory>
        ensures part { IfOk result (λ p. p ≡ (typing e.now (scope_of self.old)).part) }
        ensures first { OnOk result (self.new.first.type_error ≡ first_after self.old.first.type_error (expected_errors e.now shape (scope_of self.old))) }
        ensures same { OnOk result (scope_of self.new ≡ scope_of self.old) }
    {
        let part = self.infer(e)?;
        self.first.wanted(part, shape);
        Ok(part)
    }

    /// An expression of a declaration that wants this shape, and that has this weight.
    pub fn claim(&mut self, e: &'a Expr, shape: Option<Shape>, weight: u64) -> Result<(), NoMemory>
        ensures first { OnOk result (self.new.first.type_error ≡ first_after self.old.first.type_error (claim_errors e.now shape weight (scope_of self.old))) }
        ensures same { OnOk result (scope_of self.new ≡ scope_of self.old) }
    {
        let part = self.expect(e, shape)?;
        self.first
            .check(is_weight(weight), Reason::TooLong, part.place);
        Ok(())
    }
}
