//! The rules of single constructs. Each adds its own type errors, and gives the construct's shape, where it has one.

ghost use Rattle.std.specs.Prelude.{◌≡◌, Some, length};
ghost use Rattle.std.specs.Option.{option_copied};
ghost use Rattle.ygg_type_rules.specs.TypeErrors.{none, first_after};
ghost use Rattle.ygg_type_rules.specs.Expressions.{
  all_shaped as are_all_shaped,
  wanted as wanted_errors,
  wanted_word as wanted_word_errors,
  constant_rule,
  name_rule,
  low_rule,
  arguments_wanted as arguments_wanted_errors,
  arguments_errors,
  apply_rule,
  operator_rule,
  not_rule,
  index_rule,
  pick_rule,
  resize_rule,
  fill_rule,
  row_word as row_word_errors,
  row_words as row_words_errors,
  row_count as row_count_errors,
  first_shape,
  row_rule,
  number_errors,
  quantified_rule,
};

use crate::first::First;
use crate::limits::{is_bound, is_value, is_width, is_word_count};
use crate::{compare, shapes};
use ygg_base::Reason;
use ygg_syntax::tree::{Name, Numeral, Place};
use ygg_type_rules::{Local, Signature, TypedExpr};
use ygg_value::{Op, Shape};

/// Whether all of the parts have shapes.
pub fn all_shaped(parts: &[TypedExpr]) -> bool
    ensures { result ≡ are_all_shaped parts.now }
{
    for part in parts {
        if part.shape.is_none() {
            return false;
        }
    }
    true
}

/// The shape of the first part.
fn first_of(parts: &[TypedExpr]) -> Option<Shape>
    ensures { result ≡ first_shape parts.now }
{
    parts.first()?.shape
}

impl First {
    /// A shape where another is wanted, if both are there. Answers whether there is no type error.
    pub fn wanted(&mut self, part: TypedExpr, wanted: Option<Shape>) -> bool
        ensures none { result ≡ none (wanted_errors part wanted) }
        ensures first { self.new.type_error ≡ first_after self.old.type_error (wanted_errors part wanted) }
    {
        match (wanted, part.shape) {
            (Some(wanted), Some(shape)) => self.add_some(
                part.place,
                compare::mismatch(shape, wanted),
            ),
            _ => true,
        }
    }

    /// A word is wanted. Answers whether there is no type error.
    pub fn wanted_word(&mut self, part: TypedExpr) -> bool
        ensures none { result ≡ none (wanted_word_errors part) }
        ensures first { self.new.type_error ≡ first_after self.old.type_error (wanted_word_errors part) }
    {
        match part.shape {
            None => true,
            Some(shape) => self.check(shapes::is_word(shape), Reason::Shape, part.place),
        }
    }

    /// `v:w`.
    pub fn constant(&mut self, v: Numeral, w: Numeral) -> Option<Shape>
        ensures shape { result ≡ (constant_rule v w).shape }
        ensures first { self.new.type_error ≡ first_after self.old.type_error (constant_rule v w).type_errors }
    {
        let value = self.check(is_value(v.value, w.value), Reason::Width, v.place);
        let width = self.check(is_width(w.value), Reason::Width, w.place);
        if value && width {
            Some(Shape::Word {
                width: w.value as u8,
            })
        } else {
            None
        }
    }

    /// A name that means this.
    pub fn name(&mut self, x: &Name, meaning: Option<Local>) -> Option<Shape>
        ensures shape { result ≡ (name_rule x.now meaning).shape }
        ensures first { self.new.type_error ≡ first_after self.old.type_error (name_rule x.now meaning).type_errors }
    {
        match meaning {
            None => {
                self.add(x.place, Reason::Unknown);
                None
            }
            Some(local) => local.shape,
        }
    }

    /// `low.NAME`, where the name means this.
    pub fn low(&mut self, x: &Name, meaning: Option<Option<Shape>>) -> Option<Shape>
        ensures shape { result ≡ (low_rule x.now meaning).shape }
        ensures first { self.new.type_error ≡ first_after self.old.type_error (low_rule x.now meaning).type_errors }
    {
        match meaning {
            None => {
                self.add(x.place, Reason::Unknown);
                None
            }
            Some(shape) => shape,
        }
    }

    /// An operator.
    pub fn operator(&mut self, op: Op, at: Place, a: TypedExpr, b: TypedExpr) -> Option<Shape>
        ensures shape { result ≡ (operator_rule op at a b).shape }
        ensures first { self.new.type_error ≡ first_after self.old.type_error (operator_rule op at a b).type_errors }
    {
        let first = a.shape?;
        let second = b.shape?;
        if self.add_some(at, compare::operands(op, first, second)) {
            Some(compare::result_shape(op, first))
        } else {
            None
        }
    }

    /// `~e`.
    pub fn not(&mut self, a: TypedExpr) -> Option<Shape>
        ensures shape { result ≡ (not_rule a).shape }
        ensures first { self.new.type_error ≡ first_after self.old.type_error (not_rule a).type_errors }
    {
        if self.wanted_word(a) { a.shape } else { None }
    }

    /// `e[i]`, where e has this shape.
    pub fn index(&mut self, whole: Option<Shape>, bracket: Place, i: TypedExpr) -> Option<Shape>
        ensures shape { result ≡ (index_rule whole bracket i).shape }
        ensures first { self.new.type_error ≡ first_after self.old.type_error (index_rule whole bracket i).type_errors }
    {
        let whole = whole?;
        let _index = i.shape?;
        let parts = self.check(!shapes::is_word(whole), Reason::Shape, bracket);
        let word = self.wanted_word(i);
        if parts && word {
            Some(shapes::part(whole))
        } else {
            None
        }
    }

    /// `pick(c, a, b)`.
    pub fn pick(&mut self, c: TypedExpr, a: TypedExpr, b: TypedExpr) -> Option<Shape>
        ensures shape { result ≡ (pick_rule c a b).shape }
        ensures first { self.new.type_error ≡ first_after self.old.type_error (pick_rule c a b).type_errors }
    {
        let _test = c.shape?;
        let first = a.shape?;
        let _second = b.shape?;
        let test = self.wanted(c, Some(Shape::Word { width: 1 }));
        let same = self.wanted(b, a.shape);
        if test && same { Some(first) } else { None }
    }

    /// `resize(e, w)`.
    pub fn resize(&mut self, a: TypedExpr, w: Numeral) -> Option<Shape>
        ensures shape { result ≡ (resize_rule a w).shape }
        ensures first { self.new.type_error ≡ first_after self.old.type_error (resize_rule a w).type_errors }
    {
        let word = self.wanted_word(a);
        let width = self.check(is_width(w.value), Reason::Width, w.place);
        let _shape = a.shape?;
        if word && width {
            Some(Shape::Word {
                width: w.value as u8,
            })
        } else {
            None
        }
    }

    /// `fill(m, e)`.
    pub fn fill(&mut self, m: Numeral, a: TypedExpr) -> Option<Shape>
        ensures shape { result ≡ (fill_rule m a).shape }
        ensures first { self.new.type_error ≡ first_after self.old.type_error (fill_rule m a).type_errors }
    {
        let count = self.check(is_word_count(m.value), Reason::Limit, m.place);
        let word = self.wanted_word(a);
        let shape = a.shape?;
        if count && word {
            Some(Shape::Row {
                words: m.value as u8,
                width: shapes::width(shape),
            })
        } else {
            None
        }
    }

    /// A part of a row whose first part has that shape. Answers whether there is no type error.
    fn row_word(&mut self, first: Shape, part: TypedExpr) -> bool
        ensures none { result ≡ none (row_word_errors first part) }
        ensures first { self.new.type_error ≡ first_after self.old.type_error (row_word_errors first part) }
    {
        match part.shape {
            None => true,
            Some(shape) => self.add_some(part.place, compare::row_word(first, shape)),
        }
    }

    /// The words of a row whose first part has that shape. Answers whether there is no type error.
    fn row_words(&mut self, first: Shape, parts: &[TypedExpr]) -> bool
        ensures none { result ≡ none (row_words_errors first parts.now) }
        ensures first { self.new.type_error ≡ first_after self.old.type_error (row_words_errors first parts.now) }
    {
        let mut right = true;
        for part in parts {
            if !self.row_word(first, *part) {
                right = false;
            }
        }
        right
    }

    /// The number of a row's words. Answers whether there is no type error.
    fn row_count(&mut self, at: Place, parts: &[TypedExpr]) -> bool
        ensures none { result ≡ none (row_count_errors at parts.now) }
        ensures first { self.new.type_error ≡ first_after self.old.type_error (row_count_errors at parts.now) }
    {
        if parts.is_empty() {
            self.add(at, Reason::Limit);
            return false;
        }
        match parts.get(64) {
            None => true,
            Some(over) => {
                self.add(over.place, Reason::Limit);
                false
            }
        }
    }

    /// `row(..)`.
    pub fn row(&mut self, at: Place, parts: &[TypedExpr]) -> Option<Shape>
        ensures shape { result ≡ (row_rule at parts.now).shape }
        ensures first { self.new.type_error ≡ first_after self.old.type_error (row_rule at parts.now).type_errors }
    {
        let few = self.row_count(at, parts);
        if !all_shaped(parts) {
            return None;
        }
        let first = first_of(parts)?;
        let words = self.row_words(first, parts);
        if few && words {
            Some(Shape::Row {
                words: parts.len() as u8,
                width: shapes::width(first),
            })
        } else {
            None
        }
    }

    /// The number of a loop or a quantifier, whose name is taken or not. Answers whether there is no type error.
    pub fn number(&mut self, x: &Name, taken: bool, w: Numeral, n: Numeral) -> bool
        ensures none { result ≡ none (number_errors x.now taken w n) }
        ensures first { self.new.type_error ≡ first_after self.old.type_error (number_errors x.now taken w n) }
    {
        let free = self.check(!taken, Reason::Twice, x.place);
        let width = self.check(is_width(w.value), Reason::Width, w.place);
        let bound = self.check(is_bound(n.value, w.value), Reason::Limit, n.place);
        free && width && bound
    }

    /// `all` and `any`, with their number and their expression.
    pub fn quantified(
        &mut self,
        x: &Name,
        taken: bool,
        w: Numeral,
        n: Numeral,
        e: TypedExpr,
    ) -> Option<Shape>
        ensures shape { result ≡ (quantified_rule (number_errors x.now taken w n) e).shape }
        ensures first { self.new.type_error ≡ first_after self.old.type_error (quantified_rule (number_errors x.now taken w n) e).type_errors }
    {
        let number = self.number(x, taken, w, n);
        let one = self.wanted(e, Some(Shape::Word { width: 1 }));
        let _shape = e.shape?;
        if number && one {
            Some(Shape::Word { width: 1 })
        } else {
            None
        }
    }

    /// Arguments where these shapes are wanted. Answers whether there is no type error.
    #[tactic(auto, using(crate::proofs::Arguments::next_wanted))]
    fn arguments_wanted(&mut self, parts: &[TypedExpr], wanted: &[Option<Shape>]) -> bool
        requires { length parts.now ≡ length wanted.now }
        ensures none { result ≡ none (arguments_wanted_errors parts.now wanted.now) }
        ensures first { self.new.type_error ≡ first_after self.old.type_error (arguments_wanted_errors parts.now wanted.now) }
    {
        let mut right = true;
        for i in 0..parts.len() {
            if !self.wanted(parts[i], wanted[i]) {
                right = false;
            }
        }
        right
    }

    /// The arguments of something that takes these. Answers whether there is no type error.
    pub fn arguments(&mut self, f: &Name, wanted: &[Option<Shape>], parts: &[TypedExpr]) -> bool
        ensures none { result ≡ none (arguments_errors f.now wanted.now parts.now) }
        ensures first { self.new.type_error ≡ first_after self.old.type_error (arguments_errors f.now wanted.now parts.now) }
    {
        if parts.len() != wanted.len() {
            self.add(f.place, Reason::Shape);
            return false;
        }
        if !all_shaped(parts) {
            return true;
        }
        self.arguments_wanted(parts, wanted)
    }

    /// A definition at its arguments, or no definition.
    pub fn apply(&mut self, f: &Name, def: Option<&Signature>, parts: &[TypedExpr]) -> Option<Shape>
        ensures shape { result ≡ (apply_rule f.now (option_copied def.entry) parts.now).shape }
        ensures first { self.new.type_error ≡ first_after self.old.type_error (apply_rule f.now (option_copied def.entry) parts.now).type_errors }
    {
        match def {
            None => {
                self.add(f.place, Reason::Unknown);
                None
            }
            Some(def) => {
                let right = self.arguments(f, def.arguments.as_slice(), parts);
                if right && all_shaped(parts) {
                    def.answer
                } else {
                    None
                }
            }
        }
    }
}
