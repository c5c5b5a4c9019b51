ghost use Rattle.std.specs.Prelude.{◌≡◌, ◌<◌, ◌≤◌, ℕ, List, [], ◌∷◌, ◌++◌, length, map, true, false, Some, IfSome, OnSome, IfNone};
ghost use Rattle.ygg_base.specs.declared.token.Keyword.TheVariants as word;
ghost use Rattle.ygg_base.specs.declared.token.Symbol.TheVariants as sign;
ghost use Rattle.ygg_base.specs.declared.token.Mark.TheVariants as mark;
ghost use Rattle.ygg_syntax.specs.Expressions.{phrase, expr, symbol, keyword, named, numbered, any, some, operator_sign, quantifier_word};
ghost use Rattle.ygg_syntax.specs.Reading.{token, takes, starts};
ghost use Rattle.ygg_syntax.specs.Pending.{exactly, name, number, operator, expression, more_expressions, rest_of_arguments, sign_of};
ghost use Rattle.ygg_read.specs.ExpressionSteps.{Reads, Goes, GoesAsAtom, Stops, IfRead, OnRead, IfRefused};

use crate::both::{added, both};
use crate::reader::Reader;
use sqlite_items::{Boxed, Items};
use ygg_base::{Keyword, Symbol};
use ygg_list::NoMemory;
use ygg_syntax::tree::{Expr, Name, Numeral, Place, Quantifier};
use ygg_value::Op;

impl<'a> Reader<'a> {
    /// Reads an expression. Where none comes nothing is answered, and the first token that can't come is the next one.
    #[cycle(expression)]
    pub fn expression(&mut self) -> Result<Option<Expr>, NoMemory>
        ensures reads { IfRead result (λ e. Reads (expr e ∷ []) self.old self.new) }
        ensures goes { OnRead result (Goes (expression ∷ []) self.old self.new) }
        ensures refused { IfRefused result (Stops (expression ∷ []) self.old self.new) }
        ensures shorter { OnRead result (length self.new < length self.old) }
    {
        if let Some(first) = self.symbol(Symbol::Tilde) {
            return self.negation(first);
        }
        let Some(read) = self.atom()? else {
            return Ok(None);
        };
        let mut whole = read;
        while let Some(bracket) = self.symbol(Symbol::SquareOpen) {
            let inner = Boxed::new(self.alloc(), whole)?;
            let Some(index) = self.part(Symbol::SquareClose)? else {
                return Ok(None);
            };
            whole = Expr::At(inner, bracket, index);
        }
        Ok(Some(whole))
    }

    /// Reads an expression and this symbol after it.
    #[cycle(expression)]
    fn part(&mut self, after: Symbol) -> Result<Option<Boxed<Expr>>, NoMemory>
        ensures reads { IfRead result (λ e. Reads (expr e ∷ symbol after ∷ []) self.old self.new) }
        ensures goes { OnRead result (Goes (expression ∷ sign_of after ∷ []) self.old self.new) }
        ensures refused { IfRefused result (Stops (expression ∷ sign_of after ∷ []) self.old self.new) }
        ensures shorter { OnRead result (length self.new < length self.old) }
    {
        let Some(e) = self.expression()? else {
            return Ok(None);
        };
        let Some(e) = self.symbol_after(e, after) else {
            return Ok(None);
        };
        Ok(Some(Boxed::new(self.alloc(), e)?))
    }

    /// Reads an atom, where no `~` comes.
    #[cycle(expression)]
    fn atom(&mut self) -> Result<Option<Expr>, NoMemory>
        requires { starts (mark.Symbol sign.Tilde) self.old ≡ false }
        ensures reads { IfRead result (λ e. Reads (expr e ∷ []) self.old self.new) }
        ensures indexable { IfRead result (λ e. (phrase e).indexable ≡ true) }
        ensures goes { OnRead result (GoesAsAtom self.old self.new) }
        ensures refused { IfRefused result (Stops (expression ∷ []) self.old self.new) }
        ensures shorter { OnRead result (length self.new < length self.old) }
    {
        if let Some(name) = self.name()? {
            return self.named(name);
        }
        if let Some(value) = self.number() {
            return Ok(self.constant(value));
        }
        if let Some(first) = self.symbol(Symbol::RoundOpen) {
            return self.binary(first);
        }
        if let Some(first) = self.keyword(Keyword::Low) {
            return self.low(first);
        }
        if let Some(first) = self.keyword(Keyword::Pick) {
            return self.pick(first);
        }
        if let Some(first) = self.keyword(Keyword::Resize) {
            return self.resize(first);
        }
        if let Some(first) = self.keyword(Keyword::Fill) {
            return self.fill(first);
        }
        if let Some(first) = self.keyword(Keyword::Row) {
            return self.row(first);
        }
        if let Some(first) = self.keyword(Keyword::All) {
            return self.quantified(first, Quantifier::All);
        }
        if let Some(first) = self.keyword(Keyword::Any) {
            return self.quantified(first, Quantifier::Any);
        }
        Ok(None)
    }

    /// Reads what follows the value of a constant.
    fn constant(&mut self, value: Numeral) -> Option<Expr>
        ensures reads { IfSome result (λ e. Reads (expr e ∷ []) (token (mark.Num value.value) value.place ∷ self.old) self.new) }
        ensures indexable { IfSome result (λ e. (phrase e).indexable ≡ true) }
        ensures goes { OnSome result (GoesAsAtom (token (mark.Num value.value) value.place ∷ self.old) self.new) }
        ensures refused { IfNone result (Stops (expression ∷ []) (token (mark.Num value.value) value.place ∷ self.old) self.new) }
        ensures shorter { OnSome result (length self.new < length self.old) }
    {
        let Some(_) = self.symbol(Symbol::Colon) else {
            return None;
        };
        let Some(width) = self.number() else {
            return None;
        };
        Some(Expr::Constant(value, width))
    }

    /// Reads what follows a `low`.
    fn low(&mut self, first: Place) -> Result<Option<Expr>, NoMemory>
        ensures reads { IfRead result (λ e. Reads (expr e ∷ []) (token (mark.Keyword word.Low) first ∷ self.old) self.new) }
        ensures indexable { IfRead result (λ e. (phrase e).indexable ≡ true) }
        ensures goes { OnRead result (GoesAsAtom (token (mark.Keyword word.Low) first ∷ self.old) self.new) }
        ensures refused { IfRefused result (Stops (expression ∷ []) (token (mark.Keyword word.Low) first ∷ self.old) self.new) }
        ensures shorter { OnRead result (length self.new < length self.old) }
    {
        let Some(_) = self.symbol(Symbol::Dot) else {
            return Ok(None);
        };
        let Some(name) = self.name()? else {
            return Ok(None);
        };
        Ok(Some(Expr::Low(first, name)))
    }

    /// Reads what follows a name: its arguments, or nothing.
    #[cycle(expression)]
    fn named(&mut self, name: Name) -> Result<Option<Expr>, NoMemory>
        ensures reads { IfRead result (λ e. Reads (expr e ∷ []) (token (mark.Name name.text) name.place ∷ self.old) self.new) }
        ensures indexable { IfRead result (λ e. (phrase e).indexable ≡ true) }
        ensures goes { OnRead result (GoesAsAtom (token (mark.Name name.text) name.place ∷ self.old) self.new) }
        ensures refused { IfRefused result (Stops (expression ∷ []) (token (mark.Name name.text) name.place ∷ self.old) self.new) }
        ensures shorter { OnRead result (length self.new ≤ length self.old) }
    {
        let Some(_) = self.symbol(Symbol::RoundOpen) else {
            return Ok(Some(Expr::Variable(name)));
        };
        let Some((name, arguments)) = both(name, self.arguments())? else {
            return Ok(None);
        };
        Ok(Some(Expr::Apply(name, arguments)))
    }

    /// Reads arguments and the bracket after them.
    #[cycle(expression)]
    pub fn arguments(&mut self) -> Result<Option<Items<Expr>>, NoMemory>
        ensures reads { IfRead result (λ es. Reads (any (map phrase es) ∷ symbol sign.RoundClose ∷ []) self.old self.new) }
        ensures goes { OnRead result (Goes (rest_of_arguments ∷ []) self.old self.new) }
        ensures refused { IfRefused result (Stops (rest_of_arguments ∷ []) self.old self.new) }
        ensures shorter { OnRead result (length self.new < length self.old) }
    {
        let Some(_) = self.symbol(Symbol::RoundClose) else {
            return self.list();
        };
        Ok(Some(Items::new(self.alloc())))
    }

    /// Reads one expression or more, and the bracket after them.
    #[cycle(expression)]
    fn list(&mut self) -> Result<Option<Items<Expr>>, NoMemory>
        ensures reads { IfRead result (λ es. Reads (some (map phrase es) ∷ symbol sign.RoundClose ∷ []) self.old self.new) }
        ensures filled { IfRead result (λ es. any (map phrase es) ≡ some (map phrase es)) }
        ensures goes { OnRead result (Goes (expression ∷ more_expressions ∷ sign_of sign.RoundClose ∷ []) self.old self.new) }
        ensures refused { IfRefused result (Stops (expression ∷ more_expressions ∷ sign_of sign.RoundClose ∷ []) self.old self.new) }
        ensures shorter { OnRead result (length self.new < length self.old) }
    {
        let none = Items::new(self.alloc());
        let Some(first) = added(none, self.expression())? else {
            return Ok(None);
        };
        let mut parts = first;
        while let Some(_) = self.symbol(Symbol::Comma) {
            let Some(more) = added(parts, self.expression())? else {
                return Ok(None);
            };
            parts = more;
        }
        Ok(self.symbol_after(parts, Symbol::RoundClose))
    }

    /// Reads what follows a `~`.
    #[cycle(expression)]
    fn negation(&mut self, first: Place) -> Result<Option<Expr>, NoMemory>
        ensures reads { IfRead result (λ e. Reads (expr e ∷ []) (token (mark.Symbol sign.Tilde) first ∷ self.old) self.new) }
        ensures goes { OnRead result (Goes (expression ∷ []) (token (mark.Symbol sign.Tilde) first ∷ self.old) self.new) }
        ensures refused { IfRefused result (Stops (expression ∷ []) (token (mark.Symbol sign.Tilde) first ∷ self.old) self.new) }
        ensures shorter { OnRead result (length self.new < length self.old) }
    {
        let Some(part) = self.expression()? else {
            return Ok(None);
        };
        let part = Boxed::new(self.alloc(), part)?;
        Ok(Some(Expr::Not(first, part)))
    }

    /// Reads what follows the bracket of a binary operation.
    #[cycle(expression)]
    fn binary(&mut self, first: Place) -> Result<Option<Expr>, NoMemory>
        ensures reads { IfRead result (λ e. Reads (expr e ∷ []) (token (mark.Symbol sign.RoundOpen) first ∷ self.old) self.new) }
        ensures indexable { IfRead result (λ e. (phrase e).indexable ≡ true) }
        ensures goes { OnRead result (GoesAsAtom (token (mark.Symbol sign.RoundOpen) first ∷ self.old) self.new) }
        ensures refused { IfRefused result (Stops (expression ∷ []) (token (mark.Symbol sign.RoundOpen) first ∷ self.old) self.new) }
        ensures shorter { OnRead result (length self.new < length self.old) }
    {
        let Some((left, operator, place)) = self.operand()? else {
            return Ok(None);
        };
        let Some(right) = self.part(Symbol::RoundClose)? else {
            return Ok(None);
        };
        Ok(Some(Expr::Binary(first, left, operator, place, right)))
    }

    /// Reads what follows a `pick`.
    #[cycle(expression)]
    fn pick(&mut self, first: Place) -> Result<Option<Expr>, NoMemory>
        ensures reads { IfRead result (λ e. Reads (expr e ∷ []) (token (mark.Keyword word.Pick) first ∷ self.old) self.new) }
        ensures indexable { IfRead result (λ e. (phrase e).indexable ≡ true) }
        ensures goes { OnRead result (GoesAsAtom (token (mark.Keyword word.Pick) first ∷ self.old) self.new) }
        ensures refused { IfRefused result (Stops (expression ∷ []) (token (mark.Keyword word.Pick) first ∷ self.old) self.new) }
        ensures shorter { OnRead result (length self.new < length self.old) }
    {
        let Some(_) = self.symbol(Symbol::RoundOpen) else {
            return Ok(None);
        };
        let Some(test) = self.part(Symbol::Comma)? else {
            return Ok(None);
        };
        let Some(left) = self.part(Symbol::Comma)? else {
            return Ok(None);
        };
        let Some(right) = self.part(Symbol::RoundClose)? else {
            return Ok(None);
        };
        Ok(Some(Expr::Pick(first, test, left, right)))
    }

    /// Reads what follows a `resize`.
    #[cycle(expression)]
    fn resize(&mut self, first: Place) -> Result<Option<Expr>, NoMemory>
        ensures reads { IfRead result (λ e. Reads (expr e ∷ []) (token (mark.Keyword word.Resize) first ∷ self.old) self.new) }
        ensures indexable { IfRead result (λ e. (phrase e).indexable ≡ true) }
        ensures goes { OnRead result (GoesAsAtom (token (mark.Keyword word.Resize) first ∷ self.old) self.new) }
        ensures refused { IfRefused result (Stops (expression ∷ []) (token (mark.Keyword word.Resize) first ∷ self.old) self.new) }
        ensures shorter { OnRead result (length self.new < length self.old) }
    {
        let Some(_) = self.symbol(Symbol::RoundOpen) else {
            return Ok(None);
        };
        let Some(part) = self.part(Symbol::Comma)? else {
            return Ok(None);
        };
        let Some(width) = self.number() else {
            return Ok(None);
        };
        let Some(_) = self.symbol(Symbol::RoundClose) else {
            return Ok(None);
        };
        Ok(Some(Expr::Resize(first, part, width)))
    }

    /// Reads what follows a `fill`.
    #[cycle(expression)]
    fn fill(&mut self, first: Place) -> Result<Option<Expr>, NoMemory>
        ensures reads { IfRead result (λ e. Reads (expr e ∷ []) (token (mark.Keyword word.Fill) first ∷ self.old) self.new) }
        ensures indexable { IfRead result (λ e. (phrase e).indexable ≡ true) }
        ensures goes { OnRead result (GoesAsAtom (token (mark.Keyword word.Fill) first ∷ self.old) self.new) }
        ensures refused { IfRefused result (Stops (expression ∷ []) (token (mark.Keyword word.Fill) first ∷ self.old) self.new) }
        ensures shorter { OnRead result (length self.new < length self.old) }
    {
        let Some(_) = self.symbol(Symbol::RoundOpen) else {
            return Ok(None);
        };
        let Some(count) = self.number() else {
            return Ok(None);
        };
        let Some(_) = self.symbol(Symbol::Comma) else {
            return Ok(None);
        };
        let Some(part) = self.part(Symbol::RoundClose)? else {
            return Ok(None);
        };
        Ok(Some(Expr::Fill(first, count, part)))
    }

    /// Reads what follows a `row`.
    #[cycle(expression)]
    fn row(&mut self, first: Place) -> Result<Option<Expr>, NoMemory>
        ensures reads { IfRead result (λ e. Reads (expr e ∷ []) (token (mark.Keyword word.Row) first ∷ self.old) self.new) }
        ensures indexable { IfRead result (λ e. (phrase e).indexable ≡ true) }
        ensures goes { OnRead result (GoesAsAtom (token (mark.Keyword word.Row) first ∷ self.old) self.new) }
        ensures refused { IfRefused result (Stops (expression ∷ []) (token (mark.Keyword word.Row) first ∷ self.old) self.new) }
        ensures shorter { OnRead result (length self.new < length self.old) }
    {
        let Some(_) = self.symbol(Symbol::RoundOpen) else {
            return Ok(None);
        };
        let Some(parts) = self.list()? else {
            return Ok(None);
        };
        Ok(Some(Expr::Row(first, parts)))
    }

    /// Reads what follows an `all` or `any`.
    #[cycle(expression)]
    fn quantified(&mut self, first: Place, which: Quantifier) -> Result<Option<Expr>, NoMemory>
        ensures reads { IfRead result (λ e. Reads (expr e ∷ []) (token (mark.Keyword (quantifier_word which)) first ∷ self.old) self.new) }
        ensures indexable { IfRead result (λ e. (phrase e).indexable ≡ true) }
        ensures goes { OnRead result (GoesAsAtom (token (mark.Keyword (quantifier_word which)) first ∷ self.old) self.new) }
        ensures refused { IfRefused result (Stops (expression ∷ []) (token (mark.Keyword (quantifier_word which)) first ∷ self.old) self.new) }
        ensures shorter { OnRead result (length self.new < length self.old) }
    {
        let Some(_) = self.symbol(Symbol::RoundOpen) else {
            return Ok(None);
        };
        let Some(range) = self.range()? else {
            return Ok(None);
        };
        let Some(range) = self.symbol_after(range, Symbol::Comma) else {
            return Ok(None);
        };
        let Some((range, test)) = both(range, self.part(Symbol::RoundClose))? else {
            return Ok(None);
        };
        let (name, width, bound) = range;
        Ok(Some(Expr::Quantified(first, which, name, width, bound, test)))
    }

    /// Reads an expression and an operator after it.
    #[cycle(expression)]
    fn operand(&mut self) -> Result<Option<(Boxed<Expr>, Op, Place)>, NoMemory>
        ensures reads { IfRead result (λ read. Reads (expr read.0 ∷ takes (mark.Symbol (operator_sign read.1)) read.2 ∷ []) self.old self.new) }
        ensures goes { OnRead result (Goes (expression ∷ operator ∷ []) self.old self.new) }
        ensures refused { IfRefused result (Stops (expression ∷ operator ∷ []) self.old self.new) }
        ensures shorter { OnRead result (length self.new < length self.old) }
    {
        let Some(e) = self.expression()? else {
            return Ok(None);
        };
        let Some((e, (operator, place))) = Some(e).zip(self.operator()) else {
            return Ok(None);
        };
        Ok(Some((Boxed::new(self.alloc(), e)?, operator, place)))
    }

    /// Reads the name, the width and the bound of a number that is counted.
    pub fn range(&mut self) -> Result<Option<(Name, Numeral, Numeral)>, NoMemory>
        ensures reads { IfRead result (λ read. Reads (named read.0 ∷ symbol sign.Colon ∷ numbered read.1 ∷ keyword word.Below ∷ numbered read.2 ∷ [])
            self.old self.new) }
        ensures goes { OnRead result (Goes (name ∷ sign_of sign.Colon ∷ number ∷ exactly (mark.Keyword word.Below) ∷ number ∷ []) self.old self.new) }
        ensures refused { IfRefused result (Stops (name ∷ sign_of sign.Colon ∷ number ∷ exactly (mark.Keyword word.Below) ∷ number ∷ []) self.old self.new) }
        ensures shorter { OnRead result (length self.new < length self.old) }
    {
        let Some(name) = self.name_before(Symbol::Colon)? else {
            return Ok(None);
        };
        let Some((name, (width, bound))) = Some(name).zip(self.counted()) else {
            return Ok(None);
        };
        Ok(Some((name, width, bound)))
    }

    /// Reads the width and the bound of a number that is counted.
    fn counted(&mut self) -> Option<(Numeral, Numeral)>
        ensures reads { IfSome result (λ read. Reads (numbered read.0 ∷ keyword word.Below ∷ numbered read.1 ∷ []) self.old self.new) }
        ensures goes { OnSome result (Goes (number ∷ exactly (mark.Keyword word.Below) ∷ number ∷ []) self.old self.new) }
        ensures refused { IfNone result (Stops (number ∷ exactly (mark.Keyword word.Below) ∷ number ∷ []) self.old self.new) }
        ensures shorter { OnSome result (length self.new < length self.old) }
    {
        let Some(width) = self.number() else {
            return None;
        };
        let Some(_) = self.keyword(Keyword::Below) else {
            return None;
        };
        let Some(bound) = self.number() else {
            return None;
        };
        Some((width, bound))
    }
}
