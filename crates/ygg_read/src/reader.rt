ghost use Rattle.std.specs.Prelude.{◌≡◌, ◌<◌, ◌≤◌, ℕ, List, [], ◌∷◌, ◌++◌, length, true, false, Some, OnOk, IfOk, IfSome, OnSome, IfNone, IsTrue, ◌↔◌};
ghost use Rattle.ygg_base.specs.declared.token.Mark.TheVariants as mark;
ghost use Rattle.ygg_base.specs.declared.token.Token.{Token};
ghost use Rattle.ygg_syntax.specs.declared.tree.Place.{Place};
ghost use Rattle.ygg_syntax.specs.Expressions.{operator_sign, symbol, named, numbered};
ghost use Rattle.ygg_syntax.specs.Reading.{token, starts, passes, takes};
ghost use Rattle.ygg_syntax.specs.Pending.{exactly, name, number, operator, operation_of, sign_of};
ghost use Rattle.ygg_read.specs.ExpressionSteps.{Reads, Goes, Stops, IfRead, OnRead, IfRefused};

use std::alloc::Global;
use std::marker::Model;
use ygg_base::{Keyword, Mark, Symbol, Token};
use ygg_list::NoMemory;
use ygg_syntax::tree::{Name, Numeral, Place};
use ygg_value::Op;

/// The tokens that are still to be read.
#[derive(Drop)]
pub struct Reader<'a> {
    alloc: Global,
    rest: &'a [Token],
}

impl<'a> Model for Reader<'a> {
    ghost use Rattle.std.specs.Prelude.{List};
    ghost use Rattle.ygg_base.specs.declared.token.Token.{Token};

    ghost Value = { List Token };

    ghost view = { λ reader. reader.rest.now };
}

impl<'a> Reader<'a> {
    /// A reader of all the tokens.
    pub fn new(alloc: Global, tokens: &'a [Token]) -> Reader<'a>
        ensures { result ≡ tokens.now }
    {
        Reader {
            alloc,
            rest: tokens,
        }
    }

    /// The tokens that are left.
    pub fn left(&self) -> &'a [Token]
        ensures { result.now ≡ self.now }
    {
        self.rest
    }

    /// What new parts of the tree are allocated with.
    pub fn alloc(&self) -> Global {
        self.alloc
    }

    /// Takes the next token where it is this keyword.
    pub fn keyword(&mut self, keyword: Keyword) -> Option<Place>
        ensures taken { IfSome result (λ at. self.old ≡ token (mark.Keyword keyword) at ∷ self.new) }
        ensures reads { OnSome result (Reads (passes (mark.Keyword keyword) ∷ []) self.old self.new) }
        ensures goes { OnSome result (Goes (exactly (mark.Keyword keyword) ∷ []) self.old self.new) }
        ensures left { IfNone result (self.new ≡ self.old) }
        ensures other { IfNone result (starts (mark.Keyword keyword) self.old ≡ false) }
        ensures refused { IfNone result (Stops (exactly (mark.Keyword keyword) ∷ []) self.old self.new) }
    {
        if let Some((first, others)) = self.rest.split_first() {
            if let Mark::Keyword(found) = &first.mark {
                if *found == keyword {
                    self.rest = others;
                    return Some(Place {
                        line: first.line,
                        column: first.column,
                    });
                }
            }
        }
        None
    }

    /// Takes the next token where it is this symbol.
    pub fn symbol(&mut self, symbol: Symbol) -> Option<Place>
        ensures taken { IfSome result (λ at. self.old ≡ token (mark.Symbol symbol) at ∷ self.new) }
        ensures reads { OnSome result (Reads (passes (mark.Symbol symbol) ∷ []) self.old self.new) }
        ensures goes { OnSome result (Goes (exactly (mark.Symbol symbol) ∷ []) self.old self.new) }
        ensures left { IfNone result (self.new ≡ self.old) }
        ensures other { IfNone result (starts (mark.Symbol symbol) self.old ≡ false) }
        ensures refused { IfNone result (Stops (exactly (mark.Symbol symbol) ∷ []) self.old self.new) }
    {
        if let Some((first, others)) = self.rest.split_first() {
            if let Mark::Symbol(found) = &first.mark {
                if *found == symbol {
                    self.rest = others;
                    return Some(Place {
                        line: first.line,
                        column: first.column,
                    });
                }
            }
        }
        None
    }

    /// A part that was read, where the token after it is this keyword, which is taken. A function that goes on so owns no part where it
    /// ends early.
    pub fn keyword_after<A: Drop>(&mut self, part: A, keyword: Keyword) -> Option<A>
        ensures same { IfSome result (λ same. part ≡ same) }
        ensures reads { OnSome result (Reads (passes (mark.Keyword keyword) ∷ []) self.old self.new) }
        ensures goes { OnSome result (Goes (exactly (mark.Keyword keyword) ∷ []) self.old self.new) }
        ensures refused { IfNone result (Stops (exactly (mark.Keyword keyword) ∷ []) self.old self.new) }
        ensures shorter { OnSome result (length self.new < length self.old) }
    {
        let Some(_) = self.keyword(keyword) else {
            return None;
        };
        Some(part)
    }

    /// The same with a symbol.
    pub fn symbol_after<A: Drop>(&mut self, part: A, symbol: Symbol) -> Option<A>
        ensures same { IfSome result (λ same. part ≡ same) }
        ensures reads { OnSome result (Reads (passes (mark.Symbol symbol) ∷ []) self.old self.new) }
        ensures goes { OnSome result (Goes (exactly (mark.Symbol symbol) ∷ []) self.old self.new) }
        ensures refused { IfNone result (Stops (exactly (mark.Symbol symbol) ∷ []) self.old self.new) }
        ensures shorter { OnSome result (length self.new < length self.old) }
    {
        let Some(_) = self.symbol(symbol) else {
            return None;
        };
        Some(part)
    }

    /// Takes the next token where it is a number.
    pub fn number(&mut self) -> Option<Numeral>
        ensures taken { IfSome result (λ n. self.old ≡ token (mark.Num n.value) n.place ∷ self.new) }
        ensures reads { IfSome result (λ n. Reads (numbered n ∷ []) self.old self.new) }
        ensures goes { OnSome result (Goes (number ∷ []) self.old self.new) }
        ensures left { IfNone result (self.new ≡ self.old) }
        ensures other { IfNone result ((n : ℕ) (at : Place) (rest : List Token) → self.old ≡ token (mark.Num n) at ∷ rest → ⊥) }
        ensures refused { IfNone result (Stops (number ∷ []) self.old self.new) }
    {
        if let Some((first, others)) = self.rest.split_first() {
            if let Mark::Num(value) = &first.mark {
                self.rest = others;
                return Some(Numeral {
                    value: *value,
                    place: Place {
                        line: first.line,
                        column: first.column,
                    },
                });
            }
        }
        None
    }

    /// Takes the next token where it is a name.
    pub fn name(&mut self) -> Result<Option<Name>, NoMemory>
        ensures taken { IfRead result (λ x. self.old ≡ token (mark.Name x.text) x.place ∷ self.new) }
        ensures reads { IfRead result (λ x. Reads (named x ∷ []) self.old self.new) }
        ensures goes { OnRead result (Goes (name ∷ []) self.old self.new) }
        ensures left { IfRefused result (self.new ≡ self.old) }
        ensures other { IfRefused result ((text : List ℕ) (at : Place) (rest : List Token) → self.old ≡ token (mark.Name text) at ∷ rest → ⊥) }
        ensures refused { IfRefused result (Stops (name ∷ []) self.old self.new) }
    {
        if let Some((first, others)) = self.rest.split_first() {
            if let Mark::Name(name) = &first.mark {
                let text = name.copy(self.alloc)?;
                self.rest = others;
                return Ok(Some(Name {
                    text,
                    place: Place {
                        line: first.line,
                        column: first.column,
                    },
                }));
            }
        }
        Ok(None)
    }

    /// Takes a name and this symbol after it.
    pub(crate) fn name_before(&mut self, after: Symbol) -> Result<Option<Name>, NoMemory>
        ensures reads { IfRead result (λ x. Reads (named x ∷ symbol after ∷ []) self.old self.new) }
        ensures goes { OnRead result (Goes (name ∷ sign_of after ∷ []) self.old self.new) }
        ensures refused { IfRefused result (Stops (name ∷ sign_of after ∷ []) self.old self.new) }
        ensures shorter { OnRead result (length self.new < length self.old) }
    {
        let Some(name) = self.name()? else {
            return Ok(None);
        };
        Ok(self.symbol_after(name, after))
    }

    /// Takes the next token where it is an operator.
    pub fn operator(&mut self) -> Option<(Op, Place)>
        ensures taken { IfSome result (λ found. self.old ≡ token (mark.Symbol (operator_sign found.0)) found.1 ∷ self.new) }
        ensures reads { IfSome result (λ found. Reads (takes (mark.Symbol (operator_sign found.0)) found.1 ∷ []) self.old self.new) }
        ensures goes { OnSome result (Goes (operator ∷ []) self.old self.new) }
        ensures left { IfNone result (self.new ≡ self.old) }
        ensures refused { IfNone result (Stops (operator ∷ []) self.old self.new) }
    {
        if let Some((first, others)) = self.rest.split_first() {
            if let Mark::Symbol(symbol) = &first.mark {
                if let Some(found) = operation(*symbol) {
                    self.rest = others;
                    return Some((
                        found,
                        Place {
                            line: first.line,
                            column: first.column,
                        },
                    ));
                }
            }
        }
        None
    }
}

/// The operation that a symbol stands for.
fn operation(symbol: Symbol) -> Option<Op>
    ensures { result ≡ operation_of symbol }
{
    match symbol {
        Symbol::Plus => Some(Op::Add),
        Symbol::Minus => Some(Op::Sub),
        Symbol::Star => Some(Op::Mul),
        Symbol::Ampersand => Some(Op::And),
        Symbol::Bar => Some(Op::Or),
        Symbol::Caret => Some(Op::Xor),
        Symbol::ShiftLeft => Some(Op::Shl),
        Symbol::ShiftRight => Some(Op::Shr),
        Symbol::Equal => Some(Op::Eq),
        Symbol::NotEqual => Some(Op::Ne),
        Symbol::Less => Some(Op::Lt),
        Symbol::LessOrEqual => Some(Op::Le),
        Symbol::Greater => Some(Op::Gt),
        Symbol::GreaterOrEqual => Some(Op::Ge),
        Symbol::Implies => Some(Op::Imp),
        _ => None,
    }
}
