ghost use Rattle.std.specs.Prelude.{◌≡◌, ◌++◌, ◌∷◌, [], OnOk, map};
ghost use Rattle.ygg_base.specs.declared.token.Keyword.TheVariants as word;
ghost use Rattle.ygg_base.specs.declared.token.Symbol.TheVariants as sign;
ghost use Rattle.ygg_base.specs.declared.token.Mark.TheVariants as mark;
ghost use Rattle.ygg_syntax.specs.Expressions.{operator_sign, quantifier_word};
ghost use Rattle.ygg_print.specs.Printed.{printed, bracketed, list_printed, more_printed};

use crate::printer::{Plain, Printer};
use ygg_base::{Keyword, Symbol};
use ygg_list::NoMemory;
use ygg_syntax::lists;
use ygg_syntax::tree::{Expr, Name, Quantifier};
use ygg_value::Op;

/// The symbol of an operation.
fn operator(op: Op) -> Symbol
    ensures { result ≡ operator_sign op }
{
    match op {
        Op::Add => Symbol::Plus,
        Op::Sub => Symbol::Minus,
        Op::Mul => Symbol::Star,
        Op::And => Symbol::Ampersand,
        Op::Or => Symbol::Bar,
        Op::Xor => Symbol::Caret,
        Op::Shl => Symbol::ShiftLeft,
        Op::Shr => Symbol::ShiftRight,
        Op::Eq => Symbol::Equal,
        Op::Ne => Symbol::NotEqual,
        Op::Lt => Symbol::Less,
        Op::Le => Symbol::LessOrEqual,
        Op::Gt => Symbol::Greater,
        Op::Ge => Symbol::GreaterOrEqual,
        Op::Imp => Symbol::Implies,
    }
}

/// The keyword of a quantifier.
fn quantifier(which: Quantifier) -> Keyword
    ensures { result ≡ quantifier_word which }
{
    match which {
        Quantifier::All => Keyword::All,
        Quantifier::Any => Keyword::Any,
    }
}

/// A keyword and the bracket after it.
fn opened(printer: &mut Printer, keyword: Keyword) -> Result<(), NoMemory>
    ensures { OnOk result (printer.new ≡ printer.old ++ mark.Keyword keyword ∷ mark.Symbol sign.RoundOpen ∷ []) }
{
    printer.tokens(&[Plain::Keyword(keyword), Plain::Symbol(Symbol::RoundOpen)])
}

/// The number of a loop or a quantifier: its name, its width and its bound.
pub fn range(printer: &mut Printer, name: &Name, width: u64, bound: u64) -> Result<(), NoMemory>
    ensures { OnOk result (printer.new ≡ printer.old ++ mark.Name name.now.text ∷ mark.Symbol sign.Colon ∷ mark.Num width ∷ mark.Keyword word.Below
        ∷ mark.Num bound ∷ []) }
{
    printer.name(name)?;
    printer.tokens(&[
        Plain::Symbol(Symbol::Colon),
        Plain::Number(width),
        Plain::Keyword(Keyword::Below),
        Plain::Number(bound),
    ])
}

/// Expressions in their brackets, with commas between them.
#[cycle(expression)]
pub fn bracketed(printer: &mut Printer, expressions: &[Expr]) -> Result<(), NoMemory>
    ensures { OnOk result (printer.new ≡ printer.old ++ bracketed (map printed expressions.now)) }
{
    printer.symbol(Symbol::RoundOpen)?;
    list(printer, expressions)?;
    printer.symbol(Symbol::RoundClose)
}

/// Expressions with commas between them.
#[cycle(expression)]
fn list(printer: &mut Printer, expressions: &[Expr]) -> Result<(), NoMemory>
    ensures { OnOk result (printer.new ≡ printer.old ++ list_printed (map printed expressions.now)) }
{
    if expressions.is_empty() {
        return Ok(());
    }
    expression(printer, &expressions[0])?;
    for place in 1..expressions.len() {
        printer.symbol(Symbol::Comma)?;
        expression(printer, &expressions[place])?;
    }
    Ok(())
}

/// An expression and the symbol after it.
#[cycle(expression)]
pub fn expression_then(printer: &mut Printer, e: &Expr, after: Symbol) -> Result<(), NoMemory>
    ensures { OnOk result (printer.new ≡ printer.old ++ (printed e.now ++ mark.Symbol after ∷ [])) }
{
    expression(printer, e)?;
    printer.symbol(after)
}

/// An expression.
#[cycle(expression)]
pub fn expression(printer: &mut Printer, e: &Expr) -> Result<(), NoMemory>
    ensures { OnOk result (printer.new ≡ printer.old ++ printed e.now) }
{
    match e {
        Expr::Constant(value, width) => printer.tokens(&[
            Plain::Number(value.value),
            Plain::Symbol(Symbol::Colon),
            Plain::Number(width.value),
        ]),
        Expr::Low(_, name) => {
            printer.tokens(&[Plain::Keyword(Keyword::Low), Plain::Symbol(Symbol::Dot)])?;
            printer.name(name)
        }
        Expr::Variable(name) => printer.name(name),
        Expr::Apply(name, arguments) => {
            printer.name(name)?;
            bracketed(printer, lists::expr::as_slice(arguments))
        }
        Expr::Binary(_, left, op, _, right) => {
            printer.symbol(Symbol::RoundOpen)?;
            expression_then(printer, lists::expr::get(left), operator(*op))?;
            expression_then(printer, lists::expr::get(right), Symbol::RoundClose)
        }
        Expr::Not(_, part) => {
            printer.symbol(Symbol::Tilde)?;
            expression(printer, lists::expr::get(part))
        }
        Expr::At(whole, _, index) => {
            expression_then(printer, lists::expr::get(whole), Symbol::SquareOpen)?;
            expression_then(printer, lists::expr::get(index), Symbol::SquareClose)
        }
        Expr::Pick(_, test, left, right) => {
            opened(printer, Keyword::Pick)?;
            expression_then(printer, lists::expr::get(test), Symbol::Comma)?;
            expression_then(printer, lists::expr::get(left), Symbol::Comma)?;
            expression_then(printer, lists::expr::get(right), Symbol::RoundClose)
        }
        Expr::Resize(_, part, width) => {
            opened(printer, Keyword::Resize)?;
            expression_then(printer, lists::expr::get(part), Symbol::Comma)?;
            printer.tokens(&[
                Plain::Number(width.value),
                Plain::Symbol(Symbol::RoundClose),
            ])
        }
        Expr::Fill(_, count, part) => {
            opened(printer, Keyword::Fill)?;
            printer.tokens(&[Plain::Number(count.value), Plain::Symbol(Symbol::Comma)])?;
            expression_then(printer, lists::expr::get(part), Symbol::RoundClose)
        }
        Expr::Row(_, parts) => {
            printer.keyword(Keyword::Row)?;
            bracketed(printer, lists::expr::as_slice(parts))
        }
        Expr::Quantified(_, which, name, width, bound, test) => {
            opened(printer, quantifier(*which))?;
            range(printer, name, width.value, bound.value)?;
            printer.symbol(Symbol::Comma)?;
            expression_then(printer, lists::expr::get(test), Symbol::RoundClose)
        }
    }
}
