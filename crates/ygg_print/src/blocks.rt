ghost use Rattle.std.specs.Prelude.{◌≡◌, ◌++◌, ◌∷◌, [], OnOk, map};
ghost use Rattle.ygg_base.specs.declared.token.Symbol.TheVariants as sign;
ghost use Rattle.ygg_base.specs.declared.token.Mark.TheVariants as mark;
ghost use Rattle.ygg_print.specs.PrintedBlocks.{
  all_printed,
  answer_printed,
  block_printed,
  call_printed,
  else_printed,
  indices_printed,
  source_printed,
  stmt_printed,
};

use crate::expressions::{bracketed, expression, expression_then, range};
use crate::printer::Printer;
use ygg_base::{Keyword, Symbol};
use ygg_list::NoMemory;
use ygg_syntax::lists;
use ygg_syntax::tree::{Block, Expr, Index, Name, Source, Stmt};

/// Whether nothing stands between the braces.
pub fn is_empty(block: &Block) -> bool
    ensures { result ≡ (block_printed block.now).empty }
{
    match lists::stmt::as_slice(&block.statements).first() {
        Some(_) => false,
        None => match &block.answer {
            Some(_) => false,
            None => true,
        },
    }
}

/// The call of an operation.
fn call(printer: &mut Printer, name: &Name, arguments: &[Expr]) -> Result<(), NoMemory>
    ensures { OnOk result (printer.new ≡ printer.old ++ call_printed name.now arguments.now) }
{
    printer.titled(Keyword::Call, name)?;
    bracketed(printer, arguments)
}

/// A right side.
fn source(printer: &mut Printer, from: &Source) -> Result<(), NoMemory>
    ensures { OnOk result (printer.new ≡ printer.old ++ source_printed from.now) }
{
    match from {
        Source::Value(e) => expression(printer, e),
        Source::Choose(_) => printer.keyword(Keyword::Choose),
        Source::Call(_, name, arguments) => call(printer, name, lists::expr::as_slice(arguments)),
    }
}

/// What follows the name in a `let` or an assignment: a right side between its signs.
fn assigned(printer: &mut Printer, from: &Source) -> Result<(), NoMemory>
    ensures { OnOk result (printer.new ≡ printer.old ++ mark.Symbol sign.Assign ∷ (source_printed from.now ++ mark.Symbol sign.Semicolon ∷ [])) }
{
    printer.symbol(Symbol::Assign)?;
    source(printer, from)?;
    printer.symbol(Symbol::Semicolon)
}

/// The indices of an assignment.
fn indices(printer: &mut Printer, indices: &[Index]) -> Result<(), NoMemory>
    ensures { OnOk result (printer.new ≡ printer.old ++ indices_printed indices.now) }
{
    for index in indices {
        printer.symbol(Symbol::SquareOpen)?;
        expression_then(printer, &index.at, Symbol::SquareClose)?;
    }
    Ok(())
}

/// What a block returns.
fn answer(printer: &mut Printer, answer: &Option<Expr>) -> Result<(), NoMemory>
    ensures { OnOk result (printer.new ≡ printer.old ++ answer_printed answer.now) }
{
    match answer {
        None => Ok(()),
        Some(e) => {
            printer.keyword(Keyword::Return)?;
            expression_then(printer, e, Symbol::Semicolon)
        }
    }
}

/// A block.
#[cycle(blocks)]
pub fn block(printer: &mut Printer, block: &Block) -> Result<(), NoMemory>
    ensures { OnOk result (printer.new ≡ printer.old ++ (block_printed block.now).marks) }
{
    printer.symbol(Symbol::BraceOpen)?;
    statements(printer, lists::stmt::as_slice(&block.statements))?;
    answer(printer, &block.answer)?;
    printer.symbol(Symbol::BraceClose)
}

/// The second side of an `if`. An empty one is left out.
#[cycle(blocks)]
fn else_part(printer: &mut Printer, block: &Block) -> Result<(), NoMemory>
    ensures { OnOk result (printer.new ≡ printer.old ++ else_printed (block_printed block.now)) }
{
    if is_empty(block) {
        return Ok(());
    }
    printer.keyword(Keyword::Else)?;
    self::block(printer, block)
}

/// Statements.
#[cycle(blocks)]
fn statements(printer: &mut Printer, statements: &[Stmt]) -> Result<(), NoMemory>
    ensures { OnOk result (printer.new ≡ printer.old ++ all_printed (map stmt_printed statements.now)) }
{
    for one in statements {
        statement(printer, one)?;
    }
    Ok(())
}

/// A statement.
#[cycle(blocks)]
fn statement(printer: &mut Printer, statement: &Stmt) -> Result<(), NoMemory>
    ensures { OnOk result (printer.new ≡ printer.old ++ stmt_printed statement.now) }
{
    match statement {
        Stmt::Let(name, from) => {
            printer.titled(Keyword::Let, name)?;
            assigned(printer, from)
        }
        Stmt::Assign(name, places, from) => {
            printer.name(name)?;
            indices(printer, lists::index::as_slice(places))?;
            assigned(printer, from)
        }
        Stmt::If(test, first, second) => {
            printer.keyword(Keyword::If)?;
            expression(printer, test)?;
            block(printer, first)?;
            else_part(printer, second)
        }
        Stmt::For(name, width, bound, each) => {
            printer.keyword(Keyword::For)?;
            range(printer, name, width.value, bound.value)?;
            block(printer, each)
        }
        Stmt::Call(name, arguments) => {
            call(printer, name, lists::expr::as_slice(arguments))?;
            printer.symbol(Symbol::Semicolon)
        }
    }
}
