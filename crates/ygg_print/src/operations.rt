//! Operations.

ghost use Rattle.std.specs.Prelude.{◌≡◌, ◌++◌, OnOk, map};
ghost use Rattle.ygg_print.specs.PrintedBlocks.{all_printed, block_printed};
ghost use Rattle.ygg_print.specs.PrintedFiles.{answer_type_printed, bodies_printed, heading_printed, on_crash_printed, operation_printed};

use crate::blocks::block;
use crate::files::{shape, titled_list};
use crate::printer::{Plain, Printer};
use ygg_base::{Keyword, Symbol};
use ygg_list::NoMemory;
use ygg_syntax::lists;
use ygg_syntax::tree::{Block, Operation, TypeText};

/// The block for a crash, where one is written.
fn on_crash(printer: &mut Printer, written: &Option<Block>) -> Result<(), NoMemory>
    ensures { OnOk result (printer.new ≡ printer.old ++ on_crash_printed written.now) }
{
    match written {
        None => Ok(()),
        Some(body) => {
            printer.tokens(&[Plain::Keyword(Keyword::On), Plain::Keyword(Keyword::Crash)])?;
            block(printer, body)
        }
    }
}

/// The type of an answer.
fn answer_type(printer: &mut Printer, answer: Option<TypeText>) -> Result<(), NoMemory>
    ensures { OnOk result (printer.new ≡ printer.old ++ answer_type_printed answer) }
{
    match answer {
        None => Ok(()),
        Some(found) => {
            printer.symbol(Symbol::Arrow)?;
            shape(printer, found)
        }
    }
}

/// Operations.
pub fn operations(printer: &mut Printer, all: &[Operation]) -> Result<(), NoMemory>
    ensures { OnOk result (printer.new ≡ printer.old ++ all_printed (map operation_printed all.now)) }
{
    for one in all {
        operation(printer, one)?;
    }
    Ok(())
}

/// An operation.
fn operation(printer: &mut Printer, one: &Operation) -> Result<(), NoMemory>
    ensures { OnOk result (printer.new ≡ printer.old ++ operation_printed one.now) }
{
    heading(printer, one)?;
    bodies(printer, one)
}

/// An operation before its blocks.
fn heading(printer: &mut Printer, one: &Operation) -> Result<(), NoMemory>
    ensures { OnOk result (printer.new ≡ printer.old ++ heading_printed one.now) }
{
    titled_list(
        printer,
        Keyword::Op,
        &one.name,
        lists::declared::as_slice(&one.arguments),
    )?;
    answer_type(printer, one.answer)
}

/// The blocks of an operation.
fn bodies(printer: &mut Printer, one: &Operation) -> Result<(), NoMemory>
    ensures { OnOk result (printer.new ≡ printer.old ++ bodies_printed one.now) }
{
    printer.keyword(Keyword::Spec)?;
    block(printer, &one.spec)?;
    on_crash(printer, &one.on_crash)?;
    printer.keyword(Keyword::Impl)?;
    block(printer, &one.implementation)
}
