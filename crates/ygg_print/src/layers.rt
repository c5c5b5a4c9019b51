ghost use Rattle.std.specs.Prelude.{◌≡◌, ◌++◌, OnOk, IfOk, map};
ghost use Rattle.ygg_print.specs.PrintedBlocks.{all_printed};
ghost use Rattle.ygg_print.specs.PrintedFiles.{file_printed, head_printed, layer_printed, steps_printed, variables_printed};

use crate::files::{claims, definitions, disk, optional, ticks, variables};
use crate::operations::operations;
use crate::printer::{Plain, Printer};
use std::alloc::Global;
use ygg_base::{Keyword, Mark, Symbol};
use ygg_list::{NoMemory, Sequence};
use ygg_syntax::lists;
use ygg_syntax::tree::{DiskText, File, Layer};

/// The marks of a layer file's one canonical text. Its only error is out of memory.
pub fn marks_of(alloc: Global, file: &File) -> Result<Sequence<Mark>, NoMemory>
    ensures { IfOk result (λ marks. marks ≡ file_printed file.now) }
{
    let mut printer = Printer::new(alloc);
    whole(&mut printer, file)?;
    Ok(printer.into_marks())
}

/// A layer file.
fn whole(printer: &mut Printer, file: &File) -> Result<(), NoMemory>
    ensures { OnOk result (printer.new ≡ printer.old ++ file_printed file.now) }
{
    head(printer, &file.disk)?;
    definitions(printer, lists::def::as_slice(&file.defs))?;
    layers(printer, lists::layer::as_slice(&file.layers))
}

/// The version of the language and the disk.
fn head(printer: &mut Printer, found: &DiskText) -> Result<(), NoMemory>
    ensures { OnOk result (printer.new ≡ printer.old ++ head_printed found.now) }
{
    printer.tokens(&[
        Plain::Keyword(Keyword::Yggdrasil),
        Plain::Number(1),
        Plain::Symbol(Symbol::Semicolon),
    ])?;
    disk(printer, found)?;
    Ok(())
}

/// Layers.
fn layers(printer: &mut Printer, all: &[Layer]) -> Result<(), NoMemory>
    ensures { OnOk result (printer.new ≡ printer.old ++ all_printed (map layer_printed all.now)) }
{
    for one in all {
        layer(printer, one)?;
    }
    Ok(())
}

/// A layer.
fn layer(printer: &mut Printer, one: &Layer) -> Result<(), NoMemory>
    ensures { OnOk result (printer.new ≡ printer.old ++ layer_printed one.now) }
{
    printer.titled(Keyword::Layer, &one.name)?;
    printer.symbol(Symbol::BraceOpen)?;
    variables_of(printer, one)?;
    steps(printer, one)?;
    claims(printer, one)?;
    printer.symbol(Symbol::BraceClose)
}

/// The variables of a layer, each kind with the block that sets it up.
fn variables_of(printer: &mut Printer, layer: &Layer) -> Result<(), NoMemory>
    ensures { OnOk result (printer.new ≡ printer.old ++ variables_printed layer.now) }
{
    variables(
        printer,
        Keyword::State,
        lists::declared::as_slice(&layer.state),
    )?;
    optional(printer, Keyword::Start, &layer.start)?;
    variables(
        printer,
        Keyword::Memory,
        lists::declared::as_slice(&layer.memory),
    )?;
    optional(printer, Keyword::Format, &layer.format)
}

/// What a layer does.
fn steps(printer: &mut Printer, layer: &Layer) -> Result<(), NoMemory>
    ensures { OnOk result (printer.new ≡ printer.old ++ steps_printed layer.now) }
{
    operations(printer, lists::operation::as_slice(&layer.operations))?;
    optional(printer, Keyword::Crash, &layer.crash)?;
    ticks(printer, lists::tick::as_slice(&layer.ticks))?;
    optional(printer, Keyword::Recover, &layer.recover)
}
