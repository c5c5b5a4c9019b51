ghost use Rattle.std.specs.Prelude.{◌≡◌, ◌++◌, ◌∷◌, [], OnOk, map};
ghost use Rattle.ygg_base.specs.declared.token.Symbol.TheVariants as sign;
ghost use Rattle.ygg_base.specs.declared.token.Mark.TheVariants as mark;
ghost use Rattle.ygg_syntax.specs.Files.{disk_word as word_of_disk};
ghost use Rattle.ygg_print.specs.Printed.{list_printed};
ghost use Rattle.ygg_print.specs.PrintedBlocks.{all_printed, block_printed};
ghost use Rattle.ygg_print.specs.PrintedFiles.{
  claim_printed,
  claims_printed,
  declared_printed,
  definition_printed,
  disk_printed,
  optional_printed,
  signature_printed,
  tick_printed,
  type_printed,
  variable_printed,
};

use crate::blocks::{block, is_empty};
use crate::expressions::expression_then;
use crate::printer::{Plain, Printer};
use ygg_base::{DiskKind, Keyword, Symbol};
use ygg_list::NoMemory;
use ygg_syntax::lists;
use ygg_syntax::tree::{Block, Declared, Def, DiskText, Expr, Layer, Name, Tick, TypeText};

/// A type.
pub fn shape(printer: &mut Printer, shape: TypeText) -> Result<(), NoMemory>
    ensures { OnOk result (printer.new ≡ printer.old ++ type_printed shape) }
{
    match shape {
        TypeText::Word(width) => printer.tokens(&[
            Plain::Keyword(Keyword::Word),
            Plain::Number(width.value),
        ]),
        TypeText::Row(words, width) => printer.tokens(&[
            Plain::Keyword(Keyword::Row),
            Plain::Number(words.value),
            Plain::Keyword(Keyword::Of),
            Plain::Number(width.value),
        ]),
        TypeText::Table(rows, words, width) => printer.tokens(&[
            Plain::Keyword(Keyword::Table),
            Plain::Number(rows.value),
            Plain::Keyword(Keyword::Of),
            Plain::Number(words.value),
            Plain::Keyword(Keyword::Of),
            Plain::Number(width.value),
        ]),
    }
}

/// A name and its type.
fn declared(printer: &mut Printer, declared: &Declared) -> Result<(), NoMemory>
    ensures { OnOk result (printer.new ≡ printer.old ++ declared_printed declared.now) }
{
    printer.name(&declared.name)?;
    printer.symbol(Symbol::Colon)?;
    shape(printer, declared.shape)
}

/// Names and their types with commas between them.
fn declared_list(printer: &mut Printer, all: &[Declared]) -> Result<(), NoMemory>
    ensures { OnOk result (printer.new ≡ printer.old ++ list_printed (map declared_printed all.now)) }
{
    if all.is_empty() {
        return Ok(());
    }
    declared(printer, &all[0])?;
    for place in 1..all.len() {
        printer.symbol(Symbol::Comma)?;
        declared(printer, &all[place])?;
    }
    Ok(())
}

/// A keyword, a name, and names with their types in brackets.
pub fn titled_list(
    printer: &mut Printer,
    keyword: Keyword,
    name: &Name,
    all: &[Declared],
) -> Result<(), NoMemory>
    ensures { OnOk result (printer.new ≡ printer.old ++ mark.Keyword keyword ∷ mark.Name name.now.text ∷ mark.Symbol sign.RoundOpen
        ∷ (list_printed (map declared_printed all.now) ++ mark.Symbol sign.RoundClose ∷ [])) }
{
    printer.titled(keyword, name)?;
    printer.symbol(Symbol::RoundOpen)?;
    declared_list(printer, all)?;
    printer.symbol(Symbol::RoundClose)
}

/// The keyword of a kind of disk.
fn disk_word(kind: DiskKind) -> Keyword
    ensures { result ≡ word_of_disk kind }
{
    match kind {
        DiskKind::Sync => Keyword::Sync,
        DiskKind::Async => Keyword::Async,
    }
}

/// The disk.
pub fn disk(printer: &mut Printer, disk: &DiskText) -> Result<(), NoMemory>
    ensures { OnOk result (printer.new ≡ printer.old ++ disk_printed disk.now) }
{
    printer.tokens(&[
        Plain::Keyword(Keyword::Disk),
        Plain::Keyword(disk_word(disk.kind)),
        Plain::Number(disk.rows.value),
        Plain::Keyword(Keyword::Of),
        Plain::Number(disk.words.value),
        Plain::Keyword(Keyword::Of),
        Plain::Number(disk.width.value),
        Plain::Symbol(Symbol::Semicolon),
    ])
}

/// Definitions.
pub fn definitions(printer: &mut Printer, defs: &[Def]) -> Result<(), NoMemory>
    ensures { OnOk result (printer.new ≡ printer.old ++ all_printed (map definition_printed defs.now)) }
{
    for def in defs {
        definition(printer, def)?;
    }
    Ok(())
}

/// A definition.
fn definition(printer: &mut Printer, def: &Def) -> Result<(), NoMemory>
    ensures { OnOk result (printer.new ≡ printer.old ++ definition_printed def.now) }
{
    signature(printer, def)?;
    printer.symbol(Symbol::Assign)?;
    expression_then(printer, &def.body, Symbol::Semicolon)
}

/// The name of a definition and its types.
fn signature(printer: &mut Printer, def: &Def) -> Result<(), NoMemory>
    ensures { OnOk result (printer.new ≡ printer.old ++ signature_printed def.now) }
{
    titled_list(
        printer,
        Keyword::Def,
        &def.name,
        lists::declared::as_slice(&def.parameters),
    )?;
    printer.symbol(Symbol::Arrow)?;
    shape(printer, def.shape)
}

/// Variables, each after this keyword.
pub fn variables(printer: &mut Printer, keyword: Keyword, all: &[Declared]) -> Result<(), NoMemory>
    ensures { OnOk result (printer.new ≡ printer.old ++ all_printed (map (variable_printed keyword) all.now)) }
{
    for one in all {
        variable(printer, keyword, one)?;
    }
    Ok(())
}

/// A variable after this keyword.
fn variable(printer: &mut Printer, keyword: Keyword, one: &Declared) -> Result<(), NoMemory>
    ensures { OnOk result (printer.new ≡ printer.old ++ variable_printed keyword one.now) }
{
    printer.keyword(keyword)?;
    declared(printer, one)?;
    printer.symbol(Symbol::Semicolon)
}

/// A claim after this keyword.
fn claim(printer: &mut Printer, keyword: Keyword, e: &Expr) -> Result<(), NoMemory>
    ensures { OnOk result (printer.new ≡ printer.old ++ claim_printed keyword e.now) }
{
    printer.keyword(keyword)?;
    expression_then(printer, e, Symbol::Semicolon)
}

/// Claims, each after this keyword.
fn claims_after(printer: &mut Printer, keyword: Keyword, all: &[Expr]) -> Result<(), NoMemory>
    ensures { OnOk result (printer.new ≡ printer.old ++ all_printed (map (claim_printed keyword) all.now)) }
{
    for e in all {
        claim(printer, keyword, e)?;
    }
    Ok(())
}

/// What a layer claims.
pub fn claims(printer: &mut Printer, layer: &Layer) -> Result<(), NoMemory>
    ensures { OnOk result (printer.new ≡ printer.old ++ claims_printed layer.now) }
{
    claim(printer, Keyword::Relate, &layer.relate)?;
    claims_after(
        printer,
        Keyword::Always,
        lists::expr::as_slice(&layer.always),
    )?;
    claims_after(
        printer,
        Keyword::Settled,
        lists::expr::as_slice(&layer.settled),
    )?;
    claims_after(printer, Keyword::Maybe, lists::expr::as_slice(&layer.maybe))
}

/// A block that may be left out, after its keyword. An empty one is left out.
pub fn optional(printer: &mut Printer, keyword: Keyword, body: &Block) -> Result<(), NoMemory>
    ensures { OnOk result (printer.new ≡ printer.old ++ optional_printed keyword body.now) }
{
    if is_empty(body) {
        return Ok(());
    }
    printer.keyword(keyword)?;
    block(printer, body)
}

/// Background steps.
pub fn ticks(printer: &mut Printer, all: &[Tick]) -> Result<(), NoMemory>
    ensures { OnOk result (printer.new ≡ printer.old ++ all_printed (map tick_printed all.now)) }
{
    for one in all {
        tick(printer, one)?;
    }
    Ok(())
}

/// A background step.
fn tick(printer: &mut Printer, one: &Tick) -> Result<(), NoMemory>
    ensures { OnOk result (printer.new ≡ printer.old ++ tick_printed one.now) }
{
    printer.titled(Keyword::Tick, &one.name)?;
    block(printer, &one.body)
}
