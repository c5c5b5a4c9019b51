//! The obligations of a file, with their terms.

ghost use Rattle.std.specs.Prelude.{◌≡◌, codes, [], map, IfOk, OnOk};
ghost use Rattle.ygg_oblige_laws.specs.ygg_bank.Nodes.{IsBank};
ghost use Rattle.ygg_oblige_laws.specs.ygg_meaning.Claims.{claims_of};
ghost use Rattle.ygg_oblige_laws.specs.ygg_meaning.Stack.{layers_of, table_named, tables_of};
ghost use Rattle.ygg_oblige_laws.specs.Meaning.{claim_name};
ghost use Rattle.ygg_oblige_laws.specs.Terms.{file_made};
ghost use Rattle.ygg_oblige_laws.specs.TypedLayers.{LayersTyped};
ghost use Rattle.ygg_oblige.specs.Obligations.{AreClaims, ArePlaced, names_in, terms_in};

use crate::layers::add_layer;
use crate::obligation::Obligations;
use std::alloc::Global;
use ygg_base::{DiskKind, Text};
use ygg_oblige_laws::{Bank, Book, NoMemory};
use ygg_oblige_list::place_of;
use ygg_oblige_parts::{Maker, SymBelow, SymLayer};
use ygg_syntax::lists;
use ygg_syntax::tree::{Declared, DiskText, File, Name, Place, TypeText};

/// A table of the disk's size, as if it were declared. Its only error is out of memory.
fn table(alloc: Global, name: &[u8], disk: DiskText) -> Result<Declared, NoMemory>
    ensures { IfOk result (λ d. d ≡ table_named name.now disk) }
{
    let text = Text::from_slice(alloc, name)?;
    let place = Place { line: 0, column: 0 };
    Ok(Declared {
        name: Name { text, place },
        shape: TypeText::Table(disk.rows, disk.words, disk.width),
    })
}

/// The tables that a disk shows. Its only error is out of memory.
pub fn tables(alloc: Global, disk: DiskText) -> Result<Vec<Declared>, NoMemory>
    ensures { IfOk result (λ ds. ds.items ≡ tables_of disk) }
{
    let mut tables = Vec::new(alloc);
    tables.push(table(alloc, b"view", disk)?)?;
    match disk.kind {
        DiskKind::Sync => {}
        DiskKind::Async => tables.push(table(alloc, b"stable", disk)?)?,
    }
    Ok(tables)
}

/// The obligations of a file whose disk shows these tables. Its only error is out of memory, after which the bank may have more nodes.
fn obligations_over<'a, B: Book>(
    alloc: Global,
    file: &'a File,
    tables: &'a [Declared],
    bank: &mut Bank,
    book: &'a B,
) -> Result<Obligations, NoMemory>
    requires tables { tables.now ≡ tables_of file.now.disk }
    requires bank { IsBank bank.old }
    requires empty { bank.old ≡ [] }
    requires typed { LayersTyped file.now.defs file.now.disk (layers_of file.now) }
    ensures nodes { OnOk result (bank.new ≡ (file_made (B.kinds book.now) file.now []).nodes) }
    ensures terms { IfOk result (λ all. terms_in all ≡ (file_made (B.kinds book.now) file.now []).value) }
    ensures names { IfOk result (λ all. names_in all ≡ map claim_name (claims_of file.now)) }
    ensures placed { IfOk result ArePlaced }
    ensures claims { IfOk result (AreClaims file.now (claims_of file.now)) }
    ensures bank { IsBank bank.new }
{
    let mut all = Obligations::new(alloc);
    let mut low = tables;
    let mut below = SymBelow::Disk(file.disk);
    let mut number: u64 = 0;
    for (i, layer) in lists::layer::as_slice(&file.layers).iter().enumerate() {
        let at = SymLayer {
            defs: lists::def::as_slice(&file.defs),
            layer,
            low,
        };
        let maker = Maker {
            alloc,
            book,
            layer: at,
            below,
        };
        number = add_layer(&maker, bank, place_of(i)?, number, &mut all)?;
        low = lists::declared::as_slice(&layer.state);
        below = SymBelow::Layer(at);
    }
    Ok(all)
}

/// The obligations of a file. Its only error is out of memory, after which the bank may have more nodes.
pub fn obligations_of_file<'a, B: Book>(
    alloc: Global,
    file: &'a File,
    bank: &mut Bank,
    book: &'a B,
) -> Result<Obligations, NoMemory>
    requires bank { IsBank bank.old }
    requires empty { bank.old ≡ [] }
    requires typed { LayersTyped file.now.defs file.now.disk (layers_of file.now) }
    ensures nodes { OnOk result (bank.new ≡ (file_made (B.kinds book.now) file.now []).nodes) }
    ensures terms { IfOk result (λ all. terms_in all ≡ (file_made (B.kinds book.now) file.now []).value) }
    ensures names { IfOk result (λ all. names_in all ≡ map claim_name (claims_of file.now)) }
    ensures placed { IfOk result ArePlaced }
    ensures claims { IfOk result (AreClaims file.now (claims_of file.now)) }
    ensures bank { IsBank bank.new }
{
    let tables = tables(alloc, file.disk)?;
    obligations_over(alloc, file, tables.as_slice(), bank, book)
}
