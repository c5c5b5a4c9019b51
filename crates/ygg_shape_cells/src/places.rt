//! Places in a table that are terms.

ghost use Rattle.std.specs.Prelude.{◌≡◌, ◌<◌, ◌^◌, ℕ, IfOk, OnOk};
ghost use Rattle.ygg_shape_words.specs.ygg_rules.Views.{IsWidth};
ghost use Rattle.ygg_shape_words.specs.ygg_bank.Nodes.{Extends, HasWidth, IsBank};
ghost use Rattle.ygg_shape_cells.specs.Making.{split_at, where_at};
ghost use Rattle.ygg_shape_cells.specs.Terms.{IsRow, RowsAlike};

use crate::pruning::write_row;
use crate::terms::SymRow;
use std::alloc::Global;
use ygg_shape_words::{Bank, Book, Id, NoMemory, Node, fits, same};
use ygg_value::Word;

/// A place that is a term, and how many binary digits it has.
#[derive(Clone, Copy, Drop)]
pub struct TermPlace {
    /// The term.
    pub at: Id,
    /// Its width.
    pub width: u8,
}

/// One row where the place has this number, and else the other. A number with more digits than the place is never the place.
pub fn where_at<B: Book>(
    alloc: Global,
    bank: &mut Bank,
    book: &B,
    place: TermPlace,
    number: usize,
    yes: &[Id],
    no: &[Id],
) -> Result<SymRow, NoMemory>
    requires bank { IsBank bank.old }
    requires place { HasWidth bank.old place.at place.width }
    requires width { IsWidth place.width }
    requires rows { RowsAlike bank.old yes.now no.now }
    ensures nodes { OnOk result (bank.new ≡ (where_at (B.kinds book.now) place.at place.width number yes.now no.now bank.old).nodes) }
    ensures form { IfOk result (λ row. row ≡ (where_at (B.kinds book.now) place.at place.width number yes.now no.now bank.old).value) }
    ensures shape { (words width : ℕ) → IsRow bank.old words width yes.now → IsRow bank.old words width no.now → IfOk result (IsRow bank.new words width) }
    ensures grows { Extends bank.old bank.new }
    ensures bank { IsBank bank.new }
{
    if fits(place.width, number as u64) {
        split_at(alloc, bank, book, place, number, yes, no)
    } else {
        SymRow::from_slice(alloc, no)
    }
}

/// One row where the place has this number, which fits its width, and else the other.
fn split_at<B: Book>(
    alloc: Global,
    bank: &mut Bank,
    book: &B,
    place: TermPlace,
    number: usize,
    yes: &[Id],
    no: &[Id],
) -> Result<SymRow, NoMemory>
    requires bank { IsBank bank.old }
    requires place { HasWidth bank.old place.at place.width }
    requires width { IsWidth place.width }
    requires number { number < 2 ^ place.width }
    requires rows { RowsAlike bank.old yes.now no.now }
    ensures nodes { OnOk result (bank.new ≡ (split_at (B.kinds book.now) place.at place.width number yes.now no.now bank.old).nodes) }
    ensures form { IfOk result (λ row. row ≡ (split_at (B.kinds book.now) place.at place.width number yes.now no.now bank.old).value) }
    ensures grows { Extends bank.old bank.new }
    ensures bank { IsBank bank.new }
{
    let word = Word {
        width: place.width,
        bits: number as u64,
    };
    let constant = bank.make(Node::Const(word), book)?;
    let test = same(bank, book, place.at, constant)?;
    write_row(alloc, bank, book, test, test, yes, no)
}
