//! Inputs of a shape.

ghost use Rattle.std.specs.Prelude.{◌≡◌, ◌+◌, ◌*◌, ◌<◌, ◌^◌, IfOk, OnOk};
ghost use Rattle.ygg_value.specs.Shapes.{IsShape};
ghost use Rattle.ygg_shape_words.specs.ygg_rules.Views.{IsWidth};
ghost use Rattle.ygg_shape_words.specs.ygg_bank.Inputs.{InputsBelow};
ghost use Rattle.ygg_shape_words.specs.ygg_bank.Nodes.{Extends, IsBank};
ghost use Rattle.ygg_shape_words.specs.ygg_bank.Values.{KeepsValues};
ghost use Rattle.ygg_shape_cells.specs.Terms.{IsShaped};
ghost use Rattle.ygg_shape_cells.specs.Fresh.{IsGiven, fresh_made, fresh_row, fresh_rows, words_of};

use crate::terms::{SymRow, SymTable, SymValue};
use std::alloc::Global;
use ygg_shape_words::{Bank, Book, NoMemory, Node};
use ygg_value::Shape;

/// A value of a shape whose words are inputs of the bank, numbered on from a number that is above those of all its inputs, row by row. Its
/// only error is out of memory, after which the bank may have more nodes.
pub fn inputs_of<B: Book>(
    alloc: Global,
    bank: &mut Bank,
    book: &B,
    number: u64,
    shape: Shape,
) -> Result<SymValue, NoMemory>
    requires shape { IsShape shape }
    requires below { InputsBelow number bank.old }
    requires room { number + words_of shape < 2 ^ 64 }
    ensures nodes { OnOk result (bank.new ≡ (fresh_made (B.kinds book.now) number shape bank.old).nodes) }
    ensures form { IfOk result (λ answer. answer ≡ (fresh_made (B.kinds book.now) number shape bank.old).value) }
    ensures shape { IfOk result (IsShaped bank.new shape) }
    ensures value { IfOk result (IsGiven bank.new number shape) }
    ensures inputs { OnOk result (InputsBelow (number + words_of shape) bank.new) }
    ensures grows { Extends bank.old bank.new }
    ensures keeps { KeepsValues bank.old bank.new }
    ensures bank { IsBank bank.new }
{
    // the bank's nodes stand in order
    let _ = bank.len();
    inputs_by(alloc, bank, book, number, shape)
}

/// What `inputs_of` does.
fn inputs_by<B: Book>(
    alloc: Global,
    bank: &mut Bank,
    book: &B,
    number: u64,
    shape: Shape,
) -> Result<SymValue, NoMemory>
    requires bank { IsBank bank.old }
    requires shape { IsShape shape }
    requires below { InputsBelow number bank.old }
    requires room { number + words_of shape < 2 ^ 64 }
    ensures nodes { OnOk result (bank.new ≡ (fresh_made (B.kinds book.now) number shape bank.old).nodes) }
    ensures form { IfOk result (λ answer. answer ≡ (fresh_made (B.kinds book.now) number shape bank.old).value) }
    ensures grows { Extends bank.old bank.new }
    ensures bank { IsBank bank.new }
{
    match shape {
        Shape::Word { width } => {
            let term = bank.make(Node::Input { number, width }, book)?;
            Ok(SymValue::Word(term))
        }
        Shape::Row { words, width } => {
            let row = input_row(alloc, bank, book, number, words, width)?;
            Ok(SymValue::Row(row))
        }
        Shape::Table { rows, words, width } => {
            let table = input_rows(alloc, bank, book, number, rows, words, width)?;
            Ok(SymValue::Table(table))
        }
    }
}

/// Rows of inputs, numbered on row by row.
fn input_rows<B: Book>(
    alloc: Global,
    bank: &mut Bank,
    book: &B,
    number: u64,
    rows: u16,
    words: u8,
    width: u8,
) -> Result<SymTable, NoMemory>
    requires bank { IsBank bank.old }
    requires width { IsWidth width }
    requires below { InputsBelow number bank.old }
    requires room { number + rows * words < 2 ^ 64 }
    ensures nodes { OnOk result (bank.new ≡ (fresh_rows (B.kinds book.now) number rows words width bank.old).nodes) }
    ensures form { IfOk result (λ table. table ≡ (fresh_rows (B.kinds book.now) number rows words width bank.old).value) }
    ensures grows { Extends bank.old bank.new }
    ensures bank { IsBank bank.new }
{
    let mut table = SymTable::new(alloc);
    for place in 0..rows {
        let first = number + place as u64 * words as u64;
        let row = input_row(alloc, bank, book, first, words, width)?;
        table.push(row)?;
    }
    Ok(table)
}

/// A row of inputs.
fn input_row<B: Book>(
    alloc: Global,
    bank: &mut Bank,
    book: &B,
    number: u64,
    words: u8,
    width: u8,
) -> Result<SymRow, NoMemory>
    requires bank { IsBank bank.old }
    requires width { IsWidth width }
    requires below { InputsBelow number bank.old }
    requires room { number + words < 2 ^ 64 }
    ensures nodes { OnOk result (bank.new ≡ (fresh_row (B.kinds book.now) number words width bank.old).nodes) }
    ensures form { IfOk result (λ row. row ≡ (fresh_row (B.kinds book.now) number words width bank.old).value) }
    ensures below { OnOk result (InputsBelow (number + words) bank.new) }
    ensures grows { Extends bank.old bank.new }
    ensures bank { IsBank bank.new }
{
    let mut row = SymRow::new(alloc);
    for place in 0..words {
        let input = Node::Input {
            number: number + place as u64,
            width,
        };
        let term = bank.make(input, book)?;
        row.push(term)?;
    }
    Ok(row)
}
