//! A word at a width.

ghost use Rattle.std.specs.Prelude.{◌≡◌, Some, slice_get, IfOk, OnOk};
ghost use Rattle.ygg_rules.specs.Views.{IsWidth};
ghost use Rattle.ygg_bank.specs.Inputs.{KeepsInputs};
ghost use Rattle.ygg_bank.specs.Nodes.{Extends, HasWidth, IsBank, Stands};
ghost use Rattle.ygg_bank.specs.Values.{KeepsValues};
ghost use Rattle.ygg_shape_words.specs.Sizing.{IsResized, SizingFits, resized_word, sizing_at, sizing_of};

use ygg_bank::{Bank, Id, NoMemory, Node};
use ygg_rules::Book;

/// How a term at a width is made.
#[derive(Clone, Copy, Drop)]
pub enum Sizing {
    /// The term has this width.
    Itself,
    /// The term is this one at some width that loses no digit which is kept.
    Through(Id),
    /// Nothing of these.
    Plain,
}

/// How a node at a width is made.
fn sizing_of(bank: &Bank, at: Id, width: u8) -> Sizing
    requires bank { IsBank bank.now }
    requires at { Stands bank.now at }
    ensures { result ≡ sizing_of bank.now width (slice_get bank.now at.0) }
{
    match bank.node(at) {
        Node::Resize { a, width: first } => {
            if width <= first || bank.width(a) <= first {
                Sizing::Through(a)
            } else {
                Sizing::Plain
            }
        }
        _ => Sizing::Plain,
    }
}

/// How a term at a width is made.
fn sizing_at(bank: &Bank, term: Id, width: u8) -> Sizing
    requires bank { IsBank bank.now }
    requires term { Stands bank.now term }
    ensures { result ≡ sizing_at bank.now term width }
{
    if bank.width(term) == width {
        Sizing::Itself
    } else {
        sizing_of(bank, term, width)
    }
}

/// The word at this width, in every environment: high digits are dropped, or zeros are put before them. A term that has the width is taken
/// as it is, and widths one after another are made one where they can be. Its only error is out of memory.
pub fn resize<B: Book>(bank: &mut Bank, book: &B, term: Id, width: u8) -> Result<Id, NoMemory>
    requires term { Stands bank.old term }
    requires width { IsWidth width }
    ensures nodes { OnOk result (bank.new ≡ (resized_word (B.kinds book.now) term width bank.old).nodes) }
    ensures form { IfOk result (λ id. id ≡ (resized_word (B.kinds book.now) term width bank.old).value) }
    ensures width { IfOk result (λ id. HasWidth bank.new id width) }
    ensures value { IfOk result (IsResized bank.new term width) }
    ensures grows { Extends bank.old bank.new }
    ensures keeps { KeepsValues bank.old bank.new }
    ensures bank { IsBank bank.new }
    ensures inputs { KeepsInputs bank.old bank.new }
{
    // the bank's nodes stand in order
    let _ = bank.len();
    resize_by(bank, book, term, width)
}

/// What `resize` does.
fn resize_by<B: Book>(bank: &mut Bank, book: &B, term: Id, width: u8) -> Result<Id, NoMemory>
    requires bank { IsBank bank.old }
    requires term { Stands bank.old term }
    requires width { IsWidth width }
    ensures nodes { OnOk result (bank.new ≡ (resized_word (B.kinds book.now) term width bank.old).nodes) }
    ensures form { IfOk result (λ id. id ≡ (resized_word (B.kinds book.now) term width bank.old).value) }
    ensures grows { Extends bank.old bank.new }
    ensures bank { IsBank bank.new }
    ensures inputs { KeepsInputs bank.old bank.new }
{
    match sizing_at(bank, term, width) {
        Sizing::Itself => Ok(term),
        Sizing::Through(inner) => bank.make(Node::Resize { a: inner, width }, book),
        Sizing::Plain => bank.make(Node::Resize { a: term, width }, book),
    }
}
