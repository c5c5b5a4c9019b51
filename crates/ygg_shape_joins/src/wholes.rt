//! Lists of values.

ghost use Rattle.std.specs.Prelude.{◌≡◌, List, IfOk, OnOk};
ghost use Rattle.ygg_shape_words.specs.ygg_bank.Inputs.{KeepsInputs};
ghost use Rattle.ygg_shape_words.specs.ygg_bank.Nodes.{Extends, HasWidth, IsBank};
ghost use Rattle.ygg_shape_words.specs.ygg_bank.Values.{KeepsValues};
ghost use Rattle.ygg_value.specs.declared.shape.Shape.{Shape};
ghost use Rattle.ygg_shape_cells.specs.Terms.{AreShaped};
ghost use Rattle.ygg_shape_cells.specs.Wholes.{AllAlike, AreMerged};
ghost use Rattle.ygg_shape_joins.specs.Joining.{joined_all};

use crate::joining::join;
use std::alloc::Global;
use ygg_shape_cells::{SymValue, SymValues};
use ygg_shape_words::{Bank, Book, Id, NoMemory};

/// The values that are those of `yes` where the test is 1, and those of `no` where it is 0, in every environment. Values that are one term
/// word by word ask nothing, and picks of one word under two tests are one pick. Its only error is out of memory, after which the bank may have more nodes.
pub fn join_all<B: Book>(
    alloc: Global,
    bank: &mut Bank,
    book: &B,
    test: Id,
    yes: &SymValues,
    no: &SymValues,
) -> Result<SymValues, NoMemory>
    requires test { HasWidth bank.old test 1 }
    requires values { AllAlike bank.old yes.now no.now }
    ensures nodes { OnOk result (bank.new ≡ (joined_all (B.kinds book.now) test yes.now no.now bank.old).nodes) }
    ensures form { IfOk result (λ answers. answers ≡ (joined_all (B.kinds book.now) test yes.now no.now bank.old).value) }
    ensures shape { (shapes : List Shape) → AreShaped bank.old shapes yes.now → AreShaped bank.old shapes no.now →
        IfOk result (AreShaped bank.new shapes) }
    ensures value { IfOk result (AreMerged bank.new test yes.now no.now) }
    ensures grows { Extends bank.old bank.new }
    ensures keeps { KeepsValues bank.old bank.new }
    ensures bank { IsBank bank.new }
    ensures inputs { OnOk result (KeepsInputs bank.old bank.new) }
{
    // the bank's nodes stand in order
    let _ = bank.len();
    join_all_by(alloc, bank, book, test, yes.as_slice(), no.as_slice())
}

/// What `join_all` does.
fn join_all_by<B: Book>(
    alloc: Global,
    bank: &mut Bank,
    book: &B,
    test: Id,
    yes: &[SymValue],
    no: &[SymValue],
) -> Result<SymValues, NoMemory>
    requires bank { IsBank bank.old }
    requires test { HasWidth bank.old test 1 }
    requires values { AllAlike bank.old yes.now no.now }
    ensures nodes { OnOk result (bank.new ≡ (joined_all (B.kinds book.now) test yes.now no.now bank.old).nodes) }
    ensures form { IfOk result (λ answers. answers ≡ (joined_all (B.kinds book.now) test yes.now no.now bank.old).value) }
    ensures grows { Extends bank.old bank.new }
    ensures bank { IsBank bank.new }
{
    let mut answers = SymValues::new(alloc);
    for place in 0..yes.len() {
        let answer = join(alloc, bank, book, test, &yes[place], &no[place])?;
        answers.push(answer)?;
    }
    Ok(answers)
}
