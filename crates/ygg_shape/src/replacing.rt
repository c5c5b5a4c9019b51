//! States with terms in the stead of inputs.

ghost use Rattle.std.specs.Prelude.{◌≡◌, IfOk, All, map};
ghost use Rattle.ygg_value.specs.declared.shape.Shape.{Shape};
ghost use Rattle.ygg_shape_cells.specs.ygg_bank.declared.node.Id.{Id as Term};
ghost use Rattle.ygg_shape_cells.specs.ygg_bank.declared.node.Node.{Node};
ghost use Rattle.ygg_shape_cells.specs.Terms.{HasShape};
ghost use Rattle.ygg_shape.specs.Replacing.{AreFit, AreTrueUnder, KeepsUnder, replaced_value, replaced_row, replaced_word};

use std::alloc::Global;
use ygg_list::Sequence;
use ygg_shape_cells::{Id, NoMemory, SymRow, SymTable, SymValue};

/// A term that stands for an input.
#[derive(Clone, Copy, Drop)]
pub struct Replacement {
    /// The input.
    pub input: Id,
    /// The term in its stead.
    pub term: Id,
}

/// Replacements in order, of which the first for an input counts.
pub type Replacements = Sequence<Replacement>;

/// The term in the stead of a term; the term itself where there is none.
fn replaced_word(replacements: &[Replacement], word: Id) -> Id
    ensures { result ≡ replaced_word replacements.now word }
{
    for replacement in replacements {
        if replacement.input.0 == word.0 {
            return replacement.term;
        }
    }
    word
}

/// The row with terms in the stead of its inputs.
fn replaced_row(
    alloc: Global,
    replacements: &[Replacement],
    row: &SymRow,
) -> Result<SymRow, NoMemory>
    ensures { IfOk result (λ answer. answer ≡ replaced_row replacements.now row.now) }
{
    let mut answer = SymRow::new(alloc);
    for word in row.as_slice() {
        answer.push(replaced_word(replacements, *word))?;
    }
    Ok(answer)
}

/// The table with terms in the stead of its inputs.
fn replaced_table(
    alloc: Global,
    replacements: &[Replacement],
    table: &SymTable,
) -> Result<SymTable, NoMemory>
    ensures { IfOk result (λ answer. answer ≡ map (replaced_row replacements.now) table.now) }
{
    let mut answer = SymTable::new(alloc);
    for row in table.as_slice() {
        answer.push(replaced_row(alloc, replacements, row)?)?;
    }
    Ok(answer)
}

/// The value with terms in the stead of its inputs. Where each replacement has its input's value under a hypothesis, so does the answer: in
/// every environment in which the hypothesis is 1 it has the value that it had. Its only error is out of memory.
pub fn replace(
    alloc: Global,
    replacements: &Replacements,
    value: &SymValue,
) -> Result<SymValue, NoMemory>
    ensures form { IfOk result (λ answer. answer ≡ replaced_value replacements.now value.now) }
    ensures shape { (nodes : _) (s : Shape) → AreFit nodes replacements.now → HasShape nodes s value.now → IfOk result (HasShape nodes s) }
    ensures value { (nodes : _) (hypothesis : Term) → AreTrueUnder nodes hypothesis replacements.now → IfOk result (KeepsUnder nodes hypothesis value.now) }
{
    replace_by(alloc, replacements, value)
}

/// What `replace` does.
fn replace_by(
    alloc: Global,
    replacements: &Replacements,
    value: &SymValue,
) -> Result<SymValue, NoMemory>
    ensures { IfOk result (λ answer. answer ≡ replaced_value replacements.now value.now) }
{
    match value {
        SymValue::Word(word) => Ok(SymValue::Word(replaced_word(replacements.as_slice(), *word))),
        SymValue::Row(row) => Ok(SymValue::Row(replaced_row(alloc, replacements.as_slice(), row)?)),
        SymValue::Table(table) => Ok(SymValue::Table(replaced_table(
            alloc,
            replacements.as_slice(),
            table,
        )?)),
    }
}
