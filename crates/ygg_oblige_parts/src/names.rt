//! Names with values of terms.

ghost use Rattle.std.specs.Prelude.{◌≡◌, ◌++◌, ◌+◌, ◌<◌, ◌^◌, IfOk, OnOk};
ghost use Rattle.ygg_sym_spec.specs.ygg_bank.Inputs.{InputsBelow};
ghost use Rattle.ygg_sym_spec.specs.ygg_bank.Nodes.{Extends, IsBank};
ghost use Rattle.ygg_sym_spec.specs.ygg_sym_runs.Lows.{LowShaped};
ghost use Rattle.ygg_sym_spec.specs.ygg_sym_runs.Names.{sym_bind};
ghost use Rattle.ygg_sym_spec.specs.ygg_sym_runs.Seen.{env_of};
ghost use Rattle.ygg_oblige_laws.specs.LayerTerms.{ShapesKept};
ghost use Rattle.ygg_oblige_laws.specs.TermStates.{fresh_all, words_in};

use std::alloc::Global;
use ygg_list::Duplicate;
use ygg_oblige_given::words_of;
use ygg_sym_spec::{Bank, Book, NoMemory, SymBinding, SymValue, SymValues, inputs_of, shape_of};
use ygg_syntax::tree::Declared;

/// Adds the declared names with these values, in order. Its only error is out of memory.
pub fn add_names<'a>(
    alloc: Global,
    names: &mut Vec<SymBinding<'a>>,
    declared: &'a [Declared],
    values: &[SymValue],
) -> Result<(), NoMemory>
    ensures { OnOk result (env_of names.new.items ≡ env_of names.old.items ++ sym_bind declared.now values.now) }
{
    for (i, variable) in declared.iter().enumerate() {
        if i >= values.len() {
            return Ok(());
        }
        names.push(SymBinding {
            name: variable.name.text.as_slice(),
            value: values[i].duplicate(alloc)?,
        })?;
    }
    Ok(())
}

/// Inputs for declared names, numbered on from a number that is above those of all inputs. Its only error is out of memory, after which the bank
/// may have more nodes.
pub fn fresh<B: Book>(
    alloc: Global,
    bank: &mut Bank,
    book: &B,
    number: u64,
    declared: &[Declared],
) -> Result<SymValues, NoMemory>
    requires kept { ShapesKept declared.now }
    requires below { InputsBelow number bank.old }
    requires room { number + words_in declared.now < 2 ^ 64 }
    ensures nodes { OnOk result (bank.new ≡ (fresh_all (B.kinds book.now) number declared.now bank.old).nodes) }
    ensures form { IfOk result (λ xs. xs ≡ (fresh_all (B.kinds book.now) number declared.now bank.old).value) }
    ensures shape { IfOk result (LowShaped bank.new declared.now) }
    ensures inputs { OnOk result (InputsBelow (number + words_in declared.now) bank.new) }
    ensures grows { Extends bank.old bank.new }
    ensures bank { IsBank bank.new }
{
    // the bank's nodes stand in order
    let _ = bank.len();
    fresh_by(alloc, bank, book, number, declared)
}

/// What `fresh` does.
fn fresh_by<B: Book>(
    alloc: Global,
    bank: &mut Bank,
    book: &B,
    number: u64,
    declared: &[Declared],
) -> Result<SymValues, NoMemory>
    requires bank { IsBank bank.old }
    requires kept { ShapesKept declared.now }
    requires below { InputsBelow number bank.old }
    requires room { number + words_in declared.now < 2 ^ 64 }
    ensures nodes { OnOk result (bank.new ≡ (fresh_all (B.kinds book.now) number declared.now bank.old).nodes) }
    ensures form { IfOk result (λ xs. xs ≡ (fresh_all (B.kinds book.now) number declared.now bank.old).value) }
    ensures grows { Extends bank.old bank.new }
    ensures bank { IsBank bank.new }
{
    let mut values = SymValues::new(alloc);
    let mut next = number;
    for variable in declared {
        let value = inputs_of(alloc, bank, book, next, shape_of(variable.shape))?;
        next += words_of(variable.shape);
        values.push(value)?;
    }
    Ok(values)
}
