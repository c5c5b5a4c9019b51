//! The names that a block sees, with their values of terms.

ghost use Rattle.std.specs.Prelude.{◌≡◌, ◌<◌, ◌++◌, ◌∷◌, [], length, IfOk, IfSome, OnOk};
ghost use Rattle.ygg_sym_runs.specs.ygg_bank.Nodes.{Extends, IsBank};
ghost use Rattle.ygg_sym_runs.specs.Names.{sym_look_up};
ghost use Rattle.ygg_sym_runs.specs.Seen.{env_of};
ghost use Rattle.ygg_sym_runs.specs.Lower.{KeepsSingle};
ghost use Rattle.ygg_sym_runs.specs.Putting.{put_made};
ghost use Rattle.ygg_sym_runs.specs.Ready.{CanJoin, CanPut, first_place, joined_names};
ghost use Rattle.ygg_sym_runs.specs.Runs.{sym_change};

use crate::written::put;
use crate::{Bank, Book, Id, NoMemory, SymBinding, SymValue, merge};
use std::alloc::Global;
use ygg_list::Duplicate;
use ygg_syntax::tree::Name;

/// The same names with the same values. Its only error is out of memory.
pub fn copy_names<'a>(
    alloc: Global,
    names: &[SymBinding<'a>],
) -> Result<Vec<SymBinding<'a>>, NoMemory>
    ensures { IfOk result (λ copy. env_of copy.items ≡ env_of names.now) }
{
    let mut copy = Vec::new(alloc);
    for binding in names {
        let value = binding.value.duplicate(alloc)?;
        copy.push(SymBinding {
            name: binding.name,
            value,
        })?;
    }
    Ok(copy)
}

/// Puts a name with a value after others. Its only error is out of memory.
pub fn name_value<'a>(
    names: &mut Vec<SymBinding<'a>>,
    x: &'a Name,
    value: SymValue,
) -> Result<(), NoMemory>
    ensures { OnOk result (env_of names.new.items ≡ env_of names.old.items ++ (x.now.text, value) ∷ []) }
{
    names.push(SymBinding {
        name: x.text.as_slice(),
        value,
    })?;
    Ok(())
}

/// The place of the first of a name.
fn place_in(names: &[SymBinding<'_>], name: &[u8]) -> Option<usize>
    ensures within { IfSome result (λ place. place < length names.now) }
    ensures first { result ≡ first_place 0 (env_of names.now) name.now }
{
    for (place, binding) in names.iter().enumerate() {
        if binding.name == name {
            return Some(place);
        }
    }
    None
}

/// Gives the part at these places of the first of a name a new value. After running out of memory, which is the only error, the bank may have
/// more nodes.
pub fn change<B: Book>(
    alloc: Global,
    bank: &mut Bank,
    book: &B,
    names: &mut [SymBinding<'_>],
    name: &[u8],
    places: &[Id],
    new: SymValue,
) -> Result<(), NoMemory>
    requires can { CanPut bank.old (sym_look_up name.now (env_of names.old)) places.now new }
    ensures nodes { OnOk result (bank.new
        ≡ (sym_change name.now (λ old. put_made (B.kinds book.now) old places.now new) (env_of names.old) bank.old).nodes) }
    ensures names { OnOk result (env_of names.new
        ≡ (sym_change name.now (λ old. put_made (B.kinds book.now) old places.now new) (env_of names.old) bank.old).value) }
    ensures grows { Extends bank.old bank.new }
    ensures bank { IsBank bank.new }
    ensures single { OnOk result (KeepsSingle bank.old bank.new) }
{
    // the bank's nodes stand in order
    let _ = bank.len();
    match place_in(names, name) {
        Some(place) => {
            let value = put(alloc, bank, book, &names[place].value, places, new)?;
            names[place].value = value;
            Ok(())
        }
        None => Ok(()),
    }
}

/// The names of the first list, with values of one of the two lists by a test. Its only error is out of memory, after which the bank may have more nodes.
pub fn join_names<'a, B: Book>(
    alloc: Global,
    bank: &mut Bank,
    book: &B,
    test: Id,
    yes: &[SymBinding<'a>],
    no: &[SymBinding<'_>],
) -> Result<Vec<SymBinding<'a>>, NoMemory>
    requires can { CanJoin bank.old test (env_of yes.now) (env_of no.now) }
    requires bank { IsBank bank.old }
    ensures nodes { OnOk result (bank.new ≡ (joined_names (B.kinds book.now) test (env_of yes.now) (env_of no.now) bank.old).nodes) }
    ensures form { IfOk result (λ names. env_of names.items
        ≡ (joined_names (B.kinds book.now) test (env_of yes.now) (env_of no.now) bank.old).value) }
    ensures grows { Extends bank.old bank.new }
    ensures bank { IsBank bank.new }
{
    let mut names = Vec::new(alloc);
    for place in 0..yes.len() {
        let one = &yes[place];
        let value = merge(alloc, bank, book, test, &one.value, &no[place].value)?;
        names.push(SymBinding {
            name: one.name,
            value,
        })?;
    }
    Ok(names)
}
