//! The obligations of a layer file as terms, by their kinds.
#![tactic(auto)]

ghost use Rattle.std.specs.Prelude.{◌≡◌, [], map, IfOk, OnOk};
ghost use Rattle.ygg_oblige_laws.specs.ygg_bank.Nodes.{IsBank};
ghost use Rattle.ygg_oblige_laws.specs.ygg_meaning.Claims.{claims_of};
ghost use Rattle.ygg_oblige_laws.specs.Terms.{file_made};
ghost use Rattle.ygg_oblige_laws.specs.Meaning.{AreTermsIn, claim_name};
ghost use Rattle.ygg_oblige.specs.Obligations.{AreClaims, ArePlaced, names_in, terms_in};

mod file;
mod layers;
mod numbers;
mod obligation;
mod terms;

pub use file::tables;
pub use layers::after_states;
pub use numbers::numbers_of;
pub use obligation::{Kind, Obligation, Obligations};
use std::alloc::Global;
pub use terms::term;
use ygg_oblige_laws::{Bank, Book, NoMemory};
pub use ygg_oblige_list::SymNumbers;
pub use ygg_oblige_parts::{Maker, SymBelow, SymLayer, words_in};
use ygg_type::Typed;

/// The obligations of a file in order, and their terms, made in a bank without nodes. Its only error is out of memory, after which the bank may
/// have more nodes.
pub fn obligations<B: Book>(
    alloc: Global,
    typed: &Typed,
    bank: &mut Bank,
    book: &B,
) -> Result<Obligations, NoMemory>
    requires empty { bank.old ≡ [] }
    ensures nodes { OnOk result (bank.new ≡ (file_made (B.kinds book.now) typed.now.file []).nodes) }
    ensures terms { IfOk result (λ all. terms_in all ≡ (file_made (B.kinds book.now) typed.now.file []).value) }
    ensures names { IfOk result (λ all. names_in all ≡ map claim_name (claims_of typed.now.file)) }
    ensures placed { IfOk result ArePlaced }
    ensures claims { IfOk result (AreClaims typed.now.file (claims_of typed.now.file)) }
    ensures mean { IfOk result (λ all. AreTermsIn typed.now.file bank.new (terms_in all)) }
    ensures bank { IsBank bank.new }
{
    // the bank's nodes stand in order
    let _ = bank.len();
    let file = typed.file();
    file::obligations_of_file(alloc, file, bank, book)
}
