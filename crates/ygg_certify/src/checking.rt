//! A file of a library as the certificate of a layer file.

ghost use Rattle.std.specs.Prelude.{◌≡◌, ◌≤◌, length, IfOk, IsErr};
ghost use Rattle.ygg_base.specs.Outside.{IsOpen, Rose};
ghost use Rattle.ygg_certify.specs.ygg_meaning.Claims.{claims_of};
ghost use Rattle.ygg_cert.specs.Opened.{JudgesOpen};
ghost use Rattle.ygg_certify.specs.FileGoals.{ChecksAll, IfChecked, IsRight, goals_of};

use crate::goals::FileGoals;
use crate::law::never_zero_holds;
use std::alloc::Global;
use ygg_base::Library;
use ygg_cert::{CertEnd, LibraryFailed, check_open, checked_is_refuted, derivations_are_sound};
use ygg_decide::{Bank, Book, clauses_mean_terms};
use ygg_oblige::obligations;
use ygg_oblige_laws::{refines_by_list, typed_histories};
use ygg_type::Typed;

/// What is said of the file that the library has open as the certificate of a layer file, for the terms that the rules make of its obligations. It is read in
/// pieces, and no further than to the first line at fault. Where it is checked, it is so for all of the file's obligations, each layer refines its
/// specification, and every history is allowed. Where the library fails, that is the answer.
pub fn check_file<B: Book, L: Library>(
    alloc: Global,
    rules: &B,
    typed: &Typed,
    library: &mut L,
) -> Result<CertEnd, LibraryFailed>
    requires { IsOpen (L.reading library.old) }
    ensures judged { IfOk result (JudgesOpen (goals_of (B.kinds rules.now) typed.now.file) (L.reading library.old)) }
    ensures right { IfOk result (λ end. IfChecked end (IsRight typed.now.file)) }
    ensures all { IfOk result (λ end. ChecksAll end (length (claims_of typed.now.file))) }
    ensures cause { IsErr result → Rose (L.faults library.old) (L.faults library.new) }
    ensures kept { L.files library.new ≡ L.files library.old }
    ensures later { L.faults library.old ≤ L.faults library.new }
{
    let Ok(mut bank) = Bank::new(alloc) else {
        return Ok(CertEnd::Memory);
    };
    let Ok(all) = obligations(alloc, typed, &mut bank, rules) else {
        return Ok(CertEnd::Memory);
    };
    // the file has no type error, and derives
    let _ = typed.file();
    checked_is_refuted();
    derivations_are_sound();
    clauses_mean_terms();
    never_zero_holds();
    refines_by_list();
    typed_histories();
    let goals = FileGoals {
        bank: &bank,
        all: all.as_slice(),
    };
    check_open(alloc, &goals, library)
}
