//! What `check` says of the certificate of a layer file.

ghost use Rattle.std.specs.Prelude.{◌≡◌, ◌≤◌, ℕ, List, length, IfOk};
ghost use Rattle.ygg_base.specs.Outside.{IsOpen, Rose};
ghost use Rattle.ygg_syntax.specs.declared.tree.File.{File};
ghost use Rattle.ygg_certify.specs.ygg_rules.declared.rule.RuleKind.{RuleKind};
ghost use Rattle.ygg_certify.specs.ygg_meaning.Claims.{claims_of};
ghost use Rattle.ygg_cert.specs.Judging.{Judges};
ghost use Rattle.ygg_certify.specs.Checking.{Checks, ChecksOpen, bad_line, checked_line};
ghost use Rattle.ygg_certify.specs.FileGoals.{ChecksAll, IfChecked, IsRight, goals_of};

use crate::checking::check_file;
use std::alloc::Global;
use ygg_base::{Library, Status, Text};
use ygg_cert::{CertEnd, put_number};
use ygg_decide::Book;
use ygg_list::NoMemory;
use ygg_report::refused;
use ygg_type::Typed;

/// The line of a certificate for so many obligations. Its only error is out of memory.
fn checked(alloc: Global, count: u32) -> Result<Text, NoMemory>
    ensures { IfOk result (λ text. text ≡ checked_line count) }
{
    let mut text = Text::new(alloc);
    text.extend_from_slice(b"checked ")?;
    put_number(&mut text, u64::from(count))?;
    text.push(b'\n')?;
    Ok(text)
}

/// The line of a log at fault. Its only error is out of memory.
fn bad(alloc: Global, name: &Text, id: u64) -> Result<Text, NoMemory>
    ensures { IfOk result (λ text. text ≡ bad_line name.now id) }
{
    let mut text = Text::new(alloc);
    text.extend_from_slice(b"bad ")?;
    text.extend_from_slice(name.as_slice())?;
    text.extend_from_slice(b" ")?;
    put_number(&mut text, id)?;
    text.push(b'\n')?;
    Ok(text)
}

/// What `check` prints of what is said of a certificate, and the status that goes with it: `checked N` where it is checked, N being the number of obligations;
/// `bad NAME ID` for the first clause that isn't derived, or with 0 for the first log that ends with no empty clause held; else the line of a refusal. Its only
/// error is out of memory.
fn said(alloc: Global, end: CertEnd) -> Result<(Status, Text), NoMemory>
    ensures { (kinds : List RuleKind) (f : File) (bytes : List ℕ) → Judges (goals_of kinds f) bytes end → IfChecked end (IsRight f) →
        ChecksAll end (length (claims_of f)) → IfOk result (λ said. Checks kinds f bytes said.0 said.1) }
{
    match end {
        CertEnd::Checked(count) => {
            let text = checked(alloc, count)?;
            Ok((Status::Done, text))
        }
        CertEnd::Bad { name, id } => {
            let text = bad(alloc, &name, id)?;
            Ok((Status::Refuted, text))
        }
        CertEnd::Refused(refusal) => {
            let text = refused(alloc, refusal)?;
            Ok((Status::Refused, text))
        }
        CertEnd::Memory => Err(NoMemory),
    }
}

/// Why a certificate isn't checked.
#[derive(Clone, Copy, Drop)]
pub enum Unchecked {
    /// The library failed.
    LibraryFailed,
    /// No memory was left.
    NoMemory,
}

/// How `check` ends for the file that the library has open as the certificate of a layer file, and what it prints: `checked N`, `bad NAME ID`, or the line of a
/// refusal. The file is read in pieces, and no further than to the first line at fault.
pub fn check<B: Book, L: Library>(
    alloc: Global,
    rules: &B,
    typed: &Typed,
    library: &mut L,
) -> Result<(Status, Text), Unchecked>
    requires { IsOpen (L.reading library.old) }
    ensures said { IfOk result (λ end. ChecksOpen (B.kinds rules.now) typed.now.file (L.reading library.old) end.0 end.1) }
    ensures cause { result ≡ Err Unchecked.LibraryFailed → Rose (L.faults library.old) (L.faults library.new) }
    ensures kept { L.files library.new ≡ L.files library.old }
    ensures later { L.faults library.old ≤ L.faults library.new }
{
    match check_file(alloc, rules, typed, library) {
        Ok(end) => match said(alloc, end) {
            Ok(printed) => Ok(printed),
            Err(_) => Err(Unchecked::NoMemory),
        },
        Err(_) => Err(Unchecked::LibraryFailed),
    }
}
