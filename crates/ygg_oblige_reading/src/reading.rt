//! The schedule that an environment names for an obligation of a file.

ghost use Rattle.std.specs.Prelude.{◌≡◌, ◌<◌, ◌^◌, IfOk, IfSome, length};
ghost use Rattle.ygg_oblige.specs.ygg_bank.Values.{InputsFit, inputs_of};
ghost use Rattle.ygg_oblige_list.specs.ygg_meaning.Claims.{claims_of};
ghost use Rattle.ygg_oblige_list.specs.InCode.{obligation_of};
ghost use Rattle.ygg_oblige_schedule.specs.Fitted.{IsFitted};
ghost use Rattle.ygg_oblige_schedule.specs.ygg_sched.Cases.{kind_of};
ghost use Rattle.ygg_oblige_reading.specs.Cases.{IsCaseAt};
ghost use Rattle.ygg_oblige_reading.specs.Meant.{FitsTerms, IsExactly, IsMadeIn, IsNamed, ViolatesAtZero};

use crate::site::site_at;
use std::alloc::Global;
use ygg_list::NoMemory;
use ygg_oblige::{Obligation, tables};
use ygg_oblige_list::SymObligation;
use ygg_oblige_schedule::{Bank, Env, EnvironmentReader, InputTable, Schedule, Typed};
use ygg_rules::Book;
use ygg_sched::{Case, CaseKind};

/// What an obligation asks.
fn kind_of(obligation: SymObligation<'_>) -> CaseKind
    ensures { result ≡ kind_of (obligation_of obligation.entry) }
{
    match obligation {
        SymObligation::Init => CaseKind::Init,
        SymObligation::Call(_) => CaseKind::Call,
        SymObligation::Cut(_) => CaseKind::Cut,
        SymObligation::Tick(_) => CaseKind::Tick,
        SymObligation::CutTick(_) => CaseKind::CutTick,
        SymObligation::Idle => CaseKind::Idle,
        SymObligation::Again => CaseKind::Again,
    }
}

/// The obligation at a place in the file's list, by the place of its layer and that of its operation or background step. Its only error is out of memory.
pub fn case_at<B: Book>(
    alloc: Global,
    typed: &Typed,
    place: usize,
    book: &B,
) -> Result<Case, NoMemory>
    requires there { place < length (claims_of typed.now.file) }
    ensures { IfOk result (IsCaseAt typed.now.file place) }
{
    let file = typed.file();
    let tables = tables(alloc, file.disk)?;
    let site = site_at(alloc, file, tables.as_slice(), book, place)?;
    Ok(Case {
        layer: site.place,
        kind: kind_of(site.obligation),
        number: site.number,
    })
}

/// The schedule that an environment names for the obligation at a place in the file's list: the values of its inputs, and the picks, as many as the runs
/// take and in the order in which they take them. Its only error is out of memory.
pub fn schedule_at<B: Book>(
    alloc: Global,
    typed: &Typed,
    place: usize,
    env: &Env,
    book: &B,
) -> Result<Schedule, NoMemory>
    requires there { place < length (claims_of typed.now.file) }
    requires fit { FitsTerms (B.kinds book.now) typed.now.file (inputs_of env.now) }
    // It has the obligation's name, and means the schedule that the environment names.
    ensures named { IfOk result (IsNamed (B.kinds book.now) typed.now.file (inputs_of env.now) place) }
    // It violates the obligation exactly where the term that is made of it is 0 in the environment.
    ensures exact { IfOk result (IsExactly (B.kinds book.now) typed.now.file (inputs_of env.now) place) }
    // It has a value of its type for each variable that has a line in the schedule's text, and nothing for which there is no line.
    ensures fits { IfOk result (IsFitted typed.now.file place) }
    // The number in its stop can be printed and read again.
    ensures bounded { IfOk result (λ x. IfSome x.stop (λ h. h.event < 2 ^ 64)) }
{
    let file = typed.file();
    let tables = tables(alloc, file.disk)?;
    let site = site_at(alloc, file, tables.as_slice(), book, place)?;
    let table = InputTable::new(alloc, env)?;
    let reader = EnvironmentReader {
        alloc,
        typed,
        site,
        table: &table,
    };
    reader.schedule()
}

/// The schedule that an environment names for one of the file's obligations, the terms of which are in a bank: it violates the obligation exactly where the
/// obligation's term is 0 in the environment. Its only error is out of memory.
pub fn schedule<B: Book>(
    alloc: Global,
    typed: &Typed,
    obligation: &Obligation,
    bank: &Bank,
    env: &Env,
    book: &B,
) -> Result<Schedule, NoMemory>
    requires made { IsMadeIn (B.kinds book.now) typed.now.file bank.now obligation.now }
    requires fit { InputsFit (inputs_of env.now) bank.now }
    ensures named { IfOk result (IsNamed (B.kinds book.now) typed.now.file (inputs_of env.now) obligation.now.place) }
    ensures exact { IfOk result (ViolatesAtZero typed.now.file (inputs_of env.now) bank.now obligation.now) }
    ensures fits { IfOk result (IsFitted typed.now.file obligation.now.place) }
    ensures bounded { IfOk result (λ x. IfSome x.stop (λ h. h.event < 2 ^ 64)) }
{
    schedule_at(alloc, typed, obligation.place, env, book)
}
