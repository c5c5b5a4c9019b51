//! From two names to the verdict on an obligation.

ghost use Rattle.std.specs.Prelude.{◌≡◌, ◌<◌, ◌≤◌, [], length, IfOk, IfErr};
ghost use Rattle.ygg_base.specs.Outside.{Rose};
ghost use Rattle.ygg_certify.specs.ygg_bank.Nodes.{HasWidth, IsBank};
ghost use Rattle.ygg_certify.specs.ygg_oblige_laws.Terms.{file_made};
ghost use Rattle.ygg_yard.specs.ygg_meaning.Claims.{claims_of};
ghost use Rattle.ygg_top.specs.ygg_report.Putting.{NoFront};
ghost use Rattle.ygg_top.specs.ygg_top_command.Reports.{Told};
ghost use Rattle.ygg_top.specs.ygg_top_command.Words.{IsBudget};
ghost use Rattle.ygg_top.specs.Deciding.{Decides, DecidesNamed, DecidesWithin, IsDecided, IsDecision, IsThirdBudgetless};
ghost use Rattle.ygg_top.specs.Printed.{IsNamed};

use crate::finding::found;
use crate::naming::is_obligation;
use crate::printing::place_of;
use crate::refuted_by;
use std::alloc::Global;
use ygg_base::{Library, NoMemory, Reason, Sink, Status, Text};
use ygg_certify::Bank;
use ygg_oblige_reading::{Book, Obligation, obligations};
use ygg_sched_names::{file_schedules, one_ending, printed_shows};
use ygg_top_command::{CommandStop, Verdict, close, end, layer_file, line, number_up_to, put_all};
use ygg_top_status::status_by;
use ygg_type::Typed;
use ygg_yard::{refines_by_list, typed_histories};

/// The greatest budget.
const MOST_BUDGET: u32 = 10_000_000;

/// The budget that a word is: a number from 1 to 10,000,000 in decimal digits, without a sign or a leading zero. Another word, the third after the
/// command's, is refused 72 at `0:3`.
fn third_budget(alloc: Global, word: &[u8]) -> Result<u32, CommandStop>
    ensures found { IfOk result (IsBudget word.now) }
    ensures none { IfErr result (IsThirdBudgetless word.now) }
{
    match number_up_to(alloc, word, MOST_BUDGET) {
        Ok(Some(budget)) => Ok(budget),
        Ok(None) => Err(CommandStop::Refused(Reason::Number.at(0, 3))),
        Err(_) => Err(CommandStop::NoMemory),
    }
}

/// Decides the obligation at a place of a file within a budget: what is printed of it, and the status that goes with it. Its only error is out of memory.
fn decided<B: Book>(
    alloc: Global,
    typed: &Typed,
    rules: &B,
    bank: &mut Bank,
    obligation: &Obligation,
    place: usize,
    budget: u32,
) -> Result<(Status, Text), NoMemory>
    requires width { HasWidth bank.old obligation.now.term 1 }
    requires budget { 0 < budget }
    requires there { place < length (claims_of typed.now.file) }
    requires bank { IsBank bank.old }
    requires made { bank.old ≡ (file_made (B.kinds rules.now) typed.now.file []).nodes }
    ensures { IfOk result (IsDecided (B.kinds rules.now) typed.now.file bank.old budget obligation.now.name obligation.now.term place) }
{
    let finding = found(alloc, bank, rules, obligation.term, budget)?;
    let mut text = line(alloc, &finding.verdict, &obligation.name)?;
    match &finding.env {
        Some(env) => {
            let last = refuted_by(alloc, typed, rules, &obligation.name, place, env)?;
            text.extend_from_slice(last.as_slice())?;
            Ok((Status::Refuted, text))
        }
        None => {
            let spends = matches!(finding.verdict, Verdict::Spent(_));
            Ok((status_by(false, spends), text))
        }
    }
}

/// Decides an obligation of this name within a budget, and puts what is printed of it.
fn put_decision<B: Book, K: Sink>(
    alloc: Global,
    rules: &B,
    typed: &Typed,
    name: &[u8],
    budget: u32,
    sink: &mut K,
) -> Status
    requires named { IsNamed typed.now.file name.now }
    requires budget { 0 < budget }
    ensures told { Told (IsDecision (B.kinds rules.now) typed.now.file budget name.now) NoFront (K.taken sink.old) (K.taken sink.new)
        ⊥ (Rose (K.faults sink.old) (K.faults sink.new)) result }
    ensures later { K.faults sink.old ≤ K.faults sink.new }
{
    let Ok(mut bank) = Bank::new(alloc) else {
        return Status::NoMemory;
    };
    let Ok(all) = obligations(alloc, typed, &mut bank, rules) else {
        return Status::NoMemory;
    };
    // the file has no type error, and derives
    let _ = typed.file();
    typed_histories();
    refines_by_list();
    file_schedules();
    one_ending();
    printed_shows();
    match place_of(all.as_slice(), name) {
        Some(place) => {
            match decided(alloc, typed, rules, &mut bank, all.at(place), place, budget) {
                Ok((status, text)) => put_all(sink, text.as_slice(), status),
                Err(_) => Status::NoMemory,
            }
        }
        None => unreachable!(),
    }
}

/// Decides the obligation of this name of a layer file within a budget. A name that no obligation of it has is refused 74 at `0:2`.
fn decide_of<B: Book, K: Sink>(
    alloc: Global,
    rules: &B,
    typed: &Typed,
    name: &[u8],
    budget: u32,
    sink: &mut K,
) -> Status
    requires { 0 < budget }
    ensures told { Told (Decides (B.kinds rules.now) typed.now.file budget name.now) NoFront (K.taken sink.old) (K.taken sink.new)
        ⊥ (Rose (K.faults sink.old) (K.faults sink.new)) result }
    ensures later { K.faults sink.old ≤ K.faults sink.new }
{
    if is_obligation(typed.file(), name) {
        return put_decision(alloc, rules, typed, name, budget, sink);
    }
    end(
        alloc,
        CommandStop::Refused(Reason::NoObligation.at(0, 2)),
        sink,
    )
}

/// Decides the obligation of the one name of the layer file of the other within a budget, and puts the line that `verify` puts of it; where it fails, behind it
/// stands the line of the refutation and a schedule. It ends as `verify` does for a list of this one verdict: with 0 where the obligation holds, 1 where it
/// fails, and 3 where the budget is spent. A layer file is refused 73 or 11 at `0:1`, or 1 to 10; after that a name that no obligation of it has is refused 74
/// at `0:2`.
pub fn decide<B: Book, L: Library, K: Sink>(
    alloc: Global,
    rules: &B,
    file: &Text,
    name: &Text,
    budget: u32,
    library: &mut L,
    sink: &mut K,
) -> Status
    requires { 0 < budget }
    ensures told { Told (DecidesNamed (B.kinds rules.now) budget (L.files library.old) file.now name.now) NoFront (K.taken sink.old) (K.taken sink.new)
        (Rose (L.faults library.old) (L.faults library.new)) (Rose (K.faults sink.old) (K.faults sink.new)) result }
    ensures kept { L.files library.new ≡ L.files library.old }
    ensures later_library { L.faults library.old ≤ L.faults library.new }
    ensures later_sink { K.faults sink.old ≤ K.faults sink.new }
{
    let typed = match layer_file(alloc, file, library) {
        Ok(typed) => typed,
        Err(stop) => return end(alloc, stop, sink),
    };
    let status = decide_of(alloc, rules, &typed, name.as_slice(), budget, sink);
    close(typed);
    status
}

/// The same within the budget that a word is: a number from 1 to 10,000,000. Another word is refused 72 at `0:3`, before anything is fetched.
pub fn decide_within<B: Book, L: Library, K: Sink>(
    alloc: Global,
    rules: &B,
    file: &Text,
    name: &Text,
    word: &Text,
    library: &mut L,
    sink: &mut K,
) -> Status
    ensures told { Told (DecidesWithin (B.kinds rules.now) (L.files library.old) file.now name.now word.now) NoFront (K.taken sink.old) (K.taken sink.new)
        (Rose (L.faults library.old) (L.faults library.new)) (Rose (K.faults sink.old) (K.faults sink.new)) result }
    ensures kept { L.files library.new ≡ L.files library.old }
    ensures later_library { L.faults library.old ≤ L.faults library.new }
    ensures later_sink { K.faults sink.old ≤ K.faults sink.new }
{
    match third_budget(alloc, word.as_slice()) {
        Ok(budget) => decide(alloc, rules, file, name, budget, library, sink),
        Err(stop) => end(alloc, stop, sink),
    }
}
