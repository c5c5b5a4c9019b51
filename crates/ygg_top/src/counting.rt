//! The verdicts on the file that `demo` makes, counted.

ghost use Rattle.std.specs.Prelude.{◌≡◌, ◌≤◌, length, IfOk};
ghost use Rattle.ygg_base.specs.Outside.{Rose};
ghost use Rattle.ygg_oblige_reading.specs.Obligations.{terms_in};
ghost use Rattle.ygg_top.specs.ygg_report.Lines.{demo_line};
ghost use Rattle.ygg_top.specs.ygg_report.Putting.{NoFront, Puts};
ghost use Rattle.ygg_top.specs.Findings.{AreDigits, AreFound, status_of_counts};
ghost use Rattle.ygg_top.specs.Verdict.{Counted};
ghost use Rattle.ygg_top.specs.ygg_top_command.Words.{usual_budget};
ghost use Rattle.ygg_yard.specs.Laws.{HoldsAll};

use crate::finding::found;
use std::alloc::Global;
use ygg_base::{NoMemory, Sink, Status};
use ygg_certify::Bank;
use ygg_list::Sequence;
use ygg_oblige_reading::{Book, Obligation, obligations};
use ygg_sched_names::file_schedules;
use ygg_top_command::{Tally, USUAL_BUDGET, Verdict, put};
use ygg_top_status::status_by;
use ygg_type::Typed;
use ygg_yard::{refines_by_list, typed_histories};

/// Decides obligations one after another, each within the usual budget. Its only error is out of memory.
fn all_found<B: Book>(
    alloc: Global,
    bank: &mut Bank,
    rules: &B,
    all: &[Obligation],
) -> Result<Sequence<Verdict>, NoMemory>
    requires digits { AreDigits bank.old all.now }
    ensures found { IfOk result (AreFound bank.old usual_budget (terms_in all.now)) }
    ensures each { IfOk result (λ verdicts. length verdicts ≡ length all.now) }
    ensures same { bank.new ≡ bank.old }
{
    let mut verdicts = Sequence::new(alloc);
    for o in all {
        let finding = found(alloc, bank, rules, o.term, USUAL_BUDGET)?;
        verdicts.push(finding.verdict)?;
    }
    Ok(verdicts)
}

/// The status that counts of verdicts come to.
fn status_of(tally: &Tally) -> Status
    ensures { result ≡ status_of_counts tally.now }
{
    status_by(tally.fails > 0, tally.spent > 0)
}

/// Verifies the layer file that is made for a number, all of whose obligations hold: decides them in order, each within the usual budget, and then puts one
/// line that counts the verdicts. The rules only make the terms smaller. Where the sink fails, the command ends with a fault.
pub fn put_counts<B: Book, K: Sink>(
    alloc: Global,
    rules: &B,
    typed: &Typed,
    number: u32,
    sink: &mut K,
) -> Status
    requires { HoldsAll number typed.now.file }
    ensures told { Puts (Counted (B.kinds rules.now) number typed.now.file) NoFront (K.taken sink.old) (K.taken sink.new)
        (Rose (K.faults sink.old) (K.faults sink.new)) result }
    ensures later { K.faults sink.old ≤ K.faults sink.new }
{
    let Ok(mut bank) = Bank::new(alloc) else {
        return Status::NoMemory;
    };
    let Ok(all) = obligations(alloc, typed, &mut bank, rules) else {
        return Status::NoMemory;
    };
    // the file has no type error, and derives
    let _ = typed.file();
    typed_histories();
    refines_by_list();
    file_schedules();
    let Ok(verdicts) = all_found(alloc, &mut bank, rules, all.as_slice()) else {
        return Status::NoMemory;
    };
    let tally = Tally::of(verdicts.as_slice());
    let Ok(line) = ygg_top_command::demo(alloc, number, &tally) else {
        return Status::NoMemory;
    };
    match put(sink, line.as_slice()) {
        Ok(()) => status_of(&tally),
        Err(status) => status,
    }
}
