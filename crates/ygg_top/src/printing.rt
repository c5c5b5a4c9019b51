//! The clauses of an obligation, printed.

ghost use Rattle.std.specs.Prelude.{◌≤◌, IfSome, IsNone, Contains};
ghost use Rattle.ygg_base.specs.Outside.{Rose};
ghost use Rattle.ygg_sched.specs.ygg_report.Putting.{Puts, IsCutOf};
ghost use Rattle.ygg_oblige.specs.Obligations.{names_in};
ghost use Rattle.ygg_top.specs.Printed.{Printed, IsNamed, IsPlace};

use std::alloc::Global;
use ygg_base::{Sink, Status};
use ygg_dimacs::{Bank, Book, put_term};
use ygg_oblige::{Obligation, obligations};
use ygg_sched::Typed;

/// The place of the first obligation of this name.
pub fn place_of(all: &[Obligation], name: &[u8]) -> Option<usize>
    ensures found { IfSome result (IsPlace all.now name.now) }
    ensures none { IsNone result → Contains (names_in all.now) name.now → ⊥ }
{
    for (place, obligation) in all.iter().enumerate() {
        if obligation.name.as_slice() == name {
            return Some(place);
        }
    }
    None
}

/// Puts the text of the clauses of an obligation of this name: some truth values satisfy them exactly where some schedule violates the obligation. They are
/// those that deciding the obligation takes. Nothing is put before all terms are made. The other ends are a fault of the sink and out of memory, after which
/// a front of the text may have been put.
pub fn put_obligation<B: Book, K: Sink>(
    alloc: Global,
    rules: &B,
    typed: &Typed,
    name: &[u8],
    sink: &mut K,
) -> Status
    requires { IsNamed typed.now.file name.now }
    ensures told { Puts (Printed (B.kinds rules.now) typed.now.file name.now) (IsCutOf (Printed (B.kinds rules.now) typed.now.file name.now))
        (K.taken sink.old) (K.taken sink.new) (Rose (K.faults sink.old) (K.faults sink.new)) result }
    ensures later { K.faults sink.old ≤ K.faults sink.new }
{
    let Ok(mut bank) = Bank::new(alloc) else {
        return Status::NoMemory;
    };
    let Ok(all) = obligations(alloc, typed, &mut bank, rules) else {
        return Status::NoMemory;
    };
    match place_of(all.as_slice(), name) {
        Some(place) => put_term(alloc, &bank, all.at(place).term, sink),
        None => unreachable!(),
    }
}
