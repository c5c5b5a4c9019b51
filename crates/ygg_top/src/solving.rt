//! From a name to what comes of solving the clauses of its text.

ghost use Rattle.std.specs.Prelude.{◌≡◌, ◌<◌, ◌≤◌, IfOk, IfErr};
ghost use Rattle.ygg_base.specs.Outside.{Rose};
ghost use Rattle.ygg_dimacs.specs.ygg_solver.Answers.{IsNumbered};
ghost use Rattle.ygg_top_command.specs.Reports.{Told};
ghost use Rattle.ygg_top_command.specs.Standing.{DoesWith, DoesWithin};
ghost use Rattle.ygg_top.specs.Fetched.{StandsClauses, IsNoClauses};
ghost use Rattle.ygg_top.specs.Solving.{Solves, IsCutSolving};

use std::alloc::Global;
use ygg_base::{Library, Sink, Status, Text};
use ygg_dimacs::{Cnf, read_cnf, solve_cnf};
use ygg_top_command::{CommandStop, budget, end, fetched};

/// The most bytes of a text of clauses.
const MOST_CLAUSE_BYTES: u64 = 67_108_864;

/// The clauses of the text that stands under the name, the first word after the command's; or why there are none: what stands there is refused 73 or 11 at
/// `0:1`, or 61 to 63 where it is no text of clauses.
fn clauses<L: Library>(alloc: Global, name: &Text, library: &mut L) -> Result<Cnf, CommandStop>
    ensures found { IfOk result (StandsClauses (L.files library.old) name.now) }
    ensures numbered { IfOk result (λ cnf. IsNumbered cnf.clauses) }
    ensures none { IfErr result (IsNoClauses (L.files library.old) name.now (Rose (L.faults library.old) (L.faults library.new))) }
    ensures kept { L.files library.new ≡ L.files library.old }
    ensures later { L.faults library.old ≤ L.faults library.new }
{
    let text = match fetched(name, MOST_CLAUSE_BYTES, 1, library) {
        Ok(text) => text,
        Err(stop) => return Err(stop),
    };
    match read_cnf(alloc, text.as_slice()) {
        Ok(cnf) => Ok(cnf),
        Err(refuse) => Err(CommandStop::of(refuse)),
    }
}

/// Solves the clauses of the text that stands under the name within a budget of learned clauses, and puts what comes of it: truth values that satisfy them, the
/// log that refutes them, or that the whole budget was spent. A text of clauses is refused 73 or 11 at `0:1`, or 61 to 63. Where no memory is left, a front of
/// what comes of it may have been put.
pub fn solve<L: Library, K: Sink>(
    alloc: Global,
    name: &Text,
    budget: u32,
    library: &mut L,
    sink: &mut K,
) -> Status
    requires { 0 < budget }
    ensures told { Told (DoesWith (Solves budget) (L.files library.old) name.now) (IsCutSolving (DoesWith (Solves budget) (L.files library.old) name.now))
        (K.taken sink.old) (K.taken sink.new) (Rose (L.faults library.old) (L.faults library.new)) (Rose (K.faults sink.old) (K.faults sink.new)) result }
    ensures kept { L.files library.new ≡ L.files library.old }
    ensures later_library { L.faults library.old ≤ L.faults library.new }
    ensures later_sink { K.faults sink.old ≤ K.faults sink.new }
{
    match clauses(alloc, name, library) {
        Ok(cnf) => solve_cnf(alloc, cnf, budget, sink),
        Err(stop) => end(alloc, stop, sink),
    }
}

/// The same within the budget that a word is, the second after the command's. Another word is refused 72 at `0:2`, before anything is fetched.
pub fn solve_within<L: Library, K: Sink>(
    alloc: Global,
    name: &Text,
    word: &Text,
    library: &mut L,
    sink: &mut K,
) -> Status
    ensures told { Told (DoesWithin Solves (L.files library.old) name.now word.now) (IsCutSolving (DoesWithin Solves (L.files library.old) name.now word.now))
        (K.taken sink.old) (K.taken sink.new) (Rose (L.faults library.old) (L.faults library.new)) (Rose (K.faults sink.old) (K.faults sink.new)) result }
    ensures kept { L.files library.new ≡ L.files library.old }
    ensures later_library { L.faults library.old ≤ L.faults library.new }
    ensures later_sink { K.faults sink.old ≤ K.faults sink.new }
{
    match budget(alloc, word.as_slice()) {
        Ok(budget) => solve(alloc, name, budget, library, sink),
        Err(stop) => end(alloc, stop, sink),
    }
}
