//! Each list of the specification's picks, with the state that it gives, and what is stated of that state and the one reached.

ghost use Rattle.std.specs.Prelude.{◌≡◌, ◌+◌, ◌<◌, ◌∷◌, ◌++◌, [], IfOk, OnOk, codes, length, map};
ghost use Rattle.ygg_syntax.specs.Choices.{choices_of};
ghost use Rattle.ygg_sched.specs.ygg_syntax.Budget.{limit};
ghost use Rattle.ygg_replay.specs.ygg_meaning.Obligations.{Obligation, fall_picks};
ghost use Rattle.ygg_replay.specs.ygg_meaning.Machine.{Picks};
ghost use Rattle.ygg_replay.specs.ygg_meaning.Replayed.{pick_lists};
ghost use Rattle.ygg_replay.specs.ygg_meaning.Violates.{most};
ghost use Rattle.ygg_replay.specs.Sites.{IsHere, closed_in};
ghost use Rattle.ygg_sched.specs.declared.case.CaseKind.TheVariants as kind;
ghost use Rattle.ygg_sched.specs.Printing.{bits_line};
ghost use Rattle.ygg_explain.specs.Parts.{Adds};
ghost use Rattle.ygg_explain.specs.Sites.{AllChoicesIn, AreAll, CanTell, ChoiceIn, ChoicesIn, IsOf};
ghost use Rattle.ygg_explain.specs.Told.{answers_lines, compared_lines, is_again};

use crate::environments::named;
use crate::formulas::put_relation;
use crate::lines::{put_both, put_lines};
use std::alloc::Global;
use ygg_base::{Bits, NoMemory, Text};
use ygg_replay::ReplaySite;
use ygg_report::put_bits;
use ygg_sched::{Case, CaseKind, Schedule, choices};
use ygg_syntax::lists;
use ygg_syntax::tree::{Block, Operation};
use ygg_value::{Value, Values, same};

/// From how many choices on a block has more than the count tells.
const LIMIT: u64 = 1_000_000;

/// How many choices a block makes at most. No machine has memory for all lists of a million picks.
fn count(block: &Block) -> Result<u64, NoMemory>
    ensures exact { IfOk result (λ n. n ≡ choices_of block.now) }
    ensures small { IfOk result (λ n. n < limit) }
{
    let n = choices(block);
    if n == LIMIT {
        return Err(NoMemory);
    }
    Ok(n)
}

/// How many picks an operation that power has cut takes at most.
fn most_in_fall(site: &ReplaySite<'_>, operation: &Operation) -> Result<u64, NoMemory>
    ensures { IfOk result (λ n. n ≡ fall_picks site.now.layer.now operation.now) }
{
    let crash = count(&site.layer.crash)?;
    match &operation.on_crash {
        Some(block) => Ok(count(block)? + crash),
        None => Ok(1 + count(&operation.spec)? + crash),
    }
}

/// How many picks the specification's step of an obligation takes at most.
fn most(site: &ReplaySite<'_>, case: Case) -> Result<u64, NoMemory>
    requires { (o : Obligation) × IsOf site.now case o }
    ensures { IfOk result (λ n. (o : Obligation) → IsOf site.now case o → n ≡ most (closed_in site.now) o) }
{
    match case.kind {
        CaseKind::Init | CaseKind::Tick | CaseKind::Again => Ok(0),
        CaseKind::Call => count(
            &lists::operation::as_slice(&site.layer.operations)[case.number as usize].spec,
        ),
        CaseKind::Cut => most_in_fall(
            site,
            &lists::operation::as_slice(&site.layer.operations)[case.number as usize],
        ),
        CaseKind::CutTick | CaseKind::Idle => count(&site.layer.crash),
    }
}

/// What the specification's picks are told for: the obligation, its schedule, and where its runs have ended: with an answer, if they give one, in a
/// memory over a machine below, and on the side whether what power left is settled.
#[derive(Clone, Copy)]
pub struct Asking<'s> {
    pub case: Case,
    pub schedule: &'s Schedule,
    pub answer: &'s Option<Value>,
    pub memory: &'s Values,
    pub low: &'s Values,
    pub side: bool,
}

/// Adds whether two answers are the same, the specification's first. Its only error is out of memory.
fn put_compared(
    alloc: Global,
    out: &mut Text,
    given: &Value,
    wanted: &Value,
) -> Result<(), NoMemory>
    ensures { OnOk result (out.new ≡ out.old ++ compared_lines given.now wanted.now) }
{
    if same(given, wanted) {
        out.extend_from_slice(b"true answer")?;
    } else {
        out.extend_from_slice(b"false answer")?;
    }
    put_both(alloc, out, wanted, given)?;
    out.push(b'\n')
}

/// Adds the same of an operation that gives an answer. Its only error is out of memory.
fn put_answers(
    alloc: Global,
    out: &mut Text,
    kind: CaseKind,
    given: &Option<Value>,
    wanted: &Option<Value>,
) -> Result<(), NoMemory>
    ensures { OnOk result (out.new ≡ out.old ++ answers_lines kind given.now wanted.now) }
{
    match (kind, given, wanted) {
        (CaseKind::Call, Some(given), Some(wanted)) => put_compared(alloc, out, given, wanted),
        _ => Ok(()),
    }
}

/// Adds the line of picks. Its only error is out of memory.
fn put_line(alloc: Global, out: &mut Text, picks: &[bool]) -> Result<(), NoMemory>
    ensures { OnOk result (out.new ≡ out.old ++ bits_line (codes "picks ") picks.now) }
{
    out.extend_from_slice(b"picks ")?;
    let bits = Bits::from_slice(alloc, picks)?;
    put_bits(out, &bits)?;
    out.push(b'\n')
}

/// Adds what is told of one list of picks. Its only error is out of memory.
fn put_choice(
    site: &ReplaySite<'_>,
    out: &mut Text,
    asking: Asking<'_>,
    picks: &[bool],
) -> Result<(), NoMemory>
    requires here { IsHere site.now }
    requires can { CanTell site.now asking }
    requires steps { ¬ (asking.case.kind ≡ kind.Again) }
    requires all { AreAll site.now asking (length picks.now) }
    ensures { OnOk result (Adds (ChoiceIn site.now asking.entry picks.now) out.old out.new) }
{
    let Asking {
        case,
        schedule,
        answer,
        memory,
        low,
        side: _,
    } = asking;
    let outcome = site.outcome(case.kind, case.number, schedule, picks)?;
    put_line(site.alloc, out, picks)?;
    let declared = lists::declared::as_slice(&site.layer.state);
    let allowed = named(site.alloc, declared, outcome.after.state().as_slice())?;
    put_lines(site.alloc, out, b"allowed ", allowed.as_slice())?;
    put_answers(site.alloc, out, case.kind, answer, &outcome.answer)?;
    put_relation(site, out, outcome.after.state(), memory, low)
}

/// One pick more. Its only error is out of memory.
fn more_picks(alloc: Global, picks: &[bool], pick: bool) -> Result<Vec<bool>, NoMemory>
    ensures { IfOk result (λ more. more.items ≡ picks.now ++ pick ∷ []) }
{
    let mut more = Vec::from_slice(alloc, picks)?;
    more.push(pick)?;
    Ok(more)
}

/// Adds what is told of each list of picks that begins so and goes on with so many. Its only error is out of memory.
fn put_after(
    site: &ReplaySite<'_>,
    out: &mut Text,
    asking: Asking<'_>,
    left: u64,
    before: &[bool],
) -> Result<(), NoMemory>
    requires here { IsHere site.now }
    requires can { CanTell site.now asking }
    requires steps { ¬ (asking.case.kind ≡ kind.Again) }
    requires all { AreAll site.now asking (length before.now + left) }
    ensures { OnOk result (Adds (ChoicesIn site.now asking.entry (map (λ (picks : Picks). before.now ++ picks) (pick_lists left))) out.old out.new) }
{
    if left == 0 {
        return put_choice(site, out, asking, before);
    }
    let without = more_picks(site.alloc, before, false)?;
    put_after(site, out, asking, left - 1, without.as_slice())?;
    let chosen = more_picks(site.alloc, before, true)?;
    put_after(site, out, asking, left - 1, chosen.as_slice())
}

/// Whether two recoveries are asked for.
fn is_again(kind: CaseKind) -> bool
    ensures { result ≡ is_again kind }
{
    match kind {
        CaseKind::Again => true,
        _ => false,
    }
}

/// Adds what is told of each list of the specification's picks, of which two recoveries have none. Its only error is out of memory.
pub fn put_allowed(
    site: &ReplaySite<'_>,
    out: &mut Text,
    asking: Asking<'_>,
) -> Result<(), NoMemory>
    requires here { IsHere site.now }
    requires can { CanTell site.now asking }
    ensures { OnOk result (Adds (AllChoicesIn site.now asking.entry) out.old out.new) }
{
    if is_again(asking.case.kind) {
        return Ok(());
    }
    let count = most(site, asking.case)?;
    put_after(site, out, asking, count, &[])
}
