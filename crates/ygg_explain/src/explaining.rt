//! From the text of a schedule to the text that explains it.

ghost use Rattle.std.specs.Prelude.{◌≡◌, ◌≤◌, ◌++◌, IfOk, OnOk, codes, length};
ghost use Rattle.ygg_replay.specs.ygg_sched.Fitting.{IsScheduleOf};
ghost use Rattle.ygg_replay.specs.ygg_sched.Printing.{value_lines, variable_lines};
ghost use Rattle.ygg_replay.specs.ygg_sched.Sites.{low_lines, site_in};
ghost use Rattle.ygg_replay.specs.Ending.{line_of, status_of};
ghost use Rattle.ygg_replay.specs.Schedules.{IsAsked, IsShown, shown_by};
ghost use Rattle.ygg_replay.specs.Showing.{CanShow, ShowsHere};
ghost use Rattle.ygg_replay.specs.Sites.{IsHere};
ghost use Rattle.ygg_explain.specs.Ending.{Explaining, IsExplainedOf, first_lines};
ghost use Rattle.ygg_explain.specs.Parts.{Adds};
ghost use Rattle.ygg_explain.specs.Sites.{FalseIn, IsToldOf, MeetsIn, TellsIn, ToldIn};

use crate::allowed::{Asking, put_allowed};
use crate::environments::{named, tables};
use crate::formulas::{put_false_relation, put_false_settled};
use crate::lines::put_lines;
use crate::reached::{put_reached, put_settled};
use std::alloc::Global;
use ygg_base::{NoMemory, Refuse, Status, Text};
use ygg_replay::{
    ReplaySite, Replayed, Schedule, Typed, holds_with, hypothesis, read_schedule, refused, replay,
    shows,
};
use ygg_sched::{Case, CaseKind, Claim, Low, claim_named};
use ygg_syntax::lists;
use ygg_syntax::tree::Declared;
use ygg_value::Value;

/// Adds the lines of the variables that `low` names. Its only error is out of memory.
fn put_low(
    alloc: Global,
    out: &mut Text,
    claim: Claim<'_>,
    schedule: &Schedule,
) -> Result<(), NoMemory>
    ensures { OnOk result (out.new ≡ out.old ++ variable_lines (codes "low ") (low_lines (site_in claim.entry)) schedule.now.low) }
{
    match claim.low() {
        Low::Disk(disk) => {
            let env = tables(alloc, disk, schedule.low.as_slice())?;
            put_lines(alloc, out, b"low ", env.as_slice())
        }
        Low::Variables(declared) => {
            let env = named(alloc, declared, schedule.low.as_slice())?;
            put_lines(alloc, out, b"low ", env.as_slice())
        }
    }
}

/// Adds the lines of variables. Its only error is out of memory.
fn put_variables(
    alloc: Global,
    out: &mut Text,
    word: &[u8],
    declared: &[Declared],
    values: &[Value],
) -> Result<(), NoMemory>
    ensures { OnOk result (out.new ≡ out.old ++ variable_lines word.now declared.now values.now) }
{
    let env = named(alloc, declared, values)?;
    put_lines(alloc, out, word, env.as_slice())
}

/// Adds the lines of values. Its only error is out of memory.
fn put_values(
    alloc: Global,
    out: &mut Text,
    claim: Claim<'_>,
    schedule: &Schedule,
) -> Result<(), NoMemory>
    ensures { OnOk result (out.new ≡ out.old ++ value_lines (site_in claim.entry) schedule.now) }
{
    put_variables(
        alloc,
        out,
        b"state ",
        claim.state(),
        schedule.state.as_slice(),
    )?;
    put_variables(
        alloc,
        out,
        b"memory ",
        claim.memory(),
        schedule.memory.as_slice(),
    )?;
    put_low(alloc, out, claim, schedule)?;
    put_variables(
        alloc,
        out,
        b"arg ",
        claim.arguments(),
        schedule.args.as_slice(),
    )
}

/// The first lines: the obligation, and the schedule's values. Its only error is out of memory.
fn first(alloc: Global, claim: Claim<'_>, schedule: &Schedule) -> Result<Text, NoMemory>
    ensures { IfOk result (λ text. text ≡ first_lines (site_in claim.entry) schedule.now) }
{
    let mut out = Text::from_slice(alloc, b"ygg-explain 1\nobligation ")?;
    out.extend_from_slice(schedule.name.as_slice())?;
    out.push(b'\n')?;
    put_values(alloc, &mut out, claim, schedule)?;
    Ok(out)
}

/// Adds the false parts of the hypothesis on the first states with this number, if there is one. Its only error is out of memory.
fn put_false(
    site: &ReplaySite<'_>,
    out: &mut Text,
    case: Case,
    schedule: &Schedule,
    number: u32,
) -> Result<(), NoMemory>
    requires here { IsHere site.now }
    requires can { CanShow site.now case schedule.now }
    ensures { OnOk result (Adds (FalseIn site.now case schedule.now number) out.old out.new) }
{
    match case.kind {
        CaseKind::Init => Ok(()),
        CaseKind::Call | CaseKind::Cut | CaseKind::Tick | CaseKind::CutTick | CaseKind::Idle => {
            put_false_relation(
                site,
                out,
                number as usize,
                &schedule.state,
                &schedule.memory,
                &schedule.low,
            )
        }
        CaseKind::Again => put_false_settled(site, out, number as usize, &schedule.low),
    }
}

/// Adds where the runs end of a schedule that meets its hypotheses, and what the specification may do. Its only error is out of memory.
fn put_ends(
    site: &ReplaySite<'_>,
    out: &mut Text,
    case: Case,
    schedule: &Schedule,
) -> Result<(), NoMemory>
    requires here { IsHere site.now }
    requires can { CanShow site.now case schedule.now }
    requires meets { MeetsIn site.now case schedule.now }
    ensures { OnOk result (Adds (TellsIn site.now case schedule.now) out.old out.new) }
{
    let Some(end) = site.reached(case.kind, case.number, schedule)? else {
        unreachable!();
    };
    let asking = Asking {
        case,
        schedule,
        answer: &end.answer,
        memory: &end.memory,
        low: end.lower.state(),
        side: end.side,
    };
    put_settled(out, case.kind, asking.side)?;
    put_reached(site, out, asking.memory, asking.low, asking.answer)?;
    put_allowed(site, out, asking)
}

/// Adds what is told of a schedule that shows this. Its only error is out of memory.
fn put_told(
    site: &ReplaySite<'_>,
    out: &mut Text,
    case: Case,
    schedule: &Schedule,
    answer: &Replayed,
) -> Result<(), NoMemory>
    requires here { IsHere site.now }
    requires can { CanShow site.now case schedule.now }
    requires shows { ShowsHere site.now case schedule.now answer.now }
    ensures { OnOk result (Adds (ToldIn site.now case schedule.now answer.now) out.old out.new) }
{
    match answer {
        Replayed::Shows => put_ends(site, out, case, schedule),
        Replayed::Hypothesis(number) => put_false(site, out, case, schedule, *number),
        Replayed::Holds(_) => put_ends(site, out, case, schedule),
    }
}

/// The status of what is shown.
fn status_of(answer: &Replayed) -> Status
    ensures { result ≡ status_of (shown_by answer.now) }
{
    match answer {
        Replayed::Shows => Status::Refuted,
        Replayed::Hypothesis(_) | Replayed::Holds(_) => Status::Refused,
    }
}

/// The line of what is shown of the obligation of a name. Its only error is out of memory.
fn line_of(alloc: Global, name: &Text, answer: &Replayed) -> Result<Text, NoMemory>
    ensures { IfOk result (λ line. line ≡ line_of name.now (shown_by answer.now)) }
{
    match answer {
        Replayed::Shows => shows(alloc, name),
        Replayed::Hypothesis(number) => hypothesis(alloc, *number),
        Replayed::Holds(picks) => holds_with(alloc, picks),
    }
}

/// Adds what is told of a schedule of an obligation of a file that shows this. Its only error is out of memory.
fn put_case(
    alloc: Global,
    typed: &Typed,
    out: &mut Text,
    case: Case,
    schedule: &Schedule,
    answer: &Replayed,
) -> Result<(), NoMemory>
    requires asked { IsAsked typed.now.file case schedule.now }
    requires shown { IsShown typed.now.file case schedule.now answer.now }
    ensures { OnOk result (Adds (IsToldOf typed.now.file case schedule.now answer.now) out.old out.new) }
{
    let Some(layer) = lists::layer::get(&typed.file().layers, case.layer as usize) else {
        unreachable!();
    };
    let site = ReplaySite {
        alloc,
        typed,
        place: case.layer,
        layer,
    };
    put_told(&site, out, case, schedule, answer)
}

/// How the explanation of a schedule of a file ends. Its only error is out of memory.
fn explained(alloc: Global, typed: &Typed, schedule: &Schedule) -> Result<(Status, Text), NoMemory>
    requires { IsScheduleOf typed.now.file schedule.now }
    ensures { IfOk result (λ end. IsExplainedOf typed.now.file schedule.now end.0 end.1) }
{
    let Some(claim) = claim_named(typed.file(), schedule.name.as_slice()) else {
        unreachable!();
    };
    let case = claim.case()?;
    let answer = replay(alloc, typed, case, schedule)?;
    let mut out = first(alloc, claim, schedule)?;
    put_case(alloc, typed, &mut out, case, schedule, &answer)?;
    let line = line_of(alloc, &schedule.name, &answer)?;
    out.extend_from_slice(line.as_slice())?;
    Ok((status_of(&answer), out))
}

/// Explains the text of a schedule for a file. A text that is no schedule of the file is refused 31 to 34 at its first line that is at fault; else it is told
/// where the runs end that the obligation speaks of, and what the specification may do with each list of its picks, part by part of the relation; or the
/// false parts of the first hypothesis on the first states that is false. The last line is that of the replay, and so is the status. Its only error is
/// out of memory.
pub fn explain_text(alloc: Global, typed: &Typed, text: &[u8]) -> Result<(Status, Text), NoMemory>
    requires { length text.now ≤ 67108864 }
    ensures { IfOk result (λ end. Explaining typed.now.file text.now end.0 end.1) }
{
    let schedule = match read_schedule(alloc, text, typed) {
        Ok(schedule) => schedule,
        Err(Refuse::At(at)) => return Ok((Status::Refused, refused(alloc, at)?)),
        Err(Refuse::Memory) => return Err(NoMemory),
    };
    explained(alloc, typed, &schedule)
}
