//! Where the runs of an obligation end.

ghost use Rattle.std.specs.Prelude.{◌≡◌, ◌++◌, OnOk};
ghost use Rattle.ygg_replay.specs.Sites.{IsHere, state_at};
ghost use Rattle.ygg_explain.specs.Told.{answer_lines, reached_lines, settled_lines};

use crate::environments::{below, named};
use crate::lines::put_lines;
use std::alloc::Global;
use ygg_base::{NoMemory, Text};
use ygg_replay::ReplaySite;
use ygg_sched::{CaseKind, put_value};
use ygg_syntax::lists;
use ygg_value::{Value, Values};

/// Adds the line of an answer, where there is one. Its only error is out of memory.
fn put_answer(alloc: Global, out: &mut Text, answer: &Option<Value>) -> Result<(), NoMemory>
    ensures { OnOk result (out.new ≡ out.old ++ answer_lines answer.now) }
{
    let Some(value) = answer else {
        return Ok(());
    };
    out.extend_from_slice(b"answer ")?;
    put_value(alloc, out, value)?;
    out.push(b'\n')
}

/// Adds memory and machine below where the runs end, and the answer. Its only error is out of memory.
pub fn put_reached(
    site: &ReplaySite<'_>,
    out: &mut Text,
    memory: &Values,
    low: &Values,
    answer: &Option<Value>,
) -> Result<(), NoMemory>
    requires { IsHere site.now }
    ensures { OnOk result (out.new ≡ out.old ++ reached_lines (state_at site.now memory.now low.now) answer.now) }
{
    let declared = lists::declared::as_slice(&site.layer.memory);
    let kept = named(site.alloc, declared, memory.as_slice())?;
    put_lines(site.alloc, out, b"reached memory ", kept.as_slice())?;
    let base = below(site.alloc, site.typed, site.place, low.as_slice())?;
    put_lines(site.alloc, out, b"reached ", base.as_slice())?;
    put_answer(site.alloc, out, answer)
}

/// Adds whether what power left is settled, of a run that power cuts and the recovery after it. Its only error is out of memory.
pub fn put_settled(out: &mut Text, kind: CaseKind, side: bool) -> Result<(), NoMemory>
    ensures { OnOk result (out.new ≡ out.old ++ settled_lines kind side) }
{
    match kind {
        CaseKind::Cut | CaseKind::CutTick | CaseKind::Idle => {
            if side {
                out.extend_from_slice(b"settled\n")
            } else {
                out.extend_from_slice(b"unsettled\n")
            }
        }
        CaseKind::Init | CaseKind::Call | CaseKind::Tick | CaseKind::Again => Ok(()),
    }
}
