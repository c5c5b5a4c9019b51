//! What a layer's author states of states, part by part.

ghost use Rattle.std.specs.Prelude.{◌≡◌, [], OnOk, codes, slice_get};
ghost use Rattle.ygg_sched.specs.ygg_type_rules.Files.{IsTyped};
ghost use Rattle.ygg_eval.specs.ygg_meaning.Related.{relations};
ghost use Rattle.ygg_eval_expr.specs.Held.{env_of};
ghost use Rattle.ygg_replay.specs.Sites.{IsHere, LowFits, StatesFit, closed_in, file_of, low_at, memory_at, vars_at};
ghost use Rattle.ygg_explain.specs.Parts.{Adds};
ghost use Rattle.ygg_explain.specs.Told.{AreFalseOf, IsRelation, relation_word, scope_at};
ghost use Rattle.ygg_explain.specs.Views.{known_in};

use crate::environments::{below, own};
use crate::parts::View;
use ygg_base::{NoMemory, Text};
use ygg_eval::Binding;
use ygg_replay::ReplaySite;
use ygg_syntax::lists;
use ygg_value::Values;

/// What the formulas of a layer are evaluated with, where names stand for these values.
fn seen<'a, 'n, 'v>(
    site: &ReplaySite<'a>,
    own: &'n [Binding<'a, 'v>],
    low: &'n [Binding<'a, 'v>],
) -> View<'a, 'n, 'v>
    ensures known { known_in result ≡ record { defs = (file_of site.now).defs; own = env_of own.now; low = env_of low.now } }
    ensures typed { IsTyped (file_of site.now) }
{
    View {
        alloc: site.alloc,
        defs: lists::def::as_slice(&site.typed.file().defs),
        own,
        low,
    }
}

/// Adds the parts of the layer's `relate`, and of each `always`. Its only error is out of memory.
pub fn put_relation(
    site: &ReplaySite<'_>,
    out: &mut Text,
    state: &Values,
    memory: &Values,
    low: &Values,
) -> Result<(), NoMemory>
    requires here { IsHere site.now }
    requires fits { StatesFit site.now state.now memory.now low.now }
    ensures { OnOk result (Adds (IsRelation (closed_in site.now) (vars_at site.now state.now) (memory_at site.now memory.now) (low_at site.now low.now))
        out.old out.new) }
{
    let own = own(site.alloc, site.layer, state.as_slice(), memory.as_slice())?;
    let low = below(site.alloc, site.typed, site.place, low.as_slice())?;
    let view = seen(site, own.as_slice(), low.as_slice());
    view.put_parts(out, true, b"relate", &site.layer.relate)?;
    view.put_all_parts(
        out,
        true,
        b"always",
        lists::expr::as_slice(&site.layer.always),
    )
}

/// Adds the false parts of the layer's `relate`, for number 0, or of the `always` expression before the number. Its only error is out of memory.
pub fn put_false_relation(
    site: &ReplaySite<'_>,
    out: &mut Text,
    number: usize,
    state: &Values,
    memory: &Values,
    low: &Values,
) -> Result<(), NoMemory>
    requires here { IsHere site.now }
    requires fits { StatesFit site.now state.now memory.now low.now }
    ensures { OnOk result (Adds (AreFalseOf (closed_in site.now) (relation_word number) (scope_at (vars_at site.now state.now)
        (memory_at site.now memory.now) (low_at site.now low.now)) (slice_get (relations (closed_in site.now)) number)) out.old out.new) }
{
    let own = own(site.alloc, site.layer, state.as_slice(), memory.as_slice())?;
    let low = below(site.alloc, site.typed, site.place, low.as_slice())?;
    let view = seen(site, own.as_slice(), low.as_slice());
    if number == 0 {
        return view.put_parts(out, false, b"relate", &site.layer.relate);
    }
    match lists::expr::nth(&site.layer.always, number - 1) {
        Some(e) => view.put_parts(out, false, b"always", e),
        None => Ok(()),
    }
}

/// Adds the false parts of the layer's `settled` expression with the number. Its only error is out of memory.
pub fn put_false_settled(
    site: &ReplaySite<'_>,
    out: &mut Text,
    number: usize,
    low: &Values,
) -> Result<(), NoMemory>
    requires here { IsHere site.now }
    requires fits { LowFits site.now low.now }
    ensures { OnOk result (Adds (AreFalseOf (closed_in site.now) (codes "settled") (scope_at [] [] (low_at site.now low.now))
        (slice_get site.now.layer.now.settled number)) out.old out.new) }
{
    let low = below(site.alloc, site.typed, site.place, low.as_slice())?;
    let view = seen(site, &[], low.as_slice());
    match lists::expr::nth(&site.layer.settled, number) {
        Some(e) => view.put_parts(out, false, b"settled", e),
        None => Ok(()),
    }
}
