//! Towers as they are seen from above: by their ground, and the memories of their layers.

use crate::floor::Floor;
use crate::tower::Tower;
use ygg_eval::{Power, Turn, Typed};
use ygg_list::NoMemory;
use ygg_value::Values;

/// A tower that is seen as layers on a ground.
pub trait Viewed: Tower {
    ghost use Rattle.ygg_machine.specs.Viewed.{Seen, IsSeen};

    /// Its ground, and how it looks.
    ghost seen: { Seen Self };

    /// It is what is seen of it.
    ghost sees: { IsSeen Self.means Self.rooted Self.stands seen };
}

ghost use Rattle.std.specs.Prelude.{◌≡◌, ◌<◌, IsTrue, IsSome, Some, None, slice_get};
ghost use Rattle.ygg_eval.specs.ygg_type_rules.declared.scope.Signature.{Signature};
ghost use Rattle.ygg_eval.specs.ygg_meaning.Environments.{Name};
ghost use Rattle.ygg_eval.specs.ygg_meaning.Machine.{TickName};
ghost use Rattle.ygg_eval.specs.Layers.{signatures_at};
ghost use Rattle.ygg_eval.specs.Lower.{AfterWhole, IsCallable, ending_of};
ghost use Rattle.ygg_machine.specs.Commands.{calling, ticking, waking, IsTickAt, HasTick};
ghost use Rattle.ygg_machine.specs.Bottoms.{ViewStands, ViewRuns, ViewEnds, StillLooks, LosesAll, formats};
ghost use Rattle.ygg_machine.specs.Viewed.{floor_seen};

/// Formats all layers, the lowest first.
pub fn format<T: Viewed>(tower: &mut T, typed: &Typed, power: &mut Power) -> Result<Turn, NoMemory>
    requires stands { ViewStands T.seen.means typed.now.file (T.seen.look tower.old) }
    requires fuse { power.old.fuse ≡ None }
    ensures ends { ViewEnds T.seen.means typed.now.file (formats T.seen.means typed.now.file (T.seen.look tower.old)) (ending_of result)
        (T.seen.look tower.old) power.old (T.seen.look tower.new) power.new }
    ensures runs { AfterWhole (ending_of result) (ViewRuns T.seen.means typed.now.file (T.seen.look tower.new)) }
    ensures looks { StillLooks T.seen.means typed.now.file (T.seen.look tower.old) (T.seen.look tower.new) }
{
    tower.format(typed, power)
}

/// Calls an operation of the topmost layer, by its place there.
pub fn call<W: Viewed + Drop>(
    tower: &mut Floor<W>,
    typed: &Typed,
    op: u32,
    args: &Values,
    power: &mut Power,
) -> Result<Turn, NoMemory>
    requires runs { ViewRuns W.seen.means typed.now.file ((floor_seen W.seen).look tower.old) }
    requires fuse { IsSome power.old.fuse → IsTrue W.seen.means.can_lose }
    requires operation { IsCallable (signatures_at typed.now.file ((floor_seen W.seen).look tower.old).height) op args.now }
    ensures ends { (name : Name) (o : Signature) →
        slice_get (signatures_at typed.now.file ((floor_seen W.seen).look tower.old).height) op ≡ Some (name, o) →
        ViewEnds W.seen.means typed.now.file (calling name args.now) (ending_of result) ((floor_seen W.seen).look tower.old) power.old
        ((floor_seen W.seen).look tower.new) power.new }
    ensures runs { AfterWhole (ending_of result) (ViewRuns W.seen.means typed.now.file ((floor_seen W.seen).look tower.new)) }
    ensures looks { StillLooks W.seen.means typed.now.file ((floor_seen W.seen).look tower.old) ((floor_seen W.seen).look tower.new) }
{
    tower.operate(typed, op, args, power)
}

/// Makes a background step of one of the layers, by its place there. Layers count from 0, the bottom one.
pub fn tick<T: Viewed>(
    tower: &mut T,
    typed: &Typed,
    layer: u32,
    number: u32,
    power: &mut Power,
) -> Result<Turn, NoMemory>
    requires runs { ViewRuns T.seen.means typed.now.file (T.seen.look tower.old) }
    requires fuse { IsSome power.old.fuse → IsTrue T.seen.means.can_lose }
    requires layer { layer < (T.seen.look tower.old).height }
    requires tick { HasTick typed.now.file layer number }
    ensures ends { (name : TickName) → IsTickAt typed.now.file layer number name →
        ViewEnds T.seen.means typed.now.file (ticking name) (ending_of result) (T.seen.look tower.old) power.old (T.seen.look tower.new) power.new }
    ensures runs { AfterWhole (ending_of result) (ViewRuns T.seen.means typed.now.file (T.seen.look tower.new)) }
    ensures looks { StillLooks T.seen.means typed.now.file (T.seen.look tower.old) (T.seen.look tower.new) }
{
    tower.tick(typed, layer, number, power)
}

/// Wakes all layers after power failed, the lowest first.
pub fn wake<T: Viewed>(tower: &mut T, typed: &Typed, power: &mut Power) -> Result<Turn, NoMemory>
    requires stands { ViewStands T.seen.means typed.now.file (T.seen.look tower.old) }
    requires fuse { IsSome power.old.fuse → IsTrue T.seen.means.can_lose }
    ensures ends { ViewEnds T.seen.means typed.now.file waking (ending_of result) (T.seen.look tower.old) power.old (T.seen.look tower.new) power.new }
    ensures runs { AfterWhole (ending_of result) (ViewRuns T.seen.means typed.now.file (T.seen.look tower.new)) }
    ensures looks { StillLooks T.seen.means typed.now.file (T.seen.look tower.old) (T.seen.look tower.new) }
{
    tower.wake(typed, power)
}

/// Power fails between commands. It takes no memory.
pub fn lose<T: Viewed>(tower: &mut T)
    requires can { IsTrue T.seen.means.can_lose }
    ensures lost { LosesAll T.seen.means (T.seen.look tower.old) (T.seen.look tower.new) }
{
    tower.lose_power();
}
