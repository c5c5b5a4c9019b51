//! The layers of a file put on one another, of which each number is a type of its own.

ghost use Rattle.std.specs.Prelude.{◌≤◌, length};
ghost use Rattle.ygg_base.specs.Outside.{Rose};
ghost use Rattle.ygg_run.specs.ygg_script.Fitting.{IsScriptOf};
ghost use Rattle.ygg_run.specs.ygg_run_play.Played.{Noted};
ghost use Rattle.ygg_run.specs.ygg_run_play.Playing.{IsPlayed};

use crate::building::{async_ground, raised, sync_ground};
use crate::playable::Playable;
use crate::staged::Staged;
use std::alloc::Global;
use ygg_base::{DiskKind, Sink};
use ygg_machine::Typed;
use ygg_run_play::{PlayHalted, Script, play_on};

/// How many layers there is room for.
trait Room {
    ghost use Rattle.std.specs.Prelude.{ℕ, ◌+◌, ◌<◌, ◌≤◌, length};
    ghost use Rattle.ygg_base.specs.Outside.{Rose};
    ghost use Rattle.ygg_run.specs.ygg_script.Fitting.{IsScriptOf};
    ghost use Rattle.ygg_run.specs.ygg_run_play.Played.{Noted};
    ghost use Rattle.ygg_run.specs.ygg_run_play.Playing.{IsPlayed};
    ghost use Rattle.ygg_run.specs.TowerPlaying.{IsUnwritten};

    /// So many.
    ghost most: { ℕ };

    /// Puts the layers of a file, from this place on, on those below, and plays a script on them all.
    fn play<W: Playable + Drop, K: Sink>(
        alloc: Global,
        typed: &Typed,
        place: u32,
        below: W,
        script: &Script,
        sink: &mut K,
    ) -> Result<(), PlayHalted>
        requires below { IsUnwritten W.seen.means typed.now.file place (W.seen.look below) }
        requires more { place < length typed.now.file.layers }
        requires room { length typed.now.file.layers ≤ place + most }
        requires script { IsScriptOf typed.now.file script.now }
        requires few { length script.now ≤ 4294967293 }
        ensures played { IsPlayed (Noted typed.now.file) typed.now.file script.now (K.taken sink.old) (K.taken sink.new)
            (Rose (K.faults sink.old) (K.faults sink.new)) result }
        ensures later { K.faults sink.old ≤ K.faults sink.new };
}

/// Room for one layer. It is a type alone, of which no value is made.
struct One;

/// Room for one layer more than another, a type alone too.
struct More<R: Room> {
    others: R,
}

impl Room for One {
    ghost most = { 1 };

    fn play<W: Playable + Drop, K: Sink>(
        alloc: Global,
        typed: &Typed,
        place: u32,
        below: W,
        script: &Script,
        sink: &mut K,
    ) -> Result<(), PlayHalted> {
        let mut layers = Staged {
            tower: raised(alloc, place, below),
        };
        play_on(alloc, &mut layers, typed, script, sink)
    }
}

impl<R: Room> Room for More<R> {
    ghost use Rattle.std.specs.Prelude.{suc};

    ghost most = { suc R.most };

    fn play<W: Playable + Drop, K: Sink>(
        alloc: Global,
        typed: &Typed,
        place: u32,
        below: W,
        script: &Script,
        sink: &mut K,
    ) -> Result<(), PlayHalted> {
        if place + 1 == typed.layers() {
            One::play(alloc, typed, place, below, script, sink)
        } else {
            R::play(
                alloc,
                typed,
                place + 1,
                raised(alloc, place, below),
                script,
                sink,
            )
        }
    }
}

/// Room for the eight layers that a file may have.
type Eight = More<More<More<More<More<More<More<One>>>>>>>;

/// Plays a script of a file on its layers over its disk in memory, and puts the lines as they come. A stop that isn't reached is refused 44 at its line, after
/// the lines before what it stops.
pub fn play_in_memory<K: Sink>(
    alloc: Global,
    typed: &Typed,
    script: &Script,
    sink: &mut K,
) -> Result<(), PlayHalted>
    requires script { IsScriptOf typed.now.file script.now }
    requires few { length script.now ≤ 4294967293 }
    ensures played { IsPlayed (Noted typed.now.file) typed.now.file script.now (K.taken sink.old) (K.taken sink.new)
        (Rose (K.faults sink.old) (K.faults sink.new)) result }
    ensures later { K.faults sink.old ≤ K.faults sink.new }
{
    match typed.geometry().kind {
        DiskKind::Sync => {
            let ground = sync_ground(alloc, typed)?;
            Eight::play(alloc, typed, 0, ground, script, sink)
        }
        DiskKind::Async => {
            let ground = async_ground(alloc, typed)?;
            Eight::play(alloc, typed, 0, ground, script, sink)
        }
    }
}
