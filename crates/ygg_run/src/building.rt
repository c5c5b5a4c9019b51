//! Layers that are neither formatted nor woken yet, on disks of zeros.

ghost use Rattle.std.specs.Prelude.{◌≡◌, suc, IfOk, []};
ghost use Rattle.ygg_base.specs.declared.geometry.DiskKind.TheVariants.{Async, Sync};
ghost use Rattle.ygg_syntax.specs.declared.tree.File.{File};
ghost use Rattle.ygg_machine.specs.ygg_disk.Meanings.{disk_meaning};
ghost use Rattle.ygg_machine.specs.Viewed.{floor_seen};
ghost use Rattle.ygg_run.specs.TowerPlaying.{IsUnwritten, bare};

use crate::playable::Playable;
use std::alloc::Global;
use ygg_list::NoMemory;
use ygg_machine::{AsyncDisk, Floor, Grounded, SyncDisk, Typed, fresh_async, fresh_sync};

/// The synchronous disk of a file, of zeros, as a ground. Its only error is out of memory.
pub fn sync_ground(alloc: Global, typed: &Typed) -> Result<Grounded<SyncDisk>, NoMemory>
    requires { typed.now.file.disk.kind ≡ Sync }
    ensures { IfOk result (λ disk. IsUnwritten (disk_meaning Sync) typed.now.file 0 (bare disk)) }
{
    let ground = fresh_sync(alloc, typed.geometry())?;
    Ok(Grounded { ground })
}

/// The asynchronous disk of a file, of zeros, as a ground. Its only error is out of memory.
pub fn async_ground(alloc: Global, typed: &Typed) -> Result<Grounded<AsyncDisk>, NoMemory>
    requires { typed.now.file.disk.kind ≡ Async }
    ensures { IfOk result (λ disk. IsUnwritten (disk_meaning Async) typed.now.file 0 (bare disk)) }
{
    let ground = fresh_async(alloc, typed.geometry())?;
    Ok(Grounded { ground })
}

/// One more layer of a file on layers, or on a ground, of which there are as many as its place says. It takes no memory.
pub fn raised<W: Playable + Drop>(alloc: Global, place: u32, below: W) -> Floor<W>
    requires { (W.seen.look below).height ≡ place }
    ensures { (f : File) → IsUnwritten W.seen.means f place (W.seen.look below) →
        IsUnwritten W.seen.means f (suc place) ((floor_seen W.seen).look result) }
{
    Floor::asleep(alloc, place, below)
}
