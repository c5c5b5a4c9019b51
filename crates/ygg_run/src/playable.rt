//! Layers on a disk in memory.

use ygg_machine::{AsyncDisk, Floor, Ground, Grounded, SyncDisk, Viewed};

/// A disk in memory as a ground.
pub trait InMemory: Ground {
    ghost use Rattle.ygg_run.specs.TowerPlaying.{IsPlayable};

    /// It follows `power`, can lose it, and has no faults.
    ghost in_memory: { IsPlayable Self.means };
}

impl InMemory for SyncDisk {
    ghost use Rattle.ygg_base.specs.declared.geometry.DiskKind.TheVariants.{Sync};
    ghost use Rattle.ygg_run.specs.TowerPlaying.{disk_playable};

    ghost in_memory = { disk_playable Sync };
}

impl InMemory for AsyncDisk {
    ghost use Rattle.ygg_base.specs.declared.geometry.DiskKind.TheVariants.{Async};
    ghost use Rattle.ygg_run.specs.TowerPlaying.{disk_playable};

    ghost in_memory = { disk_playable Async };
}

/// Layers on one another, or none, on a disk in memory.
pub trait Playable: Viewed {
    ghost use Rattle.ygg_run.specs.TowerPlaying.{IsPlayable};

    /// The ground follows `power`, can lose it, and has no faults.
    ghost playable: { IsPlayable Self.seen.means };
}

impl<G: InMemory + Drop> Playable for Grounded<G> {
    ghost playable = { G.in_memory };
}

impl<W: Playable + Drop> Playable for Floor<W> {
    ghost playable = { W.playable };
}
