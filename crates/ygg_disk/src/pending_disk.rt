ghost use Rattle.std.specs.Prelude.{◌≡◌, ◌≢◌, [], ◌∷◌, IfOk};
ghost use Rattle.ygg_value.specs.Shapes.{IsShape};
ghost use Rattle.ygg_disk.specs.Disk.{Write};
ghost use Rattle.ygg_disk.specs.Size.{table_shape, row_shape, zeros_of, IsRowOf};
ghost use Rattle.ygg_disk.specs.Marked.{marked_flushed, marked_lost, marked_loses, marked_falls};

use crate::fate::Fate;
use crate::ground::Ground;
use crate::power::Power;
use crate::rows::zero_table;
use crate::turn::Turn;
use crate::waiting::{Waiting, apply_all, apply_kept, read_through, room_for, wait};
use std::alloc::Global;
use std::marker::Model;
use ygg_base::{DiskKind, Geometry};
use ygg_list::NoMemory;
use ygg_value::{Row, Table, Value, Word, table_write};

/// A disk with a write-back cache in memory, which contracts see as its stable rows and its pending writes with their marks.
/// The mark of a write is its pick, which says whether the next power loss keeps it.
pub struct PendingDisk {
    alloc: Global,
    geometry: Geometry,
    stable: Table,
    // the oldest first
    waiting: Vec<Waiting>,
}

impl Drop for PendingDisk {
    fn drop(self) {
        let PendingDisk {
            alloc: _,
            geometry: _,
            stable,
            waiting,
        } = self;
        drop(stable);
        drop(waiting);
    }
}

impl Model for PendingDisk {
    ghost use Rattle.std.specs.Prelude.{All};
    ghost use Rattle.ygg_disk.specs.Marked.{MarkedCache};
    ghost use Rattle.ygg_disk.specs.Waiting.{marked};
    ghost use Rattle.ygg_disk.specs.Size.{HasSize};
    ghost use Rattle.ygg_disk.specs.Rows.{IsDiskRow};

    ghost Value = { MarkedCache };

    ghost view = { λ d. record { stable = d.stable; writes = marked d.waiting.items } };

    ghost invariant = { λ d. HasSize d.geometry d.stable × All (λ w. IsDiskRow d.geometry w.row) d.waiting.items };
}

/// A disk of zeros with a write-back cache, without pending writes. Its only error is out of memory.
pub fn fresh_pending(alloc: Global, geometry: Geometry) -> Result<PendingDisk, NoMemory>
    requires size { IsShape (table_shape geometry) }
    requires kind { geometry.kind ≢ DiskKind.Sync }
    ensures { IfOk result (λ disk. disk ≡ record { stable = zeros_of geometry; writes = [] }) }
{
    let stable = zero_table(alloc, geometry)?;
    Ok(PendingDisk {
        alloc,
        geometry,
        stable,
        waiting: Vec::new(alloc),
    })
}

impl PendingDisk {
    /// All that was written is stable.
    fn settle(&mut self)
        ensures rows { self.new ≡ marked_flushed self.old }
        ensures row { row_shape self.new.stable ≡ row_shape self.old.stable }
    {
        apply_all(self.waiting.as_slice(), self.geometry, &mut self.stable);
        self.waiting.clear();
    }

    /// What was not marked is lost.
    fn fall(&mut self)
        ensures lost { self.new ≡ marked_lost self.old }
        ensures loses { marked_loses self.old self.new }
        ensures row { row_shape self.new.stable ≡ row_shape self.old.stable }
    {
        apply_kept(self.waiting.as_slice(), self.geometry, &mut self.stable);
        self.waiting.clear();
    }

    /// What was not marked is lost, after a last write.
    fn fall_within(&mut self, at: Word, row: &Row, kept: bool)
        requires { IsRowOf self.old.stable row.now }
        ensures falls { marked_falls self.old (Write at.bits row.now) (kept ∷ []) self.new }
        ensures row { row_shape self.new.stable ≡ row_shape self.old.stable }
    {
        self.fall();
        if kept {
            table_write(&mut self.stable, at, row);
        }
    }
}

impl Ground for PendingDisk {
    ghost use Rattle.ygg_disk.specs.Meanings.{pending_meaning};

    ghost means = { pending_meaning };

    fn read(&mut self, at: Word, power: &mut Power) -> Result<Turn, NoMemory> {
        let waiting = self.waiting.as_slice();
        let row = read_through(self.alloc, self.geometry, &self.stable, waiting, at)?;
        match power.begin(self.alloc, Some(at))? {
            Fate::Whole => Ok(Turn::Answer(Value::Row(row))),
            Fate::Within | Fate::Before => {
                self.fall();
                Ok(Turn::Down)
            }
        }
    }

    fn write(&mut self, at: Word, row: &Row, power: &mut Power) -> Result<Turn, NoMemory> {
        let kept = power.picks.peek();
        let copy = room_for(self.alloc, &mut self.waiting, row)?;
        match power.begin_write(self.alloc, at, row, &[kept], &[kept])? {
            Fate::Whole => {
                let write = Waiting {
                    at,
                    row: copy,
                    kept,
                };
                wait(&mut self.waiting, write);
                Ok(Turn::Done)
            }
            Fate::Within => {
                self.fall_within(at, row, kept);
                Ok(Turn::Down)
            }
            Fate::Before => {
                self.fall();
                Ok(Turn::Down)
            }
        }
    }

    fn flush(&mut self, power: &mut Power) -> Result<Turn, NoMemory> {
        match power.begin(self.alloc, None)? {
            Fate::Whole => {
                self.settle();
                Ok(Turn::Done)
            }
            Fate::Within | Fate::Before => {
                self.fall();
                Ok(Turn::Down)
            }
        }
    }

    fn lose(&mut self) {
        self.fall();
    }
}
