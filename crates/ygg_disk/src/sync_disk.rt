ghost use Rattle.std.specs.Prelude.{◌≡◌, IfOk};
ghost use Rattle.ygg_value.specs.Shapes.{IsShape};
ghost use Rattle.ygg_disk.specs.Size.{table_shape, zeros_of};

use crate::fate::Fate;
use crate::ground::Ground;
use crate::power::Power;
use crate::rows::{read_row, zero_table};
use crate::turn::Turn;
use std::alloc::Global;
use std::marker::Model;
use ygg_base::Geometry;
use ygg_list::NoMemory;
use ygg_value::{Row, Table, Value, Word, table_write};

/// A synchronous disk in memory, which contracts see as its table. Power that fails within a write takes a pick, which says
/// whether the row was written.
pub struct SyncDisk {
    alloc: Global,
    geometry: Geometry,
    view: Table,
}

impl Drop for SyncDisk {
    fn drop(self) {
        let SyncDisk {
            alloc: _,
            geometry: _,
            view,
        } = self;
        drop(view);
    }
}

impl Model for SyncDisk {
    ghost use Rattle.ygg_value.specs.Number.{Grid};
    ghost use Rattle.ygg_disk.specs.Size.{HasSize};

    ghost Value = { Grid };

    ghost view = { λ d. d.view };

    ghost invariant = { λ d. HasSize d.geometry d.view };
}

/// A synchronous disk of zeros. The geometry's kind counts for nothing. Its only error is out of memory.
pub fn fresh_sync(alloc: Global, geometry: Geometry) -> Result<SyncDisk, NoMemory>
    requires { IsShape (table_shape geometry) }
    ensures { IfOk result (λ disk. disk ≡ zeros_of geometry) }
{
    let view = zero_table(alloc, geometry)?;
    Ok(SyncDisk {
        alloc,
        geometry,
        view,
    })
}

impl Ground for SyncDisk {
    ghost use Rattle.ygg_base.specs.declared.geometry.DiskKind.TheVariants.{Sync};
    ghost use Rattle.ygg_disk.specs.Meanings.{disk_meaning};

    ghost means = { disk_meaning Sync };

    fn read(&mut self, at: Word, power: &mut Power) -> Result<Turn, NoMemory> {
        let row = read_row(self.alloc, self.geometry, &self.view, at)?;
        match power.begin(self.alloc, Some(at))? {
            Fate::Whole => Ok(Turn::Answer(Value::Row(row))),
            Fate::Within | Fate::Before => Ok(Turn::Down),
        }
    }

    fn write(&mut self, at: Word, row: &Row, power: &mut Power) -> Result<Turn, NoMemory> {
        let kept = power.picks.peek();
        match power.begin_write(self.alloc, at, row, &[], &[kept])? {
            Fate::Whole => {
                table_write(&mut self.view, at, row);
                Ok(Turn::Done)
            }
            Fate::Within => {
                if kept {
                    table_write(&mut self.view, at, row);
                }
                Ok(Turn::Down)
            }
            Fate::Before => Ok(Turn::Down),
        }
    }

    fn flush(&mut self, power: &mut Power) -> Result<Turn, NoMemory> {
        match power.begin(self.alloc, None)? {
            Fate::Whole => Ok(Turn::Done),
            Fate::Within | Fate::Before => Ok(Turn::Down),
        }
    }

    fn lose(&mut self) {}
}
