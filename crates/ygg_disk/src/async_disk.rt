ghost use Rattle.std.specs.Prelude.{◌≡◌, IfOk};
ghost use Rattle.ygg_value.specs.Shapes.{IsShape};
ghost use Rattle.ygg_disk.specs.Disk.{written, lost};
ghost use Rattle.ygg_disk.specs.Size.{table_shape, row_shape, zeros_of, IsRowOf};

use crate::fate::Fate;
use crate::ground::Ground;
use crate::power::Power;
use crate::rows::{copy_rows, read_row, zero_row, zero_table};
use crate::turn::Turn;
use std::alloc::Global;
use std::marker::Model;
use ygg_base::Geometry;
use ygg_list::NoMemory;
use ygg_value::{Row, Table, Value, Word, table_write};

/// An asynchronous disk in memory, which contracts see as its two tables: what reads see, and what power loss leaves. Each
/// write takes a pick, which says whether it is stable at once.
pub struct AsyncDisk {
    alloc: Global,
    geometry: Geometry,
    view: Table,
    stable: Table,
    // a row on its way from one table to the other
    spare: Row,
}

impl Drop for AsyncDisk {
    fn drop(self) {
        let AsyncDisk {
            alloc: _,
            geometry: _,
            view,
            stable,
            spare,
        } = self;
        drop(view);
        drop(stable);
        drop(spare);
    }
}

impl Model for AsyncDisk {
    ghost use Rattle.ygg_disk.specs.Disk.{Tables};
    ghost use Rattle.ygg_disk.specs.Size.{HasSize, IsRowOf};

    ghost Value = { Tables };

    ghost view = { λ d. record { view = d.view; stable = d.stable } };

    ghost invariant = { λ d. HasSize d.geometry d.view × HasSize d.geometry d.stable × IsRowOf d.view d.spare };
}

/// An asynchronous disk of zeros. The geometry's kind counts for nothing. Its only error is out of memory.
pub fn fresh_async(alloc: Global, geometry: Geometry) -> Result<AsyncDisk, NoMemory>
    requires { IsShape (table_shape geometry) }
    ensures { IfOk result (λ disk. disk ≡ record { view = zeros_of geometry; stable = zeros_of geometry }) }
{
    let view = zero_table(alloc, geometry)?;
    let stable = zero_table(alloc, geometry)?;
    let spare = zero_row(alloc, geometry)?;
    Ok(AsyncDisk {
        alloc,
        geometry,
        view,
        stable,
        spare,
    })
}

impl AsyncDisk {
    /// Writes the row to the view, and to the stable rows where it is kept.
    fn put(&mut self, at: Word, row: &Row, kept: bool)
        requires { IsRowOf self.old.view row.now }
        ensures { self.new ≡ written kept self.old at.bits row.now }
    {
        table_write(&mut self.view, at, row);
        if kept {
            table_write(&mut self.stable, at, row);
        }
    }

    /// What was not stable is lost.
    fn fall(&mut self)
        ensures lost { self.new ≡ lost self.old }
        ensures row { row_shape self.new.view ≡ row_shape self.old.view }
    {
        copy_rows(self.geometry, &self.stable, &mut self.view, &mut self.spare);
    }

    /// All that was written is stable.
    fn settle(&mut self)
        ensures { self.new ≡ record { view = self.old.view; stable = self.old.view } }
    {
        copy_rows(self.geometry, &self.view, &mut self.stable, &mut self.spare);
    }
}

impl Ground for AsyncDisk {
    ghost use Rattle.ygg_base.specs.declared.geometry.DiskKind.TheVariants.{Async};
    ghost use Rattle.ygg_disk.specs.Meanings.{disk_meaning};

    ghost means = { disk_meaning Async };

    fn read(&mut self, at: Word, power: &mut Power) -> Result<Turn, NoMemory> {
        let row = read_row(self.alloc, self.geometry, &self.view, at)?;
        match power.begin(self.alloc, Some(at))? {
            Fate::Whole => Ok(Turn::Answer(Value::Row(row))),
            Fate::Within | Fate::Before => {
                self.fall();
                Ok(Turn::Down)
            }
        }
    }

    fn write(&mut self, at: Word, row: &Row, power: &mut Power) -> Result<Turn, NoMemory> {
        let kept = power.picks.peek();
        match power.begin_write(self.alloc, at, row, &[kept], &[kept])? {
            Fate::Whole => {
                self.put(at, row, kept);
                Ok(Turn::Done)
            }
            Fate::Within => {
                self.put(at, row, kept);
                self.fall();
                Ok(Turn::Down)
            }
            Fate::Before => {
                self.fall();
                Ok(Turn::Down)
            }
        }
    }

    fn flush(&mut self, power: &mut Power) -> Result<Turn, NoMemory> {
        match power.begin(self.alloc, None)? {
            Fate::Whole => {
                self.settle();
                Ok(Turn::Done)
            }
            Fate::Within | Fate::Before => {
                self.fall();
                Ok(Turn::Down)
            }
        }
    }

    fn lose(&mut self) {
        self.fall();
    }
}
