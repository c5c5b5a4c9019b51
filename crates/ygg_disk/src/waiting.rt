ghost use Rattle.std.specs.Prelude.{◌≡◌, ◌<◌, [], ◌∷◌, ◌++◌, All, map, IfOk, OnOk, IfSome, vec_len, vec_capacity};
ghost use Rattle.std.specs.Option.{option_copied};
ghost use Rattle.ygg_value.specs.Values.{table_read};
ghost use Rattle.ygg_disk.specs.Pending.{applied};
ghost use Rattle.ygg_disk.specs.Size.{HasSize};
ghost use Rattle.ygg_disk.specs.Marked.{kept_of};
ghost use Rattle.ygg_disk.specs.Rows.{IsDiskRow};
ghost use Rattle.ygg_disk.specs.Waiting.{mark_of, marked, newest_at, SeenThrough};

use crate::rows::read_row;
use std::alloc::Global;
use ygg_base::Geometry;
use ygg_list::{Duplicate, NoMemory};
use ygg_value::{Row, Table, Word, table_write};

/// A write that isn't stable yet, and whether power loss keeps it.
#[derive(Drop)]
pub struct Waiting {
    pub at: Word,
    pub row: Row,
    pub kept: bool,
}

/// The row of the newest write at a place.
#[tactic(auto, using(crate::proofs::Marks::marked_next))]
fn newest(waiting: &[Waiting], place: u64) -> Option<&Row>
    ensures { option_copied result ≡ newest_at place (marked waiting.now) }
{
    let mut found = None;
    for write in waiting {
        if write.at.bits == place {
            found = Some(&write.row);
        }
    }
    found
}

/// The row of the newest write at a place within the disk.
fn newest_within(waiting: &[Waiting], geometry: Geometry, place: u64) -> Option<&Row>
    requires { All (λ w. IsDiskRow geometry w.row) waiting.now }
    ensures seen { SeenThrough geometry (marked waiting.now) place (option_copied result) }
    ensures fits { IfSome (option_copied result) (λ row. IsDiskRow geometry row) }
{
    if place < geometry.rows as u64 {
        newest(waiting, place)
    } else {
        None
    }
}

/// A row that is read: that of the newest write at the place, or else the stable one; zeros past the end. Its only error is
/// out of memory.
pub fn read_through(
    alloc: Global,
    geometry: Geometry,
    stable: &Table,
    waiting: &[Waiting],
    at: Word,
) -> Result<Row, NoMemory>
    requires size { HasSize geometry stable.now }
    requires fits { All (λ w. IsDiskRow geometry w.row) waiting.now }
    ensures value { IfOk result (λ row. row ≡ table_read (applied (map (λ w. w.write) (marked waiting.now)) stable.now) at.bits) }
    ensures shape { IfOk result (λ row. IsDiskRow geometry row) }
{
    match newest_within(waiting, geometry, at.bits) {
        Some(row) => row.duplicate(alloc),
        None => read_row(alloc, geometry, stable, at),
    }
}

/// A copy of a row that is to wait, and room for its write. Its only error is out of memory.
pub fn room_for(alloc: Global, waiting: &mut Vec<Waiting>, row: &Row) -> Result<Row, NoMemory>
    ensures items { waiting.new.items ≡ waiting.old.items }
    ensures room { OnOk result (vec_len waiting.new < vec_capacity waiting.new) }
    ensures copy { IfOk result (λ copy. copy ≡ row.now) }
{
    waiting.reserve(1)?;
    row.duplicate(alloc)
}

/// Another write waits, for which there is room.
#[tactic(auto, using(crate::proofs::Marks::marked_more))]
pub fn wait(waiting: &mut Vec<Waiting>, write: Waiting)
    requires { vec_len waiting.old < vec_capacity waiting.old }
    ensures items { waiting.new.items ≡ waiting.old.items ++ write ∷ [] }
    ensures marked { marked waiting.new.items ≡ mark_of write ∷ marked waiting.old.items }
{
    waiting.push(write).unwrap();
}

/// Makes all the writes in order.
#[tactic(auto, using(crate::proofs::Marks::marked_next))]
pub fn apply_all(waiting: &[Waiting], geometry: Geometry, stable: &mut Table)
    requires size { HasSize geometry stable.old }
    requires fits { All (λ w. IsDiskRow geometry w.row) waiting.now }
    ensures rows { stable.new ≡ applied (map (λ w. w.write) (marked waiting.now)) stable.old }
    ensures size { HasSize geometry stable.new }
{
    for write in waiting {
        table_write(stable, write.at, &write.row);
    }
}

/// Makes the writes in order that power loss keeps.
#[tactic(auto, using(crate::proofs::Marks::marked_next))]
pub fn apply_kept(waiting: &[Waiting], geometry: Geometry, stable: &mut Table)
    requires size { HasSize geometry stable.old }
    requires fits { All (λ w. IsDiskRow geometry w.row) waiting.now }
    ensures rows { stable.new ≡ applied (kept_of (marked waiting.now)) stable.old }
    ensures size { HasSize geometry stable.new }
{
    for write in waiting {
        if write.kept {
            table_write(stable, write.at, &write.row);
        }
    }
}
