//! The worked rows of the three disks: two writes to the one row, a flush or none, and what is read after power loss.

ghost use Rattle.std.specs.Prelude.{◌≡◌, length, IsTrue};
ghost use Rattle.ygg_value.specs.declared.shape.Shape.TheVariants as shape;

use std::alloc::Global;
use ygg_base::{Bits, DiskKind, Geometry};
use ygg_disk::rows::zero_row;
use ygg_disk::{Ground, Picks, Power, Turn, fresh_async, fresh_pending, fresh_sync};
use ygg_list::NoMemory;
use ygg_value::{Row, Value, Word, row_read, row_write};

/// What is done, and what is read at the end.
struct Story {
    /// whether each write is kept
    picks: [bool; 2],
    flushes: bool,
    /// on the asynchronous disk and on the one with a write-back cache
    late: u64,
    /// on the synchronous disk
    sync: u64,
}

const STORIES: [Story; 3] = [
    Story {
        picks: [true, false],
        flushes: false,
        late: 5,
        sync: 7,
    },
    Story {
        picks: [false, false],
        flushes: false,
        late: 0,
        sync: 7,
    },
    Story {
        picks: [false, false],
        flushes: true,
        late: 7,
        sync: 7,
    },
];

/// The size of the disks: one row of one word of 8 digits.
const SMALL: Geometry = Geometry {
    kind: DiskKind::Async,
    rows: 1,
    words: 1,
    width: 8,
};

/// The place of the row on the disk, and of the word in the row.
const FIRST: Word = Word { width: 8, bits: 0 };

/// Whether a call was made. What it answers is dropped.
fn is_done<T: Drop>(answer: Result<T, NoMemory>) -> bool {
    answer.is_ok()
}

/// Writes a number to the row of the disk, by way of this row, and says whether that was done.
fn write<G: Ground>(disk: &mut G, power: &mut Power, row: &mut Row, number: u8) -> bool
    requires loses { IsTrue G.means.can_lose }
    requires row { G.means.row disk.old ≡ shape.Row 1 8 }
    requires shape { shape.Row (length row.old.words) row.old.width ≡ shape.Row 1 8 }
    ensures row { G.means.row disk.new ≡ shape.Row 1 8 }
    ensures shape { shape.Row (length row.new.words) row.new.width ≡ shape.Row 1 8 }
{
    let word = Word {
        width: 8,
        bits: number as u64,
    };
    row_write(row, FIRST, word);
    is_done(disk.write(FIRST, row, power))
}

/// Whether this is the answer of a read.
fn is_read(turn: &Turn, wanted: u64) -> bool {
    match turn {
        Turn::Answer(Value::Row(row)) => row_read(row, FIRST).bits == wanted,
        _ => false,
    }
}

/// Whether a disk reads this.
fn reads<G: Ground>(disk: &mut G, power: &mut Power, wanted: u64) -> bool
    requires { IsTrue G.means.can_lose }
{
    match disk.read(FIRST, power) {
        Ok(turn) => {
            let read = is_read(&turn, wanted);
            drop(turn);
            read
        }
        Err(_) => false,
    }
}

/// Whether this is read when power was lost after the writes of 5 and 7, and a flush or none.
fn is_left<G: Ground>(
    disk: &mut G,
    power: &mut Power,
    row: &mut Row,
    flushes: bool,
    wanted: u64,
) -> bool
    requires loses { IsTrue G.means.can_lose }
    requires row { G.means.row disk.old ≡ shape.Row 1 8 }
    requires shape { shape.Row (length row.old.words) row.old.width ≡ shape.Row 1 8 }
{
    let five = write(disk, power, row, 5);
    let seven = write(disk, power, row, 7);
    let flushed = !flushes || is_done(disk.flush(power));
    disk.lose();
    five & seven & flushed & reads(disk, power, wanted)
}

/// Power that doesn't fail within calls, with these picks.
fn power_of(bits: Bits) -> Power {
    Power {
        picks: Picks {
            bits,
            next: 0,
            past: false,
        },
        fuse: None,
        passed: 0,
        events: None,
    }
}

/// The same with the picks of a story.
fn is_left_of<G: Ground>(
    alloc: Global,
    disk: &mut G,
    row: &mut Row,
    story: &Story,
    wanted: u64,
) -> bool
    requires loses { IsTrue G.means.can_lose }
    requires row { G.means.row disk.old ≡ shape.Row 1 8 }
    requires shape { shape.Row (length row.old.words) row.old.width ≡ shape.Row 1 8 }
{
    match Bits::from_slice(alloc, &story.picks) {
        Ok(bits) => {
            let mut power = power_of(bits);
            let left = is_left(disk, &mut power, row, story.flushes, wanted);
            drop(power);
            left
        }
        Err(_) => false,
    }
}

/// Whether a story shows this on a disk.
fn shows<G: Ground>(alloc: Global, disk: &mut G, story: &Story, wanted: u64) -> bool
    requires loses { IsTrue G.means.can_lose }
    requires row { G.means.row disk.old ≡ shape.Row 1 8 }
{
    match zero_row(alloc, SMALL) {
        Ok(mut row) => is_left_of(alloc, disk, &mut row, story, wanted),
        Err(_) => false,
    }
}

fn shows_on_async(alloc: Global, story: &Story) -> bool {
    match fresh_async(alloc, SMALL) {
        Ok(mut disk) => shows(alloc, &mut disk, story, story.late),
        Err(_) => false,
    }
}

fn shows_on_pending(alloc: Global, story: &Story) -> bool {
    match fresh_pending(alloc, SMALL) {
        Ok(mut disk) => shows(alloc, &mut disk, story, story.late),
        Err(_) => false,
    }
}

fn shows_on_sync(alloc: Global, story: &Story) -> bool {
    match fresh_sync(alloc, SMALL) {
        Ok(mut disk) => shows(alloc, &mut disk, story, story.sync),
        Err(_) => false,
    }
}

/// Whether each story shows on each disk what it must.
fn all_hold(alloc: Global) -> bool {
    let mut all = true;
    for story in &STORIES {
        all &= shows_on_async(alloc, story);
        all &= shows_on_pending(alloc, story);
        all &= shows_on_sync(alloc, story);
    }
    all
}

#[test]
fn what_power_loss_leaves(rt: HostRuntime) {
    assert!(rt; all_hold(rt.alloc()));
}
