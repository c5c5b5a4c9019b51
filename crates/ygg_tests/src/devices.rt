//! The device in memory: what is written is read, and what fails or is lost.

use std::alloc::Global;
use ygg_base::{Attach, Bits, Device, Made, Moved, Numbers, RamDevice, Text};

/// What is done with an image of two blocks of four bytes, and what comes of it.
#[derive(Clone, Copy)]
enum Step {
    /// It isn't there.
    Absent,
    /// It is made.
    Create(Made),
    /// Its second block is written.
    Put([u8; 4], Moved),
    /// It is flushed, and its second block is read.
    Got([u8; 4]),
    /// Power is lost.
    Lose,
}

/// A device whose calls and writes of these numbers fail, and whose writes reach so far; and what is done with it.
struct Story {
    fails: &'static [u64],
    write_fails: &'static [u64],
    reach: &'static [bool],
    steps: &'static [Step],
}

const STORIES: [Story; 3] = [
    Story {
        fails: &[],
        write_fails: &[],
        reach: &[],
        steps: &[
            Step::Absent,
            Step::Create(Made::Done),
            Step::Got([0, 0, 0, 0]),
            Step::Put([1, 2, 3, 4], Moved::Done),
            Step::Got([1, 2, 3, 4]),
        ],
    },
    // the first and the fourth call fail, and the second write
    Story {
        fails: &[1, 4],
        write_fails: &[2],
        reach: &[],
        steps: &[
            Step::Create(Made::Failed),
            Step::Create(Made::Done),
            Step::Put([1, 2, 3, 4], Moved::Failed),
            Step::Put([1, 2, 3, 4], Moved::Failed),
            Step::Put([5, 6, 7, 8], Moved::Done),
            Step::Got([5, 6, 7, 8]),
        ],
    },
    // the first write doesn't reach
    Story {
        fails: &[],
        write_fails: &[],
        reach: &[false],
        steps: &[
            Step::Create(Made::Done),
            Step::Put([1, 2, 3, 4], Moved::Done),
            Step::Lose,
            Step::Got([0, 0, 0, 0]),
            Step::Put([1, 2, 3, 4], Moved::Done),
            Step::Lose,
            Step::Got([1, 2, 3, 4]),
        ],
    },
];

/// Writes the second of two blocks of four bytes of an image.
pub(crate) fn put<D: Device>(device: &mut D, name: &Text, bytes: [u8; 4]) -> Moved {
    match device.attach(name, 4) {
        Attach::Attached { bytes: 8 } => device.write(1, &bytes),
        _ => Moved::Failed,
    }
}

/// Flushes the image, and says whether these bytes are read of the second of its two blocks of four bytes.
pub(crate) fn is_got<D: Device>(device: &mut D, name: &Text, wanted: [u8; 4]) -> bool {
    let mut block = [7u8; 4];
    device.attach(name, 4) == Attach::Attached { bytes: 8 }
        && device.flush() == Moved::Done
        && device.read(1, &mut block) == Moved::Done
        && block == wanted
}

/// Whether what is to come of each step comes of it.
fn all_come(device: &mut RamDevice, name: &Text, steps: &[Step]) -> bool {
    for step in steps {
        let comes = match *step {
            Step::Absent => device.attach(name, 4) == Attach::Absent,
            Step::Create(made) => device.create(name, 4, 2) == made,
            Step::Put(bytes, moved) => put(device, name, bytes) == moved,
            Step::Got(bytes) => is_got(device, name, bytes),
            Step::Lose => {
                device.lose();
                true
            }
        };
        if !comes {
            return false;
        }
    }
    true
}

/// Whether a story is as it must be.
fn holds(alloc: Global, name: &Text, story: &Story) -> bool {
    let mut fails = Numbers::new(alloc);
    let mut write_fails = Numbers::new(alloc);
    let mut reach = Bits::new(alloc);
    let told = fails.extend_from_slice(story.fails).is_ok()
        & write_fails.extend_from_slice(story.write_fails).is_ok()
        & reach.extend_from_slice(story.reach).is_ok();
    let mut device = RamDevice::new(alloc, fails, write_fails, reach);
    let all = all_come(&mut device, name, story.steps);
    drop(device);
    told & all
}

/// Whether each story is.
fn all_hold(alloc: Global, name: &Text, stories: &[Story]) -> bool {
    let mut all = true;
    for story in stories {
        all &= holds(alloc, name, story);
    }
    all
}

/// Whether the stories are, with an image of this name.
fn all_hold_for(alloc: Global, name: &[u8]) -> bool {
    match Text::from_slice(alloc, name) {
        Ok(name) => all_hold(alloc, &name, &STORIES),
        Err(_) => false,
    }
}

#[test]
fn what_is_written_is_read_fails_or_is_lost(rt: HostRuntime) {
    assert!(rt; all_hold_for(rt.alloc(), b"image"));
}
