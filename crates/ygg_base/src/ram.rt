//! A device in memory.

ghost use Rattle.std.specs.Prelude.{◌≡◌, ◌*◌, ◌<◌, ◌≤◌, All, [], Some, None, true, false, length, List, map, Option, IfSome};
ghost use Rattle.ygg_base.specs.Outside.{Rose};
ghost use Rattle.ygg_base.specs.Devices.{
  image_of,
  lost,
  Attaches,
  FitsImage,
  Creates,
  IsCreated,
  Tells,
  AttachedTurns,
  Writes,
  Flushes,
  Reads,
  IsAttached,
  IsBlock,
};
ghost use Rattle.ygg_base.specs.Ram.{IsEven, AreSeen, images_in, attachment_of};

use crate::device::{Attach, Device, Made};
use crate::image::{
    Place, Stored, add, blank, keep_attached, read_attached, restore_all, seen_as, start_of,
    write_attached,
};
use crate::{Bits, Moved, Numbers, Text};
use std::alloc::Global;

/// A device in memory that tells its images, and some of whose calls and writes fail.
#[derive(Drop)]
pub struct RamDevice {
    alloc: Global,
    stored: Vec<Stored>,
    attached: Option<Place>,
    fails: Numbers,
    write_fails: Numbers,
    reach: Bits,
    calls: u64,
    writes: u64,
    faults: u64,
    ghost even: { All IsEven stored.items },
    ghost seen: { AreSeen stored.items attached },
}

impl RamDevice {
    /// A device without images, with the numbers of the calls and of the writes that are to fail, both counted from 1; and for each write whether it stays
    /// without a `flush` when power fails, as those do past the end of that list. A write that is to fail leaves the block as before. It takes no memory.
    pub fn new(alloc: Global, fails: Numbers, write_fails: Numbers, reach: Bits) -> RamDevice
        ensures told { ⟦<RamDevice as Device>⟧.images result ≡ Some [] }
        ensures attached { ⟦<RamDevice as Device>⟧.attached result ≡ None }
        ensures quiet { ⟦<RamDevice as Device>⟧.faults result ≡ 0 }
        ensures fails { result.fails ≡ fails }
        ensures write_fails { result.write_fails ≡ write_fails }
        ensures reach { result.reach ≡ reach }
    {
        RamDevice {
            alloc,
            stored: Vec::new(alloc),
            attached: None,
            fails,
            write_fails,
            reach,
            calls: 0,
            writes: 0,
            faults: 0,
        }
    }

    /// Loses power: what is read of each image is from now on what was left of it. What is attached stays so. It takes no memory.
    pub fn lose(&mut self)
        ensures told { ⟦<RamDevice as Device>⟧.images self.new ≡ Some (map lost (images_in self.old.stored.items)) }
        ensures still { attachment_of self.new.stored.items self.new.attached ≡ attachment_of self.old.stored.items self.old.attached }
        ensures quiet { self.new.faults ≡ self.old.faults }
        ensures fails { self.new.fails ≡ self.old.fails }
        ensures write_fails { self.new.write_fails ≡ self.old.write_fails }
    {
        restore_all(&mut self.stored);
    }

    /// Counts a call, and says whether it is one that is to fail.
    fn fails_now(&mut self) -> bool
        ensures stored { self.new.stored ≡ self.old.stored }
        ensures attached { self.new.attached ≡ self.old.attached }
        ensures fails { self.new.fails ≡ self.old.fails }
        ensures write_fails { self.new.write_fails ≡ self.old.write_fails }
        ensures later { self.old.faults ≤ self.new.faults }
        ensures cause { result ≡ true → Rose self.old.faults self.new.faults }
        ensures never { self.old.fails ≡ [] → result ≡ false }
        ensures quiet { self.old.fails ≡ [] → self.new.faults ≡ self.old.faults }
    {
        self.calls = self.calls.saturating_add(1);
        let fails = self.fails.as_slice().contains(&self.calls);
        if fails {
            self.faults = self.faults.saturating_add(1);
        }
        fails
    }

    /// Counts a write, and says whether it is one that is to fail, or a call that is to.
    fn write_fails_now(&mut self) -> bool
        ensures stored { self.new.stored ≡ self.old.stored }
        ensures attached { self.new.attached ≡ self.old.attached }
        ensures fails { self.new.fails ≡ self.old.fails }
        ensures write_fails { self.new.write_fails ≡ self.old.write_fails }
        ensures later { self.old.faults ≤ self.new.faults }
        ensures cause { result ≡ true → Rose self.old.faults self.new.faults }
        ensures never { self.old.fails ≡ [] → self.old.write_fails ≡ [] → result ≡ false }
        ensures quiet { self.old.fails ≡ [] → self.old.write_fails ≡ [] → self.new.faults ≡ self.old.faults }
    {
        self.writes = self.writes.saturating_add(1);
        if self.fails_now() {
            return true;
        }
        let fails = self.write_fails.as_slice().contains(&self.writes);
        if fails {
            self.faults = self.faults.saturating_add(1);
        }
        fails
    }

    /// Whether the write of this number stays without a `flush`.
    fn reaches(&self, number: u64) -> bool {
        match self.reach.as_slice().get(number.saturating_sub(1) as usize) {
            Some(reaches) => *reaches,
            None => true,
        }
    }
}

impl Device for RamDevice {
    ghost use Rattle.std.specs.Prelude.{Some};
    ghost use Rattle.ygg_base.specs.Ram.{images_in, attachment_of};

    ghost images = { λ s. Some (images_in s.stored.items) };

    ghost attached = { λ s. attachment_of s.stored.items s.attached };

    ghost faults = { λ s. s.faults };

    /// Attaches an image, as every device does; without calls that are to fail it never fails.
    fn attach(&mut self, name: &Text, size: u32) -> Attach
        requires { 0 < size }
        ensures attaches { Attaches name.now size result (attachment_of self.new.stored.items self.new.attached) }
        ensures told { IfSome (Some (images_in self.old.stored.items)) (λ told. FitsImage (image_of told name.now) result) }
        ensures kept { Some (images_in self.new.stored.items) ≡ Some (images_in self.old.stored.items) }
        ensures later { self.old.faults ≤ self.new.faults }
        ensures cause { result ≡ Attach.Failed → Rose self.old.faults self.new.faults }
        ensures fails { self.new.fails ≡ self.old.fails }
        ensures write_fails { self.new.write_fails ≡ self.old.write_fails }
        ensures never { self.old.fails ≡ [] → result ≡ Attach.Failed → ⊥ }
        ensures quiet { self.old.fails ≡ [] → self.new.faults ≡ self.old.faults }
    {
        self.attached = None;
        if self.fails_now() {
            return Attach::Failed;
        }
        let Some((place, bytes)) = seen_as(self.stored.as_slice(), name.as_slice(), size) else {
            return Attach::Absent;
        };
        self.attached = Some(place);
        Attach::Attached { bytes }
    }

    /// Makes an image and attaches it, as every device does; without calls that are to fail it never fails.
    fn create(&mut self, name: &Text, size: u32, count: u32) -> Made
        requires { 0 < size }
        ensures attaches { Creates name.now size count result (attachment_of self.new.stored.items self.new.attached) }
        ensures told { Tells (IsCreated name.now (count * size) result) (Some (images_in self.old.stored.items)) (Some (images_in self.new.stored.items)) }
        ensures later { self.old.faults ≤ self.new.faults }
        ensures cause { result ≡ Made.Failed → Rose self.old.faults self.new.faults }
        ensures fails { self.new.fails ≡ self.old.fails }
        ensures write_fails { self.new.write_fails ≡ self.old.write_fails }
        ensures never { self.old.fails ≡ [] → result ≡ Made.Failed → ⊥ }
        ensures quiet { self.old.fails ≡ [] → self.new.faults ≡ self.old.faults }
    {
        self.attached = None;
        if self.fails_now() {
            return Made::Failed;
        }
        let Ok(image) = blank(self.alloc, name, start_of(count, size)) else {
            return Made::Memory;
        };
        let Ok(place) = add(&mut self.stored, image) else {
            return Made::Memory;
        };
        self.attached = Some(Place { place, size, count });
        Made::Done
    }

    /// Reads a block, as every device does; without calls that are to fail it never fails.
    fn read(&mut self, block: u32, into: &mut [u8]) -> Moved
        requires { IsBlock (attachment_of self.old.stored.items self.old.attached) block (length into.old) }
        ensures told { Reads block (Some (images_in self.old.stored.items)) (attachment_of self.old.stored.items self.old.attached) result into.new }
        ensures kept { Some (images_in self.new.stored.items) ≡ Some (images_in self.old.stored.items) }
        ensures still { attachment_of self.new.stored.items self.new.attached ≡ attachment_of self.old.stored.items self.old.attached }
        ensures later { self.old.faults ≤ self.new.faults }
        ensures cause { result ≡ Moved.Failed → Rose self.old.faults self.new.faults }
        ensures fails { self.new.fails ≡ self.old.fails }
        ensures write_fails { self.new.write_fails ≡ self.old.write_fails }
        ensures never { self.old.fails ≡ [] → result ≡ Moved.Failed → ⊥ }
        ensures quiet { self.old.fails ≡ [] → self.new.faults ≡ self.old.faults }
    {
        if self.fails_now() {
            return Moved::Failed;
        }
        read_attached(self.stored.as_slice(), self.attached, block, into);
        Moved::Done
    }

    /// Writes a block, as every device does; without calls and writes that are to fail it never fails. Where it fails the block is as before.
    fn write(&mut self, block: u32, from: &[u8]) -> Moved
        requires { IsBlock (attachment_of self.old.stored.items self.old.attached) block (length from.now) }
        ensures told { Tells (AttachedTurns (Writes block from.now result) (attachment_of self.old.stored.items self.old.attached))
            (Some (images_in self.old.stored.items)) (Some (images_in self.new.stored.items)) }
        ensures still { attachment_of self.new.stored.items self.new.attached ≡ attachment_of self.old.stored.items self.old.attached }
        ensures spared { result ≡ Moved.Failed → self.new.stored ≡ self.old.stored }
        ensures later { self.old.faults ≤ self.new.faults }
        ensures cause { result ≡ Moved.Failed → Rose self.old.faults self.new.faults }
        ensures fails { self.new.fails ≡ self.old.fails }
        ensures write_fails { self.new.write_fails ≡ self.old.write_fails }
        ensures never { self.old.fails ≡ [] → self.old.write_fails ≡ [] → result ≡ Moved.Failed → ⊥ }
        ensures quiet { self.old.fails ≡ [] → self.old.write_fails ≡ [] → self.new.faults ≡ self.old.faults }
    {
        if self.write_fails_now() {
            return Moved::Failed;
        }
        let reaches = self.reaches(self.writes);
        write_attached(&mut self.stored, self.attached, block, from, reaches);
        Moved::Done
    }

    /// Makes what was written stay, as every device does; without calls that are to fail it never fails. Where it fails nothing has changed.
    fn flush(&mut self) -> Moved
        requires { IsAttached (attachment_of self.old.stored.items self.old.attached) }
        ensures told { Tells (AttachedTurns (Flushes result) (attachment_of self.old.stored.items self.old.attached))
            (Some (images_in self.old.stored.items)) (Some (images_in self.new.stored.items)) }
        ensures still { attachment_of self.new.stored.items self.new.attached ≡ attachment_of self.old.stored.items self.old.attached }
        ensures spared { result ≡ Moved.Failed → self.new.stored ≡ self.old.stored }
        ensures later { self.old.faults ≤ self.new.faults }
        ensures cause { result ≡ Moved.Failed → Rose self.old.faults self.new.faults }
        ensures fails { self.new.fails ≡ self.old.fails }
        ensures write_fails { self.new.write_fails ≡ self.old.write_fails }
        ensures never { self.old.fails ≡ [] → result ≡ Moved.Failed → ⊥ }
        ensures quiet { self.old.fails ≡ [] → self.new.faults ≡ self.old.faults }
    {
        if self.fails_now() {
            return Moved::Failed;
        }
        keep_attached(&mut self.stored, self.attached);
        Moved::Done
    }
}
