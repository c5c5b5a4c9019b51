//! What a device is.

use crate::{Moved, Text};

/// What a device answers for the name of an image.
#[derive(Clone, Copy, PartialEq, Eq, Drop)]
pub enum Attach {
    /// The image is attached.
    Attached {
        /// How many bytes it has.
        bytes: u64,
    },
    /// There is no image of that name.
    Absent,
    /// The device failed.
    Failed,
    /// No memory was left.
    Memory,
}

/// Whether an image was made.
#[derive(Clone, Copy, Drop)]
pub enum Made {
    /// It was.
    Done,
    /// The device failed.
    Failed,
    /// No memory was left.
    Memory,
}

/// Images by name, of which one is attached and is read and written in blocks of one size.
pub trait Device {
    ghost use Rattle.std.specs.Prelude.{◌≡◌, ℕ, ◌*◌, ◌<◌, ◌≤◌, List, length, Option, IfSome};
    ghost use Rattle.ygg_base.specs.Outside.{Rose};
    ghost use Rattle.ygg_base.specs.Devices.{
      Image,
      Attachment,
      image_of,
      Attaches,
      FitsImage,
      Creates,
      IsCreated,
      Tells,
      AttachedTurns,
      Writes,
      Flushes,
      Reads,
      IsAttached,
      IsBlock,
    };

    /// The images, where it tells them.
    ghost images: { Self → Option (List Image) };
    /// What is attached, if anything is.
    ghost attached: { Self → Option Attachment };
    /// How many faults there were. It never falls.
    ghost faults: { Self → ℕ };

    /// Attaches an image, seen as blocks of `size` bytes, and answers its length in bytes; the one that was attached is so no longer. It changes no image.
    /// Where the device tells its images, `Absent` comes exactly where it has none of that name, unless the call fails or finds no memory. `Failed` comes
    /// only where the count of faults has risen. After each answer but `Attached` nothing is attached.
    fn attach(&mut self, name: &Text, size: u32) -> Attach
        requires { 0 < size }
        ensures attaches { Attaches name.now size result (attached self.new) }
        ensures told { IfSome (images self.old) (λ told. FitsImage (image_of told name.now) result) }
        ensures kept { images self.new ≡ images self.old }
        ensures later { faults self.old ≤ faults self.new }
        ensures cause { result ≡ Attach.Failed → Rose (faults self.old) (faults self.new) };

    /// Makes an image of `count` blocks of `size` bytes, all zeros, in the place of the one of that name, and attaches it. `Failed` comes only where the count
    /// of faults has risen. After each answer but `Done` nothing is attached, and nothing is said of the image of that name. No other image is changed.
    fn create(&mut self, name: &Text, size: u32, count: u32) -> Made
        requires { 0 < size }
        ensures attaches { Creates name.now size count result (attached self.new) }
        ensures told { Tells (IsCreated name.now (count * size) result) (images self.old) (images self.new) }
        ensures later { faults self.old ≤ faults self.new }
        ensures cause { result ≡ Made.Failed → Rose (faults self.old) (faults self.new) };

    /// Reads a block of the attached image, as it was written last. `Failed` comes only where the count of faults has risen. No image is changed.
    fn read(&mut self, block: u32, into: &mut [u8]) -> Moved
        requires { IsBlock (attached self.old) block (length into.old) }
        ensures told { Reads block (images self.old) (attached self.old) result into.new }
        ensures kept { images self.new ≡ images self.old }
        ensures still { attached self.new ≡ attached self.old }
        ensures later { faults self.old ≤ faults self.new }
        ensures cause { result ≡ Moved.Failed → Rose (faults self.old) (faults self.new) };

    /// Writes a block of the attached image; whether it is left when power fails isn't said before the next `flush`. `Failed` comes only where the count of
    /// faults has risen, and the block is then wholly written or as before, in what is read and in what is left when power fails. Nothing else is changed.
    fn write(&mut self, block: u32, from: &[u8]) -> Moved
        requires { IsBlock (attached self.old) block (length from.now) }
        ensures told { Tells (AttachedTurns (Writes block from.now result) (attached self.old)) (images self.old) (images self.new) }
        ensures still { attached self.new ≡ attached self.old }
        ensures later { faults self.old ≤ faults self.new }
        ensures cause { result ≡ Moved.Failed → Rose (faults self.old) (faults self.new) };

    /// Makes all that was written stay when power fails. `Failed` comes only where the count of faults has risen, and each block that is left is then as
    /// before or as it was written last. What is read is as before, and no other image is changed.
    fn flush(&mut self) -> Moved
        requires { IsAttached (attached self.old) }
        ensures told { Tells (AttachedTurns (Flushes result) (attached self.old)) (images self.old) (images self.new) }
        ensures still { attached self.new ≡ attached self.old }
        ensures later { faults self.old ≤ faults self.new }
        ensures cause { result ≡ Moved.Failed → Rose (faults self.old) (faults self.new) };
}
