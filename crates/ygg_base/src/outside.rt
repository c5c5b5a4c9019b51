use crate::lists::Text;

/// What a library answers for a name.
#[derive(Drop)]
pub enum Fetch {
    /// The file's bytes.
    Found(Text),
    /// There is no file of that name.
    Absent,
    /// The file has more bytes than the limit.
    TooLarge,
    /// The library failed.
    Failed,
    /// No memory was left.
    Memory,
}

/// What a library answers for a name whose file is to be read piece by piece.
#[derive(Clone, Copy, Drop)]
pub enum Opened {
    /// The file is open, at its beginning.
    Open,
    /// There is no file of that name.
    Absent,
    /// The file has more bytes than the limit.
    TooLarge,
    /// The library failed.
    Failed,
    /// No memory was left.
    Memory,
}

/// What a library gives of the open file.
#[derive(Clone, Copy, PartialEq, Eq, Drop)]
pub enum Piece {
    /// So many bytes, at least one.
    Got(usize),
    /// There are no more.
    End,
    /// The library failed.
    Failed,
}

/// Whether bytes were moved.
#[derive(Clone, Copy, Drop)]
pub enum Moved {
    Done,
    Failed,
}

/// Files by name.
pub trait Library {
    ghost use Rattle.std.specs.Prelude.{◌≡◌, ℕ, ◌<◌, ◌≤◌, List, length, Option, IfSome};
    ghost use Rattle.ygg_base.specs.declared.lists.Held.{Held};
    ghost use Rattle.ygg_base.specs.Outside.{Rose, bytes_of, FitsFile, IsWithin, Reading, FitsOpened, Opens, IsOpen, Gives};

    /// The files that it holds, where it tells them. No call changes them.
    ghost files: { Self → Option (List Held) };
    /// How many faults there were. It never falls.
    ghost faults: { Self → ℕ };
    /// The file that is open, if one is.
    ghost reading: { Self → Option Reading };

    /// The bytes of a file, where there are at most `limit` of them. Where the library tells its files,
    /// `Absent` comes exactly where it has none of that name and `TooLarge` exactly where the file is longer
    /// than `limit`, unless the call fails or finds no memory. `Failed` comes only where the count of faults
    /// has risen.
    fn fetch(&mut self, name: &Text, limit: u64) -> Fetch
        ensures within { IsWithin limit result }
        ensures told { IfSome (files self.old) (λ held. FitsFile (bytes_of held name.now) limit result) }
        ensures kept { files self.new ≡ files self.old }
        ensures later { faults self.old ≤ faults self.new }
        ensures cause { result ≡ Fetch.Failed → Rose (faults self.old) (faults self.new) }
        ensures still { reading self.new ≡ reading self.old };

    /// Opens a file of at most `limit` bytes, to be read from its beginning; the one that was open is closed. Where the library tells
    /// its files, `Absent` comes exactly where it has none of that name and `TooLarge` exactly where the file is longer than `limit`,
    /// unless the call fails or finds no memory. `Failed` comes only where the count of faults has risen. After each answer but `Open`
    /// no file is open.
    fn open(&mut self, name: &Text, limit: u64) -> Opened
        ensures opens { Opens limit result (reading self.new) }
        ensures told { IfSome (files self.old) (λ held. FitsOpened (bytes_of held name.now) limit result (reading self.new)) }
        ensures kept { files self.new ≡ files self.old }
        ensures later { faults self.old ≤ faults self.new }
        ensures cause { result ≡ Opened.Failed → Rose (faults self.old) (faults self.new) };

    /// Gives the next bytes of the open file, at least one and at most as many as there is place for, in front of the slice; or says that there
    /// are no more, which where the file is told comes exactly at its end, unless the call fails. `Failed` comes only where the count of
    /// faults has risen. All pieces together have at most the limit that the file was opened with.
    fn next(&mut self, into: &mut [u8]) -> Piece
        requires is_open { IsOpen (reading self.old) }
        requires place { 0 < length into.old }
        ensures given { Gives (reading self.old) result into.new (reading self.new) }
        ensures kept { files self.new ≡ files self.old }
        ensures later { faults self.old ≤ faults self.new }
        ensures cause { result ≡ Piece.Failed → Rose (faults self.old) (faults self.new) };
}

/// Takes bytes, as standard output does.
pub trait Sink {
    ghost use Rattle.std.specs.Prelude.{◌≡◌, ℕ, ◌≤◌, List, Option};
    ghost use Rattle.ygg_base.specs.Outside.{Rose, PutGives};

    /// The bytes taken, where it tells them.
    ghost taken: { Self → Option (List ℕ) };
    /// How many faults there were. It never falls.
    ghost faults: { Self → ℕ };

    /// Takes all the bytes, or a front of them where it fails. `Failed` comes only where the count of faults
    /// has risen.
    fn put(&mut self, bytes: &[u8]) -> Moved
        ensures told { PutGives (taken self.old) bytes.now result (taken self.new) }
        ensures later { faults self.old ≤ faults self.new }
        ensures cause { result ≡ Moved.Failed → Rose (faults self.old) (faults self.new) };
}
