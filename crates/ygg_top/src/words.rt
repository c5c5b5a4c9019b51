//! What the first word of a command asks for, by the number of words after it.

ghost use Rattle.std.specs.Prelude.{◌≡◌};
ghost use Rattle.ygg_top.specs.Words.{alone_of, on_image, one_of, three_of, two_of};

/// The commands of a word alone.
#[derive(Clone, Copy, Drop)]
pub enum Alone {
    /// `--help`.
    Help,
    /// `--version`.
    Version,
    /// None.
    Other,
}

/// The commands with one word after them.
#[derive(Clone, Copy, Drop)]
pub enum One {
    /// `verify FILE`.
    Verify,
    /// `print FILE`.
    Print,
    /// `demo N`.
    Demo,
    /// `solve CNF`.
    Solve,
    /// `certify FILE`.
    Certify,
    /// None.
    Other,
}

/// The commands with two words after them.
#[derive(Clone, Copy, Drop)]
pub enum Two {
    /// `verify FILE BUDGET`.
    Verify,
    /// `replay FILE SCHEDULE`.
    Replay,
    /// `explain FILE SCHEDULE`.
    Explain,
    /// `play FILE SCRIPT`.
    Play,
    /// `solve CNF BUDGET`.
    Solve,
    /// `cnf FILE OBLIGATION`.
    Cnf,
    /// `decide FILE OBLIGATION`.
    Decide,
    /// `certify FILE BUDGET`.
    Certify,
    /// `check FILE CERTIFICATE`.
    Check,
    /// None.
    Other,
}

/// The commands with three words after them.
#[derive(Clone, Copy, Drop)]
pub enum Three {
    /// `decide FILE OBLIGATION BUDGET`.
    Decide,
    /// None.
    Other,
}

/// The commands on an image.
#[derive(Clone, Copy, Drop)]
pub enum OnImage {
    /// `format FILE IMAGE`.
    Format,
    /// `run FILE CERTIFICATE IMAGE SCRIPT`.
    Run,
    /// None.
    Other,
}

impl Alone {
    /// What the word asks for.
    pub fn of(word: &[u8]) -> Alone
        ensures { result ≡ alone_of word.now }
    {
        if word == b"--help".as_slice() {
            return Alone::Help;
        }
        if word == b"--version".as_slice() {
            return Alone::Version;
        }
        Alone::Other
    }
}

impl One {
    /// What the word asks for.
    pub fn of(word: &[u8]) -> One
        ensures { result ≡ one_of word.now }
    {
        if word == b"verify".as_slice() {
            return One::Verify;
        }
        if word == b"print".as_slice() {
            return One::Print;
        }
        if word == b"demo".as_slice() {
            return One::Demo;
        }
        if word == b"solve".as_slice() {
            return One::Solve;
        }
        if word == b"certify".as_slice() {
            return One::Certify;
        }
        One::Other
    }
}

impl Two {
    /// What the word asks for.
    pub fn of(word: &[u8]) -> Two
        ensures { result ≡ two_of word.now }
    {
        if word == b"verify".as_slice() {
            return Two::Verify;
        }
        if word == b"replay".as_slice() {
            return Two::Replay;
        }
        if word == b"explain".as_slice() {
            return Two::Explain;
        }
        if word == b"play".as_slice() {
            return Two::Play;
        }
        if word == b"solve".as_slice() {
            return Two::Solve;
        }
        if word == b"cnf".as_slice() {
            return Two::Cnf;
        }
        if word == b"decide".as_slice() {
            return Two::Decide;
        }
        if word == b"certify".as_slice() {
            return Two::Certify;
        }
        if word == b"check".as_slice() {
            return Two::Check;
        }
        Two::Other
    }
}

impl Three {
    /// What the word asks for.
    pub fn of(word: &[u8]) -> Three
        ensures { result ≡ three_of word.now }
    {
        if word == b"decide".as_slice() {
            return Three::Decide;
        }
        Three::Other
    }
}

impl OnImage {
    /// What the word asks for.
    pub fn of(word: &[u8]) -> OnImage
        ensures { result ≡ on_image word.now }
    {
        if word == b"format".as_slice() {
            return OnImage::Format;
        }
        if word == b"run".as_slice() {
            return OnImage::Run;
        }
        OnImage::Other
    }
}
