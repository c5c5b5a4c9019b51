use thiserror::Error;

/// Why a text or the words of a command are refused, and where: lines and columns count from 1, by line feeds
/// and bytes. Line 0 stands for the words themselves, and the column is then the word's position.
#[derive(Clone, Copy, Debug, PartialEq, Eq, Drop, Error)]
#[error("refused {number} {line}:{column}")]
pub struct Refusal {
    pub number: u8,
    pub line: u32,
    pub column: u32,
}

/// Why a text isn't read: it is refused, or no memory was left.
#[derive(Clone, Copy, Debug, PartialEq, Eq, Drop, Error)]
pub enum Refuse {
    #[error("{0}")]
    At(Refusal),
    #[error("out of memory")]
    Memory,
}
