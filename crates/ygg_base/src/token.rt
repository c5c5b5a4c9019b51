use crate::lists::Text;
use std::alloc::Global;
use ygg_list::{Duplicate, NoMemory};

/// A word of the language that is no name.
#[derive(Clone, Copy, PartialEq, Eq, Drop)]
pub enum Keyword {
    Yggdrasil,
    Disk,
    Sync,
    Async,
    Of,
    Def,
    Word,
    Row,
    Table,
    Layer,
    State,
    Start,
    Memory,
    Format,
    Op,
    Crash,
    Tick,
    Recover,
    Relate,
    Always,
    Settled,
    Maybe,
    Spec,
    On,
    Impl,
    Low,
    Pick,
    Resize,
    Fill,
    All,
    Any,
    Below,
    Return,
    Let,
    If,
    Else,
    For,
    Call,
    Choose,
}

/// A sign of the language. Where the sign has several meanings it has the name of its shape.
#[derive(Clone, Copy, PartialEq, Eq, Drop)]
pub enum Symbol {
    BraceOpen,
    BraceClose,
    RoundOpen,
    RoundClose,
    SquareOpen,
    SquareClose,
    Semicolon,
    Colon,
    Comma,
    Dot,
    Assign,
    Equal,
    NotEqual,
    Less,
    LessOrEqual,
    Greater,
    GreaterOrEqual,
    Plus,
    Minus,
    Star,
    Ampersand,
    Bar,
    Caret,
    Tilde,
    ShiftLeft,
    ShiftRight,
    Implies,
    Arrow,
}

/// What a token is.
#[derive(Drop)]
pub enum Mark {
    Name(Text),
    Num(u64),
    Keyword(Keyword),
    Symbol(Symbol),
}

/// A token and the place of its first byte, counted from 1.
#[derive(Drop)]
pub struct Token {
    pub mark: Mark,
    pub line: u32,
    pub column: u32,
}

impl Duplicate for Mark {
    fn duplicate(&self, alloc: Global) -> Result<Mark, NoMemory> {
        match self {
            Mark::Name(text) => Ok(Mark::Name(text.copy(alloc)?)),
            Mark::Num(number) => Ok(Mark::Num(*number)),
            Mark::Keyword(keyword) => Ok(Mark::Keyword(*keyword)),
            Mark::Symbol(symbol) => Ok(Mark::Symbol(*symbol)),
        }
    }
}

impl Duplicate for Token {
    fn duplicate(&self, alloc: Global) -> Result<Token, NoMemory> {
        Ok(Token {
            mark: self.mark.duplicate(alloc)?,
            line: self.line,
            column: self.column,
        })
    }
}
