ghost use Rattle.std.specs.Prelude.{◌≡◌};
ghost use Rattle.ygg_base.specs.Lexing.{spelled, keyword_of, symbol_of};

use ygg_base::{Keyword, Symbol};

/// A word or a sign that is always spelled the same.
pub trait Spelled: Copy {
    ghost use Rattle.std.specs.Prelude.{◌≡◌, ℕ, List};

    /// Its bytes.
    ghost spelling: { Self → List ℕ };

    /// Its bytes.
    fn text(self) -> &'static [u8]
        ensures { result.now ≡ spelling self };
}

impl Spelled for Keyword {
    ghost use Rattle.ygg_base.specs.Spelling.{keyword_bytes};

    ghost spelling = { keyword_bytes };

    fn text(self) -> &'static [u8] {
        match self {
            Keyword::Yggdrasil => b"yggdrasil",
            Keyword::Disk => b"disk",
            Keyword::Sync => b"sync",
            Keyword::Async => b"async",
            Keyword::Of => b"of",
            Keyword::Def => b"def",
            Keyword::Word => b"word",
            Keyword::Row => b"row",
            Keyword::Table => b"table",
            Keyword::Layer => b"layer",
            Keyword::State => b"state",
            Keyword::Start => b"start",
            Keyword::Memory => b"memory",
            Keyword::Format => b"format",
            Keyword::Op => b"op",
            Keyword::Crash => b"crash",
            Keyword::Tick => b"tick",
            Keyword::Recover => b"recover",
            Keyword::Relate => b"relate",
            Keyword::Always => b"always",
            Keyword::Settled => b"settled",
            Keyword::Maybe => b"maybe",
            Keyword::Spec => b"spec",
            Keyword::On => b"on",
            Keyword::Impl => b"impl",
            Keyword::Low => b"low",
            Keyword::Pick => b"pick",
            Keyword::Resize => b"resize",
            Keyword::Fill => b"fill",
            Keyword::All => b"all",
            Keyword::Any => b"any",
            Keyword::Below => b"below",
            Keyword::Return => b"return",
            Keyword::Let => b"let",
            Keyword::If => b"if",
            Keyword::Else => b"else",
            Keyword::For => b"for",
            Keyword::Call => b"call",
            Keyword::Choose => b"choose",
        }
    }
}

impl Spelled for Symbol {
    ghost use Rattle.ygg_base.specs.Spelling.{symbol_bytes};

    ghost spelling = { symbol_bytes };

    fn text(self) -> &'static [u8] {
        match self {
            Symbol::BraceOpen => b"{",
            Symbol::BraceClose => b"}",
            Symbol::RoundOpen => b"(",
            Symbol::RoundClose => b")",
            Symbol::SquareOpen => b"[",
            Symbol::SquareClose => b"]",
            Symbol::Semicolon => b";",
            Symbol::Colon => b":",
            Symbol::Comma => b",",
            Symbol::Dot => b".",
            Symbol::Assign => b"=",
            Symbol::Equal => b"==",
            Symbol::NotEqual => b"!=",
            Symbol::Less => b"<",
            Symbol::LessOrEqual => b"<=",
            Symbol::Greater => b">",
            Symbol::GreaterOrEqual => b">=",
            Symbol::Plus => b"+",
            Symbol::Minus => b"-",
            Symbol::Star => b"*",
            Symbol::Ampersand => b"&",
            Symbol::Bar => b"|",
            Symbol::Caret => b"^",
            Symbol::Tilde => b"~",
            Symbol::ShiftLeft => b"<<",
            Symbol::ShiftRight => b">>",
            Symbol::Implies => b"=>",
            Symbol::Arrow => b"->",
        }
    }
}

/// All keywords.
const KEYWORDS: [Keyword; 39] = [
    Keyword::Yggdrasil,
    Keyword::Disk,
    Keyword::Sync,
    Keyword::Async,
    Keyword::Of,
    Keyword::Def,
    Keyword::Word,
    Keyword::Row,
    Keyword::Table,
    Keyword::Layer,
    Keyword::State,
    Keyword::Start,
    Keyword::Memory,
    Keyword::Format,
    Keyword::Op,
    Keyword::Crash,
    Keyword::Tick,
    Keyword::Recover,
    Keyword::Relate,
    Keyword::Always,
    Keyword::Settled,
    Keyword::Maybe,
    Keyword::Spec,
    Keyword::On,
    Keyword::Impl,
    Keyword::Low,
    Keyword::Pick,
    Keyword::Resize,
    Keyword::Fill,
    Keyword::All,
    Keyword::Any,
    Keyword::Below,
    Keyword::Return,
    Keyword::Let,
    Keyword::If,
    Keyword::Else,
    Keyword::For,
    Keyword::Call,
    Keyword::Choose,
];

/// All symbols.
const SYMBOLS: [Symbol; 28] = [
    Symbol::BraceOpen,
    Symbol::BraceClose,
    Symbol::RoundOpen,
    Symbol::RoundClose,
    Symbol::SquareOpen,
    Symbol::SquareClose,
    Symbol::Semicolon,
    Symbol::Colon,
    Symbol::Comma,
    Symbol::Dot,
    Symbol::Assign,
    Symbol::Equal,
    Symbol::NotEqual,
    Symbol::Less,
    Symbol::LessOrEqual,
    Symbol::Greater,
    Symbol::GreaterOrEqual,
    Symbol::Plus,
    Symbol::Minus,
    Symbol::Star,
    Symbol::Ampersand,
    Symbol::Bar,
    Symbol::Caret,
    Symbol::Tilde,
    Symbol::ShiftLeft,
    Symbol::ShiftRight,
    Symbol::Implies,
    Symbol::Arrow,
];

/// The first of these that is spelled with those bytes.
fn first_spelled<T: Spelled + Drop>(table: &[T], part: &[u8]) -> Option<T>
    ensures { result ≡ spelled T.spelling table.now part.now }
{
    for one in table {
        if one.text() == part {
            return Some(*one);
        }
    }
    None
}

/// The keyword of these bytes.
pub fn keyword_of(part: &[u8]) -> Option<Keyword>
    ensures { result ≡ keyword_of part.now }
{
    first_spelled(&KEYWORDS, part)
}

/// The symbol of these bytes.
pub fn symbol_of(part: &[u8]) -> Option<Symbol>
    ensures { result ≡ symbol_of part.now }
{
    first_spelled(&SYMBOLS, part)
}
