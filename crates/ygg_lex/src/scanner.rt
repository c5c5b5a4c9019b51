ghost use Rattle.std.specs.Prelude.{◌≡◌, ◌<◌, ◌≤◌, ◌+◌, ◌^◌, length, if◌then◌else◌, Ok, Err, IfOk, IfErr, OnOk};
ghost use Rattle.ygg_base.specs.Lexing.{Lexed, tokens_of, is_blank, closed, after_these, line_after, column_after};
ghost use Rattle.ygg_base.specs.Failure.{IfRefused};

use crate::recognize::{extends, is_blank, is_past_ascii, recognized};
use std::alloc::Global;
use ygg_base::{Reason, Refuse, Sequence, Token, Tokens};

/// The tokens so far of a text that is read byte by byte, and where the next byte stands.
#[derive(Drop)]
struct Scanner {
    alloc: Global,
    items: Sequence<Token>,
    /// Where the token or comment that has begun starts in the text; the next byte's place if none has.
    start: usize,
    /// The column of that start.
    begun: u32,
    line: u32,
    column: u32,
}

impl Scanner {
    ghost use Rattle.ygg_lex.specs.Scanning.{from_here, IsWithin};

    /// Ends the token or the comment of these bytes, if there are any.
    fn close(&mut self, part: &[u8]) -> Result<(), Refuse>
        ensures ok { OnOk result ((others : Lexed) → after_these self.old.items (closed part.now self.old.line self.old.begun others)
            ≡ after_these self.new.items others) }
        ensures refused { IfErr result (λ refuse. IfRefused refuse
            (λ refusal. (others : Lexed) → after_these self.old.items (closed part.now self.old.line self.old.begun others) ≡ Err refusal)) }
        ensures start { self.new.start ≡ self.old.start }
        ensures begun { self.new.begun ≡ self.old.begun }
        ensures line { self.new.line ≡ self.old.line }
        ensures column { self.new.column ≡ self.old.column }
    {
        if part.is_empty() || part[0] == b'#' {
            return Ok(());
        }
        let (line, column) = (self.line, self.begun);
        match recognized(self.alloc, part) {
            Ok(Some(mark)) => match self.items.push(Token { mark, line, column }) {
                Ok(()) => Ok(()),
                Err(_) => Err(Refuse::Memory),
            },
            Ok(None) => Err(Refuse::At(Reason::Token.at(line, column))),
            Err(_) => Err(Refuse::Memory),
        }
    }

    /// Begins what the byte at that place begins, if it isn't a blank, and goes past it.
    fn begin(&mut self, place: usize, byte: u8)
        requires place { place < 2 ^ 20 }
        requires line { self.old.line < 2 ^ 20 + 1 }
        requires column { self.old.column < 2 ^ 20 + 1 }
        ensures items { self.new.items ≡ self.old.items }
        ensures start { self.new.start ≡ (if is_blank byte then place + 1 else place) }
        ensures begun { self.new.begun ≡ self.old.column }
        ensures line { self.new.line ≡ line_after byte self.old.line }
        ensures column { self.new.column ≡ column_after byte self.old.column }
    {
        self.start = if is_blank(byte) { place + 1 } else { place };
        self.begun = self.column;
        if byte == b'\n' {
            self.line += 1;
            self.column = 1;
        } else {
            self.column += 1;
        }
    }

    /// Reads the byte at a place.
    fn read(&mut self, text: &[u8], place: usize) -> Result<(), Refuse>
        requires size { length text.now ≤ 2 ^ 20 }
        requires place { place < length text.now }
        requires within { IsWithin self.old place }
        ensures ok { OnOk result (from_here self.old text.now place ≡ from_here self.new text.now (place + 1)) }
        ensures refused { IfErr result (λ refuse. IfRefused refuse (λ refusal. from_here self.old text.now place ≡ Err refusal)) }
        ensures within { OnOk result (IsWithin self.new (place + 1)) }
    {
        let byte = text[place];
        let part = &text[self.start..place];
        if is_past_ascii(byte) {
            return match self.close(part) {
                Ok(()) => Err(Refuse::At(Reason::NotAscii.at(self.line, self.column))),
                Err(refuse) => Err(refuse),
            };
        }
        if extends(part, byte) {
            self.column += 1;
            return Ok(());
        }
        if let Err(refuse) = self.close(part) {
            return Err(refuse);
        }
        self.begin(place, byte);
        Ok(())
    }
}

/// The tokens of a text of at most 1,048,576 bytes with their places, and the place of its end. A byte of
/// 128 or more is refused 1, any other byte that begins no token and a number that has a leading zero or
/// is 2 ^ 64 or more are refused 2, the first such place in the text. Its other error is out of memory.
pub fn tokens(alloc: Global, text: &[u8]) -> Result<Tokens, Refuse>
    requires { length text.now ≤ 1048576 }
    ensures found { IfOk result (λ tokens. tokens_of text.now ≡ Ok tokens) }
    ensures refused { IfErr result (λ refuse. IfRefused refuse (λ refusal. tokens_of text.now ≡ Err refusal)) }
{
    let mut scanner = Scanner {
        alloc,
        items: Sequence::new(alloc),
        start: 0,
        begun: 1,
        line: 1,
        column: 1,
    };
    for place in 0..text.len() {
        if let Err(refuse) = scanner.read(text, place) {
            return Err(refuse);
        }
    }
    let start = scanner.start;
    if let Err(refuse) = scanner.close(&text[start..]) {
        return Err(refuse);
    }
    let Scanner {
        items,
        line,
        column,
        ..
    } = scanner;
    Ok(Tokens {
        items,
        line,
        column,
    })
}
