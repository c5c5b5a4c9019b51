ghost use Rattle.std.specs.Prelude.{◌≡◌, ◌<◌, ◌↔◌, [], ◌∷◌, ◌++◌, length, slice_get, IsTrue, OnOk, OnErr, IfOk};

use crate::token::Token;
use std::alloc::Global;
use ygg_list::{Duplicate, NoMemory, Sequence};

/// The tokens of a text in order, and the place after its last byte, counted from 1.
#[derive(Drop)]
pub struct Tokens {
    pub items: Sequence<Token>,
    pub line: u32,
    pub column: u32,
}

impl Tokens {
    /// No tokens of a text that ends at this place. It takes no memory.
    pub fn new(alloc: Global, line: u32, column: u32) -> Tokens
        ensures items { result.items ≡ [] }
        ensures line { result.line ≡ line }
        ensures column { result.column ≡ column }
    {
        Tokens {
            items: Sequence::new(alloc),
            line,
            column,
        }
    }

    /// Adds a token at the end. After running out of memory the tokens are as before.
    pub fn push(&mut self, token: Token) -> Result<(), NoMemory>
        ensures ok { OnOk result (self.new.items ≡ self.old.items ++ token ∷ []) }
        ensures err { OnErr result (self.new ≡ self.old) }
        ensures line { self.new.line ≡ self.old.line }
        ensures column { self.new.column ≡ self.old.column }
    {
        self.items.push(token)
    }

    /// Equal tokens. Its only error is out of memory.
    pub fn copy(&self, alloc: Global) -> Result<Tokens, NoMemory>
        ensures { IfOk result (λ copy. copy ≡ self.now) }
    {
        Ok(Tokens {
            items: self.items.copy(alloc)?,
            line: self.line,
            column: self.column,
        })
    }

    /// How many tokens there are.
    pub fn len(&self) -> usize
        ensures { result ≡ length self.now.items }
    {
        self.items.len()
    }

    /// Whether there are no tokens.
    pub fn is_empty(&self) -> bool
        ensures { IsTrue result ↔ (self.now.items ≡ []) }
    {
        self.items.is_empty()
    }

    /// The token at a place of the list, counted from 0.
    pub fn at(&self, place: usize) -> &Token
        requires { place < length self.now.items }
        ensures { slice_get self.now.items place ≡ Some result.now }
    {
        self.items.at(place)
    }

    /// All tokens as a slice.
    pub fn as_slice(&self) -> &[Token]
        ensures { result.now ≡ self.now.items }
    {
        self.items.as_slice()
    }
}
