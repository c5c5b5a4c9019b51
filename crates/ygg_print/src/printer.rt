ghost use Rattle.std.specs.Prelude.{◌≡◌, ◌++◌, ◌∷◌, [], OnOk, map};
ghost use Rattle.ygg_base.specs.declared.token.Mark.TheVariants as mark;
ghost use Rattle.ygg_print.specs.Plain.{plain_mark};

use std::alloc::Global;
use std::marker::Model;
use ygg_base::{Keyword, Mark, Symbol};
use ygg_list::{NoMemory, Sequence};
use ygg_syntax::tree::Name;

/// A token that is no name.
#[derive(Clone, Copy)]
pub enum Plain {
    Keyword(Keyword),
    Symbol(Symbol),
    Number(u64),
}

impl Plain {
    /// Its mark.
    fn mark(self) -> Mark
        ensures { result ≡ plain_mark self }
    {
        match self {
            Plain::Keyword(keyword) => Mark::Keyword(keyword),
            Plain::Symbol(symbol) => Mark::Symbol(symbol),
            Plain::Number(number) => Mark::Num(number),
        }
    }
}

/// The marks so far.
#[derive(Drop)]
pub struct Printer {
    alloc: Global,
    marks: Sequence<Mark>,
}

impl Model for Printer {
    ghost use Rattle.std.specs.Prelude.{List};
    ghost use Rattle.ygg_base.specs.declared.token.Mark.{Mark};

    ghost Value = { List Mark };

    ghost view = { λ printer. printer.marks };
}

impl Printer {
    /// No marks.
    pub fn new(alloc: Global) -> Printer
        ensures { result ≡ [] }
    {
        Printer {
            alloc,
            marks: Sequence::new(alloc),
        }
    }

    /// All the marks.
    pub fn into_marks(self) -> Sequence<Mark>
        ensures { result ≡ self }
    {
        self.marks
    }

    /// A symbol.
    pub fn symbol(&mut self, symbol: Symbol) -> Result<(), NoMemory>
        ensures { OnOk result (self.new ≡ self.old ++ mark.Symbol symbol ∷ []) }
    {
        self.marks.push(Mark::Symbol(symbol))
    }

    /// A keyword.
    pub fn keyword(&mut self, keyword: Keyword) -> Result<(), NoMemory>
        ensures { OnOk result (self.new ≡ self.old ++ mark.Keyword keyword ∷ []) }
    {
        self.marks.push(Mark::Keyword(keyword))
    }

    /// Tokens in order.
    pub fn tokens(&mut self, tokens: &[Plain]) -> Result<(), NoMemory>
        ensures { OnOk result (self.new ≡ self.old ++ map plain_mark tokens.now) }
    {
        for token in tokens {
            self.marks.push(token.mark())?;
        }
        Ok(())
    }

    /// A name.
    pub fn name(&mut self, name: &Name) -> Result<(), NoMemory>
        ensures { OnOk result (self.new ≡ self.old ++ mark.Name name.now.text ∷ []) }
    {
        let text = name.text.copy(self.alloc)?;
        self.marks.push(Mark::Name(text))
    }

    /// A keyword and a name.
    pub fn titled(&mut self, keyword: Keyword, name: &Name) -> Result<(), NoMemory>
        ensures { OnOk result (self.new ≡ self.old ++ mark.Keyword keyword ∷ mark.Name name.now.text ∷ []) }
    {
        self.keyword(keyword)?;
        self.name(name)
    }
}
