ghost use Rattle.std.specs.Prelude.{◌≡◌, ◌<◌, [], ◌∷◌, length};
ghost use Rattle.ygg_base.specs.declared.token.Symbol.TheVariants as sign;
ghost use Rattle.ygg_syntax.specs.declared.grammar.BlockKind.TheVariants as purpose;
ghost use Rattle.ygg_syntax.specs.Expressions.{named};
ghost use Rattle.ygg_syntax.specs.Blocks.{source_in, bracketed};
ghost use Rattle.ygg_syntax.specs.Pending.{name, rest_of_arguments, right_side, sign_of};
ghost use Rattle.ygg_read.specs.ExpressionSteps.{Reads, Goes, Stops, IfRead, OnRead, IfRefused};

use crate::both::both;
use crate::reader::Reader;
use sqlite_items::Items;
use ygg_base::{Keyword, Symbol};
use ygg_list::NoMemory;
use ygg_syntax::grammar::BlockKind;
use ygg_syntax::tree::{Expr, Name, Source};

impl<'a> Reader<'a> {
    /// Reads what stands on a right side. Where nothing is answered, the first token that can't come is the next one.
    pub fn source(&mut self, kind: BlockKind) -> Result<Option<Source>, NoMemory>
        ensures reads { IfRead result (λ s. Reads (source_in kind s ∷ []) self.old self.new) }
        ensures goes { OnRead result (Goes (right_side kind ∷ []) self.old self.new) }
        ensures refused { IfRefused result (Stops (right_side kind ∷ []) self.old self.new) }
        ensures shorter { OnRead result (length self.new < length self.old) }
    {
        match kind {
            BlockKind::Plain => self.plain_source(),
            BlockKind::Spec => self.spec_source(),
            BlockKind::Impl => self.impl_source(),
        }
    }

    /// Reads a right side that neither chooses nor calls.
    fn plain_source(&mut self) -> Result<Option<Source>, NoMemory>
        ensures reads { IfRead result (λ s. Reads (source_in purpose.Plain s ∷ []) self.old self.new) }
        ensures goes { OnRead result (Goes (right_side purpose.Plain ∷ []) self.old self.new) }
        ensures refused { IfRefused result (Stops (right_side purpose.Plain ∷ []) self.old self.new) }
        ensures shorter { OnRead result (length self.new < length self.old) }
    {
        let Some(e) = self.expression()? else {
            return Ok(None);
        };
        Ok(Some(Source::Value(e)))
    }

    /// Reads a right side that may choose.
    fn spec_source(&mut self) -> Result<Option<Source>, NoMemory>
        ensures reads { IfRead result (λ s. Reads (source_in purpose.Spec s ∷ []) self.old self.new) }
        ensures goes { OnRead result (Goes (right_side purpose.Spec ∷ []) self.old self.new) }
        ensures refused { IfRefused result (Stops (right_side purpose.Spec ∷ []) self.old self.new) }
        ensures shorter { OnRead result (length self.new < length self.old) }
    {
        if let Some(place) = self.keyword(Keyword::Choose) {
            return Ok(Some(Source::Choose(place)));
        }
        let Some(e) = self.expression()? else {
            return Ok(None);
        };
        Ok(Some(Source::Value(e)))
    }

    /// Reads a right side that may call the machine below.
    fn impl_source(&mut self) -> Result<Option<Source>, NoMemory>
        ensures reads { IfRead result (λ s. Reads (source_in purpose.Impl s ∷ []) self.old self.new) }
        ensures goes { OnRead result (Goes (right_side purpose.Impl ∷ []) self.old self.new) }
        ensures refused { IfRefused result (Stops (right_side purpose.Impl ∷ []) self.old self.new) }
        ensures shorter { OnRead result (length self.new < length self.old) }
    {
        if let Some(place) = self.keyword(Keyword::Call) {
            let Some((name, arguments)) = self.called()? else {
                return Ok(None);
            };
            return Ok(Some(Source::Call(place, name, arguments)));
        }
        let Some(e) = self.expression()? else {
            return Ok(None);
        };
        Ok(Some(Source::Value(e)))
    }

    /// Reads what follows a `call`.
    pub fn called(&mut self) -> Result<Option<(Name, Items<Expr>)>, NoMemory>
        ensures reads { IfRead result (λ read. Reads (named read.0 ∷ bracketed read.1 ∷ []) self.old self.new) }
        ensures goes { OnRead result (Goes (name ∷ sign_of sign.RoundOpen ∷ rest_of_arguments ∷ []) self.old self.new) }
        ensures refused { IfRefused result (Stops (name ∷ sign_of sign.RoundOpen ∷ rest_of_arguments ∷ []) self.old self.new) }
        ensures shorter { OnRead result (length self.new < length self.old) }
    {
        let Some(name) = self.name_before(Symbol::RoundOpen)? else {
            return Ok(None);
        };
        both(name, self.arguments())
    }
}
