//! From a text to the layer file that it is, or to its first refusal.
#![tactic(auto)]

ghost use Rattle.std.specs.Prelude.{◌≤◌, length, IfOk, IfErr};
ghost use Rattle.ygg_base.specs.Failure.{IfRefused};
ghost use Rattle.ygg_accept.specs.Accepting.{IsAccepted, RefusesLayers};

use std::alloc::Global;
use ygg_base::{Refuse, Tokens};
use ygg_lex::tokens;
use ygg_print::one_file_derives;
use ygg_read::read;
use ygg_type::{Typed, check};

/// A layer file without a type error, and the tokens that it was read from.
#[derive(Drop)]
pub struct Accepted {
    pub tokens: Tokens,
    pub typed: Typed,
}

/// The one layer file that a text is. A text is refused 1 or 2 at the first byte that begins no token, 3 at the first token that
/// can't come, and 4 to 10 at the first type error of the file. The other error is out of memory.
pub fn accept(alloc: Global, text: &[u8]) -> Result<Accepted, Refuse>
    requires { length text.now ≤ 1048576 }
    ensures accepted { IfOk result (λ a. IsAccepted text.now a.tokens a.typed.file) }
    ensures refused { IfErr result (λ refuse. IfRefused refuse (RefusesLayers text.now)) }
{
    one_file_derives();
    let tokens = tokens(alloc, text)?;
    let file = read(alloc, &tokens)?;
    let typed = check(alloc, file)?;
    Ok(Accepted { tokens, typed })
}
