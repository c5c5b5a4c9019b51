//! Whole runs.

ghost use Rattle.std.specs.Prelude.{◌≡◌, ◌++◌, length, IfOk};
ghost use Rattle.std.specs.Option.{ForSome};
ghost use Rattle.ygg_sym_runs.specs.ygg_bank.Nodes.{Extends, IsBank};
ghost use Rattle.ygg_sym_runs.specs.Wholes.{sym_returned};
ghost use Rattle.ygg_sym_runs.specs.Names.{SymEnv};
ghost use Rattle.ygg_sym_runs.specs.Seen.{CanTerm, env_of};
ghost use Rattle.ygg_sym_runs.specs.Lower.{KeepsSingle};
ghost use Rattle.ygg_sym_runs.specs.Ready.{known_with, terms_of};
ghost use Rattle.ygg_sym_runs.specs.WholeReady.{CanWhole, IsWhole};
ghost use Rattle.std.specs.Prelude.{OnOk};

use crate::lower::SymLower;
use crate::runner::SymRunner;
use crate::statements::SymFrame;
use crate::{Bank, Book, NoMemory, SymBinding, SymValue};
use ygg_syntax::lists;
use ygg_syntax::tree::{Block, Expr};

/// How a whole run ended.
#[derive(Drop)]
pub struct WholeRun<'a, S: Drop> {
    /// What the block returns.
    pub answer: Option<SymValue>,
    /// The variables, by name.
    pub names: Vec<SymBinding<'a>>,
    /// The state of the machine below.
    pub state: S,
}

/// A whole run of a block over terms: it begins with variables, of which there are so many, and with arguments after them. Its only error is
/// out of memory, after which the bank may have more nodes.
pub fn whole<'a, W: SymLower, B: Book>(
    runner: &SymRunner<'a, W, B>,
    b: &'a Block,
    names: Vec<SymBinding<'a>>,
    count: usize,
    state: W::State,
    bank: &mut Bank,
) -> Result<WholeRun<'a, W::State>, NoMemory>
    requires can { CanWhole (W.means runner.now.machine.now) runner.now.defs.now b.now bank.old (env_of names.items) state }
    ensures whole { IfOk result (λ end. (vars args : SymEnv) → env_of names.entry.items ≡ vars ++ args → length vars ≡ count →
        IsWhole (W.means runner.now.machine.now) runner.now.defs.now (B.kinds runner.now.book.now) b.now vars args state bank.old
        end.answer (env_of end.names.items) end.state bank.new) }
    ensures grows { Extends bank.old bank.new }
    ensures bank { IsBank bank.new }
{
    // the bank's nodes stand in order
    let _ = bank.len();
    let mut frame = SymFrame { names, state };
    runner.statements(lists::stmt::as_slice(&b.statements), 0, bank, &mut frame)?;
    let answer = returned(runner, &b.answer, bank, frame.names.as_slice())?;
    let SymFrame { mut names, state } = frame;
    names.truncate(count);
    Ok(WholeRun {
        answer,
        names,
        state,
    })
}

/// What a block returns.
fn returned<'a, W: SymLower, B: Book>(
    runner: &SymRunner<'a, W, B>,
    answer: &'a Option<Expr>,
    bank: &mut Bank,
    names: &[SymBinding<'a>],
) -> Result<Option<SymValue>, NoMemory>
    requires can { ForSome answer.now (CanTerm (known_with runner.now.defs.now (env_of names.now)) bank.old) }
    requires bank { IsBank bank.old }
    ensures nodes { OnOk result (bank.new ≡ (sym_returned (B.kinds runner.now.book.now) (terms_of (B.kinds runner.now.book.now) runner.now.defs.now)
        ((W.means runner.now.machine.now).machine (B.kinds runner.now.book.now)) answer.now (env_of names.now) bank.old).nodes) }
    ensures form { IfOk result (λ y. y ≡ (sym_returned (B.kinds runner.now.book.now) (terms_of (B.kinds runner.now.book.now) runner.now.defs.now)
        ((W.means runner.now.machine.now).machine (B.kinds runner.now.book.now)) answer.now (env_of names.now) bank.old).value) }
    ensures grows { Extends bank.old bank.new }
    ensures bank { IsBank bank.new }
    ensures single { OnOk result (KeepsSingle bank.old bank.new) }
{
    match answer {
        Some(e) => {
            let value = runner.value(e, bank, names)?;
            Ok(Some(value))
        }
        None => Ok(None),
    }
}
