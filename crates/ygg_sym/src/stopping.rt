//! Runs that power cuts.

ghost use Rattle.std.specs.Prelude.{◌≡◌, ◌++◌, IfOk};
ghost use Rattle.ygg_sym_machine.specs.ygg_bank.Nodes.{Extends, IsBank};
ghost use Rattle.ygg_sym_machine.specs.ygg_sym_runs.Names.{SymEnv};
ghost use Rattle.ygg_sym_machine.specs.ygg_sym_runs.Seen.{env_of};
ghost use Rattle.ygg_sym_machine.specs.ygg_sym_runs.Lower.{SingleFrom};
ghost use Rattle.ygg_sym_machine.specs.ygg_sym_runs.Ready.{CanRun, Ended, order_run};
ghost use Rattle.ygg_sym_spec.specs.ygg_sym_runs.WholeReady.{CanWhole};
ghost use Rattle.ygg_sym.specs.Falls.{IsFall};

use ygg_list::Duplicate;
use ygg_sym_machine::{
    Bank, Book, Halting, NoMemory, Node, StopEnd, StopState, SymBinding, SymFrame, SymLower,
    SymRunner, SymStops, end_halting,
};
use ygg_syntax::lists;
use ygg_syntax::tree::Block;
use ygg_value::Word;

/// What power leaves of a run of a block over terms that begins with these names: at the first stop that is set, and where none is, the state from
/// which it began. The stops are those of the block's places, and one after them. Its only error is out of memory, after which the bank may have
/// more nodes.
pub fn cut_short<'a, W: SymStops, B: Book>(
    runner: &SymRunner<'a, W, B>,
    b: &'a Block,
    names: Vec<SymBinding<'a>>,
    from: W::State,
    bank: &mut Bank,
) -> Result<StopEnd<W::State>, NoMemory>
    requires can { CanWhole (W.means runner.now.machine.now) runner.now.defs.now b.now bank.old (env_of names.items) from }
    requires single { SingleFrom (W.power runner.now.machine.now).first bank.old }
    ensures fall { IfOk result (λ end. (vars args : SymEnv) → env_of names.entry.items ≡ vars ++ args →
        IsFall (W.means runner.now.machine.now) (W.power runner.now.machine.now) runner.now.defs.now (B.kinds runner.now.book.now) b.now vars args
        from bank.old end.fallen end.reached bank.new) }
    ensures grows { Extends bank.old bank.new }
    ensures bank { IsBank bank.new }
{
    // the bank's nodes stand in order
    let _ = bank.len();
    let never = bank.make(Node::Const(Word { width: 1, bits: 0 }), runner.book)?;
    let fallen = from.duplicate(runner.alloc)?;
    let halting = Halting {
        stops: runner.machine,
    };
    let inner = SymRunner {
        alloc: runner.alloc,
        defs: runner.defs,
        machine: &halting,
        book: runner.book,
    };
    let state = StopState {
        to: from,
        fallen,
        stopped: never,
    };
    let ran = run(&inner, b, names, state, bank)?;
    let Ran {
        last,
        names: _,
        state,
    } = ran;
    end_halting(
        runner.machine,
        runner.alloc,
        bank,
        runner.book,
        last,
        &state.to,
        &state.fallen,
        state.stopped,
    )
}

/// How the statements of a block end.
#[derive(Drop)]
struct Ran<'a, S: Drop> {
    /// The place after them.
    last: u64,
    /// The names that they leave.
    names: Vec<SymBinding<'a>>,
    /// The state of the machine below.
    state: S,
}

/// The statements of a block. Its only error is out of memory, after which the bank may have more nodes.
fn run<'a, W: SymLower, B: Book>(
    runner: &SymRunner<'a, W, B>,
    b: &'a Block,
    names: Vec<SymBinding<'a>>,
    state: W::State,
    bank: &mut Bank,
) -> Result<Ran<'a, W::State>, NoMemory>
    requires can { CanRun (W.means runner.now.machine.now) runner.now.defs.now b.now.statements bank.old (env_of names.items) state }
    requires bank { IsBank bank.old }
    ensures ran { IfOk result (λ end.
        Ended (order_run (W.means runner.now.machine.now) runner.now.defs.now (B.kinds runner.now.book.now) b.now.statements) 0 (env_of names.entry.items)
        state bank.old end.last (env_of end.names.items) end.state bank.new) }
    ensures grows { Extends bank.old bank.new }
    ensures bank { IsBank bank.new }
{
    let mut frame = SymFrame { names, state };
    let last = runner.statements(lists::stmt::as_slice(&b.statements), 0, bank, &mut frame)?;
    let SymFrame { names, state } = frame;
    Ok(Ran { last, names, state })
}
