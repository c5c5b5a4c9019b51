use std::alloc::Global;
use ygg_sym_runs::{Awaited, Bank, Book, Id, NoMemory, SymLower};

/// A machine over terms whose power fails: at each stop of a run that is set, there being one before and one within each question and one after
/// all of them. Each stop has an input of the bank, from a number on, and what power leaves has inputs of its own.
pub trait SymStops: SymLower {
    ghost use Rattle.std.specs.Prelude.{◌≡◌, IfOk, OnOk};
    ghost use Rattle.ygg_sym_runs.specs.ygg_bank.Nodes.{Extends, IsBank};
    ghost use Rattle.ygg_sym_runs.specs.Lower.{CanMerge, KeepsSingle, question_of};
    ghost use Rattle.ygg_sym_machine.specs.Stopping.{CanCut, CanLose, IsPower, Power};

    /// What power leaves, and which inputs say where it fails.
    ghost power: { Self → Power Self.State };

    /// The number of the first stop's input.
    fn stop(&self) -> u64
        ensures { result ≡ (power self.now).stop };

    /// What power leaves that fails within a question. Its only error is out of memory, after which the bank may have more nodes.
    fn cut<B: Book>(
        &self,
        alloc: Global,
        bank: &mut Bank,
        book: &B,
        question: Awaited<'_>,
        state: &Self::State,
    ) -> Result<Self::State, NoMemory>
        requires cuts { CanCut (Self.means self.now) (power self.now) bank.old (question_of question) state.now }
        ensures nodes { OnOk result (bank.new ≡ ((power self.now).cut (B.kinds book.now) (question_of question.entry) state.now bank.old).nodes) }
        ensures form { IfOk result (λ left. left ≡ ((power self.now).cut (B.kinds book.now) (question_of question.entry) state.now bank.old).value) }
        ensures grows { Extends bank.old bank.new }
        ensures single { OnOk result (KeepsSingle bank.old bank.new) }
        ensures bank { IsBank bank.new };

    /// What power leaves that fails between questions. Its only error is out of memory, after which the bank may have more nodes.
    fn lose<B: Book>(
        &self,
        alloc: Global,
        bank: &mut Bank,
        book: &B,
        state: &Self::State,
    ) -> Result<Self::State, NoMemory>
        requires loses { CanLose (Self.means self.now) (power self.now) bank.old state.now }
        ensures nodes { OnOk result (bank.new ≡ ((power self.now).lose (B.kinds book.now) state.now bank.old).nodes) }
        ensures form { IfOk result (λ left. left ≡ ((power self.now).lose (B.kinds book.now) state.now bank.old).value) }
        ensures grows { Extends bank.old bank.new }
        ensures single { OnOk result (KeepsSingle bank.old bank.new) }
        ensures bank { IsBank bank.new };

    /// Of what power leaves, the first where the test is 1, and else the second. Its only error is out of memory, after which the bank may have more
    /// nodes.
    fn join<B: Book>(
        &self,
        alloc: Global,
        bank: &mut Bank,
        book: &B,
        test: Id,
        yes: &Self::State,
        no: &Self::State,
    ) -> Result<Self::State, NoMemory>
        requires merges { CanMerge (Self.means self.now) bank.old test yes.now no.now }
        ensures nodes { OnOk result (bank.new ≡ ((power self.now).join (B.kinds book.now) test yes.now no.now bank.old).nodes) }
        ensures form { IfOk result (λ left. left ≡ ((power self.now).join (B.kinds book.now) test yes.now no.now bank.old).value) }
        ensures grows { Extends bank.old bank.new }
        ensures single { OnOk result (KeepsSingle bank.old bank.new) }
        ensures bank { IsBank bank.new };

    /// What power leaves stands among the nodes.
    ghost keeps_power: { (m : Self) → IsPower (Self.means m) (power m) };
}
