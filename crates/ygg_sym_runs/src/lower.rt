use crate::question::Awaited;
use crate::{Bank, Book, Id, NoMemory, SymValue};
use std::alloc::Global;
use ygg_list::Duplicate;

/// The machine over terms on which a block is run. Its states are values of terms; what it is made of stays the same. Each call has places of
/// its own in the unrolled text, and a machine names its inputs by them. No machine has memory for so many inputs that their numbers don't fit
/// in 64 digits: where a number doesn't, the answer is out of memory.
pub trait SymLower {
    ghost use Rattle.std.specs.Prelude.{◌≡◌, IfOk, OnOk};
    ghost use Rattle.ygg_sym_runs.specs.ygg_bank.Nodes.{Extends, IsBank};
    ghost use Rattle.ygg_sym_runs.specs.Lower.{
      SymMeaning,
      IsLower,
      CanAsk,
      CanMerge,
      Counts,
      KeepsSingle,
      question_of,
    };

    /// Its states.
    type State: Duplicate + Drop;

    /// What it does, and what that means.
    ghost means: { Self → SymMeaning Self.State };

    /// How many places a call of an operation has, where that is below 2^64.
    fn space(&self, name: &[u8]) -> Option<u64>
        ensures { Counts ((means self.now).space name.now) result };

    /// Answers a question at a place. Its only error is out of memory, after which the bank may have more nodes, and nothing is said of the
    /// state.
    fn handle<B: Book>(
        &self,
        alloc: Global,
        bank: &mut Bank,
        book: &B,
        place: u64,
        question: Awaited<'_>,
        state: &mut Self::State,
    ) -> Result<Option<SymValue>, NoMemory>
        requires asks { CanAsk (means self.now) bank.old (question_of question) state.old }
        ensures nodes { OnOk result (bank.new
            ≡ (((means self.now).machine (B.kinds book.now)).handle place (question_of question.entry) state.old bank.old).nodes) }
        ensures answer { IfOk result (λ a. a
            ≡ (((means self.now).machine (B.kinds book.now)).handle place (question_of question.entry) state.old bank.old).value.answer) }
        ensures state { OnOk result (state.new
            ≡ (((means self.now).machine (B.kinds book.now)).handle place (question_of question.entry) state.old bank.old).value.to) }
        ensures grows { Extends bank.old bank.new }
        ensures single { OnOk result (KeepsSingle bank.old bank.new) }
        ensures bank { IsBank bank.new };

    /// The first state where the test is 1, and else the second. Its only error is out of memory, after which the bank may have more nodes.
    fn merge<B: Book>(
        &self,
        alloc: Global,
        bank: &mut Bank,
        book: &B,
        test: Id,
        yes: &Self::State,
        no: &Self::State,
    ) -> Result<Self::State, NoMemory>
        requires merges { CanMerge (means self.now) bank.old test yes.now no.now }
        ensures nodes { OnOk result (bank.new ≡ (((means self.now).machine (B.kinds book.now)).merge test yes.now no.now bank.old).nodes) }
        ensures form { IfOk result (λ s. s ≡ (((means self.now).machine (B.kinds book.now)).merge test yes.now no.now bank.old).value) }
        ensures grows { Extends bank.old bank.new }
        ensures single { OnOk result (KeepsSingle bank.old bank.new) }
        ensures bank { IsBank bank.new };

    /// What it does means what it is said to mean.
    ghost keeps: { (m : Self) → IsLower (means m) };
}
