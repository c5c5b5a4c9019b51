use std::alloc::Global;
use ygg_base::Text;
use ygg_list::NoMemory;
use ygg_value::{Value, Values};

/// What a block waits for: a choice, or the answer of an operation that it calls by name, with arguments.
#[derive(Clone, Copy)]
pub enum Question<'a> {
    /// A choice.
    Choice,
    /// The answer of an operation of this name, called with these arguments.
    Call(&'a Text, &'a Values),
}

/// A machine on which blocks are run that answers by a function of the place, the question and its state. What it is made of stays the same;
/// its state changes.
pub trait Places {
    ghost use Rattle.std.specs.Prelude.{◌≡◌, IfOk, OnOk};
    ghost use Rattle.ygg_eval_places.specs.Machines.{PlaceMeaning, IsPlaces, CanAnswer, question_of};

    /// Its states.
    type State: Drop;

    /// What it does.
    ghost means: { Self → PlaceMeaning Self.State };

    /// How many places a call of an operation has. Its only error is out of memory: no machine has memory for 2^64 places.
    fn space(&self, name: &Text) -> Result<u64, NoMemory>
        requires serves { (means self.now).Serves }
        ensures { IfOk result (λ n. n ≡ (means self.now).space name.now) };

    /// Answers a question at a place. Its only error is out of memory, after which nothing is said of the state.
    fn answer(
        &self,
        alloc: Global,
        place: u64,
        question: Question<'_>,
        state: &mut Self::State,
    ) -> Result<Option<Value>, NoMemory>
        requires asks { CanAnswer (means self.now) (question_of question) ((means self.now).state state.old) }
        ensures answer { IfOk result (λ a. a ≡ ((means self.now).handle place (question_of question.entry) ((means self.now).state state.old)).answer) }
        ensures state { OnOk result ((means self.now).state state.new
            ≡ ((means self.now).handle place (question_of question.entry) ((means self.now).state state.old)).to) };

    /// What it is made of being in order, its answers fit the questions.
    ghost keeps: { (m : Self) → IsPlaces (means m) };
}
