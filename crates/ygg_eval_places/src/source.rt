//! The right sides and calls of a block.

ghost use Rattle.std.specs.Prelude.{◌≡◌, ◌+◌, IfOk, OnOk};
ghost use Rattle.ygg_meaning_laws.specs.Direct.{source_got, source_space};
ghost use Rattle.ygg_eval.specs.Ready.{eval_in};
ghost use Rattle.ygg_eval.specs.ygg_eval_expr.Held.{env_of};
ghost use Rattle.ygg_eval_places.specs.Machines.{CanAnswer, question_of};
ghost use Rattle.ygg_eval_places.specs.Ready.{CanAsk};
ghost use Rattle.ygg_meaning_laws.specs.ygg_meaning.Progress.{value_in};

use crate::places::{Places, Question};
use crate::unrolled::{add, source_room};
use crate::walker::Walker;
use ygg_eval::{Binding, digit};
use ygg_list::NoMemory;
use ygg_syntax::lists;
use ygg_syntax::tree::Source;
use ygg_value::Value;

impl<'a, W: Places> Walker<'a, W> {
    /// The value of an answer. An operation without an answer, which no typed file asks for a value, gives a single digit 0.
    fn ask(
        &self,
        place: u64,
        question: Question<'_>,
        state: &mut W::State,
    ) -> Result<Value, NoMemory>
        requires asks { CanAnswer (W.means self.now.machine.now) (question_of question) ((W.means self.now.machine.now).state state.old) }
        ensures value { IfOk result (λ v. v
            ≡ value_in ((W.means self.now.machine.now).handle place (question_of question.entry) ((W.means self.now.machine.now).state state.old)).answer) }
        ensures state { OnOk result ((W.means self.now.machine.now).state state.new
            ≡ ((W.means self.now.machine.now).handle place (question_of question.entry) ((W.means self.now.machine.now).state state.old)).to) }
    {
        match self
            .machine
            .answer(self.runner.alloc, place, question, state)?
        {
            Some(value) => Ok(value),
            None => Ok(digit(false)),
        }
    }

    /// The value of a right side at a place. Its only error is out of memory, after which nothing is said of the state.
    pub fn source(
        &self,
        from: &'a Source,
        place: u64,
        names: &[Binding<'a, '_>],
        state: &mut W::State,
    ) -> Result<Value, NoMemory>
        requires can { CanAsk (W.means self.now.machine.now) self.now.runner.typed.now.file self.now.runner.number from.now (env_of names.now)
            ((W.means self.now.machine.now).state state.old) }
        ensures value { IfOk result (λ v. v
            ≡ (source_got (eval_in self.now.runner.typed.now.file) (W.means self.now.machine.now).space (W.means self.now.machine.now).handle from.now place
            (env_of names.now) ((W.means self.now.machine.now).state state.old)).value) }
        ensures state { OnOk result ((W.means self.now.machine.now).state state.new
            ≡ (source_got (eval_in self.now.runner.typed.now.file) (W.means self.now.machine.now).space (W.means self.now.machine.now).handle from.now place
            (env_of names.now) ((W.means self.now.machine.now).state state.old)).to) }
    {
        match from {
            Source::Value(e) => self.runner.value(e, names),
            Source::Choose(_) => self.ask(place, Question::Choice, state),
            Source::Call(_, f, es) => {
                let args = self.runner.values(lists::expr::as_slice(es), names)?;
                self.ask(place, Question::Call(&f.text, &args), state)
            }
        }
    }

    /// The place after a right side at a place. Its only error is out of memory.
    pub fn after(&self, from: &Source, place: u64) -> Result<u64, NoMemory>
        requires serves { (W.means self.now.machine.now).Serves }
        ensures { IfOk result (λ end. end ≡ place + source_space (W.means self.now.machine.now).space from.now) }
    {
        let room = source_room(self.machine, from)?;
        add(place, room)
    }
}
