//! What blocks of a specification are run on.

use crate::bits::Choices;
use crate::{Places, Question};
use std::alloc::Global;
use ygg_base::{Bits, Text};
use ygg_eval::{Typed, digit};
use ygg_list::NoMemory;
use ygg_value::Value;

/// The choices of a layer's specification: each takes the bit of its place. The state is the picks that were taken so far.
#[derive(Drop)]
pub struct ChoicePlaces<'a> {
    pub typed: &'a Typed,
    pub number: u32,
    pub choices: Choices<'a>,
}

impl Places for ChoicePlaces<'_> {
    ghost use Rattle.ygg_eval_places.specs.Chosen.{choice_meaning};
    ghost use Rattle.ygg_eval_places.specs.ChoiceKeeping.{choices_fit};

    type State = Bits;

    ghost means = { choice_meaning };

    fn space(&self, _name: &Text) -> Result<u64, NoMemory> {
        Ok(1)
    }

    fn answer(
        &self,
        _alloc: Global,
        place: u64,
        _question: Question<'_>,
        state: &mut Bits,
    ) -> Result<Option<Value>, NoMemory> {
        let pick = self.choices.bit(place)?;
        state.push(pick)?;
        Ok(Some(digit(pick)))
    }

    ghost keeps = { choices_fit };
}
