//! What a layer is specified over, as a machine that answers by place and notes what it takes.

ghost use Rattle.std.specs.Prelude.{◌≡◌, true, false, IfOk, OnOk, Some};
ghost use Rattle.ygg_eval_places.specs.Bits.{bits_in};
ghost use Rattle.ygg_eval_places.specs.Belows.{
  below_meaning,
  failing,
  fallen_at_end,
  falls_by,
  falls_there,
  first_of,
  noted_of,
  IsGood,
  Stands,
};
ghost use Rattle.ygg_eval_places.specs.Steps.{Answered};
ghost use Rattle.ygg_eval.specs.Layers.{below_at};
ghost use Rattle.ygg_eval_places.specs.Machines.{CanAnswer};
ghost use Rattle.ygg_eval_places.specs.ygg_sym_laws.Fronts.{cut_on, cut_takes_on, lose_on, lose_takes_on};
ghost use Rattle.ygg_eval.specs.ygg_meaning.Progress.{Call};

use crate::bits::Choices;
use crate::run::choices_room;
use crate::stops::{stops_before, stops_within};
use crate::{Places, Question, add, disk, losing, spec};
use std::alloc::Global;
use ygg_base::{Bits, Text};
use ygg_eval::{Body, Part, Stop, Typed};
use ygg_list::NoMemory;
use ygg_value::{Value, Values};

/// The bits of a run by place: those of its choices, those of its stops, of which that before the question at a place i has the number 2 i and
/// that within it the next one, and those of the choices that power makes where it fails.
#[derive(Clone, Copy)]
pub struct PlacedBits<'a> {
    pub run: Choices<'a>,
    pub stops: Choices<'a>,
    pub last: Choices<'a>,
}

/// Where power fails in a run, what it leaves of the state below, and the picks that were taken till then, with those of the failure.
#[derive(Drop)]
pub struct Fallen {
    pub stop: Stop,
    pub low: Values,
    pub picks: Bits,
}

/// The state below within a run: its values, the picks that were taken, how many questions were asked, and where power fails, if it does.
#[derive(Drop)]
pub struct BelowState {
    pub low: Values,
    pub picks: Bits,
    pub asked: u64,
    pub fallen: Option<Fallen>,
}

/// The machine that a layer is specified over: the disk, or the specification of the layer below.
#[derive(Drop)]
pub struct BelowPlaces<'a> {
    pub typed: &'a Typed,
    pub number: u32,
    pub bits: PlacedBits<'a>,
}

impl BelowPlaces<'_> {
    /// Power fails within a call.
    fn cut(
        &self,
        alloc: Global,
        name: &Text,
        args: &Values,
        state: &mut BelowState,
    ) -> Result<(), NoMemory>
        requires { CanAnswer (below_meaning self.now) (Call name.now args.now) (noted_of self.now.typed.now.file self.now.number state.old) }
        ensures { OnOk result (noted_of self.now.typed.now.file self.now.number state.new
            ≡ failing (Some (falls_there true
            (cut_on (below_at self.now.typed.now.file self.now.number) (bits_in self.now.bits.last) (Call name.now args.now)
            (noted_of self.now.typed.now.file self.now.number state.old).at)
            (cut_takes_on (below_at self.now.typed.now.file self.now.number) (bits_in self.now.bits.last) (Call name.now args.now)
            (noted_of self.now.typed.now.file self.now.number state.old).at)
            (noted_of self.now.typed.now.file self.now.number state.old))) (noted_of self.now.typed.now.file self.now.number state.old)) }
    {
        let mut picks = state.picks.copy(alloc)?;
        let low = losing::cut(
            alloc,
            self.typed,
            self.number,
            name,
            args,
            &state.low,
            self.bits.last,
            &mut picks,
        )?;
        self.falls(true, low, picks, state);
        Ok(())
    }

    /// Power fails between calls.
    fn lose(&self, alloc: Global, state: &mut BelowState) -> Result<(), NoMemory>
        requires serves { Stands self.now.typed.now.file self.now.number }
        requires good { IsGood (below_at self.now.typed.now.file self.now.number) (noted_of self.now.typed.now.file self.now.number state.old) }
        ensures { OnOk result (noted_of self.now.typed.now.file self.now.number state.new
            ≡ failing (Some (falls_there false
            (lose_on (below_at self.now.typed.now.file self.now.number) (bits_in self.now.bits.last)
            (noted_of self.now.typed.now.file self.now.number state.old).at)
            (lose_takes_on (below_at self.now.typed.now.file self.now.number) (bits_in self.now.bits.last)
            (noted_of self.now.typed.now.file self.now.number state.old).at)
            (noted_of self.now.typed.now.file self.now.number state.old))) (noted_of self.now.typed.now.file self.now.number state.old)) }
    {
        let mut picks = state.picks.copy(alloc)?;
        let low = losing::lose(
            alloc,
            self.typed,
            self.number,
            &state.low,
            self.bits.last,
            &mut picks,
        )?;
        self.falls(false, low, picks, state);
        Ok(())
    }

    /// Power has failed after as many questions as were asked.
    fn falls(&self, within: bool, low: Values, picks: Bits, state: &mut BelowState)
        ensures { state.new ≡ record state.old {
          fallen = Some (record { stop = record { within = within; event = state.old.asked }; low = low; picks = picks });
        } }
    {
        let stop = Stop {
            within,
            event: state.asked,
        };
        state.fallen = Some(Fallen { stop, low, picks });
    }

    /// Power fails before or within a call at a place, where a stop is set there and it hasn't failed before.
    fn watch(
        &self,
        alloc: Global,
        place: u64,
        name: &Text,
        args: &Values,
        state: &mut BelowState,
    ) -> Result<(), NoMemory>
        requires { CanAnswer (below_meaning self.now) (Call name.now args.now) (noted_of self.now.typed.now.file self.now.number state.old) }
        ensures { OnOk result (noted_of self.now.typed.now.file self.now.number state.new
            ≡ failing (first_of (below_at self.now.typed.now.file self.now.number) (bits_in self.now.bits.run) (bits_in self.now.bits.stops)
            (bits_in self.now.bits.last) (noted_of self.now.typed.now.file self.now.number state.old).fallen
            (falls_by (below_at self.now.typed.now.file self.now.number) (bits_in self.now.bits.run) (bits_in self.now.bits.stops)
            (bits_in self.now.bits.last) place (Call name.now args.now) (noted_of self.now.typed.now.file self.now.number state.old)))
            (noted_of self.now.typed.now.file self.now.number state.old)) }
    {
        if state.fallen.is_some() {
            return Ok(());
        }
        let before = stops_before(self.bits.stops, place)?;
        if before {
            return self.lose(alloc, state);
        }
        let within = stops_within(self.bits.stops, place)?;
        if within {
            return self.cut(alloc, name, args, state);
        }
        Ok(())
    }

    /// Power fails after all questions of a run, where the stop at the place after them is set and it hasn't failed before.
    pub fn end(&self, alloc: Global, place: u64, state: &mut BelowState) -> Result<(), NoMemory>
        requires serves { Stands self.now.typed.now.file self.now.number }
        requires good { IsGood (below_at self.now.typed.now.file self.now.number) (noted_of self.now.typed.now.file self.now.number state.old) }
        ensures { OnOk result (noted_of self.now.typed.now.file self.now.number state.new
            ≡ failing (fallen_at_end (below_at self.now.typed.now.file self.now.number) (bits_in self.now.bits.run) (bits_in self.now.bits.stops)
            (bits_in self.now.bits.last) place (noted_of self.now.typed.now.file self.now.number state.old))
            (noted_of self.now.typed.now.file self.now.number state.old)) }
    {
        if state.fallen.is_some() {
            return Ok(());
        }
        let before = stops_before(self.bits.stops, place)?;
        if before {
            return self.lose(alloc, state);
        }
        Ok(())
    }

    /// A whole call.
    fn call(
        &self,
        alloc: Global,
        place: u64,
        name: &Text,
        args: &Values,
        state: &mut BelowState,
    ) -> Result<Option<Value>, NoMemory>
        requires { CanAnswer (below_meaning self.now) (Call name.now args.now) (noted_of self.now.typed.now.file self.now.number state.old) }
        ensures answered { IfOk result (λ answer. Answered self.now.typed.now.file self.now.number (bits_in self.now.bits.run) place
            (Call name.now args.now) state.old.low answer state.new.low state.old.picks state.new.picks) }
        ensures asked { OnOk result (state.new.asked ≡ state.old.asked) }
        ensures fallen { OnOk result (state.new.fallen ≡ state.old.fallen) }
    {
        if self.number == 0 {
            return disk::call(
                alloc,
                self.typed,
                name,
                args,
                self.bits.run,
                place,
                &mut state.low,
                &mut state.picks,
            );
        }
        spec::call(
            alloc,
            self.typed,
            self.number,
            name,
            args,
            self.bits.run,
            place,
            &mut state.low,
            &mut state.picks,
        )
    }
}

impl Places for BelowPlaces<'_> {
    ghost use Rattle.ygg_eval_places.specs.Belows.{below_meaning};
    ghost use Rattle.ygg_eval_places.specs.Keeping.{belows_fit};

    type State = BelowState;

    ghost means = { below_meaning };

    fn space(&self, name: &Text) -> Result<u64, NoMemory> {
        if self.number == 0 {
            return Ok(1);
        }
        match self.typed.operation(self.number - 1, name) {
            Some(number) => {
                let body = Body {
                    layer: self.number - 1,
                    part: Part::Spec,
                    number,
                };
                let room = choices_room(self.typed, body)?;
                add(room, 1)
            }
            None => Ok(1),
        }
    }

    fn answer(
        &self,
        alloc: Global,
        place: u64,
        question: Question<'_>,
        state: &mut BelowState,
    ) -> Result<Option<Value>, NoMemory> {
        match question {
            Question::Choice => unreachable!(),
            Question::Call(name, args) => {
                self.watch(alloc, place, name, args, state)?;
                let answer = self.call(alloc, place, name, args, state)?;
                state.asked = add(state.asked, 1)?;
                Ok(answer)
            }
        }
    }

    ghost keeps = { belows_fit };
}
