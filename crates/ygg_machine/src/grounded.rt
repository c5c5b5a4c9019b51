//! A ground as the machine below the lowest layer.

ghost use Rattle.std.specs.Prelude.{◌≡◌, ◌<◌, ◌^◌, IfOk};
ghost use Rattle.ygg_machine.specs.Answered.{AnswersValue};

use crate::tower::Tower;
use crate::viewed::Viewed;
use std::marker::Model;
use ygg_eval::{Ground, Lower, Power, Turn, Typed};
use ygg_list::NoMemory;
use ygg_value::{Value, Values, shape_of};

/// A ground on which the lowest layer of a file runs, which contracts see as the ground alone.
#[derive(Drop)]
pub struct Grounded<G: Ground + Drop> {
    pub ground: G,
}

impl<G: Ground + Drop> Model for Grounded<G> {
    ghost Value = { G };

    ghost view = { λ g. g.ground };
}

impl<G: Ground + Drop> Grounded<G> {
    ghost use Rattle.std.specs.Prelude.{◌≡◌};

    /// The ground alone.
    pub fn into_ground(self) -> G
        ensures { result ≡ self }
    {
        self.ground
    }
}

/// The same result, whose answer keeps the limits of values.
fn known(ended: Result<Turn, NoMemory>) -> Result<Turn, NoMemory>
    ensures same { result ≡ ended }
    ensures value { IfOk result AnswersValue }
{
    if let Ok(Turn::Answer(value)) = &ended {
        let _ = shape_of(value);
    }
    ended
}

/// How many whole calls there were.
fn calls_so_far(power: &Power) -> u64
    ensures same { result ≡ power.now.passed }
    ensures counts { result < 2 ^ 64 }
{
    power.passed
}

impl<G: Ground + Drop> Lower for Grounded<G> {
    ghost use Rattle.ygg_machine.specs.Grounded.{ground_meaning};
    ghost use Rattle.ygg_machine.specs.GroundKeeps.{ground_keeps};

    ghost means = { ground_meaning G.means };

    ghost keeps = { ground_keeps G.means };

    fn call(
        &mut self,
        typed: &Typed,
        op: u32,
        args: &Values,
        power: &mut Power,
    ) -> Result<Turn, NoMemory> {
        let _ = typed;
        // So that the count is known to be one of 64 digits.
        let _ = calls_so_far(power);
        match (op, args.as_slice()) {
            (0, [Value::Word(at)]) => known(self.ground.read(*at, power)),
            (1, [Value::Word(at), Value::Row(row)]) => self.ground.write(*at, row, power),
            (2, []) => self.ground.flush(power),
            _ => unreachable!(),
        }
    }

    fn fall(
        &mut self,
        typed: &Typed,
        op: u32,
        args: &Values,
        power: &mut Power,
    ) -> Result<(), NoMemory> {
        // A ground can't be stopped, and stays as it was.
        Ok(())
    }

    fn lose(&mut self, typed: &Typed, power: &mut Power) -> Result<(), NoMemory> {
        // A ground can't be stopped, and stays as it was.
        Ok(())
    }
}

impl<G: Ground + Drop> Tower for Grounded<G> {
    ghost use Rattle.ygg_machine.specs.Grounded.{HasRows};
    ghost use Rattle.ygg_machine.specs.Towers.{ground_rooted};
    ghost use Rattle.ygg_machine.specs.FloorStacks.{ground_stacks};

    ghost rooted = { ground_rooted G.means };

    ghost stands = { HasRows G.means };

    ghost stacks = { ground_stacks G.means };

    fn format(&mut self, typed: &Typed, power: &mut Power) -> Result<Turn, NoMemory> {
        Ok(Turn::Done)
    }

    fn tick(
        &mut self,
        typed: &Typed,
        layer: u32,
        number: u32,
        power: &mut Power,
    ) -> Result<Turn, NoMemory> {
        // A ground has no background steps.
        Ok(Turn::Done)
    }

    fn wake(&mut self, typed: &Typed, power: &mut Power) -> Result<Turn, NoMemory> {
        Ok(Turn::Done)
    }

    fn lose_power(&mut self) {
        self.ground.lose();
    }
}

impl<G: Ground + Drop> Viewed for Grounded<G> {
    ghost use Rattle.ygg_machine.specs.Viewed.{ground_seen, ground_sees};

    ghost seen = { ground_seen G.means };

    ghost sees = { ground_sees G.means };
}
