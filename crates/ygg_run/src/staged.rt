//! Layers as a scene.

ghost use Rattle.std.specs.Prelude.{◌≡◌, ◌≢◌, Ok};
ghost use Rattle.ygg_machine.specs.ygg_eval.Lower.{Failed, ending_of};
ghost use Rattle.ygg_run.specs.TowerPlaying.{ending_in};

use crate::playable::Playable;
use std::marker::Model;
use ygg_list::NoMemory;
use ygg_machine::{Floor, Power, Turn, Typed, viewed};
use ygg_run_play::{CommandOutcome, Scene};
use ygg_value::Values;

/// The layers of a file on its disk in memory, which contracts see as the layers alone.
#[derive(Drop)]
pub struct Staged<W: Playable + Drop> {
    pub tower: Floor<W>,
}

impl<W: Playable + Drop> Model for Staged<W> {
    ghost use Rattle.ygg_machine.specs.Floors.{Raised};

    ghost Value = { Raised W };

    ghost view = { λ s. s.tower };
}

/// How a command ended, which can't have failed.
fn outcome_of(turn: Turn) -> CommandOutcome
    requires { ending_of (Ok turn) ≢ Failed }
    ensures { ending_in result ≡ ending_of (Ok turn) }
{
    match turn {
        Turn::Done => CommandOutcome::Whole(None),
        Turn::Answer(answer) => CommandOutcome::Whole(Some(answer)),
        Turn::Down => CommandOutcome::Down,
        Turn::Failed => unreachable!(),
    }
}

impl<W: Playable + Drop> Scene for Staged<W> {
    ghost use Rattle.std.specs.Prelude.{length};
    ghost use Rattle.ygg_machine.specs.Viewed.{floor_seen};
    ghost use Rattle.ygg_run_play.specs.Played.{Noted};
    ghost use Rattle.ygg_run.specs.TowerPlaying.{state_played, IsUnwritten, Plays, MayWake};
    ghost use Rattle.ygg_run.specs.Falling.{falls_in_layers};

    ghost machine = { Noted };

    ghost state = { λ f s. state_played W.seen.means f ((floor_seen W.seen).look s) };

    ghost fresh = { λ f s. IsUnwritten W.seen.means f (length f.layers) ((floor_seen W.seen).look s) };

    ghost runs = { λ f s. Plays W.seen.means f ((floor_seen W.seen).look s) };

    ghost stands = { λ f s. MayWake W.seen.means f ((floor_seen W.seen).look s) };

    ghost falls_after_all = { λ f s runs. falls_in_layers f (W.seen.look s.below).height runs.on_disk.height };

    fn format(&mut self, typed: &Typed, power: &mut Power) -> Result<(), NoMemory> {
        let _ = viewed::format(&mut self.tower, typed, power)?;
        Ok(())
    }

    fn call(
        &mut self,
        typed: &Typed,
        op: u32,
        args: &Values,
        power: &mut Power,
    ) -> Result<CommandOutcome, NoMemory> {
        let turn = viewed::call(&mut self.tower, typed, op, args, power)?;
        Ok(outcome_of(turn))
    }

    fn tick(
        &mut self,
        typed: &Typed,
        layer: u32,
        number: u32,
        power: &mut Power,
    ) -> Result<CommandOutcome, NoMemory> {
        let turn = viewed::tick(&mut self.tower, typed, layer, number, power)?;
        Ok(outcome_of(turn))
    }

    fn wake(&mut self, typed: &Typed, power: &mut Power) -> Result<CommandOutcome, NoMemory> {
        let turn = viewed::wake(&mut self.tower, typed, power)?;
        Ok(outcome_of(turn))
    }

    fn lose(&mut self) {
        viewed::lose(&mut self.tower);
    }
}
