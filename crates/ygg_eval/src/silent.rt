//! The machine below a block that calls none.

use crate::{Lower, Power, Turn, Typed};
use ygg_list::NoMemory;
use ygg_value::Values;

/// A machine that has no memory for whatever it is asked.
#[derive(Drop)]
pub struct Silent;

impl Lower for Silent {
    ghost use Rattle.ygg_eval.specs.Kept.{silent_meaning};
    ghost use Rattle.ygg_eval.specs.Keeping.{silent_keeps};

    ghost means = { silent_meaning };

    ghost keeps = { silent_keeps };

    fn call(
        &mut self,
        _typed: &Typed,
        _op: u32,
        _args: &Values,
        _power: &mut Power,
    ) -> Result<Turn, NoMemory> {
        Err(NoMemory)
    }

    fn fall(
        &mut self,
        _typed: &Typed,
        _op: u32,
        _args: &Values,
        _power: &mut Power,
    ) -> Result<(), NoMemory> {
        Err(NoMemory)
    }

    fn lose(&mut self, _typed: &Typed, _power: &mut Power) -> Result<(), NoMemory> {
        Err(NoMemory)
    }
}
