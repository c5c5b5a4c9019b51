//! The machine itself.

ghost use Rattle.std.specs.Prelude.{◌≡◌, ◌≤◌, IfOk, IsTrue, length};
ghost use Rattle.ygg_eval.specs.ygg_meaning.Shapes.{values_fit};
ghost use Rattle.ygg_eval.specs.Layers.{variables_at};

use crate::{Lower, Power, Turn, Typed, disk, spec};
use std::alloc::Global;
use std::marker::Model;
use ygg_list::NoMemory;
use ygg_value::Values;

/// The specification of a layer, or the disk, which contracts see as its number in the file and the values of its variables or tables.
/// It never answers `Down` or `Failed`, and it can be stopped. Each choice that a specification or a disk makes takes the next pick of
/// `power`; nothing else of `power` is looked at or changed.
pub struct SpecLower {
    alloc: Global,
    number: u32,
    state: Values,
}

impl Drop for SpecLower {
    fn drop(self) {
        let SpecLower {
            alloc: _,
            number: _,
            state,
        } = self;
        drop(state);
    }
}

impl Model for SpecLower {
    ghost use Rattle.ygg_eval.specs.Kept.{Kept};

    ghost Value = { Kept };

    ghost view = { λ m. record { number = m.number; values = m.state } };
}

/// The specification of a layer, where layers are counted from 1, or the disk for 0, with these values of its state variables or of its
/// tables, `view` before `stable`. Its only error is out of memory.
pub fn spec_lower(
    alloc: Global,
    typed: &Typed,
    layer: u32,
    state: Values,
) -> Result<SpecLower, NoMemory>
    requires layer { layer ≤ length typed.now.file.layers }
    requires state { IsTrue (values_fit (variables_at typed.now.file layer) state) }
    ensures { IfOk result (λ machine. machine ≡ record { number = layer; values = state }) }
{
    let _ = typed;
    Ok(SpecLower {
        alloc,
        number: layer,
        state,
    })
}

impl SpecLower {
    /// The values of the variables, or of the tables of the disk, in the order of their declaration. It takes no memory.
    pub fn state(&self) -> &Values
        ensures { result.now ≡ self.now.values }
    {
        &self.state
    }
}

impl Lower for SpecLower {
    ghost use Rattle.ygg_eval.specs.Kept.{spec_meaning};
    ghost use Rattle.ygg_eval.specs.Keeping.{spec_keeps};

    ghost means = { spec_meaning };

    ghost keeps = { spec_keeps };

    fn call(
        &mut self,
        typed: &Typed,
        op: u32,
        args: &Values,
        power: &mut Power,
    ) -> Result<Turn, NoMemory> {
        if self.number == 0 {
            disk::call(self.alloc, typed, op, args, &mut self.state, power)
        } else {
            spec::call(
                self.alloc,
                typed,
                self.number - 1,
                op,
                args,
                &mut self.state,
                power,
            )
        }
    }

    fn fall(
        &mut self,
        typed: &Typed,
        op: u32,
        args: &Values,
        power: &mut Power,
    ) -> Result<(), NoMemory> {
        if self.number == 0 {
            disk::fall(self.alloc, typed, op, args, &mut self.state, power)
        } else {
            spec::fall(
                self.alloc,
                typed,
                self.number - 1,
                op,
                args,
                &mut self.state,
                power,
            )
        }
    }

    fn lose(&mut self, typed: &Typed, power: &mut Power) -> Result<(), NoMemory> {
        if self.number == 0 {
            disk::lose(self.alloc, typed, &mut self.state)
        } else {
            spec::lose(self.alloc, typed, self.number - 1, &mut self.state, power)
        }
    }
}
