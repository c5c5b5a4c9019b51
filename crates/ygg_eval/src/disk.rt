//! The disk, whose tables are read and written in place.

ghost use Rattle.std.specs.Prelude.{IsTrue, OnOk};
ghost use Rattle.ygg_eval.specs.ygg_meaning.Shapes.{values_fit};
ghost use Rattle.ygg_eval.specs.Layers.{variables_at, signatures_at};
ghost use Rattle.ygg_eval.specs.Lower.{IsCallable, Called, Fell, AfterWhole, ending_of, outage_of};
ghost use Rattle.ygg_eval.specs.Kept.{spec_meaning, standing, Loses};
ghost use Rattle.ygg_eval.specs.ygg_disk.declared.power.Power.{Power as PowerIs};

use crate::rows::{cut_write, lose_unstable, read, settle, write};
use crate::{Power, Turn, Typed};
use std::alloc::Global;
use std::mem;
use ygg_list::{NoMemory, Sequence};
use ygg_value::{Value, Values};

/// Calls an operation on the tables.
fn call_tables(
    alloc: Global,
    typed: &Typed,
    op: u32,
    args: &Values,
    tables: &mut [Value],
    power: &mut Power,
) -> Result<Turn, NoMemory>
    requires fits { IsTrue (values_fit (variables_at typed.now.file 0) tables.old) }
    requires operation { IsCallable (signatures_at typed.now.file 0) op args.now }
    ensures called { Called spec_meaning typed.now.file (signatures_at typed.now.file 0) op args.now (ending_of result)
        (standing 0 tables.old power.old) (standing 0 tables.new power.new) }
    ensures fits { AfterWhole (ending_of result) (IsTrue (values_fit (variables_at typed.now.file 0) tables.new)) }
{
    let kind = typed.file().disk.kind;
    match op {
        0 => {
            let row = read(alloc, typed.geometry(), &tables[0], args.at(0))?;
            Ok(Turn::Answer(row))
        }
        1 => {
            write(kind, tables, args.at(0), args.at(1), power);
            Ok(Turn::Done)
        }
        _ => {
            settle(alloc, kind, tables)?;
            Ok(Turn::Done)
        }
    }
}

/// Power fails within an operation on the tables.
fn fall_tables(
    alloc: Global,
    typed: &Typed,
    op: u32,
    args: &Values,
    tables: &mut [Value],
    power: &mut Power,
) -> Result<(), NoMemory>
    requires fits { IsTrue (values_fit (variables_at typed.now.file 0) tables.old) }
    requires operation { IsCallable (signatures_at typed.now.file 0) op args.now }
    ensures fell { Fell spec_meaning typed.now.file (signatures_at typed.now.file 0) op args.now (outage_of result)
        (standing 0 tables.old power.old) (standing 0 tables.new power.new) }
    ensures fits { OnOk result (IsTrue (values_fit (variables_at typed.now.file 0) tables.new)) }
{
    let kind = typed.file().disk.kind;
    if op == 1 {
        cut_write(alloc, kind, tables, args.at(0), args.at(1), power)
    } else {
        lose_unstable(alloc, kind, tables)
    }
}

/// Power fails between operations on the tables.
fn lose_tables(alloc: Global, typed: &Typed, tables: &mut [Value]) -> Result<(), NoMemory>
    requires { IsTrue (values_fit (variables_at typed.now.file 0) tables.old) }
    ensures lost { (power : PowerIs) → Loses typed.now.file (standing 0 tables.old power) (outage_of result) (standing 0 tables.new power) }
    ensures fits { OnOk result (IsTrue (values_fit (variables_at typed.now.file 0) tables.new)) }
{
    lose_unstable(alloc, typed.file().disk.kind, tables)
}

/// Calls an operation.
pub fn call(
    alloc: Global,
    typed: &Typed,
    op: u32,
    args: &Values,
    state: &mut Values,
    power: &mut Power,
) -> Result<Turn, NoMemory>
    requires fits { IsTrue (values_fit (variables_at typed.now.file 0) state.old) }
    requires operation { IsCallable (signatures_at typed.now.file 0) op args.now }
    ensures called { Called spec_meaning typed.now.file (signatures_at typed.now.file 0) op args.now (ending_of result)
        (standing 0 state.old power.old) (standing 0 state.new power.new) }
    ensures fits { AfterWhole (ending_of result) (IsTrue (values_fit (variables_at typed.now.file 0) state.new)) }
{
    let mut tables = mem::replace(state, Sequence::new(alloc)).into_vec();
    let turn = call_tables(alloc, typed, op, args, tables.as_mut_slice(), power);
    *state = Sequence::from_vec(tables);
    turn
}

/// Power fails within a call of an operation. Its only error is out of memory.
pub fn fall(
    alloc: Global,
    typed: &Typed,
    op: u32,
    args: &Values,
    state: &mut Values,
    power: &mut Power,
) -> Result<(), NoMemory>
    requires fits { IsTrue (values_fit (variables_at typed.now.file 0) state.old) }
    requires operation { IsCallable (signatures_at typed.now.file 0) op args.now }
    ensures fell { Fell spec_meaning typed.now.file (signatures_at typed.now.file 0) op args.now (outage_of result)
        (standing 0 state.old power.old) (standing 0 state.new power.new) }
    ensures fits { OnOk result (IsTrue (values_fit (variables_at typed.now.file 0) state.new)) }
{
    let mut tables = mem::replace(state, Sequence::new(alloc)).into_vec();
    let fallen = fall_tables(alloc, typed, op, args, tables.as_mut_slice(), power);
    *state = Sequence::from_vec(tables);
    fallen
}

/// Power fails between operations. Its only error is out of memory.
pub fn lose(alloc: Global, typed: &Typed, state: &mut Values) -> Result<(), NoMemory>
    requires { IsTrue (values_fit (variables_at typed.now.file 0) state.old) }
    ensures lost { (power : PowerIs) → Loses typed.now.file (standing 0 state.old power) (outage_of result) (standing 0 state.new power) }
    ensures fits { OnOk result (IsTrue (values_fit (variables_at typed.now.file 0) state.new)) }
{
    let mut tables = mem::replace(state, Sequence::new(alloc)).into_vec();
    let lost = lose_tables(alloc, typed, tables.as_mut_slice());
    *state = Sequence::from_vec(tables);
    lost
}
