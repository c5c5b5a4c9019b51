//! The lines of a script between the first and the last, each with its number. Their errors are the line's refusal and out of memory.

ghost use Rattle.std.specs.Prelude.{◌≡◌};
ghost use Rattle.ygg_sched.specs.Lines.{Gives};
ghost use Rattle.ygg_script.specs.Flaws.{refusal_at};
ghost use Rattle.ygg_script.specs.Lines.{call_at, tick_at, point_in, fail_at, keep_at, command_at};

use crate::command::Command;
use crate::flaw::ScriptFlaw;
use crate::names::{call_in, tick_in};
use crate::places::{arguments_at, layer_named, operation_named, tick_named, values_in};
use std::alloc::Global;
use ygg_base::Refuse;
use ygg_sched::{Typed, after_front, bits_in, decimal_in};

/// The refusal of the line of this number, for a flaw.
pub fn refused(line: u32, flaw: ScriptFlaw) -> Refuse
    ensures { result ≡ Refuse.At (refusal_at flaw line) }
{
    Refuse::At(flaw.at(line))
}

/// What a line `call ` says by the bytes after it.
#[tactic(auto, unfolding(crate::specs::Lines::call_at))]
fn call_line(alloc: Global, typed: &Typed, line: u32, bytes: &[u8]) -> Result<Command, Refuse>
    ensures { Gives (λ x. x) result (call_at typed.now.file line bytes.now) }
{
    let Some((name, words)) = call_in(bytes) else {
        return Err(refused(line, ScriptFlaw::Line));
    };
    let op = match operation_named(alloc, typed, name) {
        Ok(Some(op)) => op,
        Ok(None) => return Err(refused(line, ScriptFlaw::Operation)),
        Err(_) => return Err(Refuse::Memory),
    };
    match values_in(alloc, arguments_at(typed, op), words) {
        Ok(Some(args)) => Ok(Command::Call { op, args }),
        Ok(None) => Err(refused(line, ScriptFlaw::Argument)),
        Err(_) => Err(Refuse::Memory),
    }
}

/// What a line `tick ` says by the bytes after it.
#[tactic(auto, unfolding(crate::specs::Lines::tick_at))]
fn tick_line(alloc: Global, typed: &Typed, line: u32, bytes: &[u8]) -> Result<Command, Refuse>
    ensures { Gives (λ x. x) result (tick_at typed.now.file line bytes.now) }
{
    let Some((owner, name)) = tick_in(bytes) else {
        return Err(refused(line, ScriptFlaw::Line));
    };
    let Some(layer) = layer_named(typed, owner) else {
        return Err(refused(line, ScriptFlaw::Operation));
    };
    match tick_named(alloc, typed, layer, name) {
        Ok(Some(number)) => Ok(Command::Tick { layer, number }),
        Ok(None) => Err(refused(line, ScriptFlaw::Operation)),
        Err(_) => Err(Refuse::Memory),
    }
}

/// The point that bytes after `fail ` say.
fn point_in(bytes: &[u8]) -> Option<Command>
    ensures { result ≡ point_in bytes.now }
{
    if let Some(number) = after_front(bytes, b"before ") {
        return match decimal_in(number) {
            Some(call) => Some(Command::Fail {
                within: false,
                call,
            }),
            None => None,
        };
    }
    let call = decimal_in(after_front(bytes, b"within ")?)?;
    Some(Command::Fail { within: true, call })
}

/// What a line `fail ` says by the bytes after it, where the commands before it can be stopped or not.
#[tactic(auto, unfolding(crate::specs::Lines::fail_at))]
fn fail_line(line: u32, bytes: &[u8], stoppable: bool) -> Result<Command, Refuse>
    ensures { Gives (λ x. x) result (fail_at stoppable line bytes.now) }
{
    if !stoppable {
        return Err(refused(line, ScriptFlaw::Line));
    }
    match point_in(bytes) {
        Some(command) => Ok(command),
        None => Err(refused(line, ScriptFlaw::Line)),
    }
}

/// What a line `keep ` says by the bytes after it.
#[tactic(auto, unfolding(crate::specs::Lines::keep_at))]
fn keep_line(alloc: Global, line: u32, bytes: &[u8]) -> Result<Command, Refuse>
    ensures { Gives (λ x. x) result (keep_at line bytes.now) }
{
    match bits_in(alloc, bytes) {
        Ok(Some(picks)) => Ok(Command::Keep(picks)),
        Ok(None) => Err(refused(line, ScriptFlaw::Line)),
        Err(_) => Err(Refuse::Memory),
    }
}

/// What a line says, where the commands before it can be stopped or not.
#[tactic(auto, unfolding(crate::specs::Lines::command_at))]
pub fn command_line(
    alloc: Global,
    typed: &Typed,
    line: u32,
    text: &[u8],
    stoppable: bool,
) -> Result<Command, Refuse>
    ensures { Gives (λ x. x) result (command_at typed.now.file stoppable line text.now) }
{
    if let Some(bytes) = after_front(text, b"call ") {
        return call_line(alloc, typed, line, bytes);
    }
    if let Some(bytes) = after_front(text, b"tick ") {
        return tick_line(alloc, typed, line, bytes);
    }
    if let Some(bytes) = after_front(text, b"fail ") {
        return fail_line(line, bytes, stoppable);
    }
    if let Some(bytes) = after_front(text, b"keep ") {
        return keep_line(alloc, line, bytes);
    }
    if text == b"lost".as_slice() {
        Ok(Command::Lost)
    } else {
        Err(refused(line, ScriptFlaw::Line))
    }
}
