//! From a text to the commands that it is for a file.

ghost use Rattle.std.specs.Prelude.{◌≡◌, ◌≤◌, ◌∷◌, ◌++◌, [], length, false, IfOk, IfErr, OnOk};
ghost use Rattle.std.specs.Str.{bytes_eq};
ghost use Rattle.ygg_sched.specs.Lines.{Gives};
ghost use Rattle.ygg_script.specs.Flaws.{refusal_at};
ghost use Rattle.ygg_script.specs.Fitting.{IsScriptOf};
ghost use Rattle.ygg_script.specs.Left.{IsNextLine};
ghost use Rattle.ygg_script.specs.Reading.{pieces_of, commands_at, script_of};

use crate::command::{Command, Script};
use crate::flaw::ScriptFlaw;
use crate::lines::{command_line, refused};
use std::alloc::Global;
use ygg_base::Refuse;
use ygg_sched::{Rest, Typed, cut};

/// The next line and what is left after it, or the refusal of one that is missing or has no line feed.
fn next_line(at: Rest<'_>) -> Result<(&[u8], Rest<'_>), Refuse>
    ensures ok { IfOk result (λ x. IsNextLine at.entry x.0.now x.1) }
    ensures err { IfErr result (λ refuse. (refuse ≡ Refuse.At (refusal_at ScriptFlaw.Line at.entry.line))
        × (pieces_of at.entry.bytes.now ≡ at.entry.bytes.now ∷ [])) }
{
    let (line, more) = cut(at.bytes, b'\n');
    match more {
        Some(bytes) => Ok((
            line,
            Rest {
                bytes,
                line: at.line + 1,
            },
        )),
        None => Err(refused(at.line, ScriptFlaw::Line)),
    }
}

/// Whether a line is this text.
fn is_text(line: &[u8], text: &[u8]) -> bool
    ensures { result ≡ bytes_eq line.now text.now }
{
    line == text
}

/// Adds a command.
fn add(script: &mut Script, command: Command) -> Result<(), Refuse>
    ensures ok { OnOk result (script.new ≡ script.old ++ command ∷ []) }
    ensures memory { IfErr result (λ refuse. refuse ≡ Refuse.Memory) }
{
    match script.push(command) {
        Ok(()) => Ok(()),
        Err(_) => Err(Refuse::Memory),
    }
}

/// The commands of the lines up to `end`, after which nothing may follow.
fn command_lines(alloc: Global, typed: &Typed, at: Rest<'_>) -> Result<Script, Refuse>
    ensures { Gives (λ x. x) result (commands_at typed.now.file false at.entry.line (pieces_of at.entry.bytes.now)) }
{
    let mut script = Script::new(alloc);
    let mut rest = at;
    let mut stoppable = false;
    loop {
        let (text, after) = next_line(rest)?;
        if is_text(text, b"end") {
            if after.bytes.is_empty() {
                return Ok(script);
            }
            return Err(refused(after.line, ScriptFlaw::Line));
        }
        let command = command_line(alloc, typed, rest.line, text, stoppable)?;
        stoppable = command.is_stoppable();
        add(&mut script, command)?;
        rest = after;
    }
}

/// What `read_script` does.
fn script_in(alloc: Global, text: &[u8], typed: &Typed) -> Result<Script, Refuse>
    requires { length text.now ≤ 67108864 }
    ensures { Gives (λ x. x) result (script_of typed.now.file text.now) }
{
    let at = Rest {
        bytes: text,
        line: 1,
    };
    let (first, after) = next_line(at)?;
    if is_text(first, b"ygg-script 1") {
        command_lines(alloc, typed, after)
    } else {
        Err(refused(1, ScriptFlaw::Line))
    }
}

/// The commands that a text is for a file. A text that is none is refused at its first line that is at fault, column 1: 41 where the line isn't of
/// a form that may stand there, is missing, has no line feed or follows `end`, 42 where its operation, layer or background step isn't one of the
/// file, and 43 where it hasn't a value of its shape for each argument of its operation. The other error is out of memory.
pub fn read_script(alloc: Global, text: &[u8], typed: &Typed) -> Result<Script, Refuse>
    requires { length text.now ≤ 67108864 }
    // They are the commands that the text is, or the refusal of the first line that is at fault.
    ensures exact { Gives (λ x. x) result (script_of typed.now.file text.now) }
    // They are commands of the file, and each stop follows what it stops.
    ensures fits { IfOk result (IsScriptOf typed.now.file) }
    // There are no more of them than the text has bytes.
    ensures few { IfOk result (λ script. length script ≤ length text.now) }
{
    script_in(alloc, text, typed)
}
