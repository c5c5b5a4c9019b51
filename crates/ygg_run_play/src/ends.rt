//! The lines that end an operation, a background step, a waking, a power failure and the whole text; and the refusal of a stop.

ghost use Rattle.std.specs.Prelude.{◌≡◌, ◌++◌, codes, OnOk};
ghost use Rattle.std.specs.List.{count_by};
ghost use Rattle.std.specs.Option.{option_copied};
ghost use Rattle.ygg_script.specs.ygg_report.Lines.{ended};
ghost use Rattle.ygg_run_play.specs.Lines.{answer_text, is_played, played_line};
ghost use Rattle.ygg_run_play.specs.Played.{unreached_at};

use std::alloc::Global;
use ygg_base::{NoMemory, Refusal, Text};
use ygg_script::{Command, put_value};
use ygg_value::Value;

/// Adds the line of a whole operation or background step: `answer VALUE`, or `done` where there is no answer. Its only error is out of memory.
pub fn put_answer(alloc: Global, out: &mut Text, answer: Option<&Value>) -> Result<(), NoMemory>
    ensures { OnOk result (out.new ≡ out.old ++ ended (answer_text (option_copied answer.entry))) }
{
    match answer {
        Some(value) => {
            out.extend_from_slice(b"answer ")?;
            put_value(alloc, out, value)?;
            out.push(b'\n')
        }
        None => out.extend_from_slice(b"done\n"),
    }
}

/// Adds the line of power failing. Its only error is out of memory.
pub fn put_down(out: &mut Text) -> Result<(), NoMemory>
    ensures { OnOk result (out.new ≡ out.old ++ ended (codes "down")) }
{
    out.extend_from_slice(b"down\n")
}

/// Adds the line of a whole waking. Its only error is out of memory.
pub fn put_up(out: &mut Text) -> Result<(), NoMemory>
    ensures { OnOk result (out.new ≡ out.old ++ ended (codes "up")) }
{
    out.extend_from_slice(b"up\n")
}

/// Adds the last line, of a script that has so many lines `call`, `tick` and `lost`. Its only error is out of memory.
pub fn put_played(alloc: Global, out: &mut Text, count: usize) -> Result<(), NoMemory>
    ensures { OnOk result (out.new ≡ out.old ++ played_line count) }
{
    let line = format!(in alloc; "played {count}\n")?;
    out.extend_from_slice(line.as_bytes())
}

/// Whether a line of a script is `call`, `tick` or `lost`.
fn is_played(command: &Command) -> bool
    ensures { result ≡ is_played command.now }
{
    match command {
        Command::Call { .. } | Command::Tick { .. } | Command::Lost => true,
        Command::Fail { .. } | Command::Keep(_) => false,
    }
}

/// How many lines `call`, `tick` and `lost` a script has.
pub fn played(script: &[Command]) -> usize
    ensures { result ≡ count_by is_played script.now }
{
    let mut count = 0;
    for command in script {
        if is_played(command) {
            count += 1;
        }
    }
    count
}

/// The refusal of a stop that isn't reached, on the line of this number: 44, column 1.
pub fn unreached(line: u32) -> Refusal
    ensures { result ≡ unreached_at line }
{
    Refusal {
        number: 44,
        line,
        column: 1,
    }
}
