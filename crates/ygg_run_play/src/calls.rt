//! The lines of disk calls.

ghost use Rattle.std.specs.Prelude.{◌≡◌, ◌++◌, List, codes, OnOk};
ghost use Rattle.std.specs.Fmt.{decimal};
ghost use Rattle.ygg_script.specs.ygg_meaning.Noted.{Note};
ghost use Rattle.ygg_script.specs.ygg_report.Lines.{ended};
ghost use Rattle.ygg_script.specs.ygg_sched.Values.{value_text};
ghost use Rattle.ygg_run_play.specs.Lines.{cut_text, kept_text, call_text, calls_lines, events_of, note_in};

use std::alloc::Global;
use ygg_base::{Duplicate, NoMemory, Text};
use ygg_script::{Did, Event, put_value};
use ygg_value::{Row, Value};

/// Adds a number in decimal after some words. Its only error is out of memory.
fn put_number(alloc: Global, out: &mut Text, words: &[u8], number: u64) -> Result<(), NoMemory>
    ensures { OnOk result (out.new ≡ out.old ++ (words.now ++ decimal number)) }
{
    let digits = format!(in alloc; "{number}")?;
    out.extend_from_slice(words)?;
    out.extend_from_slice(digits.as_bytes())
}

/// Adds ` cut` where power cut a disk call. Its only error is out of memory.
fn put_cut(out: &mut Text, cut: bool) -> Result<(), NoMemory>
    ensures { OnOk result (out.new ≡ out.old ++ cut_text cut) }
{
    if cut {
        out.extend_from_slice(b" cut")
    } else {
        Ok(())
    }
}

/// Adds what became of a write with these picks: ` kept`, or ` lost`. Its only error is out of memory.
fn put_kept(out: &mut Text, picks: &[bool]) -> Result<(), NoMemory>
    ensures { OnOk result (out.new ≡ out.old ++ kept_text picks.now) }
{
    match picks {
        [false, ..] => out.extend_from_slice(b" lost"),
        _ => out.extend_from_slice(b" kept"),
    }
}

/// Adds a space and a row. Its only error is out of memory.
fn put_row(alloc: Global, out: &mut Text, row: &Row) -> Result<(), NoMemory>
    ensures { OnOk result (out.new ≡ out.old ++ (codes " " ++ value_text (Value.Row row.now))) }
{
    let row = Value::Row(row.duplicate(alloc)?);
    out.push(b' ')?;
    put_value(alloc, out, &row)
}

/// Adds the words of a disk call. Its only error is out of memory.
fn put_call(alloc: Global, out: &mut Text, event: &Event) -> Result<(), NoMemory>
    ensures { OnOk result (out.new ≡ out.old ++ call_text (note_in event.now)) }
{
    let at = match event.at {
        Some(at) => at.bits,
        None => 0,
    };
    match &event.did {
        Did::Read => {
            put_number(alloc, out, b"read ", at)?;
            put_cut(out, event.cut)
        }
        Did::Write(row) => {
            put_number(alloc, out, b"write ", at)?;
            put_row(alloc, out, row)?;
            put_cut(out, event.cut)?;
            put_kept(out, event.picks.as_slice())
        }
        Did::Flush => {
            out.extend_from_slice(b"flush")?;
            put_cut(out, event.cut)
        }
    }
}

/// Adds the lines of the disk calls that these events show: `read A`, `write A ROW kept`, `write A ROW lost` or `flush`, with ` cut` after the address or
/// the row of one that power cut. Its only error is out of memory.
pub fn put_events(alloc: Global, out: &mut Text, events: &[Event]) -> Result<(), NoMemory>
    ensures { (notes : List Note) → events.now ≡ events_of notes → OnOk result (out.new ≡ out.old ++ calls_lines notes) }
{
    for event in events {
        put_call(alloc, out, event)?;
        out.push(b'\n')?;
    }
    Ok(())
}
