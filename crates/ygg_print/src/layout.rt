ghost use Rattle.std.specs.Prelude.{◌≡◌, ◌<◌, ◌^◌, ◌*◌, ◌++◌, replicate, option_copied, OnOk, IfOk};
ghost use Rattle.std.specs.Fmt.{decimal};
ghost use Rattle.ygg_base.specs.Spelling.{mark_bytes};
ghost use Rattle.ygg_print.specs.Layout.{gap, laid, layout};

use crate::rules::{depth_after, depth_at, ends_line, is_joined};
use std::alloc::Global;
use ygg_base::{Mark, NoMemory, Text};
use ygg_lex::Spelled;

/// Adds two spaces for each open brace.
#[tactic(auto, using(crate::proofs::Indentation::two_more))]
fn add_indentation(text: &mut Text, depth: usize) -> Result<(), NoMemory>
    ensures { OnOk result (text.new ≡ text.old ++ replicate (2 * depth) 32) }
{
    for _ in 0..depth {
        text.extend_from_slice(b"  ")?;
    }
    Ok(())
}

/// Adds what stands before the mark.
fn add_gap(
    text: &mut Text,
    depth: usize,
    previous: Option<&Mark>,
    this: &Mark,
    others: &[Mark],
) -> Result<(), NoMemory>
    ensures { OnOk result (text.new ≡ text.old ++ gap depth (option_copied previous.entry) this.now others.now) }
{
    match previous {
        None => add_indentation(text, depth_at(depth, this)),
        Some(previous) => if is_joined(previous, this, others) {
            Ok(())
        } else {
            text.push(b' ')
        },
    }
}

/// Adds a number in decimal digits.
fn add_number(alloc: Global, text: &mut Text, number: u64) -> Result<(), NoMemory>
    ensures { OnOk result (text.new ≡ text.old ++ decimal number) }
{
    let digits = format!(in alloc; "{number}")?;
    text.extend_from_slice(digits.as_bytes())
}

/// Adds the mark as it is spelled.
fn add_spelling(alloc: Global, text: &mut Text, mark: &Mark) -> Result<(), NoMemory>
    ensures { OnOk result (text.new ≡ text.old ++ mark_bytes mark.now) }
{
    match mark {
        Mark::Name(name) => text.extend_from_slice(name.as_slice()),
        Mark::Num(number) => add_number(alloc, text, *number),
        Mark::Keyword(keyword) => text.extend_from_slice(keyword.text()),
        Mark::Symbol(symbol) => text.extend_from_slice(symbol.text()),
    }
}

/// Adds the mark with what stands before it, and with its line's end.
fn add(
    alloc: Global,
    text: &mut Text,
    depth: usize,
    previous: Option<&Mark>,
    this: &Mark,
    others: &[Mark],
) -> Result<(), NoMemory>
    ensures { OnOk result (text.new ≡ text.old ++ laid depth (option_copied previous.entry) this.now others.now) }
{
    add_gap(text, depth, previous, this, others)?;
    add_spelling(alloc, text, this)?;
    if ends_line(this, others) {
        text.push(b'\n')?;
    }
    Ok(())
}

/// The canonical text of these marks. Its only error is out of memory.
pub fn lay_out(alloc: Global, marks: &[Mark]) -> Result<Text, NoMemory>
    ensures { IfOk result (λ text. text ≡ layout marks.now) }
{
    let mut text = Text::new(alloc);
    let mut depth: usize = 0;
    let mut previous: Option<&Mark> = None;
    let mut others = marks;
    while let Some((this, later)) = others.split_first() {
        add(alloc, &mut text, depth, previous, this, later)?;
        depth = depth_after(depth, this);
        previous = if ends_line(this, later) {
            None
        } else {
            Some(this)
        };
        others = later;
    }
    Ok(text)
}
