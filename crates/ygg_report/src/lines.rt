ghost use Rattle.std.specs.Prelude.{◌≡◌, IfOk};
ghost use Rattle.std.specs.List.{flat_map};
ghost use Rattle.ygg_report.specs.declared.verdict.Verdict.TheVariants.{Spent};
ghost use Rattle.ygg_report.specs.Lines.{
  ended,
  verdict_line,
  verified_line,
  refuted_line,
  undecided_line,
  made_words,
  found_words,
  demo_line,
  shows_line,
  hypothesis_line,
  holds_with_line,
  refused_line,
};

use crate::picks::put_bits;
use crate::verdict::{Tally, Verdict};
use std::alloc::Global;
use ygg_base::{Bits, NoMemory, Refusal, Text};

/// A line of these parts. Its only error is out of memory.
fn line_of(alloc: Global, parts: &[&[u8]]) -> Result<Text, NoMemory>
    ensures { IfOk result (λ text. text ≡ ended (flat_map (λ part. part.now) parts.now)) }
{
    let mut text = Text::new(alloc);
    for part in parts {
        text.extend_from_slice(part)?;
    }
    text.push(b'\n')?;
    Ok(text)
}

/// The line of an obligation of this name whose budget was spent, of so many clauses. Its only error is out of memory.
fn spent(alloc: Global, name: &Text, clauses: u32) -> Result<Text, NoMemory>
    ensures { IfOk result (λ text. text ≡ verdict_line (Spent clauses) name.now) }
{
    let count = format!(in alloc; " {clauses}")?;
    let text = line_of(alloc, &[b"spent ", name.as_slice(), count.as_bytes()])?;
    Ok(text)
}

/// The line of a verdict on the obligation of this name: `holds NAME`, `fails NAME`, or `spent NAME K`. Its only error is out of memory.
pub fn line(alloc: Global, verdict: &Verdict, name: &Text) -> Result<Text, NoMemory>
    ensures { IfOk result (λ text. text ≡ verdict_line verdict.now name.now) }
{
    match verdict {
        Verdict::Holds => line_of(alloc, &[b"holds ", name.as_slice()]),
        Verdict::Fails => line_of(alloc, &[b"fails ", name.as_slice()]),
        Verdict::Spent(clauses) => spent(alloc, name, *clauses),
    }
}

/// The line of a file all of whose obligations hold, of which there are so many. Its only error is out of memory.
pub fn verified(alloc: Global, count: usize) -> Result<Text, NoMemory>
    ensures { IfOk result (λ text. text ≡ verified_line count) }
{
    let written = format!(in alloc; "verified {count}\n")?;
    Ok(Text::from_vec(written.into_bytes()))
}

/// The line of a file whose first obligation that fails has this name. Its only error is out of memory.
pub fn refuted(alloc: Global, name: &Text) -> Result<Text, NoMemory>
    ensures { IfOk result (λ text. text ≡ refuted_line name.now) }
{
    line_of(alloc, &[b"refuted ", name.as_slice()])
}

/// The line of a file that isn't decided within its budget. Its only error is out of memory.
pub fn undecided(alloc: Global) -> Result<Text, NoMemory>
    ensures { IfOk result (λ text. text ≡ undecided_line) }
{
    Text::from_slice(alloc, b"undecided\n")
}

/// The first words of the line of the file that `demo` makes for this number. Its only error is out of memory.
#[tactic(auto, unfolding(crate::specs::Lines::made_words))]
fn made(alloc: Global, number: u32, tally: &Tally) -> Result<Text, NoMemory>
    ensures { IfOk result (λ text. text ≡ made_words number tally.now) }
{
    let obligations = tally.obligations;
    let written = format!(in alloc; "demo {number} obligations {obligations}")?;
    Ok(Text::from_vec(written.into_bytes()))
}

/// Its last words: how many obligations each verdict was found of. Its only error is out of memory.
#[tactic(auto, unfolding(crate::specs::Lines::found_words))]
fn found(alloc: Global, tally: &Tally) -> Result<Text, NoMemory>
    ensures { IfOk result (λ text. text ≡ found_words tally.now) }
{
    let holds = tally.holds;
    let fails = tally.fails;
    let spent = tally.spent;
    let written = format!(in alloc; " holds {holds} fails {fails} spent {spent}")?;
    Ok(Text::from_vec(written.into_bytes()))
}

/// The line of the file that `demo` makes for this number: `demo N obligations K holds H fails F spent S`. Its only error is out of memory.
pub fn demo(alloc: Global, number: u32, tally: &Tally) -> Result<Text, NoMemory>
    ensures { IfOk result (λ text. text ≡ demo_line number tally.now) }
{
    let first = made(alloc, number, tally)?;
    let last = found(alloc, tally)?;
    line_of(alloc, &[first.as_slice(), last.as_slice()])
}

/// The line of a schedule that violates the obligation of this name: `shows NAME`. Its only error is out of memory.
pub fn shows(alloc: Global, name: &Text) -> Result<Text, NoMemory>
    ensures { IfOk result (λ text. text ≡ shows_line name.now) }
{
    line_of(alloc, &[b"shows ", name.as_slice()])
}

/// The line of a schedule whose first false hypothesis has this number, counted from 0: `hypothesis I`. Its only error is out of memory.
pub fn hypothesis(alloc: Global, number: u32) -> Result<Text, NoMemory>
    ensures { IfOk result (λ text. text ≡ hypothesis_line number) }
{
    let written = format!(in alloc; "hypothesis {number}\n")?;
    Ok(Text::from_vec(written.into_bytes()))
}

/// The line of a schedule with which the conclusion holds where the specification takes these picks: `holds BITS`. Its only error is out of memory.
pub fn holds_with(alloc: Global, picks: &Bits) -> Result<Text, NoMemory>
    ensures { IfOk result (λ text. text ≡ holds_with_line picks.now) }
{
    let mut bits = Text::new(alloc);
    put_bits(&mut bits, picks)?;
    line_of(alloc, &[b"holds ", bits.as_slice()])
}

/// The line of a refusal: `refused NUMBER LINE:COLUMN`. Its only error is out of memory.
pub fn refused(alloc: Global, refusal: Refusal) -> Result<Text, NoMemory>
    ensures { IfOk result (λ text. text ≡ refused_line refusal) }
{
    let number = refusal.number;
    let row = refusal.line;
    let column = refusal.column;
    let written = format!(in alloc; "refused {number} {row}:{column}\n")?;
    Ok(Text::from_vec(written.into_bytes()))
}
