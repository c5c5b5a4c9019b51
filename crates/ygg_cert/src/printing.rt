//! The text of a certificate, line by line, so that a long one need not stand in one text.

ghost use Rattle.std.specs.Prelude.{◌≡◌, ◌++◌, IfOk, OnOk};
ghost use Rattle.std.specs.List.{flat_map};
ghost use Rattle.ygg_cnf.specs.Lines.{step_line};
ghost use Rattle.ygg_cert.specs.Texts.{first_line, opening_line, closing_line, last_line, item_text, certificate_of};

use crate::item::{CertItems, Item};
use std::alloc::Global;
use ygg_base::Text;
use ygg_cnf::{Step, put_number, put_step};
use ygg_list::NoMemory;

/// Adds the first line. Its only error is out of memory.
pub fn put_first(out: &mut Text) -> Result<(), NoMemory>
    ensures { OnOk result (out.new ≡ out.old ++ first_line) }
{
    out.extend_from_slice(b"ygg-cert 1\n")
}

/// Adds the line before a log: the name of its goal, and the number of the goal's clauses. Its only error is out of memory.
pub fn put_opening(out: &mut Text, name: &[u8], clauses: u64) -> Result<(), NoMemory>
    ensures { OnOk result (out.new ≡ out.old ++ opening_line name.now clauses) }
{
    out.extend_from_slice(b"o ")?;
    out.extend_from_slice(name)?;
    out.extend_from_slice(b" ")?;
    put_number(out, clauses)?;
    out.extend_from_slice(b"\n")
}

/// Adds the line after a log. Its only error is out of memory.
pub fn put_closing(out: &mut Text) -> Result<(), NoMemory>
    ensures { OnOk result (out.new ≡ out.old ++ closing_line) }
{
    out.extend_from_slice(b"e\n")
}

/// Adds the last line. Its only error is out of memory.
pub fn put_last(out: &mut Text) -> Result<(), NoMemory>
    ensures { OnOk result (out.new ≡ out.old ++ last_line) }
{
    out.extend_from_slice(b"end\n")
}

/// Adds the lines of steps. Its only error is out of memory.
fn put_steps(out: &mut Text, steps: &[Step]) -> Result<(), NoMemory>
    ensures { OnOk result (out.new ≡ out.old ++ flat_map step_line steps.now) }
{
    for step in steps {
        put_step(out, step)?;
    }
    Ok(())
}

/// Adds the lines of a log. Its only error is out of memory.
fn put_item(out: &mut Text, item: &Item) -> Result<(), NoMemory>
    ensures { OnOk result (out.new ≡ out.old ++ item_text item.now) }
{
    put_opening(out, item.name.as_slice(), item.clauses)?;
    put_steps(out, item.log.as_slice())?;
    put_closing(out)
}

/// Adds the lines of logs. Its only error is out of memory.
fn put_items(out: &mut Text, items: &[Item]) -> Result<(), NoMemory>
    ensures { OnOk result (out.new ≡ out.old ++ flat_map item_text items.now) }
{
    for item in items {
        put_item(out, item)?;
    }
    Ok(())
}

/// The certificate of logs. Its only error is out of memory.
pub fn print_cert(alloc: Global, items: &CertItems) -> Result<Text, NoMemory>
    ensures { IfOk result (λ text. text ≡ certificate_of items.now) }
{
    let mut out = Text::new(alloc);
    put_first(&mut out)?;
    put_items(&mut out, items.as_slice())?;
    put_last(&mut out)?;
    Ok(out)
}
