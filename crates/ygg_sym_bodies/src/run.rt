//! Whole runs.

ghost use Rattle.std.specs.Prelude.{◌≡◌, IfOk};
ghost use Rattle.std.specs.Option.{option_copied};
ghost use Rattle.ygg_bank.specs.Inputs.{InputsBelow};
ghost use Rattle.ygg_bank.specs.Nodes.{Extends, IsBank};
ghost use Rattle.ygg_sym_bodies.specs.Blocks.{SiteFits, site_in};
ghost use Rattle.ygg_sym_bodies.specs.Numbers.{IsNextInput};
ghost use Rattle.ygg_sym_bodies.specs.Runs.{IsMade, Stands, whole_body, whole_inputs};
ghost use Rattle.ygg_sym_bodies.specs.Sites.{AtBlock, IsRunnable, IsShaped, MayHave};
ghost use Rattle.ygg_sym_bodies.specs.Worths.{RunsAsAny, RunsAsNamed};

use crate::made::{run_called, run_chosen};
use crate::number::next_input;
use crate::site::{block_at, calls};
use crate::state::{SymRun, SymState};
use std::alloc::Global;
use ygg_bank::{Bank, NoMemory, Node};
use ygg_base::Bits;
use ygg_eval::{Body, Part};
use ygg_oblige::tables;
use ygg_rules::Book;
use ygg_sym::SymBlock;
use ygg_type::Typed;
use ygg_value::Word;

/// A whole run of a block of a layer that is this part of it.
fn run_at<B: Book>(
    alloc: Global,
    bank: &mut Bank,
    book: &B,
    at: SymBlock<'_>,
    part: Part,
    from: &SymState,
    given: Option<&Bits>,
) -> Result<SymRun, NoMemory>
    requires fits { SiteFits at part }
    requires shaped { IsShaped (site_in at part) bank.old from.now }
    requires picks { MayHave part (option_copied given) }
    ensures made { IfOk result (λ r. IsMade (whole_body (B.kinds book.now) (site_in at.entry part) from.now (option_copied given.entry) r.inputs.picks
        bank.old) from.now r bank.new) }
    ensures stands { IfOk result (Stands (site_in at.entry part) bank.new) }
    ensures fresh { IfOk result (λ r. IsNextInput bank.old r.inputs.picks) }
    ensures inputs { IfOk result (λ r. r.inputs ≡ whole_inputs (site_in at.entry part) (option_copied given.entry) r.inputs.picks) }
    ensures grows { Extends bank.old bank.new }
    ensures bank { IsBank bank.new }
{
    let first = next_input(bank)?;
    let one = bank.make(Node::Const(Word { width: 1, bits: 1 }), book)?;
    if calls(part) {
        run_called(alloc, bank, book, at, first, from, one)
    } else {
        run_chosen(alloc, bank, book, at, given, first, from, one)
    }
}

/// A whole run over terms of a block of a file, from terms for what it sees. Each choice of a `spec`, an `on crash` or a `crash` block takes, where
/// picks are handed in, the pick of its place in the unrolled text, 0 past their end; else each pick is an input of the bank that is new, as is each
/// pick of the disk or the specification below that the other parts call. In every environment what the run leaves is worth the end of the run with
/// the environment's variables, arguments, state below and picks. Its only error is out of memory, after which the bank may have more nodes.
pub fn run_sym<B: Book>(
    alloc: Global,
    typed: &Typed,
    body: Body,
    from: &SymState,
    picks: Option<&Bits>,
    bank: &mut Bank,
    book: &B,
) -> Result<SymRun, NoMemory>
    requires body { IsRunnable typed.now.file body bank.old from.now }
    requires picks { MayHave body.part (option_copied picks) }
    // Under every book it makes the nodes, and leaves the terms, that it is defined to make and leave.
    ensures made { IfOk result (λ r. AtBlock typed.now.file body (λ s. IsMade (whole_body (B.kinds book.now) s from.now (option_copied picks.entry)
        r.inputs.picks bank.old) from.now r bank.new)) }
    // What it leaves has the declared shapes.
    ensures stands { IfOk result (λ r. AtBlock typed.now.file body (λ s. Stands s bank.new r)) }
    // Its inputs are new, have these numbers, and are all that it makes.
    ensures fresh { IfOk result (λ r. IsNextInput bank.old r.inputs.picks) }
    ensures inputs { IfOk result (λ r. AtBlock typed.now.file body (λ s. r.inputs ≡ whole_inputs s (option_copied picks.entry) r.inputs.picks)) }
    ensures bounded { IfOk result (λ r. InputsBelow r.inputs.next bank.new) }
    // In every environment it is worth the run that this names.
    ensures named { IfOk result (λ r. AtBlock typed.now.file body (λ s. RunsAsNamed s from.now (option_copied picks.entry) r bank.new)) }
    // Each run is its worth in the environments with certain picks.
    ensures any { IfOk result (λ r. AtBlock typed.now.file body (λ s. RunsAsAny s from.now (option_copied picks.entry) r bank.new)) }
    ensures grows { Extends bank.old bank.new }
    ensures bank { IsBank bank.new }
{
    // the bank's nodes stand in order
    let _ = bank.len();
    let tables = tables(alloc, typed.file().disk)?;
    let at = block_at(typed, tables.as_slice(), body);
    run_at(alloc, bank, book, at, body.part, from, picks)
}
