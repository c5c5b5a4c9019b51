//! Runs that power cuts.

ghost use Rattle.std.specs.Prelude.{◌≡◌, IfOk};
ghost use Rattle.ygg_bank.specs.Inputs.{InputsBelow};
ghost use Rattle.ygg_bank.specs.Nodes.{Extends, IsBank};
ghost use Rattle.ygg_sym_bodies.specs.Blocks.{SiteFits, site_in};
ghost use Rattle.ygg_sym_bodies.specs.Numbers.{IsNextInput};
ghost use Rattle.ygg_sym_bodies.specs.Runs.{IsMade, Stands, cut_body, cut_inputs};
ghost use Rattle.ygg_sym_bodies.specs.Sites.{AtBlock, IsRunnable, IsShaped};
ghost use Rattle.ygg_sym_bodies.specs.Worths.{CutsAsAny, CutsAsNamed};

use crate::made::{cut_called, cut_chosen};
use crate::number::next_input;
use crate::site::{block_at, calls};
use crate::state::{SymRun, SymState};
use std::alloc::Global;
use ygg_bank::{Bank, NoMemory};
use ygg_eval::{Body, Part, variables_of};
use ygg_oblige::tables;
use ygg_rules::Book;
use ygg_sym::SymBlock;
use ygg_sym_spec::zeros;
use ygg_type::Typed;

/// A run that power cuts of a block of a layer that is this part of it.
fn stop_at<B: Book>(
    alloc: Global,
    bank: &mut Bank,
    book: &B,
    at: SymBlock<'_>,
    part: Part,
    from: &SymState,
) -> Result<SymRun, NoMemory>
    requires fits { SiteFits at part }
    requires shaped { IsShaped (site_in at part) bank.old from.now }
    ensures made { IfOk result (λ r. IsMade (cut_body (B.kinds book.now) (site_in at.entry part) from.now r.inputs.picks r.inputs.stops
        r.inputs.failure bank.old) from.now r bank.new) }
    ensures stands { IfOk result (Stands (site_in at.entry part) bank.new) }
    ensures fresh { IfOk result (λ r. IsNextInput bank.old r.inputs.picks) }
    ensures inputs { IfOk result (λ r. r.inputs ≡ cut_inputs (site_in at.entry part) r.inputs.picks) }
    ensures grows { Extends bank.old bank.new }
    ensures bank { IsBank bank.new }
{
    let first = next_input(bank)?;
    let variables = variables_of(at.layer.layer, part);
    let zeros = zeros(alloc, bank, book, variables)?;
    if calls(part) {
        cut_called(alloc, bank, book, at, first, from, zeros)
    } else {
        cut_chosen(alloc, bank, book, at, first, from, zeros)
    }
}

/// A run over terms, which power cuts, of a block of a file, from terms for what it sees. Picks are inputs of the bank that are new, and so is one for
/// each stop point in the unrolled text: before each call, within it, and at the end; the first that is set counts of those that the run comes to. In
/// every environment `reached` says whether there is one, and then what is left below is worth what power leaves there of the run with the
/// environment's variables, arguments, state below and picks. The parts that call nothing have the stop at the end alone. Its only error is out of
/// memory, after which the bank may have more nodes.
pub fn stop_sym<B: Book>(
    alloc: Global,
    typed: &Typed,
    body: Body,
    from: &SymState,
    bank: &mut Bank,
    book: &B,
) -> Result<SymRun, NoMemory>
    requires { IsRunnable typed.now.file body bank.old from.now }
    // Under every book it makes the nodes, and leaves the terms, that it is defined to make and leave.
    ensures made { IfOk result (λ r. AtBlock typed.now.file body (λ s. IsMade (cut_body (B.kinds book.now) s from.now r.inputs.picks r.inputs.stops
        r.inputs.failure bank.old) from.now r bank.new)) }
    // What it leaves has the declared shapes.
    ensures stands { IfOk result (λ r. AtBlock typed.now.file body (λ s. Stands s bank.new r)) }
    // Its inputs are new, have these numbers, and are all that it makes.
    ensures fresh { IfOk result (λ r. IsNextInput bank.old r.inputs.picks) }
    ensures inputs { IfOk result (λ r. AtBlock typed.now.file body (λ s. r.inputs ≡ cut_inputs s r.inputs.picks)) }
    ensures bounded { IfOk result (λ r. InputsBelow r.inputs.next bank.new) }
    // In every environment it is worth what this names.
    ensures named { IfOk result (λ r. AtBlock typed.now.file body (λ s. CutsAsNamed s from.now r bank.new)) }
    // Whatever power may leave is its worth in the environments with certain picks and stops.
    ensures any { IfOk result (λ r. AtBlock typed.now.file body (λ s. CutsAsAny s from.now r bank.new)) }
    ensures grows { Extends bank.old bank.new }
    ensures bank { IsBank bank.new }
{
    // the bank's nodes stand in order
    let _ = bank.len();
    let tables = tables(alloc, typed.file().disk)?;
    let at = block_at(typed, tables.as_slice(), body);
    stop_at(alloc, bank, book, at, body.part, from)
}
