//! The terms of obligations.

ghost use Rattle.std.specs.Prelude.{◌≡◌, ◌≤◌, [], IfOk, OnOk};
ghost use Rattle.ygg_oblige_parts.specs.ygg_bank.Inputs.{InputsBelow};
ghost use Rattle.ygg_oblige_parts.specs.ygg_bank.Nodes.{Extends, HasWidth, IsBank};
ghost use Rattle.ygg_oblige_parts.specs.ygg_sym_runs.Lows.{LowShaped};
ghost use Rattle.ygg_oblige_parts.specs.ygg_sym_runs.Lower.{KeepsSingle, SingleFrom};
ghost use Rattle.ygg_oblige_parts.specs.Layers.{closed, terms_in};
ghost use Rattle.ygg_sym.specs.Running.{CutIs, EndIs};
ghost use Rattle.ygg_oblige_parts.specs.Sites.{below_in};
ghost use Rattle.ygg_oblige_parts.specs.ygg_oblige_laws.Numbers.{numbers_of};
ghost use Rattle.ygg_oblige_parts.specs.ygg_oblige_laws.Terms.{formats, recovered, recovers, recovers_again, term_made};
ghost use Rattle.ygg_oblige_parts.specs.ObligePiecesSteps.{ObligationTyped};
ghost use Rattle.ygg_oblige_parts.specs.Makers.{StartingShaped, starting_of};
ghost use Rattle.ygg_oblige_parts.specs.Passing.{StepFits, some_in};
ghost use Rattle.ygg_oblige_list.specs.InCode.{obligation_of};
ghost use Rattle.ygg_oblige.specs.Making.{AfterRun, CanBegin, CanOblige, CanRecover, CanWake, EndShaped, SiteFits, SpeaksOfNoAnswer, TickFits};
ghost use Rattle.ygg_oblige.specs.Numbering.{numbers_in};
ghost use Rattle.ygg_oblige.specs.Parts.{
  again_after,
  cut_term,
  ends_alike,
  idles,
  recovers_alike,
  recovery_cut,
  runs_through_in,
  falls_through_in,
  same_ends,
  settled_alike,
  whole_term,
  woken,
};

use crate::numbers::{arguments_of, block_of};
use ygg_oblige_list::{SymNumbers, SymObligation};
use ygg_oblige_parts::{
    Bank, Book, Id, Maker, NoMemory, SymStarting, SymStep, SymValues, all_equal, fresh, implied,
    join, zeros,
};
use ygg_sym::{SymBlock, SymCut, SymEnd, cut, lost, low_at_start, run};
use ygg_syntax::lists;
use ygg_value::Op;

/// Whether the specification's step passes after a run that has ended so. Inputs of the bank from the given number on are single digits.
fn passes_after<'a, B: Book>(
    maker: &Maker<'a, B>,
    bank: &mut Bank,
    obligation: SymObligation<'a>,
    vars: &SymValues,
    args: &SymValues,
    end: &SymEnd,
    first: u64,
) -> Result<Id, NoMemory>
    requires bank { IsBank bank.old }
    requires can { StepFits maker.now.layer maker.now.below bank.old (obligation_of obligation) vars.now args.now end.now.answer end.now.memory
        end.now.low first }
    ensures nodes { OnOk result (bank.new ≡ (some_in (B.kinds maker.now.book.now) (terms_in (B.kinds maker.now.book.now) maker.now.layer)
        (closed maker.now.layer) (obligation_of obligation.entry) vars.now args.now end.now.answer end.now.memory end.now.low bank.old).nodes) }
    ensures id { IfOk result (λ id. id ≡ (some_in (B.kinds maker.now.book.now) (terms_in (B.kinds maker.now.book.now) maker.now.layer) (closed maker.now.layer)
        (obligation_of obligation.entry) vars.now args.now end.now.answer end.now.memory end.now.low bank.old).value) }
    ensures width { IfOk result (λ id. HasWidth bank.new id 1) }
    ensures grows { Extends bank.old bank.new }
    ensures single { OnOk result (KeepsSingle bank.old bank.new) }
    ensures bank { IsBank bank.new }
{
    let step = SymStep {
        obligation,
        vars,
        args,
        answer: &end.answer,
        memory: &end.memory,
        low: &end.low,
        first,
    };
    maker.some_passes(bank, &step)
}

/// One whole recovery from a state below.
fn recovered<'a, B: Book>(
    maker: &Maker<'a, B>,
    bank: &mut Bank,
    first: u64,
    low: &SymValues,
) -> Result<SymEnd, NoMemory>
    requires bank { IsBank bank.old }
    requires can { CanRecover maker.now.layer maker.now.below bank.old first low.now }
    ensures nodes { OnOk result (bank.new ≡ (recovered (B.kinds maker.now.book.now) (terms_in (B.kinds maker.now.book.now) maker.now.layer)
        (closed maker.now.layer) (below_in maker.now.below) first low.now bank.old).nodes) }
    ensures end { IfOk result (EndIs (recovered (B.kinds maker.now.book.now) (terms_in (B.kinds maker.now.book.now) maker.now.layer) (closed maker.now.layer)
        (below_in maker.now.below) first low.now bank.old).value) }
    ensures shape { IfOk result (EndShaped maker.now.layer bank.new) }
    ensures grows { Extends bank.old bank.new }
    ensures single { OnOk result (KeepsSingle bank.old bank.new) }
    ensures bank { IsBank bank.new }
{
    let layer = maker.layer.layer;
    let memory = zeros(
        maker.alloc,
        bank,
        maker.book,
        lists::declared::as_slice(&layer.memory),
    )?;
    let at = SymBlock {
        layer: maker.layer,
        below: maker.below,
        block: &layer.recover,
        names: &[],
    };
    let none = SymValues::new(maker.alloc);
    run(
        maker.alloc,
        bank,
        maker.book,
        at,
        first,
        &memory,
        &none,
        low,
    )
}

/// Where the hypothesis is this: the base that a recovery began with is settled, and the recovery has ended in a state that passes.
fn woken<'a, B: Book>(
    maker: &Maker<'a, B>,
    bank: &mut Bank,
    obligation: SymObligation<'a>,
    first: u64,
    hypothesis: Id,
    vars: &SymValues,
    args: &SymValues,
    fallen: &SymValues,
    end: &SymEnd,
) -> Result<Id, NoMemory>
    requires bank { IsBank bank.old }
    requires can { CanWake maker.now.layer maker.now.below bank.old (obligation_of obligation) first hypothesis vars.now args.now fallen.now }
    requires end { EndShaped maker.now.layer bank.old end.now }
    ensures nodes { OnOk result (bank.new ≡ (woken (B.kinds maker.now.book.now) maker.now.layer maker.now.below (obligation_of obligation.entry)
        hypothesis vars.now args.now fallen.now end.now.answer end.now.memory end.now.low bank.old).nodes) }
    ensures id { IfOk result (λ id. id ≡ (woken (B.kinds maker.now.book.now) maker.now.layer maker.now.below (obligation_of obligation.entry)
        hypothesis vars.now args.now fallen.now end.now.answer end.now.memory end.now.low bank.old).value) }
    ensures width { IfOk result (λ id. HasWidth bank.new id 1) }
    ensures grows { Extends bank.old bank.new }
    ensures bank { IsBank bank.new }
{
    let side = maker.settled(bank, fallen)?;
    let some = passes_after(maker, bank, obligation, vars, args, end, first)?;
    let conclusion = join(bank, maker.book, Op::And, side, some)?;
    implied(bank, maker.book, hypothesis, conclusion)
}

/// After power has failed and left this, where the hypothesis is this: the base is settled, and a recovery ends in a state that passes.
fn recovers<'a, B: Book>(
    maker: &Maker<'a, B>,
    bank: &mut Bank,
    obligation: SymObligation<'a>,
    n: SymNumbers,
    hypothesis: Id,
    vars: &SymValues,
    args: &SymValues,
    fallen: &SymValues,
) -> Result<Id, NoMemory>
    requires bank { IsBank bank.old }
    requires can { CanWake maker.now.layer maker.now.below bank.old (obligation_of obligation) n.wake hypothesis vars.now args.now fallen.now }
    ensures nodes { OnOk result (bank.new ≡ (recovers (B.kinds maker.now.book.now) (terms_in (B.kinds maker.now.book.now) maker.now.layer)
        (closed maker.now.layer)
        (below_in maker.now.below) (obligation_of obligation.entry) (numbers_in n) hypothesis vars.now args.now fallen.now bank.old).nodes) }
    ensures id { IfOk result (λ id. id ≡ (recovers (B.kinds maker.now.book.now) (terms_in (B.kinds maker.now.book.now) maker.now.layer) (closed maker.now.layer)
        (below_in maker.now.below) (obligation_of obligation.entry) (numbers_in n) hypothesis vars.now args.now fallen.now bank.old).value) }
    ensures width { IfOk result (λ id. HasWidth bank.new id 1) }
    ensures grows { Extends bank.old bank.new }
    ensures bank { IsBank bank.new }
{
    let end = recovered(maker, bank, n.wake, fallen)?;
    woken(
        maker, bank, obligation, n.wake, hypothesis, vars, args, fallen, &end,
    )
}

/// A whole run of the obligation's block ends in a state that passes.
fn runs_through<'a, B: Book>(
    maker: &Maker<'a, B>,
    bank: &mut Bank,
    obligation: SymObligation<'a>,
    n: SymNumbers,
    s: &SymStarting,
    args: &SymValues,
) -> Result<Id, NoMemory>
    requires bank { IsBank bank.old }
    requires can { CanOblige maker.now.layer maker.now.below bank.old (obligation_of obligation) (numbers_in n) (starting_of s.now) args.now }
    ensures nodes { OnOk result (bank.new ≡ (runs_through_in (B.kinds maker.now.book.now) maker.now.layer maker.now.below
        (obligation_of obligation.entry) (numbers_in n) (starting_of s.now) args.now bank.old).nodes) }
    ensures id { IfOk result (λ id. id ≡ (runs_through_in (B.kinds maker.now.book.now) maker.now.layer maker.now.below
        (obligation_of obligation.entry) (numbers_in n) (starting_of s.now) args.now bank.old).value) }
    ensures width { IfOk result (λ id. HasWidth bank.new id 1) }
    ensures grows { Extends bank.old bank.new }
    ensures bank { IsBank bank.new }
{
    let at = SymBlock {
        layer: maker.layer,
        below: maker.below,
        block: block_of(maker.layer.layer, obligation),
        names: arguments_of(obligation),
    };
    let from = &s.from;
    let end = run(
        maker.alloc,
        bank,
        maker.book,
        at,
        n.run,
        &from.memory,
        args,
        &from.low,
    )?;
    let some = passes_after(maker, bank, obligation, &from.vars, args, &end, n.run)?;
    implied(bank, maker.book, s.related, some)
}

/// A run of the obligation's block that power cuts, and a recovery.
fn falls_through<'a, B: Book>(
    maker: &Maker<'a, B>,
    bank: &mut Bank,
    obligation: SymObligation<'a>,
    n: SymNumbers,
    s: &SymStarting,
    args: &SymValues,
) -> Result<Id, NoMemory>
    requires bank { IsBank bank.old }
    requires can { CanOblige maker.now.layer maker.now.below bank.old (obligation_of obligation) (numbers_in n) (starting_of s.now) args.now }
    requires silent { SpeaksOfNoAnswer (obligation_of obligation) }
    ensures nodes { OnOk result (bank.new ≡ (falls_through_in (B.kinds maker.now.book.now) maker.now.layer maker.now.below
        (obligation_of obligation.entry) (numbers_in n) (starting_of s.now) args.now bank.old).nodes) }
    ensures id { IfOk result (λ id. id ≡ (falls_through_in (B.kinds maker.now.book.now) maker.now.layer maker.now.below
        (obligation_of obligation.entry) (numbers_in n) (starting_of s.now) args.now bank.old).value) }
    ensures width { IfOk result (λ id. HasWidth bank.new id 1) }
    ensures grows { Extends bank.old bank.new }
    ensures bank { IsBank bank.new }
{
    let at = SymBlock {
        layer: maker.layer,
        below: maker.below,
        block: block_of(maker.layer.layer, obligation),
        names: arguments_of(obligation),
    };
    let from = &s.from;
    let low = &from.low;
    let left = cut(
        maker.alloc,
        bank,
        maker.book,
        at,
        n.run,
        n.stop,
        n.last,
        &from.memory,
        args,
        low,
    )?;
    let hypothesis = join(bank, maker.book, Op::And, s.related, left.reached)?;
    recovers(
        maker,
        bank,
        obligation,
        n,
        hypothesis,
        &from.vars,
        args,
        &left.fallen,
    )
}

/// A recovery that power cuts, from a settled state.
fn recovery_cut<'a, B: Book>(
    maker: &Maker<'a, B>,
    bank: &mut Bank,
    n: SymNumbers,
    low: &SymValues,
) -> Result<SymCut, NoMemory>
    requires bank { IsBank bank.old }
    requires can { CanRecover maker.now.layer maker.now.below bank.old n.run low.now }
    requires after { AfterRun (numbers_in n) }
    ensures nodes { OnOk result (bank.new ≡ (recovery_cut (B.kinds maker.now.book.now) maker.now.layer maker.now.below
        (numbers_in n) low.now bank.old).nodes) }
    ensures end { IfOk result (CutIs (recovery_cut (B.kinds maker.now.book.now) maker.now.layer maker.now.below
        (numbers_in n) low.now bank.old).value) }
    ensures shape { IfOk result (λ c. LowShaped bank.new maker.now.layer.low.now c.fallen) }
    ensures width { IfOk result (λ c. HasWidth bank.new c.reached 1) }
    ensures grows { Extends bank.old bank.new }
    ensures single { OnOk result (KeepsSingle bank.old bank.new) }
    ensures bank { IsBank bank.new }
{
    let layer = maker.layer.layer;
    let memory = zeros(
        maker.alloc,
        bank,
        maker.book,
        lists::declared::as_slice(&layer.memory),
    )?;
    let at = SymBlock {
        layer: maker.layer,
        below: maker.below,
        block: &layer.recover,
        names: &[],
    };
    let none = SymValues::new(maker.alloc);
    cut(
        maker.alloc,
        bank,
        maker.book,
        at,
        n.run,
        n.stop,
        n.last,
        &memory,
        &none,
        low,
    )
}

/// Whether two runs leave the same memory and the same state below.
fn same_ends<'a, B: Book>(
    maker: &Maker<'a, B>,
    bank: &mut Bank,
    one: &SymEnd,
    two: &SymEnd,
) -> Result<Id, NoMemory>
    requires bank { IsBank bank.old }
    requires one { EndShaped maker.now.layer bank.old one.now }
    requires two { EndShaped maker.now.layer bank.old two.now }
    ensures nodes { OnOk result (bank.new ≡ (same_ends (B.kinds maker.now.book.now)
        one.now two.now bank.old).nodes) }
    ensures id { IfOk result (λ id. id ≡ (same_ends (B.kinds maker.now.book.now)
        one.now two.now bank.old).value) }
    ensures width { IfOk result (λ id. HasWidth bank.new id 1) }
    ensures grows { Extends bank.old bank.new }
    ensures bank { IsBank bank.new }
{
    let memories = all_equal(
        maker.alloc,
        bank,
        maker.book,
        one.memory.as_slice(),
        two.memory.as_slice(),
    )?;
    let bases = all_equal(
        maker.alloc,
        bank,
        maker.book,
        one.low.as_slice(),
        two.low.as_slice(),
    )?;
    join(bank, maker.book, Op::And, memories, bases)
}

/// Whether the base is settled that the first of two recoveries began with, and both end alike.
fn settled_alike<'a, B: Book>(
    maker: &Maker<'a, B>,
    bank: &mut Bank,
    fallen: &SymValues,
    one: &SymEnd,
    two: &SymEnd,
) -> Result<Id, NoMemory>
    requires bank { IsBank bank.old }
    requires site { SiteFits maker.now.layer maker.now.below }
    requires fallen { LowShaped bank.old maker.now.layer.low.now fallen.now }
    requires one { EndShaped maker.now.layer bank.old one.now }
    requires two { EndShaped maker.now.layer bank.old two.now }
    ensures nodes { OnOk result (bank.new ≡ (settled_alike (B.kinds maker.now.book.now) maker.now.layer maker.now.below fallen.now
        one.now.memory one.now.low two.now.memory two.now.low bank.old).nodes) }
    ensures id { IfOk result (λ id. id ≡ (settled_alike (B.kinds maker.now.book.now) maker.now.layer maker.now.below fallen.now
        one.now.memory one.now.low two.now.memory two.now.low bank.old).value) }
    ensures width { IfOk result (λ id. HasWidth bank.new id 1) }
    ensures grows { Extends bank.old bank.new }
    ensures bank { IsBank bank.new }
{
    let side = maker.settled(bank, fallen)?;
    let same = same_ends(maker, bank, one, two)?;
    join(bank, maker.book, Op::And, side, same)
}

/// Whether a recovery that has ended so, from a base that is to be settled, ends like one from the first base.
fn ends_alike<'a, B: Book>(
    maker: &Maker<'a, B>,
    bank: &mut Bank,
    n: SymNumbers,
    low: &SymValues,
    fallen: &SymValues,
    end: &SymEnd,
) -> Result<Id, NoMemory>
    requires bank { IsBank bank.old }
    requires can { CanRecover maker.now.layer maker.now.below bank.old n.other low.now }
    requires fallen { LowShaped bank.old maker.now.layer.low.now fallen.now }
    requires end { EndShaped maker.now.layer bank.old end.now }
    ensures nodes { OnOk result (bank.new ≡ (ends_alike (B.kinds maker.now.book.now) maker.now.layer maker.now.below
        (numbers_in n) low.now fallen.now end.now.memory end.now.low bank.old).nodes) }
    ensures id { IfOk result (λ id. id ≡ (ends_alike (B.kinds maker.now.book.now) maker.now.layer maker.now.below
        (numbers_in n) low.now fallen.now end.now.memory end.now.low bank.old).value) }
    ensures width { IfOk result (λ id. HasWidth bank.new id 1) }
    ensures grows { Extends bank.old bank.new }
    ensures bank { IsBank bank.new }
{
    let other = recovered(maker, bank, n.other, low)?;
    settled_alike(maker, bank, fallen, end, &other)
}

/// Whether a recovery from what power left, which is to be settled, ends like one from the first base.
fn recovers_alike<'a, B: Book>(
    maker: &Maker<'a, B>,
    bank: &mut Bank,
    n: SymNumbers,
    low: &SymValues,
    fallen: &SymValues,
) -> Result<Id, NoMemory>
    requires bank { IsBank bank.old }
    requires site { SiteFits maker.now.layer maker.now.below }
    requires low { LowShaped bank.old maker.now.layer.low.now low.now }
    requires fallen { LowShaped bank.old maker.now.layer.low.now fallen.now }
    requires single { SingleFrom n.run bank.old }
    requires after { AfterRun (numbers_in n) }
    ensures nodes { OnOk result (bank.new ≡ (recovers_alike (B.kinds maker.now.book.now) maker.now.layer maker.now.below
        (numbers_in n) low.now fallen.now bank.old).nodes) }
    ensures id { IfOk result (λ id. id ≡ (recovers_alike (B.kinds maker.now.book.now) maker.now.layer maker.now.below
        (numbers_in n) low.now fallen.now bank.old).value) }
    ensures width { IfOk result (λ id. HasWidth bank.new id 1) }
    ensures grows { Extends bank.old bank.new }
    ensures bank { IsBank bank.new }
{
    let end = recovered(maker, bank, n.wake, fallen)?;
    ends_alike(maker, bank, n, low, fallen, &end)
}

/// What is asked of the recoveries after one that power cut, which left this.
fn again_after<'a, B: Book>(
    maker: &Maker<'a, B>,
    bank: &mut Bank,
    n: SymNumbers,
    settled: Id,
    low: &SymValues,
    left: &SymCut,
) -> Result<Id, NoMemory>
    requires bank { IsBank bank.old }
    requires site { SiteFits maker.now.layer maker.now.below }
    requires settled { HasWidth bank.old settled 1 }
    requires low { LowShaped bank.old maker.now.layer.low.now low.now }
    requires fallen { LowShaped bank.old maker.now.layer.low.now left.now.fallen }
    requires reached { HasWidth bank.old left.now.reached 1 }
    requires single { SingleFrom n.run bank.old }
    requires after { AfterRun (numbers_in n) }
    ensures nodes { OnOk result (bank.new ≡ (again_after (B.kinds maker.now.book.now) maker.now.layer maker.now.below
        (numbers_in n) settled low.now left.now.fallen left.now.reached bank.old).nodes) }
    ensures id { IfOk result (λ id. id ≡ (again_after (B.kinds maker.now.book.now) maker.now.layer maker.now.below
        (numbers_in n) settled low.now left.now.fallen left.now.reached bank.old).value) }
    ensures width { IfOk result (λ id. HasWidth bank.new id 1) }
    ensures grows { Extends bank.old bank.new }
    ensures bank { IsBank bank.new }
{
    let conclusion = recovers_alike(maker, bank, n, low, &left.fallen)?;
    let hypothesis = join(bank, maker.book, Op::And, settled, left.reached)?;
    implied(bank, maker.book, hypothesis, conclusion)
}

/// A recovery that power cuts, another after it, and one whole recovery from the first base.
fn recovers_again<'a, B: Book>(
    maker: &Maker<'a, B>,
    bank: &mut Bank,
    n: SymNumbers,
    s: &SymStarting,
) -> Result<Id, NoMemory>
    requires bank { IsBank bank.old }
    requires site { SiteFits maker.now.layer maker.now.below }
    requires starting { StartingShaped (closed maker.now.layer) bank.old (starting_of s.now) }
    requires single { SingleFrom n.run bank.old }
    requires after { AfterRun (numbers_in n) }
    ensures nodes { OnOk result (bank.new ≡ (recovers_again (B.kinds maker.now.book.now) (terms_in (B.kinds maker.now.book.now) maker.now.layer)
        (closed maker.now.layer) (below_in maker.now.below) (numbers_in n) (starting_of s.now) bank.old).nodes) }
    ensures id { IfOk result (λ id. id ≡ (recovers_again (B.kinds maker.now.book.now) (terms_in (B.kinds maker.now.book.now) maker.now.layer)
        (closed maker.now.layer) (below_in maker.now.below) (numbers_in n) (starting_of s.now) bank.old).value) }
    ensures width { IfOk result (λ id. HasWidth bank.new id 1) }
    ensures grows { Extends bank.old bank.new }
    ensures bank { IsBank bank.new }
{
    let left = recovery_cut(maker, bank, n, &s.settled_low)?;
    again_after(maker, bank, n, s.settled, &s.settled_low, &left)
}

/// Formatting ends in a state that passes.
fn formats<'a, B: Book>(
    maker: &Maker<'a, B>,
    bank: &mut Bank,
    n: SymNumbers,
) -> Result<Id, NoMemory>
    requires bank { IsBank bank.old }
    requires site { SiteFits maker.now.layer maker.now.below }
    requires single { SingleFrom n.run bank.old }
    ensures nodes { OnOk result (bank.new ≡ (formats (B.kinds maker.now.book.now) (terms_in (B.kinds maker.now.book.now) maker.now.layer)
        (closed maker.now.layer) (below_in maker.now.below) (numbers_in n) bank.old).nodes) }
    ensures id { IfOk result (λ id. id ≡ (formats (B.kinds maker.now.book.now) (terms_in (B.kinds maker.now.book.now) maker.now.layer) (closed maker.now.layer)
        (below_in maker.now.below) (numbers_in n) bank.old).value) }
    ensures width { IfOk result (λ id. HasWidth bank.new id 1) }
    ensures grows { Extends bank.old bank.new }
    ensures bank { IsBank bank.new }
{
    let layer = maker.layer.layer;
    let low = low_at_start(
        maker.alloc,
        bank,
        maker.book,
        maker.layer,
        maker.below,
        n.run,
    )?;
    let memory = zeros(
        maker.alloc,
        bank,
        maker.book,
        lists::declared::as_slice(&layer.memory),
    )?;
    let at = SymBlock {
        layer: maker.layer,
        below: maker.below,
        block: &layer.format,
        names: &[],
    };
    let none = SymValues::new(maker.alloc);
    let end = run(
        maker.alloc,
        bank,
        maker.book,
        at,
        n.run,
        &memory,
        &none,
        &low,
    )?;
    passes_after(maker, bank, SymObligation::Init, &none, &none, &end, n.run)
}

/// Power loss between operations, and a recovery.
fn idles<'a, B: Book>(
    maker: &Maker<'a, B>,
    bank: &mut Bank,
    n: SymNumbers,
    s: &SymStarting,
) -> Result<Id, NoMemory>
    requires bank { IsBank bank.old }
    requires site { SiteFits maker.now.layer maker.now.below }
    requires starting { StartingShaped (closed maker.now.layer) bank.old (starting_of s.now) }
    requires single { SingleFrom n.run bank.old }
    requires after { AfterRun (numbers_in n) }
    ensures nodes { OnOk result (bank.new ≡ (idles (B.kinds maker.now.book.now) maker.now.layer maker.now.below
        (numbers_in n) (starting_of s.now) bank.old).nodes) }
    ensures id { IfOk result (λ id. id ≡ (idles (B.kinds maker.now.book.now) maker.now.layer maker.now.below
        (numbers_in n) (starting_of s.now) bank.old).value) }
    ensures width { IfOk result (λ id. HasWidth bank.new id 1) }
    ensures grows { Extends bank.old bank.new }
    ensures bank { IsBank bank.new }
{
    let from = &s.from;
    let fallen = lost(
        maker.alloc,
        bank,
        maker.book,
        maker.layer,
        maker.below,
        n.last,
        &from.low,
    )?;
    let none = SymValues::new(maker.alloc);
    recovers(
        maker,
        bank,
        SymObligation::Idle,
        n,
        s.related,
        &from.vars,
        &none,
        &fallen,
    )
}

/// A whole run of the obligation's block over fresh arguments.
fn whole_term<'a, B: Book>(
    maker: &Maker<'a, B>,
    bank: &mut Bank,
    obligation: SymObligation<'a>,
    n: SymNumbers,
    s: &SymStarting,
) -> Result<Id, NoMemory>
    requires bank { IsBank bank.old }
    requires can { CanBegin maker.now.layer maker.now.below bank.old (obligation_of obligation) (numbers_in n) (starting_of s.now) }
    ensures nodes { OnOk result (bank.new ≡ (whole_term (B.kinds maker.now.book.now) maker.now.layer maker.now.below
        (obligation_of obligation.entry) (numbers_in n) (starting_of s.now) bank.old).nodes) }
    ensures id { IfOk result (λ id. id ≡ (whole_term (B.kinds maker.now.book.now) maker.now.layer maker.now.below
        (obligation_of obligation.entry) (numbers_in n) (starting_of s.now) bank.old).value) }
    ensures width { IfOk result (λ id. HasWidth bank.new id 1) }
    ensures grows { Extends bank.old bank.new }
    ensures bank { IsBank bank.new }
{
    let args = fresh(
        maker.alloc,
        bank,
        maker.book,
        n.args,
        arguments_of(obligation),
    )?;
    runs_through(maker, bank, obligation, n, s, &args)
}

/// A run of the obligation's block over fresh arguments that power cuts, and a recovery.
fn cut_term<'a, B: Book>(
    maker: &Maker<'a, B>,
    bank: &mut Bank,
    obligation: SymObligation<'a>,
    n: SymNumbers,
    s: &SymStarting,
) -> Result<Id, NoMemory>
    requires bank { IsBank bank.old }
    requires can { CanBegin maker.now.layer maker.now.below bank.old (obligation_of obligation) (numbers_in n) (starting_of s.now) }
    requires silent { SpeaksOfNoAnswer (obligation_of obligation) }
    ensures nodes { OnOk result (bank.new ≡ (cut_term (B.kinds maker.now.book.now) maker.now.layer maker.now.below
        (obligation_of obligation.entry) (numbers_in n) (starting_of s.now) bank.old).nodes) }
    ensures id { IfOk result (λ id. id ≡ (cut_term (B.kinds maker.now.book.now) maker.now.layer maker.now.below
        (obligation_of obligation.entry) (numbers_in n) (starting_of s.now) bank.old).value) }
    ensures width { IfOk result (λ id. HasWidth bank.new id 1) }
    ensures grows { Extends bank.old bank.new }
    ensures bank { IsBank bank.new }
{
    let args = fresh(
        maker.alloc,
        bank,
        maker.book,
        n.args,
        arguments_of(obligation),
    )?;
    falls_through(maker, bank, obligation, n, s, &args)
}

/// The term of an obligation, for the states that its layer's obligations begin with. Inputs of the bank are below the given number. Its only error
/// is out of memory, after which the bank may have more nodes.
pub fn term<'a, B: Book>(
    maker: &Maker<'a, B>,
    bank: &mut Bank,
    obligation: SymObligation<'a>,
    n: SymNumbers,
    s: &SymStarting,
    start: u64,
) -> Result<Id, NoMemory>
    requires bank { IsBank bank.old }
    requires site { SiteFits maker.now.layer maker.now.below }
    requires typed { ObligationTyped maker.now.layer.defs.now (below_in maker.now.below) (closed maker.now.layer) (obligation_of obligation) }
    requires tick { TickFits maker.now.layer maker.now.below (obligation_of obligation) }
    requires starting { StartingShaped (closed maker.now.layer) bank.old (starting_of s.now) }
    requires numbers { numbers_in n ≡ numbers_of (below_in maker.now.below) (closed maker.now.layer) (obligation_of obligation) start }
    requires free { InputsBelow start bank.old }
    ensures nodes { OnOk result (bank.new ≡ (term_made (B.kinds maker.now.book.now) (terms_in (B.kinds maker.now.book.now) maker.now.layer)
        (closed maker.now.layer) (below_in maker.now.below) (starting_of s.now) (obligation_of obligation.entry) (numbers_in n) bank.old).nodes) }
    ensures id { IfOk result (λ id. id ≡ (term_made (B.kinds maker.now.book.now) (terms_in (B.kinds maker.now.book.now) maker.now.layer)
        (closed maker.now.layer) (below_in maker.now.below) (starting_of s.now) (obligation_of obligation.entry) (numbers_in n) bank.old).value) }
    ensures width { IfOk result (λ id. HasWidth bank.new id 1) }
    ensures grows { Extends bank.old bank.new }
    ensures bank { IsBank bank.new }
{
    match obligation {
        SymObligation::Init => formats(maker, bank, n),
        SymObligation::Call(_) => whole_term(maker, bank, obligation, n, s),
        SymObligation::Cut(_) => cut_term(maker, bank, obligation, n, s),
        SymObligation::Tick(_) => whole_term(maker, bank, obligation, n, s),
        SymObligation::CutTick(_) => cut_term(maker, bank, obligation, n, s),
        SymObligation::Idle => idles(maker, bank, n, s),
        SymObligation::Again => recovers_again(maker, bank, n, s),
    }
}
