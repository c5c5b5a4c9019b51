//! What a layer's own specification may do, over terms.

ghost use Rattle.std.specs.Prelude.{◌≡◌, IfOk, OnOk};
ghost use Rattle.ygg_sym_spec.specs.ygg_bank.Nodes.{Extends, IsBank};
ghost use Rattle.ygg_sym_spec.specs.ygg_sym_runs.Disks.{done};
ghost use Rattle.ygg_sym_spec.specs.ygg_sym_runs.Lows.{LowShaped};
ghost use Rattle.ygg_sym_spec.specs.ygg_sym_runs.Lower.{KeepsSingle, SingleFrom};
ghost use Rattle.ygg_sym_spec.specs.Layers.{closed, terms_in};
ghost use Rattle.ygg_sym_spec.specs.Sites.{below_in};
ghost use Rattle.ygg_oblige_laws.specs.LayerTerms.{OperationFits};
ghost use Rattle.ygg_oblige_laws.specs.Numbers.{arguments_of};
ghost use Rattle.ygg_oblige_laws.specs.Outcomes.{fall_with_picks, outcome_made};
ghost use Rattle.ygg_oblige_laws.specs.Steps.{ObligationTyped, variables_of};
ghost use Rattle.ygg_oblige_parts.specs.Makers.{LayerFits};
ghost use Rattle.ygg_oblige_list.specs.InCode.{obligation_of};

use crate::states::Maker;
use ygg_oblige_list::SymObligation;
use ygg_sym_spec::{
    Bank, Book, NoMemory, SpecDone, SymPicks, SymValues, block, crash, start, then_crash,
};
use ygg_syntax::lists;
use ygg_syntax::tree::Operation;

/// Variables without an answer.
fn left(vars: SymValues) -> SpecDone
    ensures { done result.answer result.vars ≡ done None vars }
{
    SpecDone { answer: None, vars }
}

impl<'a, B: Book> Maker<'a, B> {
    /// Power fails within an operation, with these picks.
    fn fall(
        &self,
        bank: &mut Bank,
        operation: &'a Operation,
        vars: &SymValues,
        args: &SymValues,
        picks: &[bool],
        first: u64,
    ) -> Result<SymValues, NoMemory>
        requires bank { IsBank bank.old }
        requires layer { LayerFits self.now.layer self.now.below }
        requires typed { OperationFits self.now.layer.defs.now (below_in self.now.below) (closed self.now.layer) operation.now }
        requires vars { LowShaped bank.old (self.now.layer.layer.now).state vars.now }
        requires args { LowShaped bank.old (operation.now).arguments args.now }
        requires single { SingleFrom first bank.old }
        ensures nodes { OnOk result (bank.new ≡ (fall_with_picks (B.kinds self.now.book.now) (terms_in (B.kinds self.now.book.now) self.now.layer)
            (closed self.now.layer) operation.now (operation.now).on_crash vars.now args.now picks.now bank.old).nodes) }
        ensures form { IfOk result (λ xs. xs ≡ (fall_with_picks (B.kinds self.now.book.now) (terms_in (B.kinds self.now.book.now) self.now.layer)
            (closed self.now.layer) operation.now (operation.now).on_crash vars.now args.now picks.now bank.old).value) }
        ensures shape { IfOk result (LowShaped bank.new (self.now.layer.layer.now).state) }
        ensures grows { Extends bank.old bank.new }
        ensures single { OnOk result (KeepsSingle bank.old bank.new) }
        ensures bank { IsBank bank.new }
    {
        let layer = self.layer;
        let names = lists::declared::as_slice(&operation.arguments);
        let values = args.as_slice();
        match &operation.on_crash {
            Some(b) => {
                let given = SymPicks::Given(picks, first);
                then_crash(
                    self.alloc, bank, self.book, layer, given, b, vars, names, values,
                )
            }
            None => match picks {
                [] => vars.copy(self.alloc),
                [happened, rest @ ..] => {
                    let given = SymPicks::Given(rest, first);
                    if *happened {
                        let b = &operation.spec;
                        then_crash(
                            self.alloc, bank, self.book, layer, given, b, vars, names, values,
                        )
                    } else {
                        crash(self.alloc, bank, self.book, layer, given, vars)
                    }
                }
            },
        }
    }

    /// How the specification's step ends with these picks, from these variables and arguments. Inputs of the bank from the given number on are
    /// single digits. Its only error is out of memory, after which the bank may have more nodes.
    pub fn outcome(
        &self,
        bank: &mut Bank,
        obligation: SymObligation<'a>,
        vars: &SymValues,
        args: &SymValues,
        picks: &[bool],
        first: u64,
    ) -> Result<SpecDone, NoMemory>
        requires bank { IsBank bank.old }
        requires layer { LayerFits self.now.layer self.now.below }
        requires typed { ObligationTyped self.now.layer.defs.now (below_in self.now.below) (closed self.now.layer) (obligation_of obligation) }
        requires vars { LowShaped bank.old (variables_of (closed self.now.layer) (obligation_of obligation)) vars.now }
        requires args { LowShaped bank.old (arguments_of (obligation_of obligation)) args.now }
        requires single { SingleFrom first bank.old }
        ensures nodes { OnOk result (bank.new ≡ (outcome_made (B.kinds self.now.book.now) (terms_in (B.kinds self.now.book.now) self.now.layer)
            (closed self.now.layer) (obligation_of obligation.entry) vars.now args.now picks.now bank.old).nodes) }
        ensures form { IfOk result (λ d. done d.answer d.vars
            ≡ (outcome_made (B.kinds self.now.book.now) (terms_in (B.kinds self.now.book.now) self.now.layer)
            (closed self.now.layer) (obligation_of obligation.entry) vars.now args.now picks.now bank.old).value) }
        ensures shape { IfOk result (λ d. LowShaped bank.new (self.now.layer.layer.now).state d.vars) }
        ensures grows { Extends bank.old bank.new }
        ensures single { OnOk result (KeepsSingle bank.old bank.new) }
        ensures bank { IsBank bank.new }
    {
        let layer = self.layer;
        let given = SymPicks::Given(picks, first);
        match obligation {
            SymObligation::Init => { start(self.alloc, bank, self.book, layer, first).map(left) }
            SymObligation::Call(operation) => {
                let b = &operation.spec;
                let names = lists::declared::as_slice(&operation.arguments);
                block(
                    self.alloc,
                    bank,
                    self.book,
                    layer,
                    given,
                    b,
                    vars,
                    names,
                    args.as_slice(),
                )
            }
            SymObligation::Cut(operation) => {
                self.fall(bank, operation, vars, args, picks, first)
                    .map(left)
            }
            SymObligation::Tick(_) | SymObligation::Again => vars.copy(self.alloc).map(left),
            SymObligation::CutTick(_) | SymObligation::Idle => {
                crash(self.alloc, bank, self.book, layer, given, vars).map(left)
            }
        }
    }
}
