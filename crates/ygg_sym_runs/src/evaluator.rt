//! The evaluator of expressions over terms.

ghost use Rattle.std.specs.Prelude.{◌≡◌, ◌<◌, ℕ, IfOk, OnOk, IfSome, IfNone, All, List, map};
ghost use Rattle.ygg_shape.specs.ygg_bank.Inputs.{KeepsInputs};
ghost use Rattle.ygg_shape.specs.ygg_bank.Makes.{pure};
ghost use Rattle.ygg_shape.specs.ygg_bank.Nodes.{Extends, IsBank};
ghost use Rattle.ygg_shape.specs.ygg_bank.declared.node.Node.{Node as AnyNode};
ghost use Rattle.ygg_shape.specs.ygg_rules.declared.rule.RuleKind.{RuleKind};
ghost use Rattle.ygg_shape.specs.ygg_shape_cells.declared.terms.SymValue.{SymValue as AnyValue};
ghost use Rattle.ygg_eval_expr.specs.Known.{IsDefinition};
ghost use Rattle.ygg_sym_runs.specs.Names.{no_term};
ghost use Rattle.ygg_sym_runs.specs.Exprs.{all_made, joined, sym_value};
ghost use Rattle.ygg_sym_runs.specs.ExpressionMeaning.{SomeShape};
ghost use Rattle.ygg_sym_runs.specs.Seen.{
  CanCall,
  CanQuantify,
  CanTerm,
  env_of,
  joining,
  known_of,
  start_of,
  terms_called,
  terms_in,
  test_at,
};

use crate::held::{SymBinding, bound, copied, value_of};
use crate::made::{filled, id_in, operated, part, row, small, word};
use std::alloc::Global;
use ygg_shape::{Bank, Book, Id, NoMemory, Node, SymValue, merge};
use ygg_syntax::lists;
use ygg_syntax::tree::{Def, Expr, Name, Numeral, Quantifier};
use ygg_value::{Op, Word};

/// What the terms of an expression are made with: the definitions that it sees, its own names, the numbers of the quantifiers round it,
/// and the names of the machine below.
#[derive(Drop)]
pub struct SymEvaluator<'a, 'n> {
    alloc: Global,
    defs: &'a [Def],
    own: &'n [SymBinding<'a>],
    numbers: &'n [SymBinding<'a>],
    low: &'n [SymBinding<'a>],
}

impl<'a, 'n> SymEvaluator<'a, 'n> {
    /// An evaluator that sees these definitions and names, and behind `low` those of the machine below.
    pub fn new(
        alloc: Global,
        defs: &'a [Def],
        own: &'n [SymBinding<'a>],
        low: &'n [SymBinding<'a>],
    ) -> SymEvaluator<'a, 'n>
        ensures { known_of result ≡ record { defs = defs.now; scope = record { own = env_of own.now; low = env_of low.now } } }
    {
        SymEvaluator {
            alloc,
            defs,
            own,
            numbers: &[],
            low,
        }
    }

    /// The terms of an expression, which are worth its value in every environment. Its only error is out of memory, after which the bank
    /// may have more nodes.
    pub fn value<B: Book>(
        &self,
        bank: &mut Bank,
        book: &B,
        e: &'a Expr,
    ) -> Result<SymValue, NoMemory>
        requires { CanTerm (known_of self.now) bank.old e.now }
        ensures nodes { OnOk result (bank.new ≡ (terms_in (B.kinds book.now) (known_of self.now) e.now bank.old).nodes) }
        ensures form { IfOk result (λ x. x ≡ (terms_in (B.kinds book.now) (known_of self.now) e.now bank.old).value) }
        ensures shape { IfOk result (SomeShape bank.new) }
        ensures grows { Extends bank.old bank.new }
        ensures bank { IsBank bank.new }
        ensures inputs { OnOk result (KeepsInputs bank.old bank.new) }
    {
        // the bank's nodes stand in order
        let _ = bank.len();
        self.value_by(bank, book, e)
    }

    /// What `value` does.
    #[cycle(value)]
    fn value_by<B: Book>(
        &self,
        bank: &mut Bank,
        book: &B,
        e: &'a Expr,
    ) -> Result<SymValue, NoMemory>
        requires bank { IsBank bank.old }
        requires can { CanTerm (known_of self.now) bank.old e.now }
        ensures nodes { OnOk result (bank.new ≡ (terms_in (B.kinds book.now) (known_of self.now) e.now bank.old).nodes) }
        ensures form { IfOk result (λ x. x ≡ (terms_in (B.kinds book.now) (known_of self.now) e.now bank.old).value) }
        ensures grows { Extends bank.old bank.new }
        ensures bank { IsBank bank.new }
    {
        match e {
            Expr::Constant(n, w) => {
                let width = w.value as u8;
                let bits = n.value;
                word(bank, book, Node::Const(Word { width, bits }))
            }
            Expr::Low(_, x) => value_of(self.alloc, self.low, &[], x.text.as_slice()),
            Expr::Variable(x) => value_of(self.alloc, self.own, self.numbers, x.text.as_slice()),
            Expr::Apply(f, arguments) => {
                let arguments = self.values(bank, book, lists::expr::as_slice(arguments))?;
                self.called(bank, book, f.text.as_slice(), arguments.as_slice())
            }
            Expr::Binary(_, a, op, _, b) => {
                let a = self.value_by(bank, book, lists::expr::get(a))?;
                let b = self.value_by(bank, book, lists::expr::get(b))?;
                operated(bank, book, *op, &a, &b)
            }
            Expr::Not(_, a) => {
                let a = self.value_by(bank, book, lists::expr::get(a))?;
                small(bank, book, Node::Not { a: id_in(&a) })
            }
            Expr::At(whole, _, i) => {
                let whole = self.value_by(bank, book, lists::expr::get(whole))?;
                let i = self.value_by(bank, book, lists::expr::get(i))?;
                part(self.alloc, bank, book, whole, id_in(&i))
            }
            Expr::Pick(_, test, a, b) => {
                let test = self.value_by(bank, book, lists::expr::get(test))?;
                let a = self.value_by(bank, book, lists::expr::get(a))?;
                let b = self.value_by(bank, book, lists::expr::get(b))?;
                merge(self.alloc, bank, book, id_in(&test), &a, &b)
            }
            Expr::Resize(_, a, w) => {
                let a = self.value_by(bank, book, lists::expr::get(a))?;
                let width = w.value as u8;
                small(
                    bank,
                    book,
                    Node::Resize {
                        a: id_in(&a),
                        width,
                    },
                )
            }
            Expr::Fill(_, m, a) => {
                let a = self.value_by(bank, book, lists::expr::get(a))?;
                filled(self.alloc, m.value, id_in(&a))
            }
            Expr::Row(_, parts) => {
                let parts = self.values(bank, book, lists::expr::as_slice(parts))?;
                row(self.alloc, parts.as_slice())
            }
            Expr::Quantified(_, which, x, w, n, e) => {
                let holds = self.quantified(bank, book, *which, x, *w, *n, lists::expr::get(e))?;
                Ok(SymValue::Word(holds))
            }
        }
    }

    /// The values of expressions.
    #[cycle(value)]
    fn values<B: Book>(
        &self,
        bank: &mut Bank,
        book: &B,
        es: &'a [Expr],
    ) -> Result<Vec<SymValue>, NoMemory>
        requires bank { IsBank bank.old }
        requires can { All (CanTerm (known_of self.now) bank.old) es.now }
        ensures nodes { OnOk result (bank.new ≡ (all_made (map (sym_value (B.kinds book.now) (terms_called (B.kinds book.now) self.now.defs.now)) es.now)
            (known_of self.now).scope bank.old).nodes) }
        ensures form { IfOk result (λ xs. xs.items ≡ (all_made (map (sym_value (B.kinds book.now) (terms_called (B.kinds book.now) self.now.defs.now)) es.now)
            (known_of self.now).scope bank.old).value) }
        ensures grows { Extends bank.old bank.new }
        ensures bank { IsBank bank.new }
    {
        let mut values = Vec::new(self.alloc);
        for e in es {
            let value = self.value_by(bank, book, e)?;
            values.push(value)?;
        }
        Ok(values)
    }

    /// What a definition gives for arguments.
    #[cycle(value)]
    fn called<B: Book>(
        &self,
        bank: &mut Bank,
        book: &B,
        name: &[u8],
        args: &[SymValue],
    ) -> Result<SymValue, NoMemory>
        requires bank { IsBank bank.old }
        requires can { CanCall self.now.defs.now bank.old name.now args.now }
        ensures nodes { OnOk result (bank.new ≡ (terms_called (B.kinds book.now) self.now.defs.now name.now args.now bank.old).nodes) }
        ensures form { IfOk result (λ x. x ≡ (terms_called (B.kinds book.now) self.now.defs.now name.now args.now bank.old).value) }
        ensures grows { Extends bank.old bank.new }
        ensures bank { IsBank bank.new }
    {
        match definition(self.defs, name) {
            Some(place) => {
                let def = &self.defs[place];
                let own = bound(self.alloc, lists::declared::as_slice(&def.parameters), args)?;
                let inner = SymEvaluator::new(self.alloc, &self.defs[..place], own.as_slice(), &[]);
                inner.value_by(bank, book, &def.body)
            }
            None => Ok(SymValue::Word(Id(0))),
        }
    }

    /// Whether an expression is 1 at every number below a bound, or at some.
    #[cycle(value)]
    fn quantified<B: Book>(
        &self,
        bank: &mut Bank,
        book: &B,
        which: Quantifier,
        x: &'a Name,
        w: Numeral,
        n: Numeral,
        e: &'a Expr,
    ) -> Result<Id, NoMemory>
        requires bank { IsBank bank.old }
        requires can { CanQuantify (known_of self.now) bank.old which x.now w n e.now }
        ensures nodes { OnOk result (bank.new ≡ (joined (B.kinds book.now) (joining which) (start_of which) n.value
            (test_at (B.kinds book.now) (known_of self.now) x.now w e.now) bank.old).nodes) }
        ensures form { IfOk result (λ a. a ≡ (joined (B.kinds book.now) (joining which) (start_of which) n.value
            (test_at (B.kinds book.now) (known_of self.now) x.now w e.now) bank.old).value) }
        ensures grows { Extends bank.old bank.new }
        ensures bank { IsBank bank.new }
    {
        let op = joining(which);
        let bits = start_of(which);
        let mut all = bank.make(Node::Const(Word { width: 1, bits }), book)?;
        for i in 0..n.value {
            let test = self.test_at(bank, book, which, x, w, n, i, e)?;
            let b = id_in(&test);
            all = bank.make(Node::Bin { op, a: all, b }, book)?;
        }
        Ok(all)
    }

    /// An expression at a number below the bound.
    #[cycle(value)]
    fn test_at<B: Book>(
        &self,
        bank: &mut Bank,
        book: &B,
        which: Quantifier,
        x: &'a Name,
        w: Numeral,
        n: Numeral,
        i: u64,
        e: &'a Expr,
    ) -> Result<SymValue, NoMemory>
        requires bank { IsBank bank.old }
        requires can { CanQuantify (known_of self.now) bank.old which x.now w n e.now }
        requires below { i < n.value }
        ensures nodes { OnOk result (bank.new ≡ (test_at (B.kinds book.now) (known_of self.now) x.now w e.now i bank.old).nodes) }
        ensures form { IfOk result (λ y. y ≡ (test_at (B.kinds book.now) (known_of self.now) x.now w e.now i bank.old).value) }
        ensures grows { Extends bank.old bank.new }
        ensures bank { IsBank bank.new }
    {
        let width = w.value as u8;
        let value = word(bank, book, Node::Const(Word { width, bits: i }))?;
        let name = x.text.as_slice();
        let mut numbers = copied(self.alloc, self.numbers)?;
        numbers.push(SymBinding { name, value })?;
        let inner = SymEvaluator {
            alloc: self.alloc,
            defs: self.defs,
            own: self.own,
            numbers: numbers.as_slice(),
            low: self.low,
        };
        inner.value_by(bank, book, e)
    }
}

/// The operation that joins the tests.
fn joining(which: Quantifier) -> Op
    ensures { result ≡ joining which }
{
    match which {
        Quantifier::All => Op::And,
        Quantifier::Any => Op::Or,
    }
}

/// What the tests of no numbers are.
fn start_of(which: Quantifier) -> u64
    ensures { result ≡ start_of which }
{
    match which {
        Quantifier::All => 1,
        Quantifier::Any => 0,
    }
}

/// The place of the definition of a name.
fn definition(defs: &[Def], name: &[u8]) -> Option<usize>
    ensures some { IfSome result (λ place. IsDefinition defs.now name.now place) }
    ensures none { IfNone result ((kinds : List RuleKind) (args : List AnyValue) (nodes : List AnyNode) →
        terms_called kinds defs.now name.now args nodes ≡ pure no_term nodes) }
{
    for (place, def) in defs.iter().enumerate() {
        if def.name.text.as_slice() == name {
            return Some(place);
        }
    }
    None
}
