//! The statements of a block over terms, one after another.

ghost use Rattle.std.specs.Prelude.{◌≡◌, ◌≤◌, ◌<◌, ◌^◌, ◌++◌, ◌∷◌, [], IfOk, OnOk};
ghost use Rattle.ygg_sym_runs.specs.ygg_bank.Nodes.{Extends, IsBank};
ghost use Rattle.ygg_syntax.specs.declared.tree.Stmt.TheOpen.{Stmt-F};
ghost use Rattle.ygg_sym_runs.specs.Exprs.{number_made};
ghost use Rattle.ygg_sym_runs.specs.Seen.{env_of};
ghost use Rattle.ygg_sym_runs.specs.Joining.{CanJoinEnds};
ghost use Rattle.ygg_sym_runs.specs.Lower.{KeepsSingle};
ghost use Rattle.ygg_sym_runs.specs.Ready.{
  CanAssign,
  CanCall,
  CanEnter,
  CanGet,
  CanRepeat,
  CanRun,
  CanStep,
  Ended,
  inside_run,
  order_run,
  stmt_run,
  terms_of,
  turns_run,
};
ghost use Rattle.ygg_sym_runs.specs.Runs.{merge_state, state, sym_stmt};

use crate::lower::SymLower;
use crate::names::{change, copy_names, join_names, name_value};
use crate::question::Awaited;
use crate::runner::SymRunner;
use crate::{Bank, Book, Id, NoMemory, Node, SymBinding, SymValue, id_in};
use ygg_list::Duplicate;
use ygg_syntax::lists;
use ygg_syntax::tree::{Block, Expr, Index, Name, Numeral, Source, Stmt};
use ygg_value::Word;

/// What a block changes while it is run: its names with their values, and the state of the machine below.
#[derive(Drop)]
pub struct SymFrame<'a, S: Drop> {
    pub names: Vec<SymBinding<'a>>,
    pub state: S,
}

impl<'a, W: SymLower, B: Book> SymRunner<'a, W, B> {
    /// A `let`.
    fn bound(
        &self,
        x: &'a Name,
        from: &'a Source,
        place: u64,
        bank: &mut Bank,
        frame: &mut SymFrame<'a, W::State>,
    ) -> Result<u64, NoMemory>
        requires can { CanGet (W.means self.now.machine.now) self.now.defs.now from.now bank.old (env_of frame.old.names.items) frame.old.state }
        requires bank { IsBank bank.old }
        ensures ran { IfOk result (λ end. Ended (sym_stmt (B.kinds self.now.book.now) (terms_of (B.kinds self.now.book.now) self.now.defs.now)
            ((W.means self.now.machine.now).machine (B.kinds self.now.book.now)) (Stmt-F.Let x.now from.now))
            place (env_of frame.old.names.items) frame.old.state bank.old end (env_of frame.new.names.items) frame.new.state bank.new) }
        ensures grows { Extends bank.old bank.new }
        ensures bank { IsBank bank.new }
    {
        let end = self.after(from, place)?;
        let value = self.source(from, place, bank, frame.names.as_slice(), &mut frame.state)?;
        name_value(&mut frame.names, x, value)?;
        Ok(end)
    }

    /// An assignment.
    fn assigned(
        &self,
        x: &'a Name,
        indices: &'a [Index],
        from: &'a Source,
        place: u64,
        bank: &mut Bank,
        frame: &mut SymFrame<'a, W::State>,
    ) -> Result<u64, NoMemory>
        requires can { CanAssign (W.means self.now.machine.now) self.now.defs.now x.now indices.now from.now bank.old
            (env_of frame.old.names.items) frame.old.state }
        requires bank { IsBank bank.old }
        ensures ran { IfOk result (λ end. Ended (sym_stmt (B.kinds self.now.book.now) (terms_of (B.kinds self.now.book.now) self.now.defs.now)
            ((W.means self.now.machine.now).machine (B.kinds self.now.book.now)) (Stmt-F.Assign x.now indices.now from.now))
            place (env_of frame.old.names.items) frame.old.state bank.old end (env_of frame.new.names.items) frame.new.state bank.new) }
        ensures grows { Extends bank.old bank.new }
        ensures bank { IsBank bank.new }
    {
        let end = self.after(from, place)?;
        let places = self.places(indices, bank, frame.names.as_slice())?;
        let value = self.source(from, place, bank, frame.names.as_slice(), &mut frame.state)?;
        change(
            self.alloc,
            bank,
            self.book,
            &mut frame.names,
            x.text.as_slice(),
            places.as_slice(),
            value,
        )?;
        Ok(end)
    }

    /// A call whose answer is dropped.
    fn called(
        &self,
        f: &'a Name,
        es: &'a [Expr],
        place: u64,
        bank: &mut Bank,
        frame: &mut SymFrame<'a, W::State>,
    ) -> Result<u64, NoMemory>
        requires can { CanCall (W.means self.now.machine.now) self.now.defs.now f.now es.now bank.old (env_of frame.old.names.items) frame.old.state }
        requires bank { IsBank bank.old }
        ensures ran { IfOk result (λ end. Ended (sym_stmt (B.kinds self.now.book.now) (terms_of (B.kinds self.now.book.now) self.now.defs.now)
            ((W.means self.now.machine.now).machine (B.kinds self.now.book.now)) (Stmt-F.Call f.now es.now))
            place (env_of frame.old.names.items) frame.old.state bank.old end (env_of frame.new.names.items) frame.new.state bank.new) }
        ensures grows { Extends bank.old bank.new }
        ensures bank { IsBank bank.new }
    {
        let end = self.after_call(f, place)?;
        let args = self.values(es, bank, frame.names.as_slice())?;
        let question = Awaited::Call(f.text.as_slice(), args.as_slice());
        self.machine.handle(
            self.alloc,
            bank,
            self.book,
            place,
            question,
            &mut frame.state,
        )?;
        Ok(end)
    }

    /// An equal frame.
    fn copy(&self, frame: &SymFrame<'a, W::State>) -> Result<SymFrame<'a, W::State>, NoMemory>
        ensures names { IfOk result (λ copy. env_of copy.names.items ≡ env_of frame.now.names.items) }
        ensures state { IfOk result (λ copy. copy.state ≡ frame.now.state) }
    {
        let names = copy_names(self.alloc, frame.names.as_slice())?;
        let state = frame.state.duplicate(self.alloc)?;
        Ok(SymFrame { names, state })
    }

    /// Merges the ends of two sides by a test.
    fn join(
        &self,
        test: Id,
        bank: &mut Bank,
        frame: &mut SymFrame<'a, W::State>,
        other: &SymFrame<'a, W::State>,
    ) -> Result<(), NoMemory>
        requires can { CanJoinEnds (W.means self.now.machine.now) bank.old test (env_of frame.old.names.items) (env_of other.now.names.items)
            frame.old.state other.now.state }
        requires bank { IsBank bank.old }
        ensures nodes { OnOk result (bank.new ≡ (merge_state (B.kinds self.now.book.now) (terms_of (B.kinds self.now.book.now) self.now.defs.now)
            ((W.means self.now.machine.now).machine (B.kinds self.now.book.now)) test
            (state (env_of frame.old.names.items) frame.old.state) (state (env_of other.now.names.items) other.now.state) bank.old).nodes) }
        ensures names { OnOk result (env_of frame.new.names.items ≡ (merge_state (B.kinds self.now.book.now)
            (terms_of (B.kinds self.now.book.now) self.now.defs.now) ((W.means self.now.machine.now).machine (B.kinds self.now.book.now)) test
            (state (env_of frame.old.names.items) frame.old.state) (state (env_of other.now.names.items) other.now.state) bank.old).value.env) }
        ensures state { OnOk result (frame.new.state ≡ (merge_state (B.kinds self.now.book.now)
            (terms_of (B.kinds self.now.book.now) self.now.defs.now) ((W.means self.now.machine.now).machine (B.kinds self.now.book.now)) test
            (state (env_of frame.old.names.items) frame.old.state) (state (env_of other.now.names.items) other.now.state) bank.old).value.to) }
        ensures grows { Extends bank.old bank.new }
        ensures bank { IsBank bank.new }
        ensures single { OnOk result (KeepsSingle bank.old bank.new) }
    {
        let names = join_names(
            self.alloc,
            bank,
            self.book,
            test,
            frame.names.as_slice(),
            other.names.as_slice(),
        )?;
        let state = self.machine.merge(
            self.alloc,
            bank,
            self.book,
            test,
            &frame.state,
            &other.state,
        )?;
        frame.names = names;
        frame.state = state;
        Ok(())
    }

    /// A statement; of an `if` both sides are run, each with places of its own, and merged by the test.
    #[cycle(run)]
    fn statement(
        &self,
        s: &'a Stmt,
        place: u64,
        bank: &mut Bank,
        frame: &mut SymFrame<'a, W::State>,
    ) -> Result<u64, NoMemory>
        requires can { CanStep (W.means self.now.machine.now) self.now.defs.now s.now bank.old (env_of frame.old.names.items) frame.old.state }
        requires bank { IsBank bank.old }
        ensures ran { IfOk result (λ end. Ended (stmt_run (W.means self.now.machine.now) self.now.defs.now (B.kinds self.now.book.now) s.now)
            place (env_of frame.old.names.items) frame.old.state bank.old end (env_of frame.new.names.items) frame.new.state bank.new) }
        ensures grows { Extends bank.old bank.new }
        ensures bank { IsBank bank.new }
    {
        match s {
            Stmt::Let(x, from) => self.bound(x, from, place, bank, frame),
            Stmt::Assign(x, indices, from) => {
                self.assigned(x, lists::index::as_slice(indices), from, place, bank, frame)
            }
            Stmt::If(test, first, second) => {
                let value = self.value(test, bank, frame.names.as_slice())?;
                let mut other = self.copy(frame)?;
                let middle = self.block(first, place, bank, frame)?;
                let end = self.block(second, middle, bank, &mut other)?;
                self.join(id_in(&value), bank, frame, &other)?;
                Ok(end)
            }
            Stmt::For(x, w, n, each) => self.turns(x, *w, *n, each, place, bank, frame),
            Stmt::Call(f, es) => self.called(f, lists::expr::as_slice(es), place, bank, frame),
        }
    }

    /// Statements one after another, from a place on. The answer is the place after them. Its only error is out of memory, after which the
    /// bank may have more nodes, and nothing is said of the names and the state.
    #[cycle(run)]
    pub fn statements(
        &self,
        all: &'a [Stmt],
        place: u64,
        bank: &mut Bank,
        frame: &mut SymFrame<'a, W::State>,
    ) -> Result<u64, NoMemory>
        requires can { CanRun (W.means self.now.machine.now) self.now.defs.now all.now bank.old (env_of frame.old.names.items) frame.old.state }
        requires bank { IsBank bank.old }
        ensures ran { IfOk result (λ end. Ended (order_run (W.means self.now.machine.now) self.now.defs.now (B.kinds self.now.book.now) all.now)
            place (env_of frame.old.names.items) frame.old.state bank.old end (env_of frame.new.names.items) frame.new.state bank.new) }
        ensures grows { Extends bank.old bank.new }
        ensures bank { IsBank bank.new }
    {
        let mut at = place;
        for s in all {
            at = self.statement(s, at, bank, frame)?;
        }
        Ok(at)
    }

    /// A block inside another: its own names are forgotten at its end.
    #[cycle(run)]
    fn block(
        &self,
        b: &'a Block,
        place: u64,
        bank: &mut Bank,
        frame: &mut SymFrame<'a, W::State>,
    ) -> Result<u64, NoMemory>
        requires can { CanEnter (W.means self.now.machine.now) self.now.defs.now b.now bank.old (env_of frame.old.names.items) frame.old.state }
        requires bank { IsBank bank.old }
        ensures ran { IfOk result (λ end. Ended (inside_run (W.means self.now.machine.now) self.now.defs.now (B.kinds self.now.book.now) b.now)
            place (env_of frame.old.names.items) frame.old.state bank.old end (env_of frame.new.names.items) frame.new.state bank.new) }
        ensures grows { Extends bank.old bank.new }
        ensures bank { IsBank bank.new }
    {
        let outside = frame.names.len();
        let end = self.statements(lists::stmt::as_slice(&b.statements), place, bank, frame)?;
        frame.names.truncate(outside);
        Ok(end)
    }

    /// The block of a loop for each number.
    #[cycle(run)]
    fn turns(
        &self,
        x: &'a Name,
        w: Numeral,
        n: Numeral,
        each: &'a Block,
        place: u64,
        bank: &mut Bank,
        frame: &mut SymFrame<'a, W::State>,
    ) -> Result<u64, NoMemory>
        requires can { CanRepeat (W.means self.now.machine.now) self.now.defs.now x.now w n each.now bank.old
            (env_of frame.old.names.items) frame.old.state }
        requires bank { IsBank bank.old }
        ensures ran { IfOk result (λ end. Ended (turns_run (W.means self.now.machine.now) self.now.defs.now (B.kinds self.now.book.now) x.now w n each.now)
            place (env_of frame.old.names.items) frame.old.state bank.old end (env_of frame.new.names.items) frame.new.state bank.new) }
        ensures grows { Extends bank.old bank.new }
        ensures bank { IsBank bank.new }
    {
        let mut at = place;
        for i in 0..n.value {
            let before = frame.names.len();
            let number = self.number(w, i, bank)?;
            name_value(&mut frame.names, x, number)?;
            at = self.block(each, at, bank, frame)?;
            frame.names.truncate(before);
        }
        Ok(at)
    }

    /// A number of this width.
    fn number(&self, w: Numeral, i: u64, bank: &mut Bank) -> Result<SymValue, NoMemory>
        requires least { 1 ≤ w.value }
        requires most { w.value ≤ 64 }
        requires below { i < 2 ^ w.value }
        ensures nodes { OnOk result (bank.new ≡ (number_made (B.kinds self.now.book.now) w.value i bank.old).nodes) }
        ensures form { IfOk result (λ x. x ≡ (number_made (B.kinds self.now.book.now) w.value i bank.old).value) }
        ensures grows { Extends bank.old bank.new }
        ensures bank { IsBank bank.new }
        ensures single { OnOk result (KeepsSingle bank.old bank.new) }
    {
        let word = Word {
            width: w.value as u8,
            bits: i,
        };
        let term = bank.make(Node::Const(word), self.book)?;
        Ok(SymValue::Word(term))
    }
}
