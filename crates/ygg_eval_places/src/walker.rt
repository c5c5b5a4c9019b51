//! The statements of a block, one after another.

ghost use Rattle.std.specs.Prelude.{◌≡◌, ◌≤◌, ◌<◌, ◌^◌, IfOk, OnOk};
ghost use Rattle.ygg_syntax.specs.declared.tree.Stmt.TheOpen.{Stmt-F};
ghost use Rattle.ygg_meaning_laws.specs.Direct.{direct_run, stmt_direct};
ghost use Rattle.ygg_eval.specs.Ready.{eval_in};
ghost use Rattle.ygg_eval.specs.ygg_eval_expr.Held.{env_of};
ghost use Rattle.ygg_eval_places.specs.Ready.{CanAsk, CanAssign, CanCall, CanEnter, CanRepeat, CanRun, CanStep};
ghost use Rattle.ygg_eval_places.specs.Walks.{Ended, inside_part, order_part, stmt_part, turns_part};

use crate::places::{Places, Question};
use crate::unrolled::{add, rooms_after};
use ygg_eval::{Binding, Runner, name_number, name_value};
use ygg_list::NoMemory;
use ygg_syntax::lists;
use ygg_syntax::tree::{Block, Expr, Index, Name, Numeral, Source, Stmt};

/// What stays the same while a block is run by place: what evaluates its expressions, and the machine that it runs on.
#[derive(Drop)]
pub struct Walker<'a, W> {
    pub runner: Runner<'a>,
    pub machine: &'a W,
}

impl<'a, W: Places> Walker<'a, W> {
    /// A `let`.
    fn bound(
        &self,
        x: &'a Name,
        from: &'a Source,
        place: u64,
        names: &mut Vec<Binding<'a, '_>>,
        state: &mut W::State,
    ) -> Result<u64, NoMemory>
        requires can { CanAsk (W.means self.now.machine.now) self.now.runner.typed.now.file self.now.runner.number from.now (env_of names.old.items)
            ((W.means self.now.machine.now).state state.old) }
        ensures ran { IfOk result (λ end. Ended (stmt_direct (eval_in self.now.runner.typed.now.file) (W.means self.now.machine.now).space
            (W.means self.now.machine.now).handle (Stmt-F.Let x.now from.now)) place (env_of names.old.items)
            ((W.means self.now.machine.now).state state.old) end (env_of names.new.items) ((W.means self.now.machine.now).state state.new)) }
    {
        let end = self.after(from, place)?;
        let value = self.source(from, place, names.as_slice(), state)?;
        name_value(names, x, value)?;
        Ok(end)
    }

    /// An assignment.
    fn assigned(
        &self,
        x: &'a Name,
        indices: &'a [Index],
        from: &'a Source,
        place: u64,
        names: &mut Vec<Binding<'a, '_>>,
        state: &mut W::State,
    ) -> Result<u64, NoMemory>
        requires can { CanAssign (W.means self.now.machine.now) self.now.runner.typed.now.file self.now.runner.number x.now indices.now from.now
            (env_of names.old.items) ((W.means self.now.machine.now).state state.old) }
        ensures ran { IfOk result (λ end. Ended (stmt_direct (eval_in self.now.runner.typed.now.file) (W.means self.now.machine.now).space
            (W.means self.now.machine.now).handle (Stmt-F.Assign x.now indices.now from.now)) place (env_of names.old.items)
            ((W.means self.now.machine.now).state state.old) end (env_of names.new.items) ((W.means self.now.machine.now).state state.new)) }
    {
        let end = self.after(from, place)?;
        let value = self.source(from, place, names.as_slice(), state)?;
        self.runner.write(x, indices, value, names)?;
        Ok(end)
    }

    /// A call whose answer is dropped.
    fn called(
        &self,
        f: &'a Name,
        es: &'a [Expr],
        place: u64,
        names: &[Binding<'a, '_>],
        state: &mut W::State,
    ) -> Result<u64, NoMemory>
        requires can { CanCall (W.means self.now.machine.now) self.now.runner.typed.now.file self.now.runner.number f.now es.now (env_of names.now)
            ((W.means self.now.machine.now).state state.old) }
        ensures ran { IfOk result (λ end. Ended (stmt_direct (eval_in self.now.runner.typed.now.file) (W.means self.now.machine.now).space
            (W.means self.now.machine.now).handle (Stmt-F.Call f.now es.now)) place (env_of names.now)
            ((W.means self.now.machine.now).state state.old) end (env_of names.now) ((W.means self.now.machine.now).state state.new)) }
    {
        let room = self.machine.space(&f.text)?;
        let end = add(place, room)?;
        let args = self.runner.values(es, names)?;
        self.machine.answer(
            self.runner.alloc,
            place,
            Question::Call(&f.text, &args),
            state,
        )?;
        Ok(end)
    }

    /// A statement. The two sides of an `if` have places one after the other, and one of them is run.
    #[cycle(walk)]
    fn statement(
        &self,
        s: &'a Stmt,
        place: u64,
        names: &mut Vec<Binding<'a, '_>>,
        state: &mut W::State,
    ) -> Result<u64, NoMemory>
        requires can { CanStep (W.means self.now.machine.now) self.now.runner.typed.now.file self.now.runner.number s.now (env_of names.old.items)
            ((W.means self.now.machine.now).state state.old) }
        ensures ran { IfOk result (λ end. Ended (stmt_part (W.means self.now.machine.now) self.now.runner.typed.now.file s.now) place
            (env_of names.old.items) ((W.means self.now.machine.now).state state.old) end (env_of names.new.items)
            ((W.means self.now.machine.now).state state.new)) }
    {
        match s {
            Stmt::Let(x, from) => self.bound(x, from, place, names, state),
            Stmt::Assign(x, indices, from) => {
                self.assigned(
                    x,
                    lists::index::as_slice(indices),
                    from,
                    place,
                    names,
                    state,
                )
            }
            Stmt::If(test, first, second) => {
                if self.runner.test(test, names.as_slice())? {
                    let middle = self.block(first, place, names, state)?;
                    rooms_after(self.machine, second, middle)
                } else {
                    let middle = rooms_after(self.machine, first, place)?;
                    self.block(second, middle, names, state)
                }
            }
            Stmt::For(x, w, n, each) => self.turns(x, *w, *n, each, place, names, state),
            Stmt::Call(f, es) => self.called(
                f,
                lists::expr::as_slice(es),
                place,
                names.as_slice(),
                state,
            ),
        }
    }

    /// Statements one after another, from a place on. The answer is the place after them.
    #[cycle(walk)]
    fn statements(
        &self,
        all: &'a [Stmt],
        place: u64,
        names: &mut Vec<Binding<'a, '_>>,
        state: &mut W::State,
    ) -> Result<u64, NoMemory>
        requires can { CanRun (W.means self.now.machine.now) self.now.runner.typed.now.file self.now.runner.number all.now (env_of names.old.items)
            ((W.means self.now.machine.now).state state.old) }
        ensures ran { IfOk result (λ end. Ended (order_part (W.means self.now.machine.now) self.now.runner.typed.now.file all.now) place
            (env_of names.old.items) ((W.means self.now.machine.now).state state.old) end (env_of names.new.items)
            ((W.means self.now.machine.now).state state.new)) }
    {
        let mut at = place;
        for s in all {
            at = self.statement(s, at, names, state)?;
        }
        Ok(at)
    }

    /// A block inside another: its own names are forgotten at its end.
    #[cycle(walk)]
    fn block(
        &self,
        b: &'a Block,
        place: u64,
        names: &mut Vec<Binding<'a, '_>>,
        state: &mut W::State,
    ) -> Result<u64, NoMemory>
        requires can { CanEnter (W.means self.now.machine.now) self.now.runner.typed.now.file self.now.runner.number b.now (env_of names.old.items)
            ((W.means self.now.machine.now).state state.old) }
        ensures ran { IfOk result (λ end. Ended (inside_part (W.means self.now.machine.now) self.now.runner.typed.now.file b.now) place
            (env_of names.old.items) ((W.means self.now.machine.now).state state.old) end (env_of names.new.items)
            ((W.means self.now.machine.now).state state.new)) }
    {
        let outside = names.len();
        let end = self.statements(lists::stmt::as_slice(&b.statements), place, names, state)?;
        names.truncate(outside);
        Ok(end)
    }

    /// The block of a loop for each number, each time at places of its own.
    #[cycle(walk)]
    fn turns(
        &self,
        x: &'a Name,
        w: Numeral,
        n: Numeral,
        each: &'a Block,
        place: u64,
        names: &mut Vec<Binding<'a, '_>>,
        state: &mut W::State,
    ) -> Result<u64, NoMemory>
        requires can { CanRepeat (W.means self.now.machine.now) self.now.runner.typed.now.file self.now.runner.number x.now w n each.now
            (env_of names.old.items) ((W.means self.now.machine.now).state state.old) }
        ensures ran { IfOk result (λ end. Ended (turns_part (W.means self.now.machine.now) self.now.runner.typed.now.file x.now w n each.now) place
            (env_of names.old.items) ((W.means self.now.machine.now).state state.old) end (env_of names.new.items)
            ((W.means self.now.machine.now).state state.new)) }
    {
        let mut at = place;
        for i in 0..n.value {
            let before = names.len();
            name_number(names, x, w, i)?;
            at = self.block(each, at, names, state)?;
            names.truncate(before);
        }
        Ok(at)
    }

    /// Runs the statements of a block from the first place on. The names are left as its statements leave them, those that it makes too. Its
    /// only error is out of memory, after which nothing is said of the names and the state.
    pub fn run(
        &self,
        b: &'a Block,
        names: &mut Vec<Binding<'a, '_>>,
        state: &mut W::State,
    ) -> Result<(), NoMemory>
        requires can { CanRun (W.means self.now.machine.now) self.now.runner.typed.now.file self.now.runner.number b.now.statements
            (env_of names.old.items) ((W.means self.now.machine.now).state state.old) }
        ensures names { OnOk result (env_of names.new.items
            ≡ (direct_run (eval_in self.now.runner.typed.now.file) (W.means self.now.machine.now).space (W.means self.now.machine.now).handle b.now
            (env_of names.old.items) ((W.means self.now.machine.now).state state.old)).env) }
        ensures state { OnOk result ((W.means self.now.machine.now).state state.new
            ≡ (direct_run (eval_in self.now.runner.typed.now.file) (W.means self.now.machine.now).space (W.means self.now.machine.now).handle b.now
            (env_of names.old.items) ((W.means self.now.machine.now).state state.old)).to) }
    {
        self.statements(lists::stmt::as_slice(&b.statements), 0, names, state)?;
        Ok(())
    }
}
