//! The statements of a block, one after another.

ghost use Rattle.std.specs.Prelude.{◌≡◌, ◌≤◌, ◌<◌, ◌^◌, ◌++◌, ◌∷◌, [], length, map, All, OnOk};
ghost use Rattle.ygg_value.specs.Words.{word};
ghost use Rattle.ygg_value.specs.declared.row.Value.TheVariants.{Word as AsWord};
ghost use Rattle.ygg_eval_expr.specs.ygg_meaning.Progress.{Call as CallQuestion, ask, assigned, for_each, from_source, in_turn, run_of, values_of};
ghost use Rattle.ygg_eval_expr.specs.Held.{env_of};
ghost use Rattle.ygg_eval_expr.specs.Known.{CanEvaluate};
ghost use Rattle.ygg_eval_expr.specs.Writing.{CanWrite};
ghost use Rattle.ygg_eval_expr.specs.ygg_meaning.Environments.{look_up};
ghost use Rattle.ygg_eval.specs.BlockSteps.{goes_on, stands, without_answer, Ran};
ghost use Rattle.ygg_eval.specs.Ready.{
  eval_in,
  known_in,
  numbered,
  inside_run,
  turn_run,
  CanAsk,
  CanAssign,
  CanCall,
  CanStep,
  CanRun,
  CanEnter,
  CanRepeat,
};

use crate::Lower;
use crate::flow::Flow;
use crate::names::write_name;
use crate::runner::Runner;
use ygg_eval_expr::{Binding, CowValue, Power};
use ygg_list::NoMemory;
use ygg_syntax::lists;
use ygg_syntax::tree::{Block, Expr, Index, Name, Numeral, Source, Stmt};
use ygg_value::{Value, Word};

/// What a block changes while it is run: its names with their values, and how many whole calls are left before the stop.
#[derive(Drop)]
pub struct Frame<'a, 'v> {
    pub names: Vec<Binding<'a, 'v>>,
    pub left: u64,
}

impl<'a> Runner<'a> {
    /// A `let`.
    fn bound<W: Lower>(
        &self,
        x: &'a Name,
        from: &'a Source,
        frame: &mut Frame<'a, '_>,
        lower: &mut W,
        power: &mut Power,
    ) -> Result<Flow<()>, NoMemory>
        requires { CanAsk W.means self.now.typed.now.file self.now.number self.now.stop from.now (env_of frame.old.names.items) (stands lower.old power.old) }
        ensures { Ran W.means self.now.typed.now.file self.now.number self.now.stop
            (λ answers. from_source (eval_in self.now.typed.now.file) from.now (env_of frame.old.names.items) answers
            (λ v. goes_on (env_of frame.old.names.items ++ (x.now.text, v) ∷ []))) (λ u. goes_on (env_of frame.new.names.items))
            (stands lower.old power.old) frame.old.left result (stands lower.new power.new) frame.new.left }
    {
        match self.source(from, frame.names.as_slice(), &mut frame.left, lower, power)? {
            Flow::Goes(value) => {
                name_value(&mut frame.names, x, value)?;
                Ok(Flow::Goes(()))
            }
            Flow::Breaks(how) => Ok(Flow::Breaks(how)),
        }
    }

    /// Gives a variable, or the part of it that these indices name, a value. Its only error is out of memory.
    pub fn write(
        &self,
        x: &'a Name,
        indices: &'a [Index],
        value: Value,
        names: &mut Vec<Binding<'a, '_>>,
    ) -> Result<(), NoMemory>
        requires evaluates { All (λ i. CanEvaluate (known_in self.now.typed.now.file (env_of names.old.items)) i.at) indices.now }
        requires writes { CanWrite (look_up x.now.text (env_of names.old.items)) (length indices.now) value }
        ensures { OnOk result (env_of names.new.items ≡ assigned (eval_in self.now.typed.now.file) (env_of names.old.items) x.now.text indices.now value) }
    {
        let places = self.places(indices, names.as_slice())?;
        write_name(
            self.alloc,
            names,
            x.text.as_slice(),
            places.as_slice(),
            value,
        )
    }

    /// An assignment.
    fn assigned<W: Lower>(
        &self,
        x: &'a Name,
        indices: &'a [Index],
        from: &'a Source,
        frame: &mut Frame<'a, '_>,
        lower: &mut W,
        power: &mut Power,
    ) -> Result<Flow<()>, NoMemory>
        requires { CanAssign W.means self.now.typed.now.file self.now.number self.now.stop x.now indices.now from.now (env_of frame.old.names.items)
            (stands lower.old power.old) }
        ensures { Ran W.means self.now.typed.now.file self.now.number self.now.stop
            (λ answers. from_source (eval_in self.now.typed.now.file) from.now (env_of frame.old.names.items) answers
            (λ v. goes_on (assigned (eval_in self.now.typed.now.file) (env_of frame.old.names.items) x.now.text indices.now v)))
            (λ u. goes_on (env_of frame.new.names.items)) (stands lower.old power.old) frame.old.left result (stands lower.new power.new) frame.new.left }
    {
        match self.source(from, frame.names.as_slice(), &mut frame.left, lower, power)? {
            Flow::Goes(value) => {
                self.write(x, indices, value, &mut frame.names)?;
                Ok(Flow::Goes(()))
            }
            Flow::Breaks(how) => Ok(Flow::Breaks(how)),
        }
    }

    /// A call whose answer is dropped.
    fn called<W: Lower>(
        &self,
        f: &'a Name,
        es: &'a [Expr],
        frame: &mut Frame<'a, '_>,
        lower: &mut W,
        power: &mut Power,
    ) -> Result<Flow<()>, NoMemory>
        requires { CanCall W.means self.now.typed.now.file self.now.number self.now.stop f.now es.now (env_of frame.old.names.items)
            (stands lower.old power.old) }
        ensures { Ran W.means self.now.typed.now.file self.now.number self.now.stop
            (λ answers. ask (CallQuestion f.now.text (values_of (eval_in self.now.typed.now.file) es.now (env_of frame.old.names.items))) answers
            (λ a. goes_on (env_of frame.old.names.items))) (λ u. goes_on (env_of frame.new.names.items))
            (stands lower.old power.old) frame.old.left result (stands lower.new power.new) frame.new.left }
    {
        let names = frame.names.as_slice();
        without_answer(self.call(f, es, names, &mut frame.left, lower, power))
    }
}

impl<'a> Runner<'a> {
    /// A statement.
    #[cycle(run)]
    fn statement<W: Lower>(
        &self,
        s: &'a Stmt,
        frame: &mut Frame<'a, '_>,
        lower: &mut W,
        power: &mut Power,
    ) -> Result<Flow<()>, NoMemory>
        requires { CanStep W.means self.now.typed.now.file self.now.number self.now.stop s.now (env_of frame.old.names.items) (stands lower.old power.old) }
        ensures { Ran W.means self.now.typed.now.file self.now.number self.now.stop
            (run_of (eval_in self.now.typed.now.file) s.now (env_of frame.old.names.items)) (λ u. goes_on (env_of frame.new.names.items))
            (stands lower.old power.old) frame.old.left result (stands lower.new power.new) frame.new.left }
    {
        match s {
            Stmt::Let(x, from) => self.bound(x, from, frame, lower, power),
            Stmt::Assign(x, indices, from) => {
                self.assigned(
                    x,
                    lists::index::as_slice(indices),
                    from,
                    frame,
                    lower,
                    power,
                )
            }
            Stmt::If(test, first, second) => {
                if self.test(test, frame.names.as_slice())? {
                    self.block(first, frame, lower, power)
                } else {
                    self.block(second, frame, lower, power)
                }
            }
            Stmt::For(x, w, n, each) => self.turns(x, *w, *n, each, frame, lower, power),
            Stmt::Call(f, es) => self.called(f, lists::expr::as_slice(es), frame, lower, power),
        }
    }

    /// Statements one after another. Where they don't go on, nothing is said of the names.
    #[cycle(run)]
    pub fn statements<W: Lower>(
        &self,
        all: &'a [Stmt],
        frame: &mut Frame<'a, '_>,
        lower: &mut W,
        power: &mut Power,
    ) -> Result<Flow<()>, NoMemory>
        requires { CanRun W.means self.now.typed.now.file self.now.number self.now.stop all.now (env_of frame.old.names.items) (stands lower.old power.old) }
        ensures { Ran W.means self.now.typed.now.file self.now.number self.now.stop
            (in_turn (map (run_of (eval_in self.now.typed.now.file)) all.now) (env_of frame.old.names.items))
            (λ u. goes_on (env_of frame.new.names.items)) (stands lower.old power.old) frame.old.left result (stands lower.new power.new) frame.new.left }
    {
        for s in all {
            match self.statement(s, frame, lower, power)? {
                Flow::Goes(()) => {}
                Flow::Breaks(how) => return Ok(Flow::Breaks(how)),
            }
        }
        Ok(Flow::Goes(()))
    }

    /// A block inside another: its own names are forgotten at its end.
    #[cycle(run)]
    fn block<W: Lower>(
        &self,
        b: &'a Block,
        frame: &mut Frame<'a, '_>,
        lower: &mut W,
        power: &mut Power,
    ) -> Result<Flow<()>, NoMemory>
        requires { CanEnter W.means self.now.typed.now.file self.now.number self.now.stop b.now (env_of frame.old.names.items) (stands lower.old power.old) }
        ensures { Ran W.means self.now.typed.now.file self.now.number self.now.stop
            (inside_run (eval_in self.now.typed.now.file) b.now (env_of frame.old.names.items)) (λ u. goes_on (env_of frame.new.names.items))
            (stands lower.old power.old) frame.old.left result (stands lower.new power.new) frame.new.left }
    {
        let outside = frame.names.len();
        let flow = self.statements(lists::stmt::as_slice(&b.statements), frame, lower, power);
        frame.names.truncate(outside);
        flow
    }

    /// The block of a loop for each number.
    #[cycle(run)]
    fn turns<W: Lower>(
        &self,
        x: &'a Name,
        w: Numeral,
        n: Numeral,
        each: &'a Block,
        frame: &mut Frame<'a, '_>,
        lower: &mut W,
        power: &mut Power,
    ) -> Result<Flow<()>, NoMemory>
        requires { CanRepeat W.means self.now.typed.now.file self.now.number self.now.stop x.now w n each.now (env_of frame.old.names.items)
            (stands lower.old power.old) }
        ensures { Ran W.means self.now.typed.now.file self.now.number self.now.stop
            (for_each n.value 0 (turn_run (eval_in self.now.typed.now.file) x.now w each.now) (env_of frame.old.names.items))
            (λ u. goes_on (env_of frame.new.names.items)) (stands lower.old power.old) frame.old.left result (stands lower.new power.new) frame.new.left }
    {
        for i in 0..n.value {
            let before = frame.names.len();
            name_number(&mut frame.names, x, w, i)?;
            match self.block(each, frame, lower, power)? {
                Flow::Goes(()) => {}
                Flow::Breaks(how) => return Ok(Flow::Breaks(how)),
            }
            frame.names.truncate(before);
        }
        Ok(Flow::Goes(()))
    }
}

/// Puts a name with a value after others. Its only error is out of memory.
pub fn name_value<'a>(
    names: &mut Vec<Binding<'a, '_>>,
    x: &'a Name,
    value: Value,
) -> Result<(), NoMemory>
    ensures { OnOk result (env_of names.new.items ≡ env_of names.old.items ++ (x.now.text, value) ∷ []) }
{
    names.push(Binding {
        name: x.text.as_slice(),
        held: CowValue::Made(value),
    })?;
    Ok(())
}

/// Puts the name of a loop with a number of this width after others. Its only error is out of memory.
pub fn name_number<'a>(
    names: &mut Vec<Binding<'a, '_>>,
    x: &'a Name,
    w: Numeral,
    i: u64,
) -> Result<(), NoMemory>
    requires least { 1 ≤ w.value }
    requires most { w.value ≤ 64 }
    requires below { i < 2 ^ w.value }
    ensures { OnOk result (env_of names.new.items ≡ numbered x.now w i (env_of names.old.items)) }
{
    name_value(names, x, number(w, i))
}

/// A number of this width.
fn number(w: Numeral, i: u64) -> Value
    requires least { 1 ≤ w.value }
    requires most { w.value ≤ 64 }
    requires below { i < 2 ^ w.value }
    ensures { result ≡ AsWord (word w.value i) }
{
    Value::Word(Word {
        width: w.value as u8,
        bits: i,
    })
}

/// The result of a call whose answer is dropped.
fn without_answer(called: Result<Flow<Option<Value>>, NoMemory>) -> Result<Flow<()>, NoMemory>
    ensures { result ≡ without_answer called }
{
    match called? {
        Flow::Goes(_) => Ok(Flow::Goes(())),
        Flow::Breaks(how) => Ok(Flow::Breaks(how)),
    }
}
