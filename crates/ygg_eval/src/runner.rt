//! The expressions, calls and right sides of a block.

ghost use Rattle.std.specs.Prelude.{◌≡◌, IfOk, All, IsTrue, map};
ghost use Rattle.ygg_value.specs.Number.{Number};
ghost use Rattle.ygg_value.specs.declared.row.Value.{Value as AnyValue};
ghost use Rattle.ygg_eval_expr.specs.ygg_meaning.Meaning.{is_one};
ghost use Rattle.ygg_eval_expr.specs.ygg_meaning.Progress.{Call as CallQuestion, from_source, indices_of, values_of};
ghost use Rattle.ygg_eval_expr.specs.Held.{env_of};
ghost use Rattle.ygg_eval_expr.specs.Known.{CanEvaluate};
ghost use Rattle.ygg_eval.specs.BlockSteps.{stands, value_result, Front, Ran, CallRan, CutEnds, Made};
ghost use Rattle.ygg_eval.specs.Ready.{eval_in, known_in, CanCall, CanSend, CanAsk, GivesIn};

use crate::below::place_of;
use crate::flow::{Break, Flow};
use crate::{Lower, Stop};
use std::alloc::Global;
use ygg_base::Text;
use ygg_eval_expr::{Binding, Evaluator, Power, Turn, digit, is_one, word_in};
use ygg_list::NoMemory;
use ygg_syntax::lists;
use ygg_syntax::tree::{Expr, Index, Name, Source};
use ygg_type::Typed;
use ygg_value::{Value, Values, Word};

/// What stays the same while a block is run: its file, the number of the machine below, and where the run stops.
#[derive(Clone, Copy)]
pub struct Runner<'a> {
    pub alloc: Global,
    pub typed: &'a Typed,
    pub number: u32,
    pub stop: Option<Stop>,
}

impl<'a> Runner<'a> {
    /// The value of an expression.
    pub fn value(&self, e: &'a Expr, names: &[Binding<'a, '_>]) -> Result<Value, NoMemory>
        requires { CanEvaluate (known_in self.now.typed.now.file (env_of names.now)) e.now }
        ensures { IfOk result (λ v. v ≡ eval_in self.now.typed.now.file e.now (env_of names.now)) }
    {
        let defs = lists::def::as_slice(&self.typed.file().defs);
        // Nothing is seen behind `low`.
        let low = &names[..0];
        let evaluator = Evaluator::new(self.alloc, defs, names, low);
        let value = evaluator.value(e)?;
        value.into_value(self.alloc)
    }

    /// Whether an expression is 1.
    pub fn test(&self, e: &'a Expr, names: &[Binding<'a, '_>]) -> Result<bool, NoMemory>
        requires { CanEvaluate (known_in self.now.typed.now.file (env_of names.now)) e.now }
        ensures { IfOk result (λ b. b ≡ is_one (eval_in self.now.typed.now.file e.now (env_of names.now))) }
    {
        let value = self.value(e, names)?;
        Ok(is_one(&value))
    }

    /// The values of arguments.
    pub fn values(&self, es: &'a [Expr], names: &[Binding<'a, '_>]) -> Result<Values, NoMemory>
        requires { All (CanEvaluate (known_in self.now.typed.now.file (env_of names.now))) es.now }
        ensures { IfOk result (λ vs. vs ≡ values_of (eval_in self.now.typed.now.file) es.now (env_of names.now)) }
    {
        let mut values = Values::new(self.alloc);
        for e in es {
            let value = self.value(e, names)?;
            values.push(value)?;
        }
        Ok(values)
    }

    /// The places that indices name.
    pub fn places(
        &self,
        indices: &'a [Index],
        names: &[Binding<'a, '_>],
    ) -> Result<Vec<Word>, NoMemory>
        requires { All (λ i. CanEvaluate (known_in self.now.typed.now.file (env_of names.now)) i.at) indices.now }
        ensures { IfOk result (λ ws. map (λ (w : Number). w.bits) ws.items ≡ indices_of (eval_in self.now.typed.now.file) indices.now (env_of names.now)) }
    {
        let mut places = Vec::new(self.alloc);
        for index in indices {
            let value = self.value(&index.at, names)?;
            places.push(word_in(&value))?;
        }
        Ok(places)
    }

    /// Makes power fail at the stop: within a call, or before it. Its only error is out of memory.
    fn cut<W: Lower>(
        &self,
        within: bool,
        name: &Text,
        args: &Values,
        lower: &mut W,
        power: &mut Power,
    ) -> Result<(), NoMemory>
        requires stops { IsTrue W.means.can_stop }
        requires sends { CanSend W.means self.now.typed.now.file self.now.number self.now.stop name.now args.now (stands lower.old power.old) }
        ensures { CutEnds W.means self.now.typed.now.file self.now.number self.now.stop within (CallQuestion name.now args.now)
            (stands lower.old power.old) result (stands lower.new power.new) }
    {
        if within {
            let op = place_of(self.typed, self.number, name);
            lower.fall(self.typed, op, args, power)
        } else {
            lower.lose(self.typed, power)
        }
    }

    /// Makes a call of the machine below.
    fn made<W: Lower>(
        &self,
        name: &Text,
        args: &Values,
        lower: &mut W,
        power: &mut Power,
    ) -> Result<Flow<Option<Value>>, NoMemory>
        requires { CanSend W.means self.now.typed.now.file self.now.number self.now.stop name.now args.now (stands lower.old power.old) }
        ensures { Made W.means self.now.typed.now.file self.now.number self.now.stop (CallQuestion name.now args.now)
            (stands lower.old power.old) result (stands lower.new power.new) }
    {
        let op = place_of(self.typed, self.number, name);
        let turn = lower.call(self.typed, op, args, power)?;
        match turn {
            Turn::Done => Ok(Flow::Goes(None)),
            Turn::Answer(value) => Ok(Flow::Goes(Some(value))),
            Turn::Down => Ok(Flow::Breaks(Break::Down)),
            Turn::Failed => Ok(Flow::Breaks(Break::Failed)),
        }
    }

    /// A call of the machine below, unless the stop comes first.
    pub fn call<W: Lower>(
        &self,
        f: &'a Name,
        es: &'a [Expr],
        names: &[Binding<'a, '_>],
        left: &mut u64,
        lower: &mut W,
        power: &mut Power,
    ) -> Result<Flow<Option<Value>>, NoMemory>
        requires { CanCall W.means self.now.typed.now.file self.now.number self.now.stop f.now es.now (env_of names.now) (stands lower.old power.old) }
        ensures { CallRan W.means self.now.typed.now.file self.now.number self.now.stop
            (CallQuestion f.now.text (values_of (eval_in self.now.typed.now.file) es.now (env_of names.now)))
            (stands lower.old power.old) left.old result (stands lower.new power.new) left.new }
    {
        let args = self.values(es, names)?;
        match self.stop {
            None => self.made(&f.text, &args, lower, power),
            Some(stop) => {
                if *left == 0 {
                    self.cut(stop.within, &f.text, &args, lower, power)?;
                    return Ok(Flow::Breaks(Break::Stopped));
                }
                *left -= 1;
                self.made(&f.text, &args, lower, power)
            }
        }
    }

    /// The value of a right side.
    pub fn source<W: Lower>(
        &self,
        source: &'a Source,
        names: &[Binding<'a, '_>],
        left: &mut u64,
        lower: &mut W,
        power: &mut Power,
    ) -> Result<Flow<Value>, NoMemory>
        requires { CanAsk W.means self.now.typed.now.file self.now.number self.now.stop source.now (env_of names.now) (stands lower.old power.old) }
        ensures given { GivesIn self.now.typed.now.file self.now.number source.now (env_of names.now) result }
        ensures ran { (next : AnyValue → Front) → Ran W.means self.now.typed.now.file self.now.number self.now.stop
            (λ answers. from_source (eval_in self.now.typed.now.file) source.now (env_of names.now) answers next) next
            (stands lower.old power.old) left.old result (stands lower.new power.new) left.new }
    {
        match source {
            Source::Value(e) => {
                let value = self.value(e, names)?;
                Ok(Flow::Goes(value))
            }
            Source::Choose(_) => {
                let pick = power.picks.peek();
                power.picks.take();
                Ok(Flow::Goes(digit(pick)))
            }
            Source::Call(_, f, es) => {
                value_result(self.call(f, lists::expr::as_slice(es), names, left, lower, power))
            }
        }
    }
}

/// The result of a call as that of a right side. An operation without an answer, which no typed file asks for a value, gives a
/// single digit 0.
fn value_result(called: Result<Flow<Option<Value>>, NoMemory>) -> Result<Flow<Value>, NoMemory>
    ensures { result ≡ value_result called }
{
    match called? {
        Flow::Goes(Some(value)) => Ok(Flow::Goes(value)),
        Flow::Goes(None) => Ok(Flow::Goes(digit(false))),
        Flow::Breaks(how) => Ok(Flow::Breaks(how)),
    }
}
