//! The evaluator.

ghost use Rattle.std.specs.Prelude.{◌≡◌, ◌≤◌, ◌<◌, ◌^◌, IfOk, IfSome, IfNone, All, List, map};
ghost use Rattle.ygg_value.specs.declared.row.Value.{Value as AnyValue};
ghost use Rattle.ygg_value.specs.declared.row.Value.TheVariants.{Word as AsWord};
ghost use Rattle.ygg_value.specs.Words.{word};
ghost use Rattle.ygg_value.specs.Values.{word_in};
ghost use Rattle.ygg_meaning_laws.specs.Environments.{bind, nothing};
ghost use Rattle.ygg_meaning_laws.specs.Meaning.{functions_of, quantified, is_one};
ghost use Rattle.ygg_eval_expr.specs.Held.{env_of, held_value, held_values};
ghost use Rattle.ygg_eval_expr.specs.Known.{is_all, known_of, value_in, with_number, CanEvaluate, CanCall, CanQuantify, IsDefinition};

use crate::held::{Binding, CowValue, value_of};
use crate::made::{digit, operated, part, row, word_in};
use std::alloc::Global;
use ygg_list::NoMemory;
use ygg_syntax::lists;
use ygg_syntax::tree::{Declared, Def, Expr, Name, Numeral, Quantifier};
use ygg_value::{Value, Word, not, resize};

/// What an expression is evaluated with: the definitions that it sees, its own names, the numbers of the quantifiers round it, and
/// the names of the machine below.
#[derive(Drop)]
pub struct Evaluator<'a, 'n, 'v> {
    alloc: Global,
    defs: &'a [Def],
    own: &'n [Binding<'a, 'v>],
    numbers: &'n [Binding<'a, 'n>],
    low: &'n [Binding<'a, 'v>],
}

impl<'a, 'n, 'v> Evaluator<'a, 'n, 'v> {
    /// An evaluator that sees these definitions and names, and behind `low` those of the machine below.
    pub fn new(
        alloc: Global,
        defs: &'a [Def],
        own: &'n [Binding<'a, 'v>],
        low: &'n [Binding<'a, 'v>],
    ) -> Evaluator<'a, 'n, 'v>
        ensures { known_of result ≡ record { defs = defs.now; own = env_of own.now; low = env_of low.now } }
    {
        Evaluator {
            alloc,
            defs,
            own,
            numbers: &[],
            low,
        }
    }

    /// The value of an expression, lent where it is the value of a name. Its only error is out of memory.
    #[cycle(value)]
    pub fn value(&self, e: &'a Expr) -> Result<CowValue<'n>, NoMemory>
        requires { CanEvaluate (known_of self.now) e.now }
        ensures { IfOk result (λ v. held_value v ≡ value_in (known_of self.now) e.now) }
    {
        match e {
            Expr::Constant(v, w) => Ok(CowValue::Made(Value::Word(Word {
                width: w.value as u8,
                bits: v.value,
            }))),
            Expr::Low(_, x) => Ok(value_of(self.low, &[], x.text.as_slice())),
            Expr::Variable(x) => Ok(value_of(self.own, self.numbers, x.text.as_slice())),
            Expr::Apply(f, arguments) => {
                let arguments = self.values(lists::expr::as_slice(arguments))?;
                let value = self.called(f.text.as_slice(), arguments.as_slice())?;
                Ok(CowValue::Made(value))
            }
            Expr::Binary(_, a, op, _, b) => {
                let a = self.value(lists::expr::get(a))?;
                let b = self.value(lists::expr::get(b))?;
                Ok(CowValue::Made(operated(*op, a.value(), b.value())))
            }
            Expr::Not(_, a) => {
                let a = self.word(lists::expr::get(a))?;
                Ok(CowValue::Made(Value::Word(not(a))))
            }
            Expr::At(whole, _, i) => {
                let whole = self.value(lists::expr::get(whole))?;
                let i = self.word(lists::expr::get(i))?;
                let part = part(self.alloc, whole.value(), i)?;
                Ok(CowValue::Made(part))
            }
            Expr::Pick(_, test, a, b) => {
                let test = self.word(lists::expr::get(test))?;
                if test.bits == 1 {
                    let a = self.value(lists::expr::get(a))?;
                    return Ok(a);
                }
                let b = self.value(lists::expr::get(b))?;
                Ok(b)
            }
            Expr::Resize(_, a, w) => {
                let a = self.word(lists::expr::get(a))?;
                Ok(CowValue::Made(Value::Word(resize(a, w.value as u8))))
            }
            Expr::Fill(_, m, a) => {
                let a = self.word(lists::expr::get(a))?;
                let words = vec![in self.alloc; a; m.value as usize]?;
                let row = row(self.alloc, words.as_slice())?;
                Ok(CowValue::Made(Value::Row(row)))
            }
            Expr::Row(_, parts) => {
                let words = self.words(lists::expr::as_slice(parts))?;
                let row = row(self.alloc, words.as_slice())?;
                Ok(CowValue::Made(Value::Row(row)))
            }
            Expr::Quantified(_, which, x, w, n, e) => {
                let holds = self.quantified(*which, x, *w, *n, lists::expr::get(e))?;
                Ok(CowValue::Made(digit(holds)))
            }
        }
    }

    /// The word that the value of an expression is.
    #[cycle(value)]
    fn word(&self, e: &'a Expr) -> Result<Word, NoMemory>
        requires { CanEvaluate (known_of self.now) e.now }
        ensures { IfOk result (λ w. w ≡ word_in (value_in (known_of self.now) e.now)) }
    {
        let value = self.value(e)?;
        Ok(word_in(value.value()))
    }

    /// The values of expressions.
    #[cycle(value)]
    fn values(&self, es: &'a [Expr]) -> Result<Vec<CowValue<'n>>, NoMemory>
        requires { All (CanEvaluate (known_of self.now)) es.now }
        ensures { IfOk result (λ vs. held_values vs.items ≡ map (value_in (known_of self.now)) es.now) }
    {
        let mut values = Vec::new(self.alloc);
        for e in es {
            let value = self.value(e)?;
            values.push(value)?;
        }
        Ok(values)
    }

    /// The words that the values of expressions are.
    #[cycle(value)]
    fn words(&self, es: &'a [Expr]) -> Result<Vec<Word>, NoMemory>
        requires { All (CanEvaluate (known_of self.now)) es.now }
        ensures { IfOk result (λ ws. ws.items ≡ map (λ e. word_in (value_in (known_of self.now) e)) es.now) }
    {
        let mut words = Vec::new(self.alloc);
        for e in es {
            let word = self.word(e)?;
            words.push(word)?;
        }
        Ok(words)
    }

    /// What a definition gives for arguments.
    #[cycle(value)]
    fn called(&self, name: &[u8], args: &[CowValue<'_>]) -> Result<Value, NoMemory>
        requires { CanCall self.now.defs.now name.now (held_values args.now) }
        ensures { IfOk result (λ v. v ≡ functions_of self.now.defs.now name.now (held_values args.now)) }
    {
        match definition(self.defs, name) {
            Some(place) => {
                let def = &self.defs[place];
                let own = bound(self.alloc, lists::declared::as_slice(&def.parameters), args)?;
                let inner = Evaluator::new(self.alloc, &self.defs[..place], own.as_slice(), &[]);
                let value = inner.value(&def.body)?;
                let value = value.into_value(self.alloc)?;
                Ok(value)
            }
            None => Ok(Value::Word(Word { width: 1, bits: 0 })),
        }
    }

    /// Whether an expression is 1 at every number below a bound, or at some.
    #[cycle(value)]
    fn quantified(
        &self,
        which: Quantifier,
        x: &'a Name,
        w: Numeral,
        n: Numeral,
        e: &'a Expr,
    ) -> Result<bool, NoMemory>
        requires { CanQuantify (known_of self.now) x.now.text w n e.now }
        ensures { IfOk result (λ b. b ≡ quantified which n.value (λ i. is_one (value_in (with_number (known_of self.now) x.now.text w.value i) e.now))) }
    {
        let all = is_all(which);
        let last = self.numbers.len();
        let mut numbers = lent(self.alloc, self.numbers)?;
        numbers.push(numbered(x, w, 0))?;
        for i in 0..n.value {
            numbers[last] = numbered(x, w, i);
            let inner = Evaluator {
                alloc: self.alloc,
                defs: self.defs,
                own: self.own,
                numbers: numbers.as_slice(),
                low: self.low,
            };
            let test = inner.test(e)?;
            if test != all {
                return Ok(test);
            }
        }
        Ok(all)
    }

    /// Whether an expression is 1.
    #[cycle(value)]
    fn test(&self, e: &'a Expr) -> Result<bool, NoMemory>
        requires { CanEvaluate (known_of self.now) e.now }
        ensures { IfOk result (λ b. b ≡ is_one (value_in (known_of self.now) e.now)) }
    {
        let word = self.word(e)?;
        Ok(word.bits == 1)
    }
}

/// A quantifier's name with a number.
fn numbered<'a, 'v>(x: &'a Name, w: Numeral, i: u64) -> Binding<'a, 'v>
    requires least { 1 ≤ w.value }
    requires most { w.value ≤ 64 }
    requires below { i < 2 ^ w.value }
    ensures name { result.name.now ≡ x.now.text }
    ensures value { held_value result.held ≡ AsWord (word w.value i) }
{
    Binding {
        name: x.text.as_slice(),
        held: CowValue::Made(Value::Word(Word {
            width: w.value as u8,
            bits: i,
        })),
    }
}

/// The same bindings, whose values are lent. Its only error is out of memory.
fn lent<'a, 'v>(
    alloc: Global,
    bindings: &'v [Binding<'a, 'v>],
) -> Result<Vec<Binding<'a, 'v>>, NoMemory>
    ensures { IfOk result (λ lent. env_of lent.items ≡ env_of bindings.now) }
{
    let mut lent = Vec::new(alloc);
    for binding in bindings {
        lent.push(Binding {
            name: binding.name,
            held: CowValue::Lent(binding.held.value()),
        })?;
    }
    Ok(lent)
}

/// Whether the test is to pass at every number.
fn is_all(which: Quantifier) -> bool
    ensures { result ≡ is_all which }
{
    match which {
        Quantifier::All => true,
        Quantifier::Any => false,
    }
}

/// The place of the definition of a name.
fn definition(defs: &[Def], name: &[u8]) -> Option<usize>
    ensures some { IfSome result (λ place. IsDefinition defs.now name.now place) }
    ensures none { IfNone result ((args : List AnyValue) → functions_of defs.now name.now args ≡ nothing) }
{
    for (place, def) in defs.iter().enumerate() {
        if def.name.text.as_slice() == name {
            return Some(place);
        }
    }
    None
}

/// Parameters with the values of arguments, in order.
fn bound<'a, 'v, 'w>(
    alloc: Global,
    parameters: &'a [Declared],
    args: &'v [CowValue<'w>],
) -> Result<Vec<Binding<'a, 'v>>, NoMemory>
    ensures { IfOk result (λ bindings. env_of bindings.items ≡ bind parameters.now (held_values args.now)) }
{
    let mut bindings = Vec::new(alloc);
    for (i, parameter) in parameters.iter().enumerate() {
        if i >= args.len() {
            return Ok(bindings);
        }
        bindings.push(Binding {
            name: parameter.name.text.as_slice(),
            held: CowValue::Lent(args[i].value()),
        })?;
    }
    Ok(bindings)
}
