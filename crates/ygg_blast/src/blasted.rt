//! The clauses of a term, and the way back.

ghost use Rattle.std.specs.Prelude.{◌≡◌, ◌<◌, ◌+◌, ◌++◌, ◌*◌, ◌^◌, List, All, IfOk, OnOk};
ghost use Rattle.ygg_gates.specs.Laws.{AreExact, IsZeroIn};
ghost use Rattle.ygg_value.specs.Words.{bit_of, word};
ghost use Rattle.ygg_bank.specs.Nodes.{HasWidth, IsBank, Stands};
ghost use Rattle.ygg_bank.specs.declared.node.Id.{Id};
ghost use Rattle.ygg_bank.specs.declared.node.Node.{Node};
ghost use Rattle.ygg_cnf.specs.Literals.{SatisfiesAll, truth_of};
ghost use Rattle.ygg_cnf.specs.declared.lit.Lit.{Lit};
ghost use Rattle.ygg_gates.specs.Groups.{circuit_clauses, circuit_of, translated};
ghost use Rattle.ygg_gates.specs.Sources.{environment_by, number_from};

use crate::clauses::put_gates;
use crate::groups::{Groups, groups_of};
use std::alloc::Global;
use std::marker::Model;
use ygg_bank::{Bank, Env, Given, Id, reached};
use ygg_cnf::{Assignment, ClauseSink, Clauses, Lit, truth};
use ygg_gates::{InputVariables, groups_are_of_reached_nodes};
use ygg_gates_operation::true_literal;
use ygg_list::{NoMemory, Sequence};
use ygg_value::Word;

/// The clauses of a term, and the variables of the inputs that it reaches.
#[derive(Drop)]
pub struct Blasted {
    clauses: Clauses,
    sources: Sequence<InputVariables>,
}

impl Model for Blasted {
    ghost use Rattle.ygg_gates.specs.Groups.{Translated};

    ghost Value = { Translated };

    ghost view = { λ b. record { clauses = b.clauses; sources = b.sources } };
}

impl Blasted {
    /// The clauses. It takes no memory.
    pub fn clauses(&self) -> &Clauses
        ensures { result.now ≡ self.now.clauses }
    {
        &self.clauses
    }

    /// The clauses, handed over, and the variables of the inputs that the term reaches. It takes no memory.
    pub fn into_parts(self) -> (Clauses, Sequence<InputVariables>)
        ensures clauses { result.0 ≡ self.clauses }
        ensures sources { result.1 ≡ self.sources }
    {
        let Blasted { clauses, sources } = self;
        (clauses, sources)
    }
}

/// Puts the clauses of a circuit's gates, between the unit clause of variable 1 and that of the complement of the term's literal.
fn put_circuit<S: ClauseSink>(
    alloc: Global,
    sink: &mut S,
    groups: &Groups,
    term: Id,
) -> Result<(), NoMemory>
    ensures { OnOk result (S.held sink.new ≡ S.held sink.old ++ circuit_clauses groups.now term) }
{
    sink.take(alloc, &[true_literal()])?;
    put_gates(alloc, sink, groups.gates.as_slice())?;
    sink.take(alloc, &[groups.goal(term)])
}

/// The clauses of a term, and the variables of the inputs that it reaches. Those of a term of width 1 are satisfiable exactly where it
/// is 0 in some environment. Its only error is out of memory.
pub fn clauses_of(alloc: Global, bank: &Bank, term: Id) -> Result<Blasted, NoMemory>
    requires { Stands bank.now term }
    ensures form { IfOk result (λ blasted. blasted ≡ translated bank.now term) }
    ensures exactly { HasWidth bank.now term 1 → IfOk result (λ blasted. AreExact bank.now term blasted.clauses) }
    ensures numbered { IfOk result (λ blasted. All (All (λ x. 0 < x.var)) blasted.clauses) }
{
    // the bank's nodes stand in order
    let _ = bank.len();
    blasted_of(alloc, bank, term)
}

/// The gates of all nodes that a term reaches. Its only error is out of memory.
pub fn circuit_of(alloc: Global, bank: &Bank, term: Id) -> Result<Groups, NoMemory>
    requires { Stands bank.now term }
    ensures { IfOk result (λ groups. groups ≡ circuit_of bank.now term) }
{
    // the bank's nodes stand in order
    let _ = bank.len();
    groups_are_of_reached_nodes();
    let reached = reached(alloc, bank, term)?;
    groups_of(alloc, bank, term, reached.as_slice())
}

/// Puts the clauses of a term into what takes clauses: those that `clauses_of` gives. Its only error is out of memory, after which nothing is said
/// of what it holds.
pub fn put_clauses<S: ClauseSink>(
    alloc: Global,
    bank: &Bank,
    term: Id,
    sink: &mut S,
) -> Result<(), NoMemory>
    requires { Stands bank.now term }
    ensures { OnOk result (S.held sink.new ≡ S.held sink.old ++ (translated bank.now term).clauses) }
{
    let groups = circuit_of(alloc, bank, term)?;
    put_circuit(alloc, sink, &groups, term)
}

/// What `clauses_of` does.
fn blasted_of(alloc: Global, bank: &Bank, term: Id) -> Result<Blasted, NoMemory>
    requires { Stands bank.now term }
    ensures { IfOk result (λ blasted. blasted ≡ translated bank.now term) }
{
    let groups = circuit_of(alloc, bank, term)?;
    let mut clauses = Clauses::new(alloc);
    put_circuit(alloc, &mut clauses, &groups, term)?;
    Ok(Blasted {
        clauses,
        sources: groups.sources,
    })
}

/// A number with one more bit, the lowest.
fn with_bit(bits: u64, bit: bool) -> u64
    requires { bits < 2 ^ 63 }
    ensures { result ≡ bit_of bit + 2 * bits }
{
    if bit { 2 * bits + 1 } else { 2 * bits }
}

/// The word that truth values give an input.
#[tactic(auto, using(crate::proofs::Reading::reading_rules))]
fn word_of(assignment: &Assignment, source: &InputVariables) -> Word
    ensures { result ≡ word source.now.width (number_from (truth_of assignment.now) source.now.first source.now.width) }
{
    let mut bits = 0;
    let mut place = source.width;
    while place > 0 {
        place -= 1;
        bits = with_bit(bits, truth(assignment, source.first + place as u64));
    }
    Word {
        width: source.width,
        bits,
    }
}

/// The environment that truth values name. Where they satisfy the clauses of a term of width 1, the term is 0 in it. Its only error is
/// out of memory.
pub fn environment(
    alloc: Global,
    blasted: &Blasted,
    assignment: &Assignment,
) -> Result<Env, NoMemory>
    ensures form { IfOk result (λ env. env ≡ environment_by (truth_of assignment.now) blasted.now.sources) }
    ensures zero { (nodes : List Node) (term : Id) → IsBank nodes → HasWidth nodes term 1 → blasted.now ≡ translated nodes term →
        SatisfiesAll (truth_of assignment.now) blasted.now.clauses → IfOk result (IsZeroIn nodes term) }
{
    environment_of(alloc, &blasted.sources, assignment)
}

/// The same for who has handed the clauses over: by the variables of the inputs.
pub fn environment_of(
    alloc: Global,
    sources: &Sequence<InputVariables>,
    assignment: &Assignment,
) -> Result<Env, NoMemory>
    ensures form { IfOk result (λ env. env ≡ environment_by (truth_of assignment.now) sources.now) }
    ensures zero { (nodes : List Node) (term : Id) (clauses : List (List Lit)) → IsBank nodes → HasWidth nodes term 1 →
        record { clauses = clauses; sources = sources.now } ≡ translated nodes term →
        SatisfiesAll (truth_of assignment.now) clauses → IfOk result (IsZeroIn nodes term) }
{
    words_of(alloc, sources, assignment)
}

/// The words that truth values give inputs.
fn words_of(
    alloc: Global,
    sources: &Sequence<InputVariables>,
    assignment: &Assignment,
) -> Result<Env, NoMemory>
    ensures { IfOk result (λ env. env ≡ environment_by (truth_of assignment.now) sources.now) }
{
    let mut env = Env::new(alloc);
    for source in sources.as_slice() {
        env.push(Given::Word {
            number: source.number,
            word: word_of(assignment, source),
        })?;
    }
    Ok(env)
}
