//! The clauses of gates, put into what takes clauses.

ghost use Rattle.std.specs.Prelude.{◌≡◌, ◌<◌, ◌^◌, ◌++◌, ◌∷◌, [], length, IfOk, OnOk};
ghost use Rattle.ygg_blast.specs.Rows.{pair, triple, and_rows, xor_rows, mux_rows};
ghost use Rattle.ygg_gates.specs.Circuits.{literal};
ghost use Rattle.ygg_gates.specs.Clauses.{clauses_from, gate_clauses};

use std::alloc::Global;
use ygg_cnf::{ClauseSink, Clauses, Lit, Pattern, PatternLit, put_made};
use ygg_gates::Gate;
use ygg_list::NoMemory;

/// A clause of two literals of a block.
#[inline(always)]
fn pair(one: PatternLit, two: PatternLit) -> Pattern
    ensures { result ≡ pair one two }
{
    Pattern {
        one,
        two,
        three: None,
    }
}

/// A clause of three literals of a block.
#[inline(always)]
fn triple(one: PatternLit, two: PatternLit, three: PatternLit) -> Pattern
    ensures { result ≡ triple one two three }
{
    Pattern {
        one,
        two,
        three: Some(three),
    }
}

/// The rows of AND over its output and its two inputs.
#[inline(always)]
fn and_rows() -> [Pattern; 3]
    ensures { result ≡ and_rows }
{
    [
        pair(PatternLit::complemented(0), PatternLit::plain(1)),
        pair(PatternLit::complemented(0), PatternLit::plain(2)),
        triple(
            PatternLit::plain(0),
            PatternLit::complemented(1),
            PatternLit::complemented(2),
        ),
    ]
}

/// The rows of XOR over its output and its two inputs.
#[inline(always)]
fn xor_rows() -> [Pattern; 4]
    ensures { result ≡ xor_rows }
{
    [
        triple(
            PatternLit::complemented(0),
            PatternLit::plain(1),
            PatternLit::plain(2),
        ),
        triple(
            PatternLit::complemented(0),
            PatternLit::complemented(1),
            PatternLit::complemented(2),
        ),
        triple(
            PatternLit::plain(0),
            PatternLit::complemented(1),
            PatternLit::plain(2),
        ),
        triple(
            PatternLit::plain(0),
            PatternLit::plain(1),
            PatternLit::complemented(2),
        ),
    ]
}

/// The rows of MUX over its output, its test and its two inputs.
#[inline(always)]
fn mux_rows() -> [Pattern; 4]
    ensures { result ≡ mux_rows }
{
    [
        triple(
            PatternLit::complemented(0),
            PatternLit::complemented(1),
            PatternLit::plain(2),
        ),
        triple(
            PatternLit::plain(0),
            PatternLit::complemented(1),
            PatternLit::complemented(2),
        ),
        triple(
            PatternLit::complemented(0),
            PatternLit::plain(1),
            PatternLit::plain(3),
        ),
        triple(
            PatternLit::plain(0),
            PatternLit::plain(1),
            PatternLit::complemented(3),
        ),
    ]
}

/// Puts the clauses of AND.
fn put_and<S: ClauseSink>(
    alloc: Global,
    sink: &mut S,
    o: Lit,
    a: Lit,
    b: Lit,
) -> Result<(), NoMemory>
    ensures { OnOk result (S.held sink.new ≡ S.held sink.old ++ gate_clauses o (Gate.And a b)) }
{
    put_made(alloc, sink, &[o, a, b], &and_rows())
}

/// Puts the clauses of XOR.
fn put_xor<S: ClauseSink>(
    alloc: Global,
    sink: &mut S,
    o: Lit,
    a: Lit,
    b: Lit,
) -> Result<(), NoMemory>
    ensures { OnOk result (S.held sink.new ≡ S.held sink.old ++ gate_clauses o (Gate.Xor a b)) }
{
    put_made(alloc, sink, &[o, a, b], &xor_rows())
}

/// Puts the clauses of MUX.
fn put_mux<S: ClauseSink>(
    alloc: Global,
    sink: &mut S,
    o: Lit,
    c: Lit,
    a: Lit,
    b: Lit,
) -> Result<(), NoMemory>
    ensures { OnOk result (S.held sink.new ≡ S.held sink.old ++ gate_clauses o (Gate.Mux c a b)) }
{
    put_made(alloc, sink, &[o, c, a, b], &mux_rows())
}

/// Puts the clauses of a gate whose variable has the literal o.
fn put_gate<S: ClauseSink>(alloc: Global, sink: &mut S, o: Lit, gate: Gate) -> Result<(), NoMemory>
    ensures { OnOk result (S.held sink.new ≡ S.held sink.old ++ gate_clauses o gate) }
{
    match gate {
        Gate::Free => Ok(()),
        Gate::And { a, b } => put_and(alloc, sink, o, a, b),
        Gate::Xor { a, b } => put_xor(alloc, sink, o, a, b),
        Gate::Mux { test, yes, no } => put_mux(alloc, sink, o, test, yes, no),
    }
}

/// The clauses of a gate that has this variable. Its only error is out of memory.
pub fn clauses_of_gate(alloc: Global, variable: u64, gate: Gate) -> Result<Clauses, NoMemory>
    ensures { IfOk result (λ clauses. clauses ≡ gate_clauses (literal variable) gate) }
{
    let mut clauses = Clauses::new(alloc);
    let output = Lit {
        var: variable,
        negated: false,
    };
    put_gate(alloc, &mut clauses, output, gate)?;
    Ok(clauses)
}

/// Puts the clauses of gates in order, the first of which has the variable 2.
#[tactic(auto, using(crate::proofs::Steps::clauses_begin, crate::proofs::Steps::clauses_go, crate::proofs::Steps::clauses_are))]
pub fn put_gates<S: ClauseSink>(alloc: Global, sink: &mut S, gates: &[Gate]) -> Result<(), NoMemory>
    requires { length gates.now < 2 ^ 63 }
    ensures { OnOk result (S.held sink.new ≡ S.held sink.old ++ clauses_from 2 gates.now) }
{
    for place in 0..gates.len() {
        let output = Lit {
            var: place as u64 + 2,
            negated: false,
        };
        put_gate(alloc, sink, output, gates[place])?;
    }
    Ok(())
}
