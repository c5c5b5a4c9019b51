//! The obligations of a layer, with their terms.

ghost use Rattle.std.specs.Prelude.{◌≡◌, ◌+◌, ◌∷◌, ◌++◌, [], All, IfOk, OnOk};
ghost use Rattle.ygg_oblige_laws.specs.ygg_bank.Inputs.{InputsBelow};
ghost use Rattle.ygg_oblige_laws.specs.ygg_bank.Nodes.{Extends, IsBank};
ghost use Rattle.ygg_oblige_laws.specs.ygg_meaning.Obligations.{name_of, obligations_of};
ghost use Rattle.ygg_oblige_parts.specs.ygg_sym_spec.Layers.{closed};
ghost use Rattle.ygg_oblige_laws.specs.TermStates.{state_words};
ghost use Rattle.ygg_oblige.specs.Makers.{StartingShaped, starting_of};
ghost use Rattle.ygg_oblige_list.specs.InCode.{obligation_of};
ghost use Rattle.ygg_oblige.specs.Adding.{
  AddsAsked,
  KnownAt,
  after_at,
  after_layer_at,
  layer_at,
  names_of,
  next_at,
  term_at,
  terms_at,
};
ghost use Rattle.ygg_oblige.specs.Kinds.{kind_in};
ghost use Rattle.ygg_oblige_list.specs.Listing.{AreNumbered, IsNumberIn, asked_in};
ghost use Rattle.ygg_oblige.specs.Making.{SiteFits};
ghost use Rattle.ygg_oblige.specs.Obligations.{ArePlaced, names_in, terms_in};

use crate::obligation::{Kind, Obligation, Obligations};
use crate::{numbers_of, term};
use ygg_oblige_laws::{Bank, Book, NoMemory};
use ygg_oblige_list::{Asked, SymObligation, asked_of, name_of};
use ygg_oblige_parts::{Maker, SymStarting, words_in};
use ygg_syntax::lists;

/// What an obligation asks.
fn kind_of(obligation: SymObligation<'_>) -> Kind
    ensures { result ≡ kind_in (obligation_of obligation.entry) }
{
    match obligation {
        SymObligation::Init => Kind::Init,
        SymObligation::Call(_) => Kind::Call,
        SymObligation::Cut(_) => Kind::Cut,
        SymObligation::Tick(_) => Kind::Tick,
        SymObligation::CutTick(_) => Kind::CutTick,
        SymObligation::Idle => Kind::Idle,
        SymObligation::Again => Kind::Again,
    }
}

/// Adds an obligation of a layer of this place whose inputs are numbered on from a number, and answers the number after them.
fn add<'a, B: Book>(
    maker: &Maker<'a, B>,
    bank: &mut Bank,
    asked: Asked<'a>,
    s: &SymStarting,
    place: u32,
    start: u64,
    all: &mut Obligations,
) -> Result<u64, NoMemory>
    requires bank { IsBank bank.old }
    requires site { SiteFits maker.now.layer maker.now.below }
    requires known { KnownAt (B.kinds maker.now.book.now) maker.now.layer maker.now.below (obligation_of asked.obligation) }
    requires starting { StartingShaped (closed maker.now.layer) bank.old (starting_of s.now) }
    requires free { InputsBelow start bank.old }
    requires placed { ArePlaced all.old }
    requires number { IsNumberIn maker.now.layer.layer.now (obligation_of asked.obligation) asked.number }
    ensures nodes { OnOk result (bank.new ≡ (term_at (B.kinds maker.now.book.now) maker.now.layer maker.now.below (starting_of s.now)
        (obligation_of asked.entry.obligation) start bank.old).nodes) }
    ensures terms { OnOk result (terms_in all.new ≡ terms_in all.old ++ (term_at (B.kinds maker.now.book.now) maker.now.layer maker.now.below
        (starting_of s.now) (obligation_of asked.entry.obligation) start bank.old).value ∷ []) }
    ensures names { OnOk result (names_in all.new
        ≡ names_in all.old ++ name_of (maker.now.layer.layer.now).name.text (obligation_of asked.entry.obligation) ∷ []) }
    ensures next { IfOk result (λ n. n ≡ next_at (B.kinds maker.now.book.now) maker.now.layer maker.now.below (obligation_of asked.entry.obligation) start) }
    ensures grows { Extends bank.old bank.new }
    ensures bank { IsBank bank.new }
    ensures placed { OnOk result (ArePlaced all.new) }
    ensures asked { OnOk result (AddsAsked place maker.now.layer.layer.now (obligation_of asked.entry.obligation ∷ []) all.old all.new) }
{
    let obligation = asked.obligation;
    let n = numbers_of(maker, obligation, start)?;
    let name = name_of(maker.alloc, maker.layer.layer, obligation)?;
    let term = term(maker, bank, obligation, n, s, start)?;
    let listed = all.len();
    all.push(Obligation {
        name,
        layer: place,
        kind: kind_of(obligation),
        number: asked.number,
        place: listed,
        term,
    })?;
    Ok(n.next)
}

/// Adds obligations in order, and answers the number after their inputs.
fn add_all<'a, B: Book>(
    maker: &Maker<'a, B>,
    bank: &mut Bank,
    asked: &[Asked<'a>],
    s: &SymStarting,
    place: u32,
    start: u64,
    all: &mut Obligations,
) -> Result<u64, NoMemory>
    requires bank { IsBank bank.old }
    requires site { SiteFits maker.now.layer maker.now.below }
    requires known { All (KnownAt (B.kinds maker.now.book.now) maker.now.layer maker.now.below) (asked_in asked.now) }
    requires starting { StartingShaped (closed maker.now.layer) bank.old (starting_of s.now) }
    requires free { InputsBelow start bank.old }
    requires placed { ArePlaced all.old }
    requires numbered { AreNumbered maker.now.layer.layer.now asked.now }
    ensures nodes { OnOk result (bank.new ≡ (terms_at (B.kinds maker.now.book.now) maker.now.layer maker.now.below (starting_of s.now)
        (asked_in asked.now) start bank.old).nodes) }
    ensures terms { OnOk result (terms_in all.new ≡ terms_in all.old ++ (terms_at (B.kinds maker.now.book.now) maker.now.layer maker.now.below
        (starting_of s.now) (asked_in asked.now) start bank.old).value) }
    ensures names { OnOk result (names_in all.new ≡ names_in all.old ++ names_of maker.now.layer (asked_in asked.now)) }
    ensures next { IfOk result (λ n. n ≡ after_at (B.kinds maker.now.book.now) maker.now.layer maker.now.below (asked_in asked.now) start) }
    ensures bank { IsBank bank.new }
    ensures placed { OnOk result (ArePlaced all.new) }
    ensures asked { OnOk result (AddsAsked place maker.now.layer.layer.now (asked_in asked.now) all.old all.new) }
{
    let mut next = start;
    for each in asked {
        next = add(maker, bank, *each, s, place, next, all)?;
    }
    Ok(next)
}

/// The number after that of the last input of the states that a layer's obligations begin with.
pub fn after_states<'a, B>(maker: &Maker<'a, B>, number: u64) -> Result<u64, NoMemory>
    requires { SiteFits maker.now.layer maker.now.below }
    ensures { IfOk result (λ n. n ≡ number + state_words (closed maker.now.layer)) }
{
    let layer = maker.layer;
    let state = words_in(lists::declared::as_slice(&layer.layer.state))?;
    let memory = words_in(lists::declared::as_slice(&layer.layer.memory))?;
    let low = words_in(layer.low)?;
    let Some(own) = state.checked_add(memory) else {
        return Err(NoMemory);
    };
    let Some(words) = own.checked_add(low) else {
        return Err(NoMemory);
    };
    match number.checked_add(words) {
        Some(n) => Ok(n),
        None => Err(NoMemory),
    }
}

/// Adds the obligations of a layer of this place, their inputs numbered on from a number that is above those of all inputs, and answers the number
/// after their inputs. Its only error is out of memory, after which the bank may have more nodes.
pub fn add_layer<'a, B: Book>(
    maker: &Maker<'a, B>,
    bank: &mut Bank,
    place: u32,
    number: u64,
    all: &mut Obligations,
) -> Result<u64, NoMemory>
    requires bank { IsBank bank.old }
    requires site { SiteFits maker.now.layer maker.now.below }
    requires free { InputsBelow number bank.old }
    requires placed { ArePlaced all.old }
    ensures nodes { OnOk result (bank.new ≡ (layer_at (B.kinds maker.now.book.now) maker.now.layer maker.now.below number bank.old).nodes) }
    ensures terms { OnOk result (terms_in all.new ≡ terms_in all.old ++ (layer_at (B.kinds maker.now.book.now) maker.now.layer maker.now.below number
        bank.old).value) }
    ensures names { OnOk result (names_in all.new ≡ names_in all.old ++ names_of maker.now.layer (obligations_of maker.now.layer.layer.now)) }
    ensures next { IfOk result (λ n. n ≡ after_layer_at (B.kinds maker.now.book.now) maker.now.layer maker.now.below number) }
    ensures bank { IsBank bank.new }
    ensures placed { OnOk result (ArePlaced all.new) }
    ensures asked { OnOk result (AddsAsked place maker.now.layer.layer.now (obligations_of maker.now.layer.layer.now) all.old all.new) }
{
    let start = after_states(maker, number)?;
    let s = maker.starting(bank, number)?;
    let asked = asked_of(maker.alloc, maker.layer.layer)?;
    add_all(maker, bank, asked.as_slice(), &s, place, start, all)
}
