//! The obligations of a layer, in order.

ghost use Rattle.std.specs.Prelude.{◌≡◌, ◌∷◌, ◌++◌, [], IfOk, OnOk};
ghost use Rattle.ygg_meaning.specs.Obligations.{obligations_of};
ghost use Rattle.ygg_oblige_list.specs.InCode.{obligation_of};
ghost use Rattle.ygg_oblige_list.specs.Listing.{AreNumbered, asked_in, calls_of, ticks_of};

use crate::obligation::SymObligation;
use std::alloc::Global;
use ygg_list::NoMemory;
use ygg_syntax::lists;
use ygg_syntax::tree::Layer;

/// An obligation, and the place of its operation or background step in the layer's list, else 0.
#[derive(Clone, Copy)]
pub struct Asked<'a> {
    /// The obligation.
    pub obligation: SymObligation<'a>,
    /// The place.
    pub number: u32,
}

/// A place in a list as a number of 32 digits. No machine has memory for a list that has more places.
pub fn place_of(place: usize) -> Result<u32, NoMemory>
    ensures { IfOk result (λ number. number ≡ place) }
{
    match u32::try_from(place) {
        Ok(number) => Ok(number),
        Err(_) => Err(NoMemory),
    }
}

/// Adds an obligation.
fn add<'a>(
    list: &mut Vec<Asked<'a>>,
    obligation: SymObligation<'a>,
    number: u32,
) -> Result<(), NoMemory>
    ensures asked { OnOk result (asked_in list.new.items ≡ asked_in list.old.items ++ obligation_of obligation.entry ∷ []) }
    ensures added { OnOk result (list.new.items ≡ list.old.items ++ record { obligation = obligation.entry; number = number } ∷ []) }
{
    list.push(Asked { obligation, number })?;
    Ok(())
}

/// Adds the obligations of a layer's operations.
fn add_calls<'a>(list: &mut Vec<Asked<'a>>, layer: &'a Layer) -> Result<(), NoMemory>
    requires { AreNumbered layer.now list.old.items }
    ensures asked { OnOk result (asked_in list.new.items ≡ asked_in list.old.items ++ calls_of layer.now.operations) }
    ensures numbered { OnOk result (AreNumbered layer.now list.new.items) }
{
    for (i, operation) in lists::operation::as_slice(&layer.operations)
        .iter()
        .enumerate()
    {
        let number = place_of(i)?;
        add(list, SymObligation::Call(operation), number)?;
        add(list, SymObligation::Cut(operation), number)?;
    }
    Ok(())
}

/// Adds the obligations of a layer's background steps.
fn add_ticks<'a>(list: &mut Vec<Asked<'a>>, layer: &'a Layer) -> Result<(), NoMemory>
    requires { AreNumbered layer.now list.old.items }
    ensures asked { OnOk result (asked_in list.new.items ≡ asked_in list.old.items ++ ticks_of layer.now.ticks) }
    ensures numbered { OnOk result (AreNumbered layer.now list.new.items) }
{
    for (i, tick) in lists::tick::as_slice(&layer.ticks).iter().enumerate() {
        let number = place_of(i)?;
        add(list, SymObligation::Tick(tick), number)?;
        add(list, SymObligation::CutTick(tick), number)?;
    }
    Ok(())
}

/// The obligations of a layer, in order, each with its number. Its only error is out of memory.
pub fn asked_of<'a>(alloc: Global, layer: &'a Layer) -> Result<Vec<Asked<'a>>, NoMemory>
    ensures asked { IfOk result (λ list. asked_in list.items ≡ obligations_of layer.now) }
    ensures numbered { IfOk result (λ list. AreNumbered layer.now list.items) }
{
    let mut list = Vec::new(alloc);
    add(&mut list, SymObligation::Init, 0)?;
    add_calls(&mut list, layer)?;
    add_ticks(&mut list, layer)?;
    add(&mut list, SymObligation::Idle, 0)?;
    add(&mut list, SymObligation::Again, 0)?;
    Ok(list)
}
