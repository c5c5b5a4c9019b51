//! How many inputs runs have.

ghost use Rattle.std.specs.Prelude.{◌≡◌, ◌+◌, IfOk};
ghost use Rattle.ygg_sym_spec.specs.ygg_meaning.Refines.{OnDisk, OnSpec};
ghost use Rattle.ygg_sym_machine.specs.ygg_sym_runs.SpecCuts.{choice_room, fall_places, fall_room};
ghost use Rattle.ygg_sym_machine.specs.ygg_sym_runs.Below.{failure_room, places_on};
ghost use Rattle.ygg_sym.specs.Layers.{closed};
ghost use Rattle.ygg_sym.specs.Sites.{below_in};

use ygg_sym_machine::SymDisk;
use ygg_sym_spec::{NoMemory, SymBelow, SymLayer, SymSpec, choices, room};
use ygg_syntax::lists;
use ygg_syntax::tree::{Block, DiskText, Operation};

/// How many places a block has, each call of it as many as the machine below says. Its only error is out of memory: no machine has memory for so
/// many inputs that their numbers don't fit in 64 digits.
pub fn places(below: SymBelow<'_>, b: &Block) -> Result<u64, NoMemory>
    ensures { IfOk result (λ n. n ≡ places_on (below_in below.entry) b.now) }
{
    match below {
        SymBelow::Disk(disk) => places_on_disk(disk, b),
        SymBelow::Layer(layer) => places_on_spec(layer, b),
    }
}

/// How many inputs the picks of a power failure have. Its only error is out of memory, as that of `places`.
pub fn failure_room(below: SymBelow<'_>) -> Result<u64, NoMemory>
    ensures { IfOk result (λ n. n ≡ failure_room (below_in below.entry)) }
{
    match below {
        SymBelow::Disk(_) => Ok(1),
        SymBelow::Layer(layer) => failures(layer),
    }
}

/// The places of a block on the disk.
fn places_on_disk(disk: DiskText, b: &Block) -> Result<u64, NoMemory>
    ensures { IfOk result (λ n. n ≡ places_on (OnDisk disk) b.now) }
{
    // a place's number doesn't depend on the first one
    let machine = SymDisk { disk, first: 0 };
    match room(&machine, b) {
        Some(count) => Ok(count),
        None => Err(NoMemory),
    }
}

/// The places of a block on the specification of the layer below.
fn places_on_spec(layer: SymLayer<'_>, b: &Block) -> Result<u64, NoMemory>
    ensures { IfOk result (λ n. n ≡ places_on (OnSpec (closed layer.entry)) b.now) }
{
    let machine = SymSpec { layer, first: 0 };
    match room(&machine, b) {
        Some(count) => Ok(count),
        None => Err(NoMemory),
    }
}

/// How many picks power takes at most that fails on a specification.
fn failures(layer: SymLayer<'_>) -> Result<u64, NoMemory>
    ensures { IfOk result (λ n. n ≡ fall_room (closed layer.entry)) }
{
    let mut count = choices_of(&layer.layer.crash)?;
    let operations = lists::operation::as_slice(&layer.layer.operations);
    for operation in operations {
        count = sum(count, failures_within(layer, operation)?)?;
    }
    Ok(count)
}

/// How many picks power takes at most that fails within an operation.
fn failures_within(layer: SymLayer<'_>, operation: &Operation) -> Result<u64, NoMemory>
    ensures { IfOk result (λ n. n ≡ fall_places (closed layer.entry) operation.now) }
{
    let crash = choices_of(&layer.layer.crash)?;
    match &operation.on_crash {
        Some(b) => sum(choices_of(b)?, crash),
        // one pick says whether the operation has happened
        None => sum(sum(choices_of(&operation.spec)?, 1)?, crash),
    }
}

/// How many choices a block makes at most.
fn choices_of(b: &Block) -> Result<u64, NoMemory>
    ensures { IfOk result (λ n. n ≡ choice_room b.now) }
{
    match choices(b) {
        Some(count) => Ok(count),
        None => Err(NoMemory),
    }
}

/// The sum of two numbers.
fn sum(a: u64, b: u64) -> Result<u64, NoMemory>
    ensures { IfOk result (λ n. n ≡ a + b) }
{
    match a.checked_add(b) {
        Some(count) => Ok(count),
        None => Err(NoMemory),
    }
}
