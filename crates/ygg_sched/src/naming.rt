//! The obligations of a file by their names.

ghost use Rattle.std.specs.Prelude.{List, ◌≡◌, ◌∷◌, ◌++◌, [], IfOk, IfSome};
ghost use Rattle.std.specs.List.{find};
ghost use Rattle.std.specs.Option.{option_map};
ghost use Rattle.std.specs.Str.{bytes_eq};
ghost use Rattle.ygg_meaning.specs.Obligations.{Idle, Again, obligations_of, name_of};
ghost use Rattle.ygg_syntax.specs.declared.tree.Operation as operation;
ghost use Rattle.ygg_syntax.specs.declared.tree.Tick as tick;
ghost use Rattle.ygg_sched.specs.Cases.{IsCaseNamed, IsNumbered, StandsAt, numbered_in};
ghost use Rattle.ygg_sched.specs.Sites.{obligation_in, site_in, low_in, sites_on, site_named, is_named};
ghost use Rattle.ygg_sched.specs.Naming.{calls_of, ticks_of, all_of, is_suffix};

use crate::case::Case;
use crate::claim::{Claim, LayerClaim, Low};
use crate::words::after_front;
use ygg_base::NoMemory;
use ygg_syntax::lists;
use ygg_syntax::tree::{File, Layer, Name, Operation, Tick};

/// An obligation of a layer, and the place of its operation or background step in the layer's list, from 0, else 0.
#[derive(Clone, Copy)]
pub struct Numbered<'a> {
    /// The obligation.
    pub obligation: LayerClaim<'a>,
    /// The place.
    pub number: usize,
}

/// Whether these bytes are the mark and then the name.
fn is_marked(bytes: &[u8], mark: &[u8], name: &Name) -> bool
    ensures { result ≡ bytes_eq (mark.now ++ name.now.text) bytes.now }
{
    match after_front(bytes, mark) {
        Some(rest) => name.text.as_slice() == rest,
        None => false,
    }
}

/// The first obligation of these operations that has this name after its layer's.
fn call_named<'a>(operations: &'a [Operation], name: &[u8]) -> Option<Numbered<'a>>
    ensures named { option_map numbered_in result ≡ find (is_suffix name.now) (calls_of operations.now) }
    ensures stands { (ticks : List tick.Tick) → IfSome result (IsNumbered operations.now ticks) }
{
    for (number, operation) in operations.iter().enumerate() {
        if is_marked(name, b".call.", &operation.name) {
            let obligation = LayerClaim::Call(operation);
            return Some(Numbered { obligation, number });
        }
        if is_marked(name, b".cut.", &operation.name) {
            let obligation = LayerClaim::Cut(operation);
            return Some(Numbered { obligation, number });
        }
    }
    None
}

/// The first obligation of these background steps that has this name after its layer's.
fn tick_named<'a>(ticks: &'a [Tick], name: &[u8]) -> Option<Numbered<'a>>
    ensures named { option_map numbered_in result ≡ find (is_suffix name.now) (ticks_of ticks.now) }
    ensures stands { (operations : List operation.Operation) → IfSome result (IsNumbered operations ticks.now) }
{
    for (number, tick) in ticks.iter().enumerate() {
        if is_marked(name, b".tick.", &tick.name) {
            let obligation = LayerClaim::Tick(tick);
            return Some(Numbered { obligation, number });
        }
        if is_marked(name, b".cuttick.", &tick.name) {
            let obligation = LayerClaim::CutTick(tick);
            return Some(Numbered { obligation, number });
        }
    }
    None
}

/// Whether the name is this mark.
fn is_mark(name: &[u8], mark: &[u8]) -> bool
    ensures { result ≡ bytes_eq mark.now name.now }
{
    mark == name
}

/// The obligation that stands last in each layer and has this name after the layer's.
fn last_named<'a>(name: &[u8]) -> Option<Numbered<'a>>
    ensures named { option_map numbered_in result ≡ find (is_suffix name.now) (Idle ∷ Again ∷ []) }
    ensures stands { (operations : List operation.Operation) (ticks : List tick.Tick) → IfSome result (IsNumbered operations ticks) }
{
    if is_mark(name, b".idle") {
        return Some(Numbered {
            obligation: LayerClaim::Idle,
            number: 0,
        });
    }
    if is_mark(name, b".again") {
        return Some(Numbered {
            obligation: LayerClaim::Again,
            number: 0,
        });
    }
    None
}

/// The first obligation of a layer with these operations and background steps that has this name after the layer's.
fn own_named<'a>(
    operations: &'a [Operation],
    ticks: &'a [Tick],
    name: &[u8],
) -> Option<Numbered<'a>>
    ensures named { option_map numbered_in result ≡ find (is_suffix name.now) (all_of operations.now ticks.now) }
    ensures stands { IfSome result (IsNumbered operations.now ticks.now) }
{
    if is_mark(name, b".init") {
        return Some(Numbered {
            obligation: LayerClaim::Init,
            number: 0,
        });
    }
    match call_named(operations, name) {
        Some(call) => Some(call),
        None => match tick_named(ticks, name) {
            Some(tick) => Some(tick),
            None => last_named(name),
        },
    }
}

/// The first obligation of a layer that has this name.
fn obligation_named<'a>(layer: &'a Layer, name: &[u8]) -> Option<Numbered<'a>>
    ensures named { option_map numbered_in result ≡ find (λ o. bytes_eq (name_of layer.now.name.text o) name.now) (obligations_of layer.now) }
    ensures stands { IfSome result (IsNumbered layer.now.operations layer.now.ticks) }
{
    match after_front(name, layer.name.text.as_slice()) {
        Some(own) => own_named(
            lists::operation::as_slice(&layer.operations),
            lists::tick::as_slice(&layer.ticks),
            own,
        ),
        None => None,
    }
}

/// The first obligation of these layers, over these variables below, that has this name.
fn claim_in<'a>(layers: &'a [Layer], below: Low<'a>, name: &[u8]) -> Option<Claim<'a>>
    ensures named { option_map site_in result ≡ find (is_named name.now) (sites_on 0 (low_in below.entry) layers.now) }
    ensures stands { IfSome result (λ c. StandsAt (c.layer.now).operations (c.layer.now).ticks (obligation_in c.obligation) c.number) }
{
    let mut low = below;
    for (place, layer) in layers.iter().enumerate() {
        match obligation_named(layer, name) {
            Some(found) => {
                return Some(Claim {
                    layer,
                    place,
                    low,
                    obligation: found.obligation,
                    number: found.number,
                });
            }
            None => low = Low::Variables(lists::declared::as_slice(&layer.state)),
        }
    }
    None
}

/// The first obligation of a file that has this name. It takes no memory.
pub fn claim_named<'a>(file: &'a File, name: &[u8]) -> Option<Claim<'a>>
    ensures named { option_map site_in result ≡ site_named file.now name.now }
    ensures stands { IfSome result (λ c. StandsAt (c.layer.now).operations (c.layer.now).ticks (obligation_in c.obligation) c.number) }
{
    claim_in(
        lists::layer::as_slice(&file.layers),
        Low::Disk(file.disk),
        name,
    )
}

/// The first obligation of a file that has this name, by its places; none exactly where the file has none. Its only error is out of memory: no machine has
/// it for a file with more layers, or a layer with more operations or background steps, than a `u32` has numbers.
pub fn case_named(file: &File, name: &[u8]) -> Result<Option<Case>, NoMemory>
    ensures { IfOk result (IsCaseNamed file.now name.now) }
{
    match claim_named(file, name) {
        Some(claim) => Ok(Some(claim.case()?)),
        None => Ok(None),
    }
}
