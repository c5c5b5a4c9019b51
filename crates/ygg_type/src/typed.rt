ghost use Rattle.std.specs.Prelude.{◌≡◌, ◌<◌, ◌≤◌, IfOk, IfErr, IsTrue, length};
ghost use Rattle.std.specs.List.{list_all};
ghost use Rattle.ygg_value.specs.Shapes.{IsShape};
ghost use Rattle.ygg_value.specs.declared.shape.Shape.TheVariants.{Table};
ghost use Rattle.ygg_base.specs.Failure.{IfRefused};
ghost use Rattle.ygg_type.specs.ygg_type_rules.TypeErrors.{none};
ghost use Rattle.ygg_type.specs.ygg_type_rules.Files.{disk_errors, type_errors_of, IsTyped};
ghost use Rattle.ygg_syntax.specs.Files.{IsDerivable};
ghost use Rattle.ygg_type.specs.Typed.{IsFirstTypeError, geometry_of, operations_at, ticks_at, operation_place, tick_place, has_few};

use crate::files::first_type_error;
use std::alloc::Global;
use ygg_base::{Geometry, Refuse, Text};
use ygg_syntax::lists;
use ygg_syntax::tree::{DiskText, File, Operation, Tick};

/// A layer file without a type error, which some list of fewer than 2^32 tokens derives.
#[derive(Drop)]
pub struct Typed {
    file: File,
    ghost typed: { IsTrue (none (type_errors_of file)) },
    ghost places: { IsTrue (list_all has_few file.layers) },
    ghost derivable: { ∥ IsDerivable file ∥₁ },
}

impl Typed {
    /// The file. It takes no memory.
    pub fn file(&self) -> &File
        ensures same { result.now ≡ self.now.file }
        ensures typed { IsTyped self.now.file }
        ensures derivable { ∥ IsDerivable self.now.file ∥₁ }
    {
        &self.file
    }

    /// How many layers the file has, 8 at most. It takes no memory.
    #[tactic(auto, using(crate::proofs::Sizes::few_layers))]
    pub fn layers(&self) -> u32
        ensures layers { result ≡ length self.now.file.layers }
        ensures few { result ≤ 8 }
    {
        self.file.layers.len() as u32
    }

    /// The kind and the size of the file's disk. It takes no memory.
    pub fn geometry(&self) -> Geometry
        ensures same { result ≡ geometry_of self.now.file.disk }
        ensures shape { IsShape (Table result.rows result.words result.width) }
    {
        geometry(self.file.disk)
    }

    /// The place of a layer's operation of the name, counted from 0. Layers count from 0, the bottom one. It takes no
    /// memory.
    #[tactic(auto, using(crate::proofs::Sizes::few_operations))]
    pub fn operation(&self, layer: u32, name: &Text) -> Option<u32>
        requires { layer < length self.now.file.layers }
        ensures { result ≡ operation_place 0 (operations_at self.now.file.layers layer) name.now }
    {
        match lists::layer::get(&self.file.layers, layer as usize) {
            None => None,
            Some(layer) => place_of_operation(
                lists::operation::as_slice(&layer.operations),
                name.as_slice(),
            ),
        }
    }

    /// The place of a layer's background step of the name, counted from 0. Layers count from 0, the bottom one. It takes
    /// no memory.
    #[tactic(auto, using(crate::proofs::Sizes::few_ticks))]
    pub fn tick(&self, layer: u32, name: &Text) -> Option<u32>
        requires { layer < length self.now.file.layers }
        ensures { result ≡ tick_place 0 (ticks_at self.now.file.layers layer) name.now }
    {
        match lists::layer::get(&self.file.layers, layer as usize) {
            None => None,
            Some(layer) => place_of_tick(lists::tick::as_slice(&layer.ticks), name.as_slice()),
        }
    }
}

/// The kind and the size of a disk without a type error.
#[tactic(auto, using(crate::proofs::Sizes::disk_fits))]
fn geometry(disk: DiskText) -> Geometry
    requires { IsTrue (none (disk_errors disk)) }
    ensures same { result ≡ geometry_of disk }
    ensures shape { IsShape (Table result.rows result.words result.width) }
{
    Geometry {
        kind: disk.kind,
        rows: disk.rows.value as u16,
        words: disk.words.value as u8,
        width: disk.width.value as u8,
    }
}

/// The place of the first operation of a name.
fn place_of_operation(operations: &[Operation], name: &[u8]) -> Option<u32>
    requires { length operations.now ≤ 4294967296 }
    ensures { result ≡ operation_place 0 operations.now name.now }
{
    for (place, operation) in operations.iter().enumerate() {
        if operation.name.text.as_slice() == name {
            return Some(place as u32);
        }
    }
    None
}

/// The place of the first background step of a name.
fn place_of_tick(ticks: &[Tick], name: &[u8]) -> Option<u32>
    requires { length ticks.now ≤ 4294967296 }
    ensures { result ≡ tick_place 0 ticks.now name.now }
{
    for (place, tick) in ticks.iter().enumerate() {
        if tick.name.text.as_slice() == name {
            return Some(place as u32);
        }
    }
    None
}

/// Keeps a file that has no type error, and else refuses it, 4 to 10, at its least type error: the earliest place, and there the
/// smallest number. Its only other error is out of memory.
pub fn check(alloc: Global, file: File) -> Result<Typed, Refuse>
    requires derivable { IsDerivable file }
    ensures typed { IfOk result (λ typed. (typed.file ≡ file) × IsTyped file) }
    ensures refused { IfErr result (λ refuse. IfRefused refuse (IsFirstTypeError file)) }
{
    match first_type_error(alloc, &file) {
        Ok(None) => Ok(Typed { file }),
        Ok(Some(type_error)) => {
            let place = type_error.place;
            Err(Refuse::At(type_error.reason.at(place.line, place.column)))
        }
        Err(_) => Err(Refuse::Memory),
    }
}
