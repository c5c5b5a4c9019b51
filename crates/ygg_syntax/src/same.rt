//! Whether layer files are the same but for places.

ghost use Rattle.std.specs.Prelude.{◌≡◌, IsTrue, ◌↔◌};
ghost use Rattle.ygg_syntax.specs.Bare.{bare_disk, bare_def, bare_operation, bare_tick, bare_layer, bare_file};

use crate::expressions::{expression, expressions, name, number, shape};
use crate::lists;
use crate::parts::{Alike, items, optional};
use crate::statements::block;
use crate::tree::{Def, DiskText, File, Layer, Operation, Tick};

/// Whether the files are the same but for places.
pub fn same_tree(a: &File, b: &File) -> bool
    ensures { IsTrue result ↔ (bare_file a.now ≡ bare_file b.now) }
{
    disk(&a.disk, &b.disk)
        && items(lists::def::as_slice(&a.defs), lists::def::as_slice(&b.defs))
        && items(
            lists::layer::as_slice(&a.layers),
            lists::layer::as_slice(&b.layers),
        )
}

impl Alike for Def {
    ghost without_places = { bare_def };

    fn same(&self, other: &Def) -> bool {
        name(&self.name, &other.name)
            && items(
                lists::declared::as_slice(&self.parameters),
                lists::declared::as_slice(&other.parameters),
            )
            && shape(&self.shape, &other.shape)
            && expression(&self.body, &other.body)
    }
}

impl Alike for Operation {
    ghost without_places = { bare_operation };

    fn same(&self, other: &Operation) -> bool {
        head(self, other)
            && block(&self.spec, &other.spec)
            && optional(&self.on_crash, &other.on_crash)
            && block(&self.implementation, &other.implementation)
    }
}

impl Alike for Tick {
    ghost without_places = { bare_tick };

    fn same(&self, other: &Tick) -> bool {
        name(&self.name, &other.name) && block(&self.body, &other.body)
    }
}

impl Alike for Layer {
    ghost without_places = { bare_layer };

    fn same(&self, other: &Layer) -> bool {
        variables(self, other) && steps(self, other) && blocks(self, other) && claims(self, other)
    }
}

/// Whether the names, arguments and types of operations are the same.
fn head(a: &Operation, b: &Operation) -> bool
    ensures { let x = bare_operation a.now in
        let y = bare_operation b.now in
        IsTrue result ↔ ((x.name ≡ y.name) × ((x.arguments ≡ y.arguments) × (x.answer ≡ y.answer))) }
{
    name(&a.name, &b.name)
        && items(
            lists::declared::as_slice(&a.arguments),
            lists::declared::as_slice(&b.arguments),
        )
        && optional(&a.answer, &b.answer)
}

/// Whether the names and the variables of layers are the same.
fn variables(a: &Layer, b: &Layer) -> bool
    ensures { let x = bare_layer a.now in
        let y = bare_layer b.now in
        IsTrue result ↔ ((x.name ≡ y.name) × ((x.state ≡ y.state) × (x.memory ≡ y.memory))) }
{
    name(&a.name, &b.name)
        && items(
            lists::declared::as_slice(&a.state),
            lists::declared::as_slice(&b.state),
        )
        && items(
            lists::declared::as_slice(&a.memory),
            lists::declared::as_slice(&b.memory),
        )
}

/// Whether the operations and the background steps of layers are the same.
fn steps(a: &Layer, b: &Layer) -> bool
    ensures { let x = bare_layer a.now in
        let y = bare_layer b.now in
        IsTrue result ↔ ((x.operations ≡ y.operations) × (x.ticks ≡ y.ticks)) }
{
    items(
        lists::operation::as_slice(&a.operations),
        lists::operation::as_slice(&b.operations),
    ) && items(
        lists::tick::as_slice(&a.ticks),
        lists::tick::as_slice(&b.ticks),
    )
}

/// Whether the blocks of layers are the same.
fn blocks(a: &Layer, b: &Layer) -> bool
    ensures { let x = bare_layer a.now in
        let y = bare_layer b.now in
        IsTrue result ↔ (((x.start ≡ y.start) × (x.format ≡ y.format)) × ((x.crash ≡ y.crash) × (x.recover ≡ y.recover))) }
{
    block(&a.start, &b.start)
        && block(&a.format, &b.format)
        && block(&a.crash, &b.crash)
        && block(&a.recover, &b.recover)
}

/// Whether what layers claim is the same.
fn claims(a: &Layer, b: &Layer) -> bool
    ensures { let x = bare_layer a.now in
        let y = bare_layer b.now in
        IsTrue result ↔ (((x.relate ≡ y.relate) × (x.always ≡ y.always)) × ((x.settled ≡ y.settled) × (x.maybe ≡ y.maybe))) }
{
    expression(&a.relate, &b.relate)
        && expressions(
            lists::expr::as_slice(&a.always),
            lists::expr::as_slice(&b.always),
        )
        && expressions(
            lists::expr::as_slice(&a.settled),
            lists::expr::as_slice(&b.settled),
        )
        && expressions(
            lists::expr::as_slice(&a.maybe),
            lists::expr::as_slice(&b.maybe),
        )
}

/// Whether the disks are the same.
fn disk(a: &DiskText, b: &DiskText) -> bool
    ensures { IsTrue result ↔ (bare_disk a.now ≡ bare_disk b.now) }
{
    a.kind == b.kind
        && number(&a.rows, &b.rows)
        && number(&a.words, &b.words)
        && number(&a.width, &b.width)
}
