//! The layers of a file, and what they are specified over.

ghost use Rattle.std.specs.Prelude.{◌≡◌, ◌<◌, ◌≤◌, length, slice_get, Some};
ghost use Rattle.ygg_syntax.specs.declared.tree.Block as block;
ghost use Rattle.ygg_syntax.specs.declared.tree.Layer as layer;
ghost use Rattle.ygg_meaning.specs.Stack.{tables_of};
ghost use Rattle.ygg_meaning_laws.specs.Kinds.{may_call};
ghost use Rattle.ygg_eval.specs.Bodies.{IsBlock, kind_of};
ghost use Rattle.ygg_eval.specs.Layers.{below_at, variables_at};
ghost use Rattle.ygg_sym.specs.Sites.{SameDefs, below_in};
ghost use Rattle.ygg_sym_bodies.specs.Blocks.{SiteFits, site_in};
ghost use Rattle.ygg_sym_bodies.specs.Places.{HasDefs};
ghost use Rattle.ygg_sym_bodies.specs.Sites.{AtBlock};

use ygg_eval::{Body, Part, arguments_of, block_of};
use ygg_sym::{SymBlock, SymLayer};
use ygg_sym_spec::SymBelow;
use ygg_syntax::lists;
use ygg_syntax::tree::{Declared, File};
use ygg_type::Typed;

/// A layer of a file, and what it is specified over.
#[derive(Clone, Copy)]
pub struct Level<'a> {
    /// The layer.
    pub layer: SymLayer<'a>,
    /// What it is specified over.
    pub below: SymBelow<'a>,
}

/// The variables of what the layer with a number is specified over, where the file's disk shows these tables.
fn variables<'a>(file: &'a File, tables: &'a [Declared], number: u32) -> &'a [Declared]
    requires tables { tables.now ≡ tables_of file.now.disk }
    requires there { number ≤ length file.now.layers }
    ensures { result.now ≡ variables_at file.now number }
{
    if number == 0 {
        return tables;
    }
    let below = &lists::layer::as_slice(&file.layers)[number as usize - 1];
    lists::declared::as_slice(&below.state)
}

/// What the layer with a number is specified over, where the file's disk shows these tables.
fn below<'a>(file: &'a File, tables: &'a [Declared], number: u32) -> SymBelow<'a>
    requires tables { tables.now ≡ tables_of file.now.disk }
    requires there { number ≤ length file.now.layers }
    ensures below { below_in result ≡ below_at file.now number }
    ensures defs { HasDefs file.now.defs result }
{
    if number == 0 {
        return SymBelow::Disk(file.disk);
    }
    let defs = lists::def::as_slice(&file.defs);
    let low = variables(file, tables, number - 1);
    let layer = &lists::layer::as_slice(&file.layers)[number as usize - 1];
    SymBelow::Layer(SymLayer { defs, layer, low })
}

/// The layer with a number, and what it is specified over, where the file's disk shows these tables.
pub fn level_of<'a>(file: &'a File, tables: &'a [Declared], number: u32) -> Level<'a>
    requires tables { tables.now ≡ tables_of file.now.disk }
    requires there { number < length file.now.layers }
    ensures defs { result.layer.defs.now ≡ file.now.defs }
    ensures layer { slice_get file.now.layers number ≡ Some result.layer.layer.now }
    ensures low { result.layer.low.now ≡ variables_at file.now number }
    ensures below { below_in result.below ≡ below_at file.now number }
    ensures same { SameDefs result.layer result.below }
{
    let defs = lists::def::as_slice(&file.defs);
    let layer = &lists::layer::as_slice(&file.layers)[number as usize];
    let low = variables(file, tables, number);
    Level {
        layer: SymLayer { defs, layer, low },
        below: below(file, tables, number),
    }
}

/// Whether a block of the part may call what is below.
pub fn calls(part: Part) -> bool
    ensures { result ≡ may_call (kind_of part) }
{
    match part {
        Part::Start | Part::Spec | Part::OnCrash | Part::Crash => false,
        Part::Format | Part::Impl | Part::Tick | Part::Recover => true,
    }
}

/// A block of a file, whose disk shows these tables.
pub fn block_at<'a>(typed: &'a Typed, tables: &'a [Declared], body: Body) -> SymBlock<'a>
    requires tables { tables.now ≡ tables_of typed.now.file.disk }
    requires there { (l : layer.Layer) × ((b : block.Block) × IsBlock typed.now.file body l b) }
    ensures fits { SiteFits result body.part }
    ensures same { AtBlock typed.now.file body (λ s. site_in result body.part ≡ s) }
{
    let level = level_of(typed.file(), tables, body.layer);
    let layer = level.layer.layer;
    let Some(block) = block_of(layer, body.part, body.number) else {
        unreachable!();
    };
    SymBlock {
        layer: level.layer,
        below: level.below,
        block,
        names: arguments_of(layer, body.part, body.number),
    }
}
