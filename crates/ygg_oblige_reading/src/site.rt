//! The obligation at a place of a file, with the inputs that it has.

ghost use Rattle.std.specs.Prelude.{◌≡◌, ◌<◌, ◌+◌, length, take, slice_get, Some, IfOk};
ghost use Rattle.ygg_oblige_list.specs.ygg_meaning.Claims.{claims_of};
ghost use Rattle.ygg_oblige_list.specs.ygg_meaning.Stack.{layers_of, tables_of};
ghost use Rattle.ygg_oblige_list.specs.ygg_meaning.Obligations.{obligations_of};
ghost use Rattle.ygg_oblige.specs.Sites.{below_in};
ghost use Rattle.ygg_oblige.specs.ygg_sym_spec.Layers.{closed};
ghost use Rattle.ygg_oblige_list.specs.Listing.{AreNumbered, asked_in};
ghost use Rattle.ygg_oblige.specs.Adding.{after_at, after_layer_at};
ghost use Rattle.ygg_oblige.specs.Making.{SiteFits};
ghost use Rattle.ygg_oblige.specs.Numbering.{numbers_in};
ghost use Rattle.ygg_oblige.specs.ygg_oblige_laws.Numbers.{numbers_of};
ghost use Rattle.ygg_oblige.specs.ygg_oblige_laws.TermStates.{state_words};
ghost use Rattle.ygg_oblige.specs.ygg_oblige_laws.TypedLayers.{LayersTyped};
ghost use Rattle.ygg_oblige_reading.specs.Listing.{StandsIn};
ghost use Rattle.ygg_oblige_reading.specs.Sites.{IsInLayer, IsPlaced};

use crate::starts::number_after;
use std::alloc::Global;
use ygg_list::NoMemory;
use ygg_oblige::{Maker, SymBelow, SymLayer, after_states, numbers_of};
use ygg_oblige_list::{Asked, asked_of, place_of};
use ygg_oblige_schedule::Site;
use ygg_rules::Book;
use ygg_syntax::lists;
use ygg_syntax::tree::{Declared, File};

/// The obligation at a place in the list of a layer with a place, where the inputs of the layer's states are numbered on from a number. Its only error is
/// out of memory.
fn site_in<'a, B: Book>(
    maker: &Maker<'a, B>,
    asked: &[Asked<'a>],
    layer: u32,
    states: u64,
    place: usize,
) -> Result<Site<'a>, NoMemory>
    requires site { SiteFits maker.now.layer maker.now.below }
    requires asked { asked_in asked.now ≡ obligations_of maker.now.layer.layer.now }
    requires numbered { AreNumbered maker.now.layer.layer.now asked.now }
    requires there { place < length asked.now }
    ensures { IfOk result (IsInLayer (B.kinds maker.now.book.now) maker.now.layer maker.now.below layer states place) }
{
    let first = after_states(maker, states)?;
    let start = number_after(maker, &asked[..place], first)?;
    let one = asked[place];
    let numbers = numbers_of(maker, one.obligation, start)?;
    Ok(Site {
        layer: maker.layer.layer,
        place: layer,
        low: maker.layer.low,
        obligation: one.obligation,
        number: one.number,
        states,
        numbers,
    })
}

/// The number after the inputs of a layer, whose obligations these are, that are numbered on from a number. Its only error is out of memory.
fn after_layer<'a, B: Book>(
    maker: &Maker<'a, B>,
    asked: &[Asked<'a>],
    number: u64,
) -> Result<u64, NoMemory>
    requires site { SiteFits maker.now.layer maker.now.below }
    requires asked { asked_in asked.now ≡ obligations_of maker.now.layer.layer.now }
    ensures { IfOk result (λ n. n ≡ after_layer_at (B.kinds maker.now.book.now) maker.now.layer maker.now.below number) }
{
    let first = after_states(maker, number)?;
    number_after(maker, asked, first)
}

/// The obligation at a place in a file's list, whose disk shows these tables. Its only error is out of memory.
pub fn site_at<'a, B: Book>(
    alloc: Global,
    file: &'a File,
    tables: &'a [Declared],
    book: &'a B,
    place: usize,
) -> Result<Site<'a>, NoMemory>
    requires tables { tables.now ≡ tables_of file.now.disk }
    requires typed { LayersTyped file.now.defs file.now.disk (layers_of file.now) }
    requires there { place < length (claims_of file.now) }
    ensures { IfOk result (IsPlaced (B.kinds book.now) file.now place) }
{
    let mut low = tables;
    let mut below = SymBelow::Disk(file.disk);
    let mut number: u64 = 0;
    let mut left = place;
    for (i, layer) in lists::layer::as_slice(&file.layers).iter().enumerate() {
        let at = SymLayer {
            defs: lists::def::as_slice(&file.defs),
            layer,
            low,
        };
        let maker = Maker {
            alloc,
            book,
            layer: at,
            below,
        };
        let listed = asked_of(alloc, layer)?;
        let asked = listed.as_slice();
        let count = asked.len();
        if left < count {
            let layer_number = place_of(i)?;
            let site = site_in(&maker, asked, layer_number, number, left)?;
            return Ok(site);
        }
        left -= count;
        number = after_layer(&maker, asked, number)?;
        low = lists::declared::as_slice(&layer.state);
        below = SymBelow::Layer(at);
    }
    unreachable!()
}
