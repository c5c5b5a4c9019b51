//! A layer on a layer, as many as a file has, on a ground.

ghost use Rattle.std.specs.Prelude.{◌≡◌, ◌≤◌, ◌<◌, ◌+◌, [], length};
ghost use Rattle.ygg_machine.specs.Bottoms.{ViewStands, raised_view};
ghost use Rattle.ygg_machine.specs.Grounded.{HasRows};
ghost use Rattle.ygg_machine.specs.Viewed.{floor_seen};

use crate::errand::Errand;
use std::alloc::Global;
use ygg_machine::{Floor, Ground, Grounded, Typed, Viewed};

/// The next layer on those below, which are so many.
fn raised<W: Viewed + Drop>(alloc: Global, place: u32, below: W) -> Floor<W>
    requires { (W.seen.look below).height ≡ place }
    ensures { (floor_seen W.seen).look result ≡ raised_view [] (W.seen.look below) }
{
    Floor::asleep(alloc, place, below)
}

/// How many layers there is room for: each number is a type of its own, since the machine below is of another type with each layer.
trait Room {
    ghost use Rattle.std.specs.Prelude.{ℕ};

    /// So many.
    ghost most: { ℕ };

    /// Puts the layers of a file, from this place on, on those below, does an errand with them all, and gives those below back.
    fn stack<E: Errand, W: Viewed + Drop>(
        alloc: Global,
        typed: &Typed,
        place: u32,
        below: W,
        errand: &mut E,
    ) -> W
        requires suits { E.Suits typed.now.file errand.old }
        requires height { (W.seen.look below).height ≡ place }
        requires more { place < length typed.now.file.layers }
        requires room { length typed.now.file.layers ≤ place + most }
        requires stands { ViewStands W.seen.means typed.now.file (W.seen.look below) }
        ensures { E.Does W.seen.means typed.now.file errand.old (W.seen.look below).base errand.new (W.seen.look result).base };
}

/// Room for one layer. It is a type alone, of which no value is made.
struct One;

impl Room for One {
    ghost most = { 1 };

    fn stack<E: Errand, W: Viewed + Drop>(
        alloc: Global,
        typed: &Typed,
        place: u32,
        below: W,
        errand: &mut E,
    ) -> W {
        let mut floor = raised(alloc, place, below);
        errand.run(alloc, typed, &mut floor);
        floor.into_below()
    }
}

/// Room for one layer more than another, a type alone too.
struct More<R: Room> {
    others: R,
}

impl<R: Room> Room for More<R> {
    ghost use Rattle.std.specs.Prelude.{suc};

    ghost most = { suc R.most };

    fn stack<E: Errand, W: Viewed + Drop>(
        alloc: Global,
        typed: &Typed,
        place: u32,
        below: W,
        errand: &mut E,
    ) -> W {
        if typed.layers() == place + 1 {
            One::stack(alloc, typed, place, below, errand)
        } else {
            let floor = raised(alloc, place, below);
            R::stack(alloc, typed, place + 1, floor, errand).into_below()
        }
    }
}

/// Room for the eight layers that a file may have.
type Eight = More<More<More<More<More<More<More<One>>>>>>>;

/// Does an errand with all layers of a file on a ground whose rows are those of the file's disk, and gives the ground back. It takes no memory but what the
/// errand takes.
pub fn on_stack<E: Errand, G: Ground + Drop>(
    alloc: Global,
    typed: &Typed,
    ground: G,
    errand: &mut E,
) -> G
    requires suits { E.Suits typed.now.file errand.old }
    requires rows { HasRows G.means typed.now.file ground }
    ensures { E.Does G.means typed.now.file errand.old ground errand.new result }
{
    // The file has a layer, and 8 at most.
    let _ = typed.file();
    let _ = typed.layers();
    Eight::stack(alloc, typed, 0, Grounded { ground }, errand).into_ground()
}
