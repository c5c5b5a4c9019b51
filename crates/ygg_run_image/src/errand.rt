//! What is done with all layers of a file on a ground.

ghost use Rattle.std.specs.Prelude.{◌≡◌, length};
ghost use Rattle.ygg_machine.specs.Bottoms.{ViewStands};
ghost use Rattle.ygg_machine.specs.Viewed.{floor_seen};

use std::alloc::Global;
use ygg_machine::{Floor, Typed, Viewed};

/// Something that is done with all layers of a file, whatever ground they stand on and however many there are.
pub trait Errand {
    ghost use Rattle.ygg_machine.specs.ygg_disk.Ground.{Meaning};
    ghost use Rattle.ygg_syntax.specs.declared.tree.File.{File};

    /// Whether it is one for this file.
    ghost Suits: { File → Self → Type 0 };

    /// What it does: to the ground, and to itself.
    ghost Does: { {S : Type 0} → Meaning S → File → Self → S → Self → S → Type 0 };

    /// Does it. The layers were neither formatted nor woken before.
    fn run<W: Viewed + Drop>(&mut self, alloc: Global, typed: &Typed, tower: &mut Floor<W>)
        requires suits { Suits typed.now.file self.old }
        requires height { ((floor_seen W.seen).look tower.old).height ≡ length typed.now.file.layers }
        requires stands { ViewStands W.seen.means typed.now.file ((floor_seen W.seen).look tower.old) }
        ensures { Does W.seen.means typed.now.file self.old ((floor_seen W.seen).look tower.old).base self.new ((floor_seen W.seen).look tower.new).base };
}
