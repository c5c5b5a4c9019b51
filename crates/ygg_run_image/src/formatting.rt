//! The layers of a file are formatted on a ground.

ghost use Rattle.std.specs.Prelude.{◌≡◌, ◌≢◌, None};
ghost use Rattle.ygg_run_image.specs.ygg_eval.Lower.{Down, ending_of};
ghost use Rattle.ygg_run_image.specs.ygg_machine.Viewed.{floor_seen};
ghost use Rattle.ygg_run_image.specs.Formatting.{end_of, Formats};

use crate::end::FormatEnd;
use crate::errand::Errand;
use std::alloc::Global;
use ygg_base::Bits;
use ygg_list::NoMemory;
use ygg_machine::{Floor, Picks, Power, Turn, Typed, Viewed, viewed};

/// Power that doesn't fail and names picks of 1, of which nothing is noted.
fn steady(alloc: Global) -> Power
    ensures { result.fuse ≡ None }
{
    Power {
        picks: Picks {
            bits: Bits::new(alloc),
            next: 0,
            past: true,
        },
        fuse: None,
        passed: 0,
        events: None,
    }
}

/// How formatting ended, in which power can't fail.
fn end_of(turned: &Result<Turn, NoMemory>) -> FormatEnd
    requires { ending_of turned.now ≢ Down }
    ensures { result ≡ end_of (ending_of turned.now) }
{
    match turned {
        Ok(Turn::Done | Turn::Answer(_)) => FormatEnd::Done,
        Ok(Turn::Failed) => FormatEnd::Failed,
        Ok(Turn::Down) => unreachable!(),
        Err(_) => FormatEnd::Memory,
    }
}

/// That all layers are formatted, and how that ended.
#[derive(Drop)]
pub struct Formatting {
    /// How it ended; before it is done, out of memory.
    pub end: FormatEnd,
}

impl Errand for Formatting {
    ghost Suits = { λ f e. Unit {0} };

    ghost Does = { λ G f before from after to. Formats G f from to after.end };

    fn run<W: Viewed + Drop>(&mut self, alloc: Global, typed: &Typed, tower: &mut Floor<W>) {
        let mut power = steady(alloc);
        self.end = end_of(&viewed::format(tower, typed, &mut power));
    }
}
