//! Places of operations in the machine below.

ghost use Rattle.std.specs.Prelude.{◌≡◌, IsTrue};
ghost use Rattle.ygg_eval_expr.specs.ygg_type_rules.Names.{has};
ghost use Rattle.ygg_eval.specs.Layers.{signatures_at};
ghost use Rattle.ygg_eval.specs.Ready.{IsPlace, place_on_disk};

use ygg_base::Text;
use ygg_type::Typed;

/// The place of an operation of the machine with this number, counted from 0.
pub fn place_of(typed: &Typed, number: u32, name: &Text) -> u32
    requires { IsTrue (has name.now (signatures_at typed.now.file number)) }
    ensures { IsPlace (signatures_at typed.now.file number) name.now result }
{
    if number == 0 {
        return place_on_disk(name.as_slice());
    }
    match typed.operation(number - 1, name) {
        Some(place) => place,
        None => unreachable!(),
    }
}

/// The place of an operation of a disk.
fn place_on_disk(name: &[u8]) -> u32
    ensures { result ≡ place_on_disk name.now }
{
    if b"read".as_slice() == name {
        return 0;
    }
    if b"write".as_slice() == name {
        return 1;
    }
    2
}
