//! Parts of trees that stand in lists, or that may be left out.

ghost use Rattle.std.specs.Prelude.{◌≡◌, IsTrue, ◌↔◌, map, option_map};
ghost use Rattle.ygg_syntax.specs.Bare.{bare, bare_type, bare_declared};

use crate::expressions::{expression, name, shape};
use crate::tree::{Declared, Expr, TypeText};

/// A part of a tree.
pub trait Alike {
    /// The part without its places.
    ghost without_places: { Self → Self };

    /// Whether the parts are the same.
    fn same(&self, other: &Self) -> bool
        ensures { IsTrue result ↔ (without_places self.now ≡ without_places other.now) };
}

/// Whether there are as many items, each the same.
pub fn items<T: Alike>(a: &[T], b: &[T]) -> bool
    ensures { IsTrue result ↔ (map T.without_places a.now ≡ map T.without_places b.now) }
{
    let mut rest = b;
    for one in a {
        let Some((other, others)) = rest.split_first() else {
            return false;
        };
        if !one.same(other) {
            return false;
        }
        rest = others;
    }
    rest.is_empty()
}

/// Whether both are there and the same, or neither is.
pub fn optional<T: Alike>(a: &Option<T>, b: &Option<T>) -> bool
    ensures { IsTrue result ↔ (option_map T.without_places a.now ≡ option_map T.without_places b.now) }
{
    match (a, b) {
        (None, None) => true,
        (Some(x), Some(y)) => x.same(y),
        _ => false,
    }
}

impl Alike for TypeText {
    ghost without_places = { bare_type };

    fn same(&self, other: &TypeText) -> bool {
        shape(self, other)
    }
}

impl Alike for Declared {
    ghost without_places = { bare_declared };

    fn same(&self, other: &Declared) -> bool {
        name(&self.name, &other.name) && shape(&self.shape, &other.shape)
    }
}

impl Alike for Expr {
    ghost without_places = { bare };

    fn same(&self, other: &Expr) -> bool {
        expression(self, other)
    }
}
