//! The lists and boxes of trees, seen by reference. `Items::as_slice` and `Boxed::get` take the type of what is held as a parameter, and the prover spells that
//! out at each of their calls: for statements a megabyte. So they are called here, once for each type, and these calls elsewhere.

ghost use Rattle.std.specs.Prelude.{◌≡◌, ◌<◌, length, slice_get, OnSome};
ghost use Rattle.std.specs.Option.{option_copied};

/// Statements.
pub mod stmt {
    use crate::tree::Stmt;
    use sqlite_items::Items;

    /// The statements of a list.
    pub fn as_slice(list: &Items<Stmt>) -> &[Stmt]
        ensures { result.now ≡ list.now }
    {
        list.as_slice()
    }
}

/// Expressions.
pub mod expr {
    use crate::tree::Expr;
    use sqlite_items::{Boxed, Items};

    /// The expressions of a list.
    pub fn as_slice(list: &Items<Expr>) -> &[Expr]
        ensures { result.now ≡ list.now }
    {
        list.as_slice()
    }

    /// The expression at a place of a list, counted from 0.
    pub fn nth(list: &Items<Expr>, at: usize) -> Option<&Expr>
        ensures { option_copied result ≡ slice_get list.now at }
    {
        list.get(at)
    }

    /// The expression in a box.
    pub fn get(boxed: &Boxed<Expr>) -> &Expr
        ensures { result.now ≡ boxed.now }
    {
        boxed.get()
    }
}

/// The indices of an assignment.
pub mod index {
    use crate::tree::Index;
    use sqlite_items::Items;

    /// The indices of a list.
    pub fn as_slice(list: &Items<Index>) -> &[Index]
        ensures { result.now ≡ list.now }
    {
        list.as_slice()
    }
}

/// Variables, parameters and arguments.
pub mod declared {
    use crate::tree::Declared;
    use sqlite_items::Items;

    /// What a list declares.
    pub fn as_slice(list: &Items<Declared>) -> &[Declared]
        ensures { result.now ≡ list.now }
    {
        list.as_slice()
    }
}

/// Definitions.
pub mod def {
    use crate::tree::Def;
    use sqlite_items::Items;

    /// The definitions of a list.
    pub fn as_slice(list: &Items<Def>) -> &[Def]
        ensures { result.now ≡ list.now }
    {
        list.as_slice()
    }
}

/// Operations.
pub mod operation {
    use crate::tree::Operation;
    use sqlite_items::Items;

    /// The operations of a list.
    pub fn as_slice(list: &Items<Operation>) -> &[Operation]
        ensures { result.now ≡ list.now }
    {
        list.as_slice()
    }

    /// The operation at a place of a list, counted from 0.
    pub fn get(list: &Items<Operation>, at: usize) -> Option<&Operation>
        ensures value { option_copied result ≡ slice_get list.now at }
        ensures within { OnSome result (at < length list.now) }
    {
        list.get(at)
    }
}

/// Background steps.
pub mod tick {
    use crate::tree::Tick;
    use sqlite_items::Items;

    /// The background steps of a list.
    pub fn as_slice(list: &Items<Tick>) -> &[Tick]
        ensures { result.now ≡ list.now }
    {
        list.as_slice()
    }

    /// The background step at a place of a list, counted from 0.
    pub fn get(list: &Items<Tick>, at: usize) -> Option<&Tick>
        ensures value { option_copied result ≡ slice_get list.now at }
        ensures within { OnSome result (at < length list.now) }
    {
        list.get(at)
    }
}

/// Layers.
pub mod layer {
    use crate::tree::Layer;
    use sqlite_items::Items;

    /// The layers of a list.
    pub fn as_slice(list: &Items<Layer>) -> &[Layer]
        ensures { result.now ≡ list.now }
    {
        list.as_slice()
    }

    /// The layer at a place of a list, counted from 0.
    pub fn get(list: &Items<Layer>, at: usize) -> Option<&Layer>
        ensures value { option_copied result ≡ slice_get list.now at }
        ensures within { OnSome result (at < length list.now) }
    {
        list.get(at)
    }
}
