//! What is in scope, and the first type error so far.

ghost use Rattle.std.specs.Prelude.{◌≡◌, OnOk, take};
ghost use Rattle.ygg_type_rules.specs.Scopes.{sees, sees_low, name_in, low_in, is_taken, with_local};
ghost use Rattle.ygg_type.specs.Checking.{scope_of, with_locals};

use crate::first::First;
use std::alloc::Global;
use ygg_list::NoMemory;
use ygg_type_rules::{Local, Names, Owner, Signature, Variable, Visibility};
use ygg_value::Shape;

/// What is in scope at a place of a file, and the first of the type errors before it. After running out of memory it is given up: what a call
/// leaves of it then is not said.
pub struct Typer<'a> {
    pub alloc: Global,
    /// The definitions that stand before.
    pub defs: Names<'a, Signature>,
    /// The operations of the machine below.
    pub lower: Names<'a, Signature>,
    /// The variables of the machine below.
    pub low: Names<'a, Variable>,
    /// The state and memory variables of the layer.
    pub variables: Names<'a, Variable>,
    /// What is seen of these variables.
    pub view: Visibility,
    /// Parameters, arguments, `let` names, and numbers of loops and quantifiers.
    pub locals: Names<'a, Local>,
    pub first: First,
}

impl Drop for Typer<'_> {
    fn drop(self) {
        let Typer {
            alloc: _,
            defs,
            lower,
            low,
            variables,
            view: _,
            locals,
            first: _,
        } = self;
        drop(defs);
        drop(lower);
        drop(low);
        drop(variables);
        drop(locals);
    }
}

/// Whether a layer's own variables of that kind are seen.
fn shows(view: Visibility, kind: Owner) -> bool
    ensures { result ≡ sees view kind }
{
    match (view, kind) {
        (Visibility::Specification, Owner::State) => true,
        (Visibility::Implementation, Owner::Memory) => true,
        (Visibility::Relation, _) => true,
        _ => false,
    }
}

/// Whether `low` is seen.
fn shows_low(view: Visibility) -> bool
    ensures { result ≡ sees_low view }
{
    match view {
        Visibility::Relation | Visibility::Settled => true,
        _ => false,
    }
}

impl<'a> Typer<'a> {
    /// Whether the name is a variable of the layer or is in scope already.
    pub fn is_taken(&self, name: &[u8]) -> bool
        ensures { result ≡ is_taken name.now (scope_of self.now) }
    {
        self.variables.has(name) || self.locals.has(name)
    }

    /// What a plain name means.
    pub fn meaning(&self, name: &[u8]) -> Option<Local>
        ensures { result ≡ name_in name.now (scope_of self.now) }
    {
        if let Some(local) = self.locals.find(name) {
            return Some(*local);
        }
        match self.variables.find(name) {
            Some(variable) if shows(self.view, variable.kind) => Some(Local {
                shape: variable.shape,
                assignable: true,
            }),
            _ => None,
        }
    }

    /// What `low.NAME` means.
    pub fn low_meaning(&self, name: &[u8]) -> Option<Option<Shape>>
        ensures { result ≡ low_in name.now (scope_of self.now) }
    {
        if !shows_low(self.view) {
            return None;
        }
        match self.low.find(name) {
            None => None,
            Some(variable) => match variable.kind {
                Owner::State => Some(variable.shape),
                Owner::Memory => None,
            },
        }
    }

    /// One more local name, unless it is taken.
    pub fn add_local(
        &mut self,
        name: &'a [u8],
        shape: Option<Shape>,
        assignable: bool,
    ) -> Result<(), NoMemory>
        ensures scope { OnOk result (scope_of self.new ≡ with_local name.now shape assignable (scope_of self.old)) }
        ensures first { OnOk result (self.new.first ≡ self.old.first) }
    {
        if self.variables.has(name) {
            Ok(())
        } else {
            self.locals.add(name, Local { shape, assignable })
        }
    }

    /// Keeps the first so many local names.
    pub fn forget(&mut self, count: usize)
        ensures scope { scope_of self.new ≡ with_locals (take count (scope_of self.old).locals) (scope_of self.old) }
        ensures first { self.new.first ≡ self.old.first }
    {
        self.locals.truncate(count);
    }
}
