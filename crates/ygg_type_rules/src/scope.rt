use ygg_list::Sequence;
use ygg_syntax::tree::Place;
use ygg_value::Shape;

/// What an expression is to those around it: where its first token stands, and its shape. It has none where a type error
/// stands inside it, or where it is a name that was declared with a type error.
#[derive(Clone, Copy)]
pub struct TypedExpr {
    pub place: Place,
    pub shape: Option<Shape>,
}

/// Whose variable it is: the specification's or the implementation's.
#[derive(Clone, Copy)]
pub enum Owner {
    State,
    Memory,
}

/// A variable of a layer or of the disk. It has no shape where its type has a type error.
#[derive(Clone, Copy, Drop)]
pub struct Variable {
    pub kind: Owner,
    pub shape: Option<Shape>,
}

/// A parameter, an argument, the name of a `let`, or the number of a loop or a quantifier.
#[derive(Clone, Copy, Drop)]
pub struct Local {
    pub shape: Option<Shape>,
    /// Whether it may be assigned to: the names of `let` alone.
    pub assignable: bool,
}

/// What a definition or an operation takes and gives.
pub struct Signature {
    /// The shapes of its arguments in order, none where a type has a type error.
    pub arguments: Sequence<Option<Shape>>,
    /// Whether it gives an answer.
    pub answers: bool,
    /// The answer's shape, none where there is no answer or its type has a type error.
    pub answer: Option<Shape>,
}

impl Drop for Signature {
    fn drop(self) {
        let Signature {
            arguments,
            answers: _,
            answer: _,
        } = self;
        drop(arguments);
    }
}

/// What a part of a file sees of its layer's variables and of those below.
#[derive(Clone, Copy)]
pub enum Visibility {
    /// Nothing: a definition.
    Definition,
    /// The state variables: `start`, `spec`, `on crash` and `crash`.
    Specification,
    /// The memory variables: `format`, `impl`, `tick` and `recover`.
    Implementation,
    /// State, memory and `low`: `relate`, `always` and `maybe`.
    Relation,
    /// `low` alone: `settled`.
    Settled,
}
