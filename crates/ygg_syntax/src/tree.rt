//! The trees of layer files, with one struct or variant for each rule of the grammar and their fields in its order.
//!
//! Lists and boxes inside the trees hold no pointer that a contract could see, so two equal trees are equal values. The
//! trees keep each place at which a file may be refused.

use sqlite_items::{Boxed, Items};
use ygg_base::{DiskKind, Text};
use ygg_value::Op;

/// Where a token begins. Lines and columns are counted from 1, columns in bytes.
#[derive(Clone, Copy)]
pub struct Place {
    pub line: u32,
    pub column: u32,
}

/// A name as it is written.
#[derive(Drop)]
pub struct Name {
    pub text: Text,
    pub place: Place,
}

/// A number as it is written.
#[derive(Clone, Copy)]
pub struct Numeral {
    pub value: u64,
    pub place: Place,
}

/// The type of a value, with its numbers as they are written, in range or not.
#[derive(Clone, Copy)]
pub enum TypeText {
    /// A word of this width in bits.
    Word(Numeral),
    /// How many words a row has, and their width.
    Row(Numeral, Numeral),
    /// How many rows a table has, how many words a row has, and their width.
    Table(Numeral, Numeral, Numeral),
}

/// A state or memory variable, a parameter of a definition or an argument of an operation.
#[derive(Drop)]
pub struct Declared {
    pub name: Name,
    pub shape: TypeText,
}

/// Whether a test is to pass at every number or at one.
#[derive(Clone, Copy)]
pub enum Quantifier {
    All,
    Any,
}

/// An expression. Where its first token is no part's own, it begins with that token's place.
pub enum Expr {
    /// `value:width`.
    Constant(Numeral, Numeral),
    /// `low.NAME`, a variable of the machine below.
    Low(Place, Name),
    Variable(Name),
    /// A definition at its arguments.
    Apply(Name, Items<Expr>),
    /// `(left OP right)`. The second place is the operator's.
    Binary(Place, Boxed<Expr>, Op, Place, Boxed<Expr>),
    Not(Place, Boxed<Expr>),
    /// `whole[index]`. The place is the bracket's.
    At(Boxed<Expr>, Place, Boxed<Expr>),
    /// `pick(test, first, second)`, the first where the test is 1 and else the second.
    Pick(Place, Boxed<Expr>, Boxed<Expr>, Boxed<Expr>),
    /// `resize(word, width)`.
    Resize(Place, Boxed<Expr>, Numeral),
    /// `fill(count, word)`, a row of as many equal words.
    Fill(Place, Numeral, Boxed<Expr>),
    /// A row of these words.
    Row(Place, Items<Expr>),
    /// `all(name:width below bound, test)`, and the same with `any`.
    Quantified(Place, Quantifier, Name, Numeral, Numeral, Boxed<Expr>),
}

/// What stands on the right side of a `let` or of an assignment. The places are the keywords'.
pub enum Source {
    Value(Expr),
    /// A word of width 1 that a specification may choose.
    Choose(Place),
    /// The answer of an operation of the machine below.
    Call(Place, Name, Items<Expr>),
}

/// One index of the place that an assignment writes. The place is the bracket's.
#[derive(Drop)]
pub struct Index {
    pub bracket: Place,
    pub at: Expr,
}

/// A statement.
#[cycle(statements)]
pub enum Stmt {
    Let(Name, Source),
    /// A variable, the indices of a part of it from the outermost on, and the new value.
    Assign(Name, Items<Index>, Source),
    /// A test, the block for 1, and the block for 0.
    If(Expr, Block, Block),
    /// `for name:width below bound` and the block that is run for each number.
    For(Name, Numeral, Numeral, Block),
    /// An operation of the machine below, whose answer is dropped.
    Call(Name, Items<Expr>),
}

/// Statements in braces, and what the block returns. The place is the opening brace's. An optional block that is not
/// written is an empty one at line 0 and column 0.
#[cycle(statements)]
pub struct Block {
    pub place: Place,
    pub statements: Items<Stmt>,
    pub answer: Option<Expr>,
}

/// The disk of a file: its rows, the words of a row, and their width in bits.
#[derive(Clone, Copy)]
pub struct DiskText {
    pub kind: DiskKind,
    pub rows: Numeral,
    pub words: Numeral,
    pub width: Numeral,
}

/// A definition: a name for an expression over parameters.
pub struct Def {
    pub name: Name,
    pub parameters: Items<Declared>,
    pub shape: TypeText,
    pub body: Expr,
}

/// An operation: what it does to the state variables, what it may leave where power fails within it, and how it is
/// implemented on the machine below.
pub struct Operation {
    pub name: Name,
    pub arguments: Items<Declared>,
    pub answer: Option<TypeText>,
    pub spec: Block,
    /// With `on crash` left out, either all of `spec` has happened or nothing of it.
    pub on_crash: Option<Block>,
    pub implementation: Block,
}

/// A background step, which the specification does not see.
pub struct Tick {
    pub name: Name,
    pub body: Block,
}

/// A layer.
pub struct Layer {
    /// Where its keyword `layer` stands.
    pub place: Place,
    pub name: Name,
    /// The variables of its specification.
    pub state: Items<Declared>,
    pub start: Block,
    /// The variables of its implementation, which power loss makes zeros.
    pub memory: Items<Declared>,
    pub format: Block,
    pub operations: Items<Operation>,
    /// Where the keyword `crash` of the block that follows stands; line 0 and column 0 where none is written.
    pub crash_place: Place,
    pub crash: Block,
    pub ticks: Items<Tick>,
    pub recover: Block,
    pub relate: Expr,
    pub always: Items<Expr>,
    pub settled: Items<Expr>,
    /// Expressions that count for nothing but in the search for invariants.
    pub maybe: Items<Expr>,
}

/// A layer file: its disk, its definitions, and its layers from the bottom one up.
pub struct File {
    pub disk: DiskText,
    pub defs: Items<Def>,
    pub layers: Items<Layer>,
}

// A tree is let go by a call, so that its variants are told apart in one place and not wherever one is let go.

impl Drop for Expr {
    fn drop(self) {
        match self {
            Expr::Constant(_, _) => {}
            Expr::Low(_, name) => drop(name),
            Expr::Variable(name) => drop(name),
            Expr::Apply(name, arguments) => {
                drop(name);
                drop(arguments);
            }
            Expr::Binary(_, left, _, _, right) => {
                drop(left);
                drop(right);
            }
            Expr::Not(_, operand) => drop(operand),
            Expr::At(whole, _, index) => {
                drop(whole);
                drop(index);
            }
            Expr::Pick(_, test, first, second) => {
                drop(test);
                drop(first);
                drop(second);
            }
            Expr::Resize(_, word, _) => drop(word),
            Expr::Fill(_, _, word) => drop(word),
            Expr::Row(_, words) => drop(words),
            Expr::Quantified(_, _, name, _, _, test) => {
                drop(name);
                drop(test);
            }
        }
    }
}

impl Drop for Source {
    fn drop(self) {
        match self {
            Source::Value(value) => drop(value),
            Source::Choose(_) => {}
            Source::Call(_, name, arguments) => {
                drop(name);
                drop(arguments);
            }
        }
    }
}

impl Drop for Stmt {
    #[cycle(dropped)]
    fn drop(self) {
        match self {
            Stmt::Let(name, source) => {
                drop(name);
                drop(source);
            }
            Stmt::Assign(name, indices, source) => {
                drop(name);
                drop(indices);
                drop(source);
            }
            Stmt::If(test, yes, no) => {
                drop(test);
                drop(yes);
                drop(no);
            }
            Stmt::For(name, _, _, body) => {
                drop(name);
                drop(body);
            }
            Stmt::Call(name, arguments) => {
                drop(name);
                drop(arguments);
            }
        }
    }
}

impl Drop for Block {
    #[cycle(dropped)]
    fn drop(self) {
        let Block {
            place: _,
            statements,
            answer,
        } = self;
        drop(statements);
        drop(answer);
    }
}

impl Drop for Def {
    fn drop(self) {
        let Def {
            name,
            parameters,
            shape: _,
            body,
        } = self;
        drop(name);
        drop(parameters);
        drop(body);
    }
}

impl Drop for Operation {
    fn drop(self) {
        let Operation {
            name,
            arguments,
            answer: _,
            spec,
            on_crash,
            implementation,
        } = self;
        drop(name);
        drop(arguments);
        drop(spec);
        drop(on_crash);
        drop(implementation);
    }
}

impl Drop for Tick {
    fn drop(self) {
        let Tick { name, body } = self;
        drop(name);
        drop(body);
    }
}

impl Drop for Layer {
    fn drop(self) {
        let Layer {
            place: _,
            name,
            state,
            start,
            memory,
            format,
            operations,
            crash_place: _,
            crash,
            ticks,
            recover,
            relate,
            always,
            settled,
            maybe,
        } = self;
        drop(name);
        drop(state);
        drop(start);
        drop(memory);
        drop(format);
        drop(operations);
        drop(crash);
        drop(ticks);
        drop(recover);
        drop(relate);
        drop(always);
        drop(settled);
        drop(maybe);
    }
}

impl Drop for File {
    fn drop(self) {
        let File {
            disk: _,
            defs,
            layers,
        } = self;
        drop(defs);
        drop(layers);
    }
}
