ghost use Rattle.std.specs.Prelude.{◌≡◌, [], ◌∷◌, ◌++◌, IfOk, Ok};

use crate::lists;
use crate::tree::{
    Block, Declared, Def, Expr, File, Index, Layer, Name, Operation, Source, Stmt, Tick,
};
use sqlite_items::{Boxed, Items};
use std::alloc::Global;
use ygg_list::NoMemory;

/// The same tree with the same places. Its only error is out of memory.
pub fn copy_file(alloc: Global, file: &File) -> Result<File, NoMemory>
    ensures { IfOk result (λ copy. copy ≡ file.now) }
{
    let defs = items(alloc, lists::def::as_slice(&file.defs));
    let layers = items(alloc, lists::layer::as_slice(&file.layers));
    match both(defs, layers) {
        Ok((defs, layers)) => Ok(File {
            disk: file.disk,
            defs,
            layers,
        }),
        Err(error) => Err(error),
    }
}

/// Both parts, where memory sufficed for both. A function that puts its parts together with it has one place at which it
/// may end early, and owns no part there. Where a part holds expressions that place is an arm of a `match`: the proof of a
/// `?` spells out the type of the whole.
fn both<A: Drop, B: Drop>(
    first: Result<A, NoMemory>,
    second: Result<B, NoMemory>,
) -> Result<(A, B), NoMemory>
    ensures { IfOk result (λ parts. (first ≡ Ok parts.0) × (second ≡ Ok parts.1)) }
{
    let first = first?;
    let second = second?;
    Ok((first, second))
}

/// All four parts, where memory sufficed for each.
fn four<A: Drop, B: Drop, C: Drop, D: Drop>(
    first: Result<A, NoMemory>,
    second: Result<B, NoMemory>,
    third: Result<C, NoMemory>,
    fourth: Result<D, NoMemory>,
) -> Result<(A, B, C, D), NoMemory>
    ensures { IfOk result (λ parts. (first ≡ Ok parts.0) × (second ≡ Ok parts.1) × (third ≡ Ok parts.2) × (fourth ≡ Ok parts.3)) }
{
    let ((first, second), (third, fourth)) = both(both(first, second), both(third, fourth))?;
    Ok((first, second, third, fourth))
}

/// A part of a tree.
trait Part: Sized {
    /// The same part with the same places. Its only error is out of memory.
    fn duplicate(&self, alloc: Global) -> Result<Self, NoMemory>
        ensures { IfOk result (λ copy. copy ≡ self.now) };
}

/// The copies with one more, where memory suffices.
fn added<T: Drop>(mut copies: Items<T>, copy: Result<T, NoMemory>) -> Result<Items<T>, NoMemory>
    ensures { IfOk result (λ more. (one : T) × (copy ≡ Ok one) × (more ≡ copies ++ one ∷ [])) }
{
    copies.push(copy?)?;
    Ok(copies)
}

/// Copies of all the items.
fn items<T: Part + Drop>(alloc: Global, all: &[T]) -> Result<Items<T>, NoMemory>
    ensures { IfOk result (λ copies. copies ≡ all.now) }
{
    let mut copies = Items::new(alloc);
    for one in all {
        match added(copies, one.duplicate(alloc)) {
            Ok(more) => copies = more,
            Err(error) => return Err(error),
        }
    }
    Ok(copies)
}

impl Part for Name {
    fn duplicate(&self, alloc: Global) -> Result<Name, NoMemory> {
        let text = self.text.copy(alloc)?;
        Ok(Name {
            text,
            place: self.place,
        })
    }
}

impl Part for Declared {
    fn duplicate(&self, alloc: Global) -> Result<Declared, NoMemory> {
        let name = self.name.duplicate(alloc)?;
        Ok(Declared {
            name,
            shape: self.shape,
        })
    }
}

impl Part for Expr {
    fn duplicate(&self, alloc: Global) -> Result<Expr, NoMemory> {
        expression(alloc, self)
    }
}

impl Part for Index {
    fn duplicate(&self, alloc: Global) -> Result<Index, NoMemory> {
        match expression(alloc, &self.at) {
            Ok(at) => Ok(Index {
                bracket: self.bracket,
                at,
            }),
            Err(error) => Err(error),
        }
    }
}

impl Part for Def {
    fn duplicate(&self, alloc: Global) -> Result<Def, NoMemory> {
        let head = both(
            self.name.duplicate(alloc),
            items(alloc, lists::declared::as_slice(&self.parameters)),
        );
        match both(head, expression(alloc, &self.body)) {
            Ok(((name, parameters), body)) => Ok(Def {
                name,
                parameters,
                shape: self.shape,
                body,
            }),
            Err(error) => Err(error),
        }
    }
}

impl Part for Operation {
    fn duplicate(&self, alloc: Global) -> Result<Operation, NoMemory> {
        let head = both(
            self.name.duplicate(alloc),
            items(alloc, lists::declared::as_slice(&self.arguments)),
        );
        let spec = block(alloc, &self.spec);
        let crash = on_crash(alloc, &self.on_crash);
        match four(head, spec, crash, block(alloc, &self.implementation)) {
            Ok(((name, arguments), spec, on_crash, implementation)) => Ok(Operation {
                name,
                arguments,
                answer: self.answer,
                spec,
                on_crash,
                implementation,
            }),
            Err(error) => Err(error),
        }
    }
}

impl Part for Tick {
    fn duplicate(&self, alloc: Global) -> Result<Tick, NoMemory> {
        match both(self.name.duplicate(alloc), block(alloc, &self.body)) {
            Ok((name, body)) => Ok(Tick { name, body }),
            Err(error) => Err(error),
        }
    }
}

impl Part for Layer {
    fn duplicate(&self, alloc: Global) -> Result<Layer, NoMemory> {
        let ticks = items(alloc, lists::tick::as_slice(&self.ticks));
        let blocks = blocks(alloc, self);
        match four(heading(alloc, self), ticks, blocks, claims(alloc, self)) {
            Ok((heading, ticks, blocks, claims)) => {
                let (name, state, memory, operations) = heading;
                let (start, format, crash, recover) = blocks;
                let (relate, always, settled, maybe) = claims;
                Ok(Layer {
                    place: self.place,
                    name,
                    state,
                    start,
                    memory,
                    format,
                    operations,
                    crash_place: self.crash_place,
                    crash,
                    ticks,
                    recover,
                    relate,
                    always,
                    settled,
                    maybe,
                })
            }
            Err(error) => Err(error),
        }
    }
}

/// The name, the variables and the operations of a layer.
type Heading = (Name, Items<Declared>, Items<Declared>, Items<Operation>);

/// Copies of the name, the variables and the operations of a layer.
fn heading(alloc: Global, layer: &Layer) -> Result<Heading, NoMemory>
    ensures { IfOk result (λ copies. copies ≡ (layer.now.name, layer.now.state, layer.now.memory, layer.now.operations)) }
{
    let state = items(alloc, lists::declared::as_slice(&layer.state));
    let memory = items(alloc, lists::declared::as_slice(&layer.memory));
    let operations = items(alloc, lists::operation::as_slice(&layer.operations));
    four(layer.name.duplicate(alloc), state, memory, operations)
}

/// Copies of the blocks of a layer, in the order of the text.
fn blocks(alloc: Global, layer: &Layer) -> Result<(Block, Block, Block, Block), NoMemory>
    ensures { IfOk result (λ copies. copies ≡ (layer.now.start, layer.now.format, layer.now.crash, layer.now.recover)) }
{
    let start = block(alloc, &layer.start);
    let format = block(alloc, &layer.format);
    let crash = block(alloc, &layer.crash);
    four(start, format, crash, block(alloc, &layer.recover))
}

/// What a layer claims, in the order of the text.
type Claims = (Expr, Items<Expr>, Items<Expr>, Items<Expr>);

/// Copies of what a layer claims.
fn claims(alloc: Global, layer: &Layer) -> Result<Claims, NoMemory>
    ensures { IfOk result (λ copies. copies ≡ (layer.now.relate, layer.now.always, layer.now.settled, layer.now.maybe)) }
{
    let always = expressions(alloc, lists::expr::as_slice(&layer.always));
    let settled = expressions(alloc, lists::expr::as_slice(&layer.settled));
    let maybe = expressions(alloc, lists::expr::as_slice(&layer.maybe));
    four(expression(alloc, &layer.relate), always, settled, maybe)
}

/// A copy of the block for a crash, where one is written.
fn on_crash(alloc: Global, on_crash: &Option<Block>) -> Result<Option<Block>, NoMemory>
    ensures { IfOk result (λ copy. copy ≡ on_crash.now) }
{
    match on_crash {
        None => Ok(None),
        Some(written) => {
            match block(alloc, written) {
                Ok(copy) => Ok(Some(copy)),
                Err(error) => Err(error),
            }
        }
    }
}

/// A copy of a block.
#[cycle(blocks)]
fn block(alloc: Global, block: &Block) -> Result<Block, NoMemory>
    ensures { IfOk result (λ copy. copy ≡ block.now) }
{
    let statements = statements(alloc, lists::stmt::as_slice(&block.statements));
    match both(statements, answer(alloc, &block.answer)) {
        Ok((statements, answer)) => Ok(Block {
            place: block.place,
            statements,
            answer,
        }),
        Err(error) => Err(error),
    }
}

/// A copy of what a block returns.
fn answer(alloc: Global, answer: &Option<Expr>) -> Result<Option<Expr>, NoMemory>
    ensures { IfOk result (λ copy. copy ≡ answer.now) }
{
    match answer {
        None => Ok(None),
        Some(e) => {
            match expression(alloc, e) {
                Ok(copy) => Ok(Some(copy)),
                Err(error) => Err(error),
            }
        }
    }
}

/// Copies of statements.
#[cycle(blocks)]
fn statements(alloc: Global, statements: &[Stmt]) -> Result<Items<Stmt>, NoMemory>
    ensures { IfOk result (λ copies. copies ≡ statements.now) }
{
    let mut copies = Items::new(alloc);
    for one in statements {
        match added(copies, statement(alloc, one)) {
            Ok(more) => copies = more,
            Err(error) => return Err(error),
        }
    }
    Ok(copies)
}

/// A copy of a statement.
#[cycle(blocks)]
fn statement(alloc: Global, statement: &Stmt) -> Result<Stmt, NoMemory>
    ensures { IfOk result (λ copy. copy ≡ statement.now) }
{
    match statement {
        Stmt::Let(name, from) => {
            match both(name.duplicate(alloc), source(alloc, from)) {
                Ok((name, from)) => Ok(Stmt::Let(name, from)),
                Err(error) => Err(error),
            }
        }
        Stmt::Assign(name, indices, from) => {
            let written = both(
                items(alloc, lists::index::as_slice(indices)),
                source(alloc, from),
            );
            match both(name.duplicate(alloc), written) {
                Ok((name, (indices, from))) => Ok(Stmt::Assign(name, indices, from)),
                Err(error) => Err(error),
            }
        }
        Stmt::If(test, first, second) => {
            let blocks = both(block(alloc, first), block(alloc, second));
            match both(expression(alloc, test), blocks) {
                Ok((test, (first, second))) => Ok(Stmt::If(test, first, second)),
                Err(error) => Err(error),
            }
        }
        Stmt::For(name, width, bound, each) => {
            match both(name.duplicate(alloc), block(alloc, each)) {
                Ok((name, each)) => Ok(Stmt::For(name, *width, *bound, each)),
                Err(error) => Err(error),
            }
        }
        Stmt::Call(name, arguments) => {
            let arguments = items(alloc, lists::expr::as_slice(arguments));
            match both(name.duplicate(alloc), arguments) {
                Ok((name, arguments)) => Ok(Stmt::Call(name, arguments)),
                Err(error) => Err(error),
            }
        }
    }
}

/// A copy of a right side.
fn source(alloc: Global, from: &Source) -> Result<Source, NoMemory>
    ensures { IfOk result (λ copy. copy ≡ from.now) }
{
    match from {
        Source::Value(e) => {
            match expression(alloc, e) {
                Ok(e) => Ok(Source::Value(e)),
                Err(error) => Err(error),
            }
        }
        Source::Choose(place) => Ok(Source::Choose(*place)),
        Source::Call(place, name, arguments) => {
            let arguments = items(alloc, lists::expr::as_slice(arguments));
            match both(name.duplicate(alloc), arguments) {
                Ok((name, arguments)) => Ok(Source::Call(*place, name, arguments)),
                Err(error) => Err(error),
            }
        }
    }
}

/// A copy of an expression.
#[cycle(expression)]
fn expression(alloc: Global, e: &Expr) -> Result<Expr, NoMemory>
    ensures { IfOk result (λ copy. copy ≡ e.now) }
{
    match e {
        Expr::Constant(value, width) => Ok(Expr::Constant(*value, *width)),
        Expr::Low(first, name) => {
            match name.duplicate(alloc) {
                Ok(name) => Ok(Expr::Low(*first, name)),
                Err(error) => Err(error),
            }
        }
        Expr::Variable(name) => {
            match name.duplicate(alloc) {
                Ok(name) => Ok(Expr::Variable(name)),
                Err(error) => Err(error),
            }
        }
        Expr::Apply(name, arguments) => {
            let arguments = expressions(alloc, lists::expr::as_slice(arguments));
            match both(name.duplicate(alloc), arguments) {
                Ok((name, arguments)) => Ok(Expr::Apply(name, arguments)),
                Err(error) => Err(error),
            }
        }
        Expr::Binary(first, left, operator, place, right) => {
            match both(
                boxed(alloc, lists::expr::get(left)),
                boxed(alloc, lists::expr::get(right)),
            ) {
                Ok((left, right)) => Ok(Expr::Binary(*first, left, *operator, *place, right)),
                Err(error) => Err(error),
            }
        }
        Expr::Not(first, part) => {
            match boxed(alloc, lists::expr::get(part)) {
                Ok(part) => Ok(Expr::Not(*first, part)),
                Err(error) => Err(error),
            }
        }
        Expr::At(whole, bracket, index) => {
            match both(
                boxed(alloc, lists::expr::get(whole)),
                boxed(alloc, lists::expr::get(index)),
            ) {
                Ok((whole, index)) => Ok(Expr::At(whole, *bracket, index)),
                Err(error) => Err(error),
            }
        }
        Expr::Pick(first, test, left, right) => {
            let sides = both(
                boxed(alloc, lists::expr::get(left)),
                boxed(alloc, lists::expr::get(right)),
            );
            match both(boxed(alloc, lists::expr::get(test)), sides) {
                Ok((test, (left, right))) => Ok(Expr::Pick(*first, test, left, right)),
                Err(error) => Err(error),
            }
        }
        Expr::Resize(first, part, width) => {
            match boxed(alloc, lists::expr::get(part)) {
                Ok(part) => Ok(Expr::Resize(*first, part, *width)),
                Err(error) => Err(error),
            }
        }
        Expr::Fill(first, count, part) => {
            match boxed(alloc, lists::expr::get(part)) {
                Ok(part) => Ok(Expr::Fill(*first, *count, part)),
                Err(error) => Err(error),
            }
        }
        Expr::Row(first, parts) => {
            match expressions(alloc, lists::expr::as_slice(parts)) {
                Ok(parts) => Ok(Expr::Row(*first, parts)),
                Err(error) => Err(error),
            }
        }
        Expr::Quantified(first, quantifier, name, width, bound, test) => {
            match both(name.duplicate(alloc), boxed(alloc, lists::expr::get(test))) {
                Ok((name, test)) => Ok(Expr::Quantified(
                    *first,
                    *quantifier,
                    name,
                    *width,
                    *bound,
                    test,
                )),
                Err(error) => Err(error),
            }
        }
    }
}

/// A boxed copy of an expression.
#[cycle(expression)]
fn boxed(alloc: Global, e: &Expr) -> Result<Boxed<Expr>, NoMemory>
    ensures { IfOk result (λ copy. copy ≡ e.now) }
{
    match expression(alloc, e) {
        Ok(copy) => Ok(Boxed::new(alloc, copy)?),
        Err(error) => Err(error),
    }
}

/// Copies of expressions.
#[cycle(expression)]
fn expressions(alloc: Global, expressions: &[Expr]) -> Result<Items<Expr>, NoMemory>
    ensures { IfOk result (λ copies. copies ≡ expressions.now) }
{
    let mut copies = Items::new(alloc);
    for e in expressions {
        match added(copies, expression(alloc, e)) {
            Ok(more) => copies = more,
            Err(error) => return Err(error),
        }
    }
    Ok(copies)
}
