ghost use Rattle.std.specs.Prelude.{◌≡◌, ◌≤◌, ◌<◌, ◌+◌, ◌-◌, ◌^◌};
ghost use Rattle.ygg_print.specs.Layout as spec;

use ygg_base::{Keyword, Mark, Symbol};

/// Whether a line goes on with the mark after a `}`.
fn continues(mark: &Mark) -> bool
    ensures { result ≡ spec.continues mark.now }
{
    matches!(
        mark,
        Mark::Keyword(Keyword::Impl | Keyword::Else | Keyword::On)
    )
}

/// Whether a line ends after the mark, where others follow.
pub fn ends_line(this: &Mark, others: &[Mark]) -> bool
    ensures { result ≡ spec.ends_line this.now others.now }
{
    match this {
        Mark::Symbol(Symbol::Semicolon | Symbol::BraceOpen) => true,
        Mark::Symbol(Symbol::BraceClose) => !others.first().is_some_and(continues),
        _ => false,
    }
}

/// How many braces are open where the mark stands, of so many that were before it.
pub fn depth_at(depth: usize, this: &Mark) -> usize
    ensures value { result ≡ spec.depth_at depth this.now }
    ensures bound { result ≤ depth }
{
    match this {
        Mark::Symbol(Symbol::BraceClose) => depth.saturating_sub(1),
        _ => depth,
    }
}

/// How many braces are open after the mark.
pub fn depth_after(depth: usize, this: &Mark) -> usize
    requires { depth < 2 ^ 64 - 1 }
    ensures value { result ≡ spec.depth_after depth this.now }
    ensures bound { result ≤ depth + 1 }
{
    match this {
        Mark::Symbol(Symbol::BraceOpen) => depth + 1,
        _ => depth_at(depth, this),
    }
}

/// Whether no space stands after the mark.
fn joins_next(this: &Mark) -> bool
    ensures { result ≡ spec.joins_next this.now }
{
    matches!(
        this,
        Mark::Symbol(Symbol::RoundOpen | Symbol::SquareOpen | Symbol::Dot | Symbol::Tilde)
    )
}

/// Whether no space stands before the mark.
fn joins_previous(this: &Mark) -> bool
    ensures { result ≡ spec.joins_previous this.now }
{
    matches!(
        this,
        Mark::Symbol(
            Symbol::RoundClose
                | Symbol::SquareClose
                | Symbol::SquareOpen
                | Symbol::Semicolon
                | Symbol::Comma
                | Symbol::Dot
        )
    )
}

/// Whether the mark takes what stands in `(` and `)` after it.
fn takes_arguments(this: &Mark) -> bool
    ensures { result ≡ spec.takes_arguments this.now }
{
    match this {
        Mark::Name(_) => true,
        Mark::Keyword(keyword) => matches!(
            keyword,
            Keyword::Pick
                | Keyword::Resize
                | Keyword::Fill
                | Keyword::Row
                | Keyword::All
                | Keyword::Any
        ),
        _ => false,
    }
}

/// Whether the two marks are one that takes arguments and its `(`.
fn begins_arguments(previous: &Mark, this: &Mark) -> bool
    ensures { result ≡ spec.begins_arguments previous.now this.now }
{
    takes_arguments(previous) && matches!(this, Mark::Symbol(Symbol::RoundOpen))
}

/// Whether the mark is a number.
fn is_number(this: &Mark) -> bool
    ensures { result ≡ spec.is_number this.now }
{
    matches!(this, Mark::Num(_))
}

/// Whether the mark is a `:`.
fn is_colon(this: &Mark) -> bool
    ensures { result ≡ spec.is_colon this.now }
{
    matches!(this, Mark::Symbol(Symbol::Colon))
}

/// Whether one of the two marks is a `:` that a number follows, and stands beside the other.
fn joins_number(previous: &Mark, this: &Mark, others: &[Mark]) -> bool
    ensures { result ≡ spec.joins_number previous.now this.now others.now }
{
    is_colon(previous) && is_number(this) || is_colon(this) && others.first().is_some_and(is_number)
}

/// Whether no space stands between the two marks of a line, where others follow.
pub fn is_joined(previous: &Mark, this: &Mark, others: &[Mark]) -> bool
    ensures { result ≡ spec.is_joined previous.now this.now others.now }
{
    joins_next(previous)
        || joins_previous(this)
        || begins_arguments(previous, this)
        || joins_number(previous, this, others)
}
