//! Where the inputs of a layer's obligations begin.

ghost use Rattle.std.specs.Prelude.{◌≡◌, All, IfOk};
ghost use Rattle.ygg_oblige_list.specs.Listing.{asked_in};
ghost use Rattle.ygg_oblige.specs.Adding.{after_at};
ghost use Rattle.ygg_oblige_reading.specs.Listing.{ArgumentsKept};

use ygg_list::NoMemory;
use ygg_oblige::{Maker, numbers_of};
use ygg_oblige_list::Asked;
use ygg_rules::Book;

/// The number after the inputs of obligations of a layer, which are numbered on from a number. Its only error is out of memory.
pub fn number_after<'a, B: Book>(
    maker: &Maker<'a, B>,
    asked: &[Asked<'a>],
    first: u64,
) -> Result<u64, NoMemory>
    requires { All ArgumentsKept (asked_in asked.now) }
    ensures { IfOk result (λ n. n ≡ after_at (B.kinds maker.now.book.now) maker.now.layer maker.now.below (asked_in asked.now) first) }
{
    let mut next = first;
    for each in asked {
        let numbers = numbers_of(maker, each.obligation, next)?;
        next = numbers.next;
    }
    Ok(next)
}
