//! Environments: what each input is.

ghost use Rattle.std.specs.Prelude.{◌≡◌, ℕ, nat_eq, IfOk, OnOk};
ghost use Rattle.indexmap.specs.IndexMap.{get};
ghost use Rattle.ygg_bank.specs.Values.{also_given, given_for};

use indexmap::IndexMap;
use std::alloc::Global;
use ygg_list::{Duplicate, NoMemory, Sequence};
use ygg_value::Word;

/// What an environment gives for a number.
#[derive(Clone, Copy, Drop)]
pub enum Given {
    /// The word of the input with this number.
    Word { number: u64, word: Word },
}

/// What is given for inputs. Of more items with one number the first counts, and a number that no item has gets 0.
pub type Env = Sequence<Given>;

/// Words in order.
pub type Words = Sequence<Word>;

/// What an environment gives for a number, where it gives anything.
pub fn given_for(env: &Env, number: u64) -> Option<Word>
    ensures { result ≡ given_for env.now number }
{
    for given in env.as_slice() {
        let Given::Word {
            number: other,
            word,
        } = given;
        if *other == number {
            return Some(*word);
        }
    }
    None
}

/// The words that an environment gives, by number, so that looking one up doesn't go by how many there are. Its only error is out of memory.
pub fn words_by_number(alloc: Global, env: &Env) -> Result<IndexMap<u64, Word>, NoMemory>
    ensures { IfOk result (λ words. get nat_eq words ≡ given_for env.now) }
{
    let mut words = IndexMap::new(alloc);
    for given in env.as_slice() {
        give(&mut words, *given)?;
    }
    Ok(words)
}

/// Gives the word of one more item, where none is given for its number. Its only error is out of memory.
fn give(words: &mut IndexMap<u64, Word>, given: Given) -> Result<(), NoMemory>
    ensures { OnOk result ((number : ℕ) → get nat_eq words.new number ≡ also_given (get nat_eq words.old number) given number) }
{
    let Given::Word { number, word } = given;
    if !words.contains_key(&number) {
        words.insert(number, word)?;
    }
    Ok(())
}

impl Duplicate for Given {
    fn duplicate(&self, _alloc: Global) -> Result<Given, NoMemory> {
        let Given::Word { number, word } = self;
        Ok(Given::Word {
            number: *number,
            word: *word,
        })
    }
}
