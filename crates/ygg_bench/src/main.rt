//! One program for what bench/ and tests/run ask of a bank and of the checker of chains alone: a word says what is done.
//!
//! `bank` asks a bank for terms, as often as the number before it says, and `merges` merges a word with itself so often. `check` judges the derivation that
//! standard input has. How long they took goes to standard error.
#![tactic(auto)]

mod bank;
mod check;
mod input;
mod merges;
mod timing;

use std::env;

fn main(rt: HostRuntime) -> anyhow::Result<()> {
    let mut number: u64 = 0;
    for word in env::args(&rt)? {
        take(&rt, &mut number, word)?;
    }
    Ok(())
}

/// Takes one word.
fn take(rt: &HostRuntime, number: &mut u64, word: String) -> anyhow::Result<()> {
    obey(rt, number, word.as_str())
}

/// Does what a word says, or notes the number that it is. Another one is passed over.
fn obey(rt: &HostRuntime, number: &mut u64, word: &str) -> anyhow::Result<()> {
    match word {
        "bank" => bank::measure(rt, *number),
        "check" => check::measure(rt),
        "merges" => merges::measure(rt, *number),
        _ => {
            if let Ok(found) = word.parse::<u64>() {
                *number = found;
            }
            Ok(())
        }
    }
}
