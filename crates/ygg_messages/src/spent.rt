//! What is said of a budget that was spent, and of a certificate that is too long.

use crate::words::word_at;
use std::alloc::{AllocError, Global};
use std::str;
use ygg_base::Text;

/// What may help.
const TRY: &str = "smaller tables, narrower words, or a layer in between";

/// The budget where none is given.
const USUAL_BUDGET: &str = "200000";

/// The budget that the words give.
fn budget_of(words: &[Text]) -> &str {
    if words.len() == 3 {
        word_at(words, 2)
    } else {
        USUAL_BUDGET
    }
}

/// What is said of the last of so many lines `spent NAME K`.
fn named(alloc: Global, words: &[Text], line: &str, spends: u64) -> Result<String, AllocError> {
    let command = word_at(words, 0);
    let file = word_at(words, 1);
    let mut parts = line.split_whitespace().skip(1);
    let name = parts.next().unwrap_or("");
    let count = parts.next().unwrap_or("");
    let others = spends.saturating_sub(1);
    let more = if others == 0 {
        format!(in alloc; "")?
    } else {
        format!(in alloc; " (and {others} more)")?
    };
    let of = if command == "decide" { name } else { "" };
    let blank = if command == "decide" { " " } else { "" };
    format!(in alloc;
        "ygg: gave up on {name}{more} after {count} learned clauses; nothing is known about it. Try: ygg {command} {file}{blank}{of} 10000000, {TRY}\n"
    )
}

/// What is said of a command whose budget was spent: by the last of its lines `spent ..`, of which there were so many.
pub fn spent_message(
    alloc: Global,
    words: &[Text],
    line: &[u8],
    spends: u64,
) -> Result<String, AllocError> {
    let command = word_at(words, 0);
    if spends > 0 {
        return named(alloc, words, str::from_utf8(line).unwrap_or(""), spends);
    }
    let budget = budget_of(words);
    if command == "solve" {
        let file = word_at(words, 1);
        return format!(in alloc;
            "ygg: gave up after {budget} learned clauses. Try: ygg solve {file} 10000000\n"
        );
    }
    format!(in alloc; "ygg: gave up after {budget} learned clauses\n")
}

/// As many bytes of a certificate as `check` and `run` take.
const MOST_BYTES: u64 = 67_108_864;

/// What is said of a certificate of so many bytes, where that is too many.
pub fn long_certificate(alloc: Global, bytes: u64) -> Result<String, AllocError> {
    if bytes <= MOST_BYTES {
        return format!(in alloc; "");
    }
    format!(in alloc;
        "ygg: this certificate has {bytes} bytes; check and run take at most {MOST_BYTES}. Try: fewer rows, a layer in between, a stronger relate\n"
    )
}
