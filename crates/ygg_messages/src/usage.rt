//! The commands, and what a word may have meant.

use std::alloc::{AllocError, Global};
use strsim::osa_distance;

/// How each command is called.
const CALLS: [(&str, &str); 15] = [
    (
        "verify",
        "ygg verify FILE [BUDGET]        does FILE survive power failure?",
    ),
    (
        "replay",
        "ygg replay FILE SCHEDULE        does this schedule show that it doesn't?",
    ),
    (
        "explain",
        "ygg explain FILE SCHEDULE       which parts of which line are false there?",
    ),
    (
        "play",
        "ygg play FILE SCRIPT            run it on a disk in memory",
    ),
    (
        "certify",
        "ygg certify FILE [BUDGET]       print a certificate of a verified file",
    ),
    (
        "check",
        "ygg check FILE CERT             check a certificate",
    ),
    (
        "format",
        "ygg format FILE IMAGE           make an image of its disk",
    ),
    ("run", "ygg run FILE CERT IMAGE SCRIPT  run it on the image"),
    (
        "print",
        "ygg print FILE                  print FILE in its canonical text",
    ),
    ("solve", "ygg solve CNF [BUDGET]          solve clauses"),
    (
        "cnf",
        "ygg cnf FILE OBLIGATION         print the clauses of an obligation",
    ),
    (
        "decide",
        "ygg decide FILE OBLIGATION [BUDGET]  decide one obligation",
    ),
    (
        "demo",
        "ygg demo N                      verify a made file of N operations",
    ),
    ("--help", "ygg --help"),
    ("--version", "ygg --version"),
];

/// As many of these are shown where no command is named.
const OFTEN: usize = 8;

/// What is said of the others.
const OTHERS: &str =
    "  ygg --help                      all commands, what they print, and what each number means\n";

/// How a command is called; no text where there is none of that name.
pub fn call_of(command: &str) -> &'static str {
    for (name, call) in &CALLS {
        if *name == command {
            return *call;
        }
    }
    ""
}

/// The command that a word is nearest to, at most two slips away; no text where there is none.
fn nearest(alloc: Global, word: &str) -> Result<&'static str, AllocError> {
    let mut best = CALLS.len();
    let mut least = 3usize;
    for (place, (name, _)) in CALLS.iter().enumerate() {
        let slips = osa_distance(alloc, word, name)?;
        if slips < least {
            least = slips;
            best = place;
        }
    }
    match CALLS.get(best) {
        Some((name, _)) => Ok(*name),
        None => Ok(""),
    }
}

/// How all commands are called.
fn usage(alloc: Global) -> Result<String, AllocError> {
    let mut out = format!(in alloc; "usage:\n")?;
    for (_, call) in CALLS.iter().take(OFTEN) {
        out.push_str("  ")?;
        out.push_str(call)?;
        out.push('\n')?;
    }
    out.push_str(OTHERS)?;
    Ok(out)
}

/// Whether a word asks for help.
pub fn asks_help(word: &str) -> bool {
    word == "help" || word == "-h" || word == "--help" || word == "-help" || word == "-?"
}

/// What is said to words that are no command.
pub fn no_command(alloc: Global, command: &str) -> Result<String, AllocError> {
    if command.is_empty() || asks_help(command) {
        return usage(alloc);
    }
    if command == "-V" || command == "version" {
        return format!(in alloc; "did you mean --version?\n");
    }
    let call = call_of(command);
    if !call.is_empty() {
        return format!(in alloc; "ygg: {command} takes other words\nusage: {call}\n");
    }
    let near = nearest(alloc, command)?;
    if near.is_empty() {
        let usage = usage(alloc)?;
        return format!(in alloc; "ygg: \"{command}\" is no command\n{usage}");
    }
    format!(in alloc; "ygg: \"{command}\" is no command; did you mean {near}?\n")
}
