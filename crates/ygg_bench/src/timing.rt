//! How long something took.

use std::fmt::Display;
use std::io;
use std::time::Instant;

/// Prints what was found, and to standard error how many nanoseconds it took since the start.
pub fn report<T: Display>(rt: &HostRuntime, start: Instant, found: &T) -> io::Result<()> {
    let time = start.elapsed(rt)?;
    println!(rt; "{found}")?;
    eprintln!(rt; "{} ns", time.as_nanos())
}

/// Prints so how many terms there are.
pub fn report_terms(rt: &HostRuntime, start: Instant, count: usize) -> io::Result<()> {
    report(rt, start, &format_args!("{count} terms"))
}
