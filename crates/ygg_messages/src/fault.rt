//! What is said of a call on the system that failed.

use std::alloc::{AllocError, Global};
use std::io::ErrorKind;
use ygg_outside::{Call, Cause, Failure};

/// What couldn't be done.
fn undone(call: Call) -> &'static str {
    match call {
        Call::Open => "cannot be opened",
        Call::Create => "cannot be made",
        Call::Lock => "cannot be locked",
        Call::Read => "cannot be read",
        Call::Write => "cannot be written",
        Call::Flush => "cannot be flushed",
    }
}

/// What is said of a call that failed on what stands under a name.
pub fn call_fault(alloc: Global, name: &str, failure: Failure) -> Result<String, AllocError> {
    let undone = undone(failure.call);
    match failure.cause {
        Cause::System(error) => format!(in alloc; "ygg: \"{name}\" {undone}: {error}\n"),
        Cause::Short => format!(in alloc; "ygg: \"{name}\" {undone}: it ends too early\n"),
        Cause::Endless => format!(in alloc;
            "ygg: \"{name}\" {undone}: it gives more bytes than it may\n"
        ),
        Cause::NoFile => format!(in alloc; "ygg: \"{name}\" is no regular file\n"),
        Cause::NoImage => {
            format!(in alloc;
                "ygg: \"{name}\" exists and is no image, so nothing was written; remove it, or use: ygg -f format FILE IMAGE\n"
            )
        }
        Cause::LooseLink => {
            format!(in alloc;
                "ygg: \"{name}\" is a link that leads to nothing, so nothing was written; remove it, or use: ygg -f format FILE IMAGE\n"
            )
        }
        Cause::InUse => format!(in alloc; "ygg: \"{name}\" is in use\n"),
    }
}

/// What is said of a call on an image that failed. Where it was a flush, the system may take what it has in its cache for written, and say so at the next
/// flush.
pub fn device_fault(alloc: Global, name: &str, failure: Failure) -> Result<String, AllocError> {
    let mut out = call_fault(alloc, name, failure)?;
    if failure.call == Call::Flush {
        out.push_str(
            "ygg: don't run this image again before the system's cache is dropped (a restart drops it): it may hold what the disk doesn't\n",
        )?;
    }
    Ok(out)
}

/// What is said of standard output that failed. Of a reader that has gone away nothing is.
pub fn output_fault(alloc: Global, cause: Cause) -> Result<String, AllocError> {
    match cause {
        Cause::System(error) if error.kind() == ErrorKind::BrokenPipe => format!(in alloc; ""),
        Cause::System(error) => format!(in alloc;
            "ygg: standard output cannot be written: {error}\n"
        ),
        _ => format!(in alloc; "ygg: standard output cannot be written\n"),
    }
}
