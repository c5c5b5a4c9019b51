//! What a person is told when a command has ended.

use crate::fault::{call_fault, device_fault, output_fault};
use crate::heard::Heard;
use crate::refusal::{file_place, refusal_in, refusal_message};
use crate::spent::{long_certificate, spent_message};
use crate::words::{text_of, word_at};
use std::alloc::{AllocError, Global};
use std::io::Write;
use std::{fs, str};
use ygg_base::{Fetch, Library, Status, Text};
use ygg_outside::{FileDevice, FileLibrary, OutSink};

/// As many bytes of a file are read again at most.
const MOST_BYTES: u64 = 67_108_864;

/// What stands under a name, where that is a regular file, which can be read twice.
pub fn read_again(
    rt: &HostRuntime,
    name: Option<&Text>,
    library: &mut FileLibrary<'_>,
) -> Option<Text> {
    let name = name?;
    let path = str::from_utf8(name.as_slice()).ok()?;
    if !fs::metadata(rt, path).ok()?.is_file() {
        return None;
    }
    match library.fetch(name, MOST_BYTES) {
        Fetch::Found(text) => Some(text),
        _ => None,
    }
}

/// What is said of a refusal, by the last line that was put.
fn refused(
    rt: &HostRuntime,
    words: &[Text],
    last: &[u8],
    library: &mut FileLibrary<'_>,
) -> Result<String, AllocError> {
    let alloc = rt.alloc();
    let Some(refusal) = refusal_in(last) else {
        return format!(in alloc; "");
    };
    let text = if refusal.line == 0 && refusal.number != 74 {
        None
    } else {
        read_again(rt, words.get(file_place(words, refusal)), library)
    };
    refusal_message(
        alloc,
        words,
        refusal,
        text.as_ref().map(|text| text.as_slice()),
    )
}

/// The place among the words of the name of the image that a command is on.
fn image_place(words: &[Text]) -> usize {
    if word_at(words, 0) == "format" { 2 } else { 3 }
}

/// What is said of the calls on the system that failed.
fn failed<W: Write>(
    alloc: Global,
    words: &[Text],
    library: &FileLibrary<'_>,
    device: &FileDevice<'_>,
    sink: &OutSink<W>,
) -> Result<String, AllocError> {
    let mut out = format!(in alloc; "")?;
    if let Some(failure) = library.failed() {
        let name = text_of(library.asked());
        out.push_str(call_fault(alloc, name, failure)?.as_str())?;
    }
    if let Some(failure) = device.failed() {
        let name = word_at(words, image_place(words));
        out.push_str(device_fault(alloc, name, failure)?.as_str())?;
    }
    if let Some(cause) = sink.failed() {
        out.push_str(output_fault(alloc, cause)?.as_str())?;
    }
    Ok(out)
}

/// What a person is told beside what a command has put and its status.
fn message<W: Write>(
    rt: &HostRuntime,
    words: &[Text],
    status: Status,
    library: &mut FileLibrary<'_>,
    device: &FileDevice<'_>,
    heard: &Heard<OutSink<W>>,
) -> Result<String, AllocError> {
    let alloc = rt.alloc();
    match status {
        Status::Done if word_at(words, 0) == "certify" => long_certificate(alloc, heard.bytes()),
        Status::Refused => refused(rt, words, heard.last(), library),
        Status::Undecided => spent_message(alloc, words, heard.spent(), heard.spends()),
        Status::Fault => failed(alloc, words, library, device, heard.sink()),
        Status::NoMemory => format!(in alloc; "ygg: no memory was left\n"),
        Status::Refuted if heard.spends() > 0 => {
            spent_message(alloc, words, heard.spent(), heard.spends())
        }
        Status::Done | Status::Refuted => format!(in alloc; ""),
    }
}

/// Tells a person on standard error what a command's last line and its status don't say: what a refusal means and where it is, what may help where a budget was
/// spent, beside what fails too, and which call on the system failed. Standard error that fails, and want of memory, leave it unsaid.
pub fn tell<W: Write>(
    rt: &HostRuntime,
    words: &[Text],
    status: Status,
    library: &mut FileLibrary<'_>,
    device: &FileDevice<'_>,
    heard: &Heard<OutSink<W>>,
) {
    if let Ok(text) = message(rt, words, status, library, device, heard) {
        let _ = eprint!(rt; "{text}");
    }
}
