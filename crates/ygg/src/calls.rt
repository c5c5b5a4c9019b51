//! What is said of a stop that isn't reached: `play` is run once more, in memory, up to the line below which it stands.

use ygg_base::{Files, Held, NoMemory, Numbers, Shelf, Status, Text, TextSink};
use ygg_messages::{calls_message, read_again, script_before, unreached};
use ygg_outside::{FileDevice, FileLibrary};
use ygg_rules::RuleBook;
use ygg_top::ygg;

/// As many bytes of what `play` prints are looked at, at most.
const ROOM: usize = 4_194_304;

/// A file in memory.
fn held(rt: &HostRuntime, name: &[u8], bytes: Text) -> Result<Held, NoMemory> {
    let name = Text::from_slice(rt.alloc(), name)?;
    Ok(Held { name, bytes })
}

/// The layer file, and the script up to a line of it, where both can be read again.
fn files_before(
    rt: &HostRuntime,
    words: &[Text],
    line: u32,
    library: &mut FileLibrary<'_>,
) -> Result<Option<Files>, NoMemory> {
    let Some(file) = read_again(rt, words.get(1), library) else {
        return Ok(None);
    };
    let Some(script) = read_again(rt, words.get(2), library) else {
        return Ok(None);
    };
    let before = script_before(rt.alloc(), script.as_slice(), line)?;
    let mut files = Files::new(rt.alloc());
    let file = held(rt, b"file", file)?;
    files.push(file)?;
    let script = held(rt, b"script", Text::from_vec(before))?;
    files.push(script)?;
    Ok(Some(files))
}

/// The words of the command that plays them.
fn words_of_play(rt: &HostRuntime) -> Result<Vec<Text>, NoMemory> {
    let mut words = Vec::new(rt.alloc());
    for word in ["play", "file", "script"] {
        let text = Text::from_slice(rt.alloc(), word.as_bytes())?;
        words.push(text)?;
    }
    Ok(words)
}

/// What is said of the calls of the last line of these files' script.
fn calls_of(rt: &HostRuntime, rules: &RuleBook, files: Files) -> Result<String, NoMemory> {
    let alloc = rt.alloc();
    let words = words_of_play(rt)?;
    let mut shelf = Shelf::new(alloc, files, Numbers::new(alloc));
    let mut device = FileDevice::new(rt);
    let mut sink = TextSink::new(alloc, ROOM, Numbers::new(alloc))?;
    let status = ygg(
        alloc,
        words.as_slice(),
        rules,
        &mut shelf,
        &mut device,
        &mut sink,
    );
    match status {
        Status::Done => Ok(calls_message(alloc, sink.bytes())?),
        _ => Ok(format!(in alloc; "")?),
    }
}

/// What is said of the stop that isn't reached at a line of a script.
fn message(
    rt: &HostRuntime,
    words: &[Text],
    line: u32,
    rules: &RuleBook,
    library: &mut FileLibrary<'_>,
) -> Result<String, NoMemory> {
    let files = files_before(rt, words, line, library)?;
    match files {
        Some(files) => calls_of(rt, rules, files),
        None => Ok(format!(in rt.alloc(); "")?),
    }
}

/// Tells a person on standard error, where `play` has refused a stop that isn't reached by the last line that was put, which calls were made.
pub fn tell_calls(
    rt: &HostRuntime,
    words: &[Text],
    last: &[u8],
    rules: &RuleBook,
    library: &mut FileLibrary<'_>,
) {
    let Some(line) = unreached(words, last) else {
        return;
    };
    if let Ok(text) = message(rt, words, line, rules, library) {
        let _ = eprint!(rt; "{text}");
    }
}
