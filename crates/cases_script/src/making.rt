//! The calls on the script of the generator.

ghost use Rattle.std.specs.Prelude.{◌≤◌};

use crate::printing::{ROOM, printed, told};
use std::alloc::{AllocError, Global};
use wf_io::MemorySink;
use wf_script::{Script, make, parse, print};

/// The number of a call's word, from 1 to 1000.
fn rounds_of(text: &str) -> u32
    ensures some { 1 ≤ result }
    ensures most { result ≤ 1000 }
{
    text.parse::<u32>().unwrap_or(1).clamp(1, 1000)
}

/// The script of so many rounds.
fn script_of(alloc: Global, text: &str) -> Result<Script, AllocError> {
    make(alloc, rounds_of(text)).map_err(|_| AllocError)
}

/// What is printed of a script, or nothing where it is too long.
fn bytes_of(alloc: Global, script: &Script) -> Result<Vec<u8>, AllocError> {
    let Ok(mut sink) = MemorySink::new(alloc, ROOM, Vec::new(alloc)) else {
        return Err(AllocError);
    };
    if print(script, &mut sink).is_err() {
        return Ok(Vec::new(alloc));
    }
    Vec::from_slice(alloc, sink.bytes())
}

/// The canonical text of the script of so many rounds, `made ROUNDS`.
pub(crate) fn made(alloc: Global, text: &str) -> Result<String, AllocError> {
    let script = script_of(alloc, text)?;
    printed(alloc, &script)
}

/// One line of that text, counted from 1, `made_line ROUNDS LINE`.
pub(crate) fn made_line(alloc: Global, text: &str) -> Result<String, AllocError> {
    let (rounds, line) = text.split_once(' ').unwrap_or((text, ""));
    let line = line.parse::<usize>().unwrap_or(1);
    let script = script_of(alloc, rounds)?;
    let bytes = bytes_of(alloc, &script)?;
    match bytes
        .split(|byte| *byte == b'\n')
        .nth(line.saturating_sub(1))
    {
        Some(line) => told(alloc, line),
        None => format!(in alloc; "no such line"),
    }
}

/// Reads what is printed of the script of so many rounds, `made_again ROUNDS`, and prints that once more.
pub(crate) fn made_again(alloc: Global, text: &str) -> Result<String, AllocError> {
    let script = script_of(alloc, text)?;
    let bytes = bytes_of(alloc, &script)?;
    match parse(alloc, &bytes) {
        Ok(again) => {
            let same = bytes_of(alloc, &again)?.as_slice() == bytes.as_slice();
            let lines = (script.lines().len(), again.lines().len());
            format!(in alloc;
                "{} lines made, {} read, the same text: {same}",
                lines.0, lines.1
            )
        }
        Err(_) => format!(in alloc; "no script"),
    }
}
