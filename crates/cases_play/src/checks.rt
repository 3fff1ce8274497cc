//! What a check finds of a film that is changed, and its log.

ghost use Rattle.std.specs.Prelude.{◌<◌};

use crate::plays::{check_film, log_film};
use std::alloc::{AllocError, Global};
use std::io;
use std::sync::Wait;
use std::thread::Threads;
use wf_cases::word;

/// The value of a hexadecimal digit, or 0.
fn digit(byte: u8) -> u8
    ensures { result < 16 }
{
    match byte {
        b'0'..=b'9' => byte - b'0',
        b'a'..=b'f' => byte - b'a' + 10,
        _ => 0,
    }
}

/// The bytes that a text has in hexadecimal.
fn bytes_in(alloc: Global, text: &str) -> Result<Vec<u8>, AllocError> {
    let mut bytes = Vec::new(alloc);
    for pair in text.as_bytes().chunks_exact(2) {
        bytes.push(16 * digit(pair[0]) + digit(pair[1]))?;
    }
    Ok(bytes)
}

/// Bytes with a change at a place: `put` writes others over them, `cut` takes so many out, and `add` puts others between them.
fn changed(
    alloc: Global,
    bytes: &[u8],
    how: &str,
    at: usize,
    what: &str,
) -> Result<Vec<u8>, AllocError> {
    let new = match how {
        "cut" => Vec::new(alloc),
        _ => bytes_in(alloc, what)?,
    };
    let gone = match how {
        "cut" => what.parse::<usize>().unwrap_or(0),
        "put" => new.len(),
        _ => 0,
    };
    let mut changed = Vec::from_slice(alloc, bytes.get(..at).unwrap_or(bytes))?;
    changed.extend_from_slice(&new)?;
    if let Some(behind) = bytes.get(at.saturating_add(gone)..) {
        changed.extend_from_slice(behind)?;
    }
    Ok(changed)
}

/// A film changed by the words, of which each change has three.
fn changed_by(alloc: Global, film: &[u8], words: &[&str]) -> Result<Vec<u8>, AllocError> {
    let mut bytes = Vec::from_slice(alloc, film)?;
    for change in words.chunks(3) {
        let at = word(change, 1).parse::<usize>().unwrap_or(0);
        bytes = changed(alloc, &bytes, word(change, 0), at, word(change, 2))?;
    }
    Ok(bytes)
}

/// What a check finds of the film of a script, changed by the words.
pub(crate) fn told_check<R: Threads + Wait + Sync + AllocGlobal>(
    rt: &R,
    text: &str,
    film: &[u8],
    words: &[&str],
) -> io::Result<String> {
    check_film(rt, text, &changed_by(rt.alloc(), film, words)?)
}

/// The log of the film of a script, changed by the words after the first one, which is the depth of the queue.
pub(crate) fn told_log<R: Threads + Wait + Sync + AllocGlobal>(
    rt: &R,
    text: &str,
    film: &[u8],
    words: &[&str],
) -> io::Result<String> {
    let (depth, changes) = words.split_first().unwrap_or((&"", &[]));
    log_film(rt, text, &changed_by(rt.alloc(), film, changes)?, depth)
}
