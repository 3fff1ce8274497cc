//! The calls on the reader of films.

ghost use Rattle.std.specs.Prelude.{◌<◌};

use std::alloc::{AllocError, Global};
use wf_cases::{number, word};
use wf_film::{Film, FilmForm, FilmStop, read};

/// Bytes that are put together, and read.
#[derive(Drop)]
pub(crate) struct Reading {
    held: Vec<u8>,
}

/// The value of a hexadecimal digit, or 0.
fn digit(byte: u8) -> u8
    ensures { result < 16 }
{
    match byte {
        b'0'..=b'9' => byte - b'0',
        b'a'..=b'f' => byte - b'a' + 10,
        _ => 0,
    }
}

/// The bytes that a text has in hexadecimal.
fn bytes_in(alloc: Global, text: &str) -> Result<Vec<u8>, AllocError> {
    let mut bytes = Vec::new(alloc);
    for pair in text.as_bytes().chunks_exact(2) {
        bytes.push(16 * digit(pair[0]) + digit(pair[1]))?;
    }
    Ok(bytes)
}

/// The form, and how many frames and entries there are.
fn told_film(alloc: Global, film: &Film) -> Result<String, AllocError> {
    let form = match film.form() {
        FilmForm::One => 1,
        FilmForm::Two => 2,
    };
    let (frames, entries) = (film.frames(), film.order().turns().len());
    format!(in alloc; "form {form}, frames {frames}, entries {entries}")
}

/// What reading the bytes answers.
pub(crate) fn told(alloc: Global, bytes: &[u8]) -> Result<String, AllocError> {
    match read(alloc, bytes) {
        Ok(film) => told_film(alloc, &film),
        Err(FilmStop::Fault { at, rule }) => format!(in alloc; "bad at {at} by rule {rule}"),
        Err(FilmStop::NoMemory) => Err(AllocError),
    }
}

/// Whether bytes are refused because they end.
fn ends_early(alloc: Global, bytes: &[u8]) -> bool {
    match read(alloc, bytes) {
        Err(FilmStop::Fault { at, rule }) => at == bytes.len() as u64 && rule == 3,
        _ => false,
    }
}

impl Reading {
    pub(crate) fn opened(alloc: Global) -> Reading {
        Reading {
            held: Vec::new(alloc),
        }
    }

    pub(crate) fn answer(&mut self, alloc: Global, words: &[&str]) -> Result<String, AllocError> {
        match word(words, 0) {
            "put" => {
                let bytes = bytes_in(alloc, word(words, 1))?;
                self.held.extend_from_slice(&bytes)?;
                format!(in alloc; "{} bytes", self.held.len())
            }
            "read" => told(alloc, &self.held),
            "entry" => self.entry(alloc, number(words, 1)),
            "cut" => self.cut(alloc, number(words, 1)),
            "cuts" => self.cuts(alloc),
            _ => {
                let bytes = bytes_in(alloc, word(words, 2))?;
                self.with(alloc, number(words, 1), &bytes)
            }
        }
    }

    /// Tells an entry of the film, counted from 0.
    fn entry(&self, alloc: Global, place: usize) -> Result<String, AllocError> {
        let Ok(film) = read(alloc, &self.held) else {
            return format!(in alloc; "no film");
        };
        match film.order().turns().get(place) {
            Some(turn) => format!(in alloc; "{} {} {}", turn.client, turn.code, turn.value),
            None => format!(in alloc; "none"),
        }
    }

    /// Reads so many bytes.
    fn cut(&self, alloc: Global, count: usize) -> Result<String, AllocError> {
        let held = self.held.as_slice();
        told(alloc, &held[..count.min(held.len())])
    }

    /// Reads every front that is shorter, and tells how many of them are refused because they end.
    fn cuts(&self, alloc: Global) -> Result<String, AllocError> {
        let held = self.held.as_slice();
        let count = held.len();
        let early = (0..count)
            .filter(|n| ends_early(alloc, &held[..(*n).min(held.len())]))
            .count();
        format!(in alloc; "{early} of {count}")
    }

    /// Reads what is held with other bytes from a place on.
    fn with(&self, alloc: Global, at: usize, bytes: &[u8]) -> Result<String, AllocError> {
        let held = self.held.as_slice();
        let mut changed = Vec::from_slice(alloc, &held[..at.min(held.len())])?;
        changed.extend_from_slice(bytes)?;
        if let Some(behind) = held.get(at.saturating_add(bytes.len())..) {
            changed.extend_from_slice(behind)?;
        }
        told(alloc, &changed)
    }
}
