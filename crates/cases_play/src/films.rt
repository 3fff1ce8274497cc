//! The frames of a film, and what is said of them and of the film.

use std::alloc::{AllocError, Global};
use wf_cases::{number, told_bytes, word};

/// A frame: the width in pixels, and the pixels.
#[derive(Clone, Copy)]
pub(crate) struct Frame<'a> {
    width: usize,
    pixels: &'a [u8],
}

/// The number that stands in so many bytes from a place on, the highest byte first.
fn be_number(bytes: &[u8], from: usize, count: usize) -> usize {
    let mut sum = 0usize;
    for byte in bytes.iter().skip(from).take(count) {
        sum = sum.wrapping_mul(256).wrapping_add(usize::from(*byte));
    }
    sum
}

/// Part of some bytes, or none where it is not all there.
fn part(bytes: &[u8], from: usize, count: usize) -> &[u8] {
    bytes
        .get(from..)
        .and_then(|rest| rest.get(..count))
        .unwrap_or(&[])
}

/// How many bytes of a frame stand before its pixels, in form 2.
const HEAD: usize = 14;

/// The frame of a port at a tick, if the film of form 2 has one.
pub(crate) fn frame_of(film: &[u8], tick: usize, port: usize) -> Option<Frame<'_>> {
    let mut rest = part(film, 4, film.len().saturating_sub(4));
    for _ in 0..film.len() {
        if rest.first() != Some(&b'F') {
            return None;
        }
        let width = be_number(rest, 10, 2);
        let count = width.wrapping_mul(be_number(rest, 12, 2)).wrapping_mul(4);
        if be_number(rest, 1, 1) == port && be_number(rest, 2, 4) == tick {
            let pixels = part(rest, HEAD, count);
            return Some(Frame { width, pixels });
        }
        let whole = count.wrapping_add(HEAD);
        rest = part(rest, whole, rest.len().saturating_sub(whole));
    }
    None
}

/// The sum of bytes.
fn sum(bytes: &[u8]) -> u64 {
    bytes
        .iter()
        .fold(0u64, |sum, byte| sum.wrapping_add(u64::from(*byte)))
}

/// The colour that all pixels have, or `several`.
fn told_all(alloc: Global, frame: Frame<'_>) -> Result<String, AllocError> {
    let first = part(frame.pixels, 0, 4);
    if frame.pixels.chunks(4).all(|pixel| pixel == first) {
        told_bytes(alloc, first)
    } else {
        format!(in alloc; "several")
    }
}

/// What a frame shows: `all` one colour, the colour of the `pixel X Y`, the bytes of the `row Y`, or the `sum` of all bytes.
pub(crate) fn told_frame(
    alloc: Global,
    frame: Frame<'_>,
    words: &[&str],
) -> Result<String, AllocError> {
    let (first, second): (usize, usize) = (number(words, 1), number(words, 2));
    let row = frame.width.wrapping_mul(4);
    match word(words, 0) {
        "all" => told_all(alloc, frame),
        "pixel" => {
            let place = second.wrapping_mul(row).wrapping_add(first.wrapping_mul(4));
            told_bytes(alloc, part(frame.pixels, place, 4))
        }
        "row" => told_bytes(alloc, part(frame.pixels, first.wrapping_mul(row), row)),
        "sum" => format!(in alloc; "{}", sum(frame.pixels)),
        _ => format!(in alloc; "?"),
    }
}

/// Bytes in hexadecimal.
fn told_hex(alloc: Global, bytes: &[u8]) -> Result<String, AllocError> {
    let mut told = String::new(alloc);
    for byte in bytes {
        let pair = format!(in alloc; "{byte:02x}")?;
        told.push_str(&pair)?;
    }
    Ok(told)
}

/// How many `events` and `bytes` a film has, the `sum` of its bytes, or all of them in `hex`.
pub(crate) fn told_film(
    alloc: Global,
    film: &[u8],
    events: usize,
    what: &str,
) -> Result<String, AllocError> {
    match what {
        "events" => format!(in alloc; "{events}"),
        "bytes" => format!(in alloc; "{}", film.len()),
        "sum" => format!(in alloc; "{}", sum(film)),
        "hex" => told_hex(alloc, film),
        _ => format!(in alloc; "?"),
    }
}
