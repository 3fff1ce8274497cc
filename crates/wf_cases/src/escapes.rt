//! Bytes as a line of a case can have them: `\n`, `\r`, `\t`, `\s` for a space at either end, and `\xHH` for any byte.

use crate::hex::digit;
use std::alloc::{AllocError, Global};

/// What a letter behind a backslash stands for, with the two bytes behind it, and how many of the three count.
fn escaped(letter: u8, high: u8, low: u8) -> (u8, usize) {
    match letter {
        b'n' => (b'\n', 1),
        b'r' => (b'\r', 1),
        b't' => (b'\t', 1),
        b's' => (b' ', 1),
        b'x' => (digit(high).wrapping_mul(16).wrapping_add(digit(low)), 3),
        _ => (letter, 1),
    }
}

/// Returns the bytes that a text stands for.
pub fn bytes_of(alloc: Global, text: &str) -> Result<Vec<u8>, AllocError> {
    let mut bytes = Vec::new(alloc);
    let mut skipped = 0usize;
    let text = text.as_bytes();
    for (place, byte) in text.iter().enumerate() {
        if skipped > 0 {
            skipped = skipped.saturating_sub(1);
            continue;
        }
        let at = |behind: usize| text.get(place.saturating_add(behind)).copied().unwrap_or(0);
        if *byte == b'\\' {
            let (byte, count) = escaped(at(1), at(2), at(3));
            bytes.push(byte)?;
            skipped = count;
        } else {
            bytes.push(*byte)?;
        }
    }
    Ok(bytes)
}
