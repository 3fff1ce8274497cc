//! Colours, sizes and formats, as words of a call.

ghost use Rattle.std.specs.Prelude.{IfSome, IsTrue};
ghost use Rattle.wf_pixel.specs.Choice.{has_sides};

use crate::words::{number, word};
use std::alloc::{AllocError, Global};
use wf_pixel::{Format, MOST_SIDE, Rect, Rgba, Rotation, Size, Transparency};

/// Reads a colour from the four words at `at` and after it.
pub fn color(words: &[&str], at: usize) -> Rgba {
    let at = at.min(10_000);
    Rgba {
        r: number(words, at),
        g: number(words, at + 1),
        b: number(words, at + 2),
        a: number(words, at + 3),
    }
}

/// Reads a rectangle from four words: x, y, width and height.
pub fn rect(words: &[&str], at: usize) -> Rect {
    let at = at.min(10_000);
    Rect {
        x: number(words, at),
        y: number(words, at + 1),
        w: number(words, at + 2),
        h: number(words, at + 3),
    }
}

/// Reads a size from two words, or returns `None` where a side is not from 1 to `MOST_SIDE`.
pub fn size(words: &[&str], at: usize) -> Option<Size>
    ensures { IfSome result (λ size. IsTrue (has_sides size)) }
{
    let at = at.min(10_000);
    let (w, h) = (number::<u32>(words, at), number::<u32>(words, at + 1));
    if 1 <= w && w <= MOST_SIDE && 1 <= h && h <= MOST_SIDE {
        Some(Size { w, h })
    } else {
        None
    }
}

/// Reads a format from a word as scripts have it.
pub fn format(words: &[&str], at: usize) -> Format {
    match word(words, at) {
        "rgba" => Format::Rgba8,
        "pre" => Format::Rgba8Pre,
        "rgbx" => Format::Rgbx8,
        _ => Format::A8,
    }
}

/// Reads a turn from its degrees.
pub fn turn(words: &[&str], at: usize) -> Rotation {
    match word(words, at) {
        "90" => Rotation::R90,
        "180" => Rotation::R180,
        "270" => Rotation::R270,
        _ => Rotation::R0,
    }
}

/// Reads transparencies from the words of a script joined by `+`.
pub fn transparency(words: &[&str], at: usize) -> Transparency {
    let joined = word(words, at);
    Transparency {
        alpha: joined.contains("alpha"),
        source: joined.contains("source"),
        mask: joined.contains("mask"),
    }
}

/// Bytes as numbers.
pub fn told_bytes(alloc: Global, bytes: &[u8]) -> Result<String, AllocError> {
    let mut told = String::new(alloc);
    for byte in bytes {
        let number = format!(in alloc; "{byte} ")?;
        told.push_str(&number)?;
    }
    Ok(told)
}
