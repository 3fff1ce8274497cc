//! The paint that a line stands for, in the words of scripts.

ghost use Rattle.std.specs.Prelude.{◌≡◌, IfOk, IfSome, IsTrue};
ghost use Rattle.wf_image.specs.Paints.{is_paint};
ghost use Rattle.wf_pixel.specs.Choice.{is_coordinate};

use std::alloc::{AllocError, Global};
use wf_cases::{color, number, rect, word};
use wf_image::{Paint, Pixels};
use wf_pixel::{MOST_COORDINATE, MOST_SIDE, Rgba, SIDE_LEN};

/// Whether a number is in the range of coordinates.
fn is_coordinate(z: i32) -> bool
    ensures { result ≡ is_coordinate z }
{
    z.unsigned_abs() <= MOST_COORDINATE
}

/// A rectangle, where its numbers are in their ranges.
fn rectangle(words: &[&str]) -> Option<Paint>
    ensures { IfSome result (λ paint. IsTrue (is_paint paint)) }
{
    let area = rect(words, 1);
    if is_coordinate(area.x)
        && is_coordinate(area.y)
        && area.w <= MOST_COORDINATE
        && area.h <= MOST_COORDINATE
    {
        let color = color(words, 5);
        Some(Paint::Rectangle { area, color })
    } else {
        None
    }
}

/// Squares, where their side is in its range.
fn checker(words: &[&str]) -> Option<Paint>
    ensures { IfSome result (λ paint. IsTrue (is_paint paint)) }
{
    let n: u32 = number(words, 1);
    if 1 <= n && n <= MOST_SIDE {
        let (first, second) = (color(words, 2), color(words, 6));
        Some(Paint::Checker { n, first, second })
    } else {
        None
    }
}

/// A row, with four words for each pixel, where its place and their number are in their ranges.
fn row(alloc: Global, words: &[&str]) -> Result<Option<Paint>, AllocError>
    ensures { IfOk result (λ found. IfSome found (λ paint. IsTrue (is_paint paint))) }
{
    let y: u32 = number(words, 1);
    let mut pixels: Vec<Rgba> = Vec::new(alloc);
    let channels = words.get(2..).unwrap_or(&[]);
    for four in channels.chunks_exact(4) {
        pixels.push(color(four, 0))?;
    }
    let count = pixels.len();
    if y < MOST_SIDE && 1 <= count && count <= SIDE_LEN {
        let pixels = Pixels::new(pixels);
        Ok(Some(Paint::Row { y, pixels }))
    } else {
        Ok(None)
    }
}

/// The paint that the words stand for, if they are one.
pub(crate) fn paint_of(alloc: Global, words: &[&str]) -> Result<Option<Paint>, AllocError>
    ensures { IfOk result (λ found. IfSome found (λ paint. IsTrue (is_paint paint))) }
{
    match word(words, 0) {
        "fill" => {
            let color = color(words, 1);
            Ok(Some(Paint::Fill { color }))
        }
        "box" => Ok(rectangle(words)),
        "checker" => Ok(checker(words)),
        "ramp" => {
            let (first, second) = (color(words, 1), color(words, 5));
            Ok(Some(Paint::Ramp { first, second }))
        }
        "row" => row(alloc, words),
        _ => Ok(None),
    }
}
