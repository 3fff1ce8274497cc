//! The program `cases_pixel`: plays cases of the arithmetic of colours and places.
#![tactic(auto)]

use std::alloc::{AllocError, Global};
use std::io;
use std::process::ExitCode;
use wf_cases::{Stage, color, format, number, transparency, turn, word, words_of};
use wf_pixel::{
    Format, MOST_SIDE, Rect, Rgba, Size, along, lift, mul, over, samp, source_place, turned,
};

/// Colours and places have no state.
#[derive(Drop)]
struct Pixels;

fn main(rt: HostRuntime) -> io::Result<ExitCode> {
    wf_cases::play::<Pixels, HostRuntime>(&rt)
}

impl<R: AllocGlobal> Stage<R> for Pixels {
    fn opened(_alloc: Global) -> Pixels {
        Pixels
    }

    fn answer(&mut self, rt: &R, call: &str) -> Result<String, AllocError> {
        let alloc = rt.alloc();
        let words = words_of(alloc, call)?;
        let words = words.as_slice();
        match word(words, 0) {
            "mul" => format!(in alloc; "{}", mul(number(words, 1), number(words, 2))),
            "nearest" => format!(in alloc; "{}", nearest()),
            "samples" => samples(alloc, number(words, 1), number(words, 2)),
            "lift" => shown(alloc, lifted(words)),
            "over" => shown(alloc, over(color(words, 1), color(words, 5))),
            "along" => distance(alloc, words),
            "turned" => turned_size(alloc, words),
            "letters" => letters(alloc, words),
            _ => format!(in alloc; "no such call"),
        }
    }
}

/// How many products of two channels are rounded to the nearest.
fn nearest() -> u32 {
    let mut count = 0u32;
    for a in 0..=255 {
        for b in 0..=255 {
            let exact = u32::from(a) * u32::from(b);
            let off = exact.abs_diff(255 * u32::from(mul(a, b)));
            if off <= 127 {
                count = count.wrapping_add(1);
            }
        }
    }
    count
}

/// The pixels of a source of `s` pixels that show on `w` points.
fn samples(alloc: Global, w: u32, s: u32) -> Result<String, AllocError> {
    let mut shown = String::new(alloc);
    if w <= MOST_SIDE && 1 <= s && s <= MOST_SIDE {
        for i in 0..w {
            let text = format!(in alloc; "{} ", samp(i, w, s))?;
            shown.push_str(&text)?;
        }
    }
    Ok(shown)
}

fn shown(alloc: Global, color: Rgba) -> Result<String, AllocError> {
    let Rgba { r, g, b, a } = color;
    format!(in alloc; "{r} {g} {b} {a}")
}

/// A pixel of a layer, `lift FORMAT TRANSPARENCY ALPHA MASK R G B A`.
fn lifted(words: &[&str]) -> Rgba {
    let format = format(words, 1);
    if format == Format::A8 {
        return Rgba::default();
    }
    let (alpha, mask) = (number(words, 3), number(words, 4));
    lift(color(words, 5), format, transparency(words, 2), alpha, mask)
}

/// The distance of a point from the start of a side, `along START SIDE POINT`.
fn distance(alloc: Global, words: &[&str]) -> Result<String, AllocError> {
    match along(number(words, 1), number(words, 2), number(words, 3)) {
        Some(distance) => format!(in alloc; "{distance}"),
        None => format!(in alloc; "outside"),
    }
}

/// A size after a turn, `turned DEGREES W H`.
fn turned_size(alloc: Global, words: &[&str]) -> Result<String, AllocError> {
    let size = Size {
        w: number(words, 2),
        h: number(words, 3),
    };
    let Size { w, h } = turned(turn(words, 1), size);
    format!(in alloc; "{w} {h}")
}

/// The letters of a source of 3 by 2 with the rows ABC and DEF, as they show on a destination and on the points round it,
/// `letters FLIP DEGREES W H`: row by row, with a dot for each point outside.
fn letters(alloc: Global, words: &[&str]) -> Result<String, AllocError> {
    let (w, h): (u32, u32) = (number(words, 3), number(words, 4));
    let mut shown = String::new(alloc);
    if w < 1 || w > 100 || h < 1 || h > 100 {
        return Ok(shown);
    }
    let src = Rect {
        x: 0,
        y: 0,
        w: 3,
        h: 2,
    };
    let dest = Rect { x: -1, y: 7, w, h };
    let flip = word(words, 1) == "flipped";
    let degrees = turn(words, 2);
    for y in 6..8 + h as i32 {
        for x in -2..w as i32 {
            match source_place(src, flip, degrees, dest, x, y) {
                Some((u, v)) => shown.push(char::from(b"ABCDEF"[(3 * v + u) as usize]))?,
                None => shown.push('.')?,
            }
        }
        shown.push(' ')?;
    }
    Ok(shown)
}
