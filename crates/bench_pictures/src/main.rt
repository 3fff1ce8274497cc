//! The program `bench_pictures`: with the word `paint` it prints how long filling the largest canvas takes, beside std's fill
//! of as many bytes; with the word `picture`, what a pixel of a picture takes; with the word `rows`, how much sooner a picture
//! is painted by several threads; with the word `order`, what calls on the order of elements take, by links and in vectors.
//! With any other words it prints nothing.
#![tactic(auto)]

mod order;
mod pictures;
mod scenes;

use std::alloc::Global;
use std::process::ExitCode;
use std::rt::{Clock, Env};
use std::time::{Duration, Instant};
use std::{env, io};
use wf_image::{Canvas, Image, Paint};
use wf_pixel::{Format, MOST_SIDE, Rgba, SIDE_LEN, Size};

/// How many fills are timed; the shortest counts.
const ROUNDS: u32 = 50;

const SIZE: Size = Size {
    w: MOST_SIDE,
    h: MOST_SIDE,
};

const COLOR: Rgba = Rgba {
    r: 1,
    g: 2,
    b: 3,
    a: 4,
};

/// The shortest time of a paint over the whole canvas.
fn canvas_time(clock: &impl Clock, alloc: Global) -> io::Result<Duration> {
    let Ok(image) = Image::new(alloc, SIZE, Format::Rgba8) else {
        return Err(io::ErrorKind::OutOfMemory.into());
    };
    let mut canvas = Canvas { stream: 1, image };
    let mut least = Duration::MAX;
    for _ in 0..ROUNDS {
        let start = Instant::now(clock)?;
        canvas.paint(&Paint::Fill { color: COLOR });
        least = least.min(start.elapsed(clock)?);
    }
    Ok(least)
}

/// The shortest time of std's fill over as many bytes.
fn fill_time(clock: &impl Clock, alloc: Global) -> io::Result<Duration> {
    let mut bytes = vec![in alloc; 0u8; 4 * SIDE_LEN * SIDE_LEN]?;
    let mut least = Duration::MAX;
    for round in 0..ROUNDS {
        let start = Instant::now(clock)?;
        bytes.fill(round as u8);
        least = least.min(start.elapsed(clock)?);
    }
    Ok(least)
}

/// Prints both times.
fn print_times(rt: &(impl Print + Clock + AllocGlobal)) -> io::Result<()> {
    let canvas = canvas_time(rt, rt.alloc())?;
    let fill = fill_time(rt, rt.alloc())?;
    println!(rt;
        "a canvas of {MOST_SIDE}x{MOST_SIDE} filled: {} us",
        canvas.as_micros()
    )?;
    println!(rt; "std's fill of as many bytes: {} us", fill.as_micros())
}

/// What the first word of the command line asks for.
enum Asked {
    Paints,
    Pictures,
    Rows,
    Order,
    Nothing,
}

fn read_words(rt: &(impl Env + AllocGlobal)) -> io::Result<Asked> {
    let words: Vec<String> = env::args(rt)?.skip(1).collect(rt.alloc())?;
    Ok(match words.first() {
        Some(word) if word.as_str() == "paint" => Asked::Paints,
        Some(word) if word.as_str() == "picture" => Asked::Pictures,
        Some(word) if word.as_str() == "rows" => Asked::Rows,
        Some(word) if word.as_str() == "order" => Asked::Order,
        _ => Asked::Nothing,
    })
}

fn main(rt: HostRuntime) -> ExitCode {
    let printed = match read_words(&rt) {
        Ok(Asked::Paints) => print_times(&rt),
        Ok(Asked::Pictures) => pictures::print_times(&rt),
        Ok(Asked::Rows) => pictures::print_rows(&rt),
        Ok(Asked::Order) => order::print_times(&rt),
        Ok(Asked::Nothing) => Ok(()),
        Err(error) => Err(error),
    };
    match printed {
        Ok(()) => ExitCode::SUCCESS,
        Err(_) => ExitCode::FAILURE,
    }
}
