//! Plays by the top call whose input, film and notes stand in memory, for the programs that look at whole plays.
#![tactic(auto)]

use std::io;
use std::sync::Wait;
use std::thread::Threads;
use wf_calls::Order;
use wf_io::{MemorySink, MemorySource};
use wf_play::{Gate, Open, Status, play};

/// The most bytes of a film here.
const ROOM: usize = 16_777_216;

/// The most bytes of the notes.
const NOTES: usize = 4096;

/// What a play came to.
#[derive(Drop)]
pub struct Played {
    pub status: Status,
    pub order: Order,
    pub film: MemorySink,
    pub notes: MemorySink,
}

/// Plays the input `bytes` by the words `asked`, under `gate`.
pub fn play_by<R: Threads + Wait + Sync + AllocGlobal, G: Gate>(
    rt: &R,
    bytes: Vec<u8>,
    asked: &[&str],
    gate: &G,
) -> io::Result<Played> {
    let alloc = rt.alloc();
    let mut words = Vec::new(alloc);
    for word in asked.iter() {
        words.push(String::from_str(alloc, word)?)?;
    }
    let mut input = MemorySource::new(bytes, 4096, Vec::new(alloc));
    let (Ok(mut film), Ok(mut notes)) = (
        MemorySink::new(alloc, ROOM, Vec::new(alloc)),
        MemorySink::new(alloc, NOTES, Vec::new(alloc)),
    ) else {
        return Err(io::ErrorKind::OutOfMemory.into());
    };
    let report = play(rt, alloc, &words, &mut input, &mut film, &mut notes, gate);
    Ok(Played {
        status: report.status,
        order: report.order,
        film,
        notes,
    })
}

/// Plays `film` after `script` by the words `asked`.
fn play_film<R: Threads + Wait + Sync + AllocGlobal>(
    rt: &R,
    script: &str,
    film: &[u8],
    asked: &[&str],
) -> io::Result<Played> {
    let mut bytes = Vec::from_slice(rt.alloc(), script.as_bytes())?;
    bytes.extend_from_slice(film)?;
    play_by(rt, bytes, asked, &Open)
}

/// Checks `film` after `script`. What is found stands in the notes.
pub fn check<R: Threads + Wait + Sync + AllocGlobal>(
    rt: &R,
    script: &str,
    film: &[u8],
) -> io::Result<Played> {
    play_film(rt, script, film, &["check"])
}

/// Makes the log of `film` after `script`, by a queue of `depth` happenings. It stands in the film of what is returned.
pub fn log<R: Threads + Wait + Sync + AllocGlobal>(
    rt: &R,
    script: &str,
    film: &[u8],
    depth: &str,
) -> io::Result<Played> {
    play_film(rt, script, film, &["events", "--depth", depth])
}
