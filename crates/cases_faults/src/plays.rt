//! The plays of a case, and what is told of them.

use crate::parted::Parted;
use crate::parts::{Parts, ROOM};
use std::alloc::{AllocError, Global};
use std::io;
use std::sync::Wait;
use std::thread::Threads;
use wf_calls::Turn;
use wf_cases::{number, push_hex, word, words_of};
use wf_io::{MemorySink, MemorySource};
use wf_play::{Open, Report, play};

/// Which calls fail, each counted from 1, and 0 for none: of the source, of the film's sink and of that of the notes.
#[derive(Clone, Copy, Default)]
struct Failing {
    take: u32,
    put: u32,
    note: u32,
}

/// Whether the turns of an order are the first of those that are wanted.
fn are_first(turns: &[Turn], wanted: &[Turn]) -> bool {
    turns.len() <= wanted.len()
        && turns
            .iter()
            .zip(wanted.iter())
            .all(|(turn, want)| turn == want)
}

/// How a play ended: the status and its exit, how many turns were played and how many bytes put, where these are the first of those
/// that are wanted, and the line in the notes.
fn told(
    alloc: Global,
    parts: &Parts,
    report: &Report,
    film: &[u8],
    notes: &[u8],
) -> Result<String, AllocError> {
    let turns = report.order.turns();
    if parts.wanted.get(..film.len()) != Some(film) {
        return format!(in alloc; "other bytes");
    }
    if !are_first(turns, &parts.turns) {
        return format!(in alloc; "other turns");
    }
    let mut told = format!(in alloc;
        "{:?}, exit {}, {} turns, {} bytes",
        report.status,
        report.status.exit(),
        turns.len(),
        film.len()
    )?;
    if !notes.is_empty() {
        told.push_str(", ")?;
    }
    for byte in notes {
        match byte {
            b'\n' => told.push_str("\\n")?,
            _ => told.push(char::from(*byte))?,
        }
    }
    Ok(told)
}

/// Plays the first bytes of the input, with these calls failing.
fn play_first<R: Threads + Wait + Sync + AllocGlobal>(
    rt: &R,
    parts: &Parts,
    count: usize,
    failing: Failing,
) -> io::Result<String> {
    let first = parts.input.get(..count).unwrap_or(&parts.input);
    play_bytes(rt, parts, Vec::from_slice(rt.alloc(), first)?, failing)
}

/// Plays these bytes, with these calls failing.
fn play_bytes<R: Threads + Wait + Sync + AllocGlobal>(
    rt: &R,
    parts: &Parts,
    bytes: Vec<u8>,
    failing: Failing,
) -> io::Result<String> {
    let alloc = rt.alloc();
    let take = Vec::from_slice(alloc, &[failing.take])?;
    let mut input = MemorySource::new(bytes, parts.step.max(1), take);
    let (Ok(sink), Ok(mut notes)) = (
        MemorySink::new(alloc, ROOM, Vec::from_slice(alloc, &[failing.put])?),
        MemorySink::new(alloc, 4096, Vec::from_slice(alloc, &[failing.note])?),
    ) else {
        return Err(io::ErrorKind::OutOfMemory.into());
    };
    let mut film = Parted {
        sink,
        most: parts.most,
    };
    let report = play(
        rt,
        alloc,
        &parts.words,
        &mut input,
        &mut film,
        &mut notes,
        &Open,
    );
    let told = told(alloc, parts, &report, film.sink.bytes(), notes.bytes())?;
    Ok(told)
}

/// Plays the input with each call of the source failing, from one number to another, and tells what all of them came to; or which is
/// the first that came to something else.
fn play_takes<R: Threads + Wait + Sync + AllocGlobal>(
    rt: &R,
    parts: &Parts,
    from: u32,
    to: u32,
) -> io::Result<String> {
    let (whole, none) = (parts.input.len(), Failing::default());
    let first = play_first(rt, parts, whole, Failing { take: from, ..none })?;
    for take in from..=to {
        let came = play_first(rt, parts, whole, Failing { take, ..none })?;
        if came.as_str() != first.as_str() {
            return Ok(format!(in rt.alloc(); "{first}; and with call {take} failing {came}")?);
        }
    }
    Ok(first)
}

/// Plays the first bytes of the input, for each count from one to another, and tells what all of them came to; or which is the first
/// that came to something else.
fn play_cuts<R: Threads + Wait + Sync + AllocGlobal>(
    rt: &R,
    parts: &Parts,
    from: usize,
    to: usize,
) -> io::Result<String> {
    let first = play_first(rt, parts, from, Failing::default())?;
    for count in from..=to {
        let came = play_first(rt, parts, count, Failing::default())?;
        if came.as_str() != first.as_str() {
            return Ok(format!(in rt.alloc(); "{first}; and cut to {count} {came}")?);
        }
    }
    Ok(first)
}

/// Plays a check of each front of the film behind the script that is shorter, and tells how many of them are no film because they end.
fn play_film_cuts<R: Threads + Wait + Sync + AllocGlobal>(
    rt: &R,
    parts: &Parts,
) -> io::Result<String> {
    let (alloc, count) = (rt.alloc(), parts.input.len().saturating_sub(parts.script));
    let mut early = 0usize;
    for length in 0..count {
        let whole = parts.script.saturating_add(length);
        let came = play_first(rt, parts, whole, Failing::default())?;
        let want = format!(in alloc;
            "BadFilm {{ at: {length}, rule: 3 }}, exit 9, 0 turns, 0 bytes, bad film at {length}: rule 3\\n"
        )?;
        if came.as_str() == want.as_str() {
            early = early.saturating_add(1);
        }
    }
    Ok(format!(in alloc; "{early} of {count}")?)
}

/// Plays the input with other bytes from a place of the film behind the script on.
fn play_film_with<R: Threads + Wait + Sync + AllocGlobal>(
    rt: &R,
    parts: &Parts,
    place: usize,
    hex: &str,
) -> io::Result<String> {
    let (alloc, input) = (rt.alloc(), parts.input.as_slice());
    let place = parts.script.saturating_add(place);
    let mut bytes = Vec::from_slice(alloc, input.get(..place).unwrap_or(input))?;
    push_hex(&mut bytes, hex)?;
    if let Some(behind) = input.get(bytes.len()..) {
        bytes.extend_from_slice(behind)?;
    }
    play_bytes(rt, parts, bytes, Failing::default())
}

/// Makes a call and tells its answer: `play` plays the whole, `take N`, `takes FROM TO`, `put N` and `note N` with a call failing, and
/// `cut N` and `cuts FROM TO` the first bytes of the input. `film_cuts` checks the fronts of the film behind the script, and
/// `film_with PLACE HEX` it with other bytes. All other verbs are those of parts.
pub(crate) fn answer<R: Threads + Wait + Sync + AllocGlobal>(
    rt: &R,
    parts: &mut Parts,
    call: &str,
) -> io::Result<String> {
    let alloc = rt.alloc();
    let (verb, rest) = call.split_once(' ').unwrap_or((call, ""));
    if let Some(told) = parts.take(alloc, verb, rest)? {
        return Ok(told);
    }
    let words = words_of(alloc, rest)?;
    let words = words.as_slice();
    let whole = parts.input.len();
    let (number, none) = (number::<u32>(words, 0), Failing::default());
    match verb {
        "play" => play_first(rt, parts, whole, none),
        "take" => play_first(
            rt,
            parts,
            whole,
            Failing {
                take: number,
                ..none
            },
        ),
        "put" => play_first(
            rt,
            parts,
            whole,
            Failing {
                put: number,
                ..none
            },
        ),
        "note" => play_first(
            rt,
            parts,
            whole,
            Failing {
                note: number,
                ..none
            },
        ),
        "takes" => play_takes(rt, parts, number, wf_cases::number(words, 1)),
        "cut" => play_first(rt, parts, wf_cases::number(words, 0), none),
        "cuts" => play_cuts(
            rt,
            parts,
            wf_cases::number(words, 0),
            wf_cases::number(words, 1),
        ),
        "film_cuts" => play_film_cuts(rt, parts),
        "film_with" => play_film_with(rt, parts, wf_cases::number(words, 0), word(words, 1)),
        _ => Ok(format!(in alloc; "no such call")?),
    }
}
