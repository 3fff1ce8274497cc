//! One play on threads, and what is told of it.

use crate::gates::{Hold, Holding};
use std::alloc::Global;
use std::io;
use std::sync::Wait;
use std::thread::Threads;
use wf_calls::Order;
use wf_plays::{check, play_by};

/// What a check of a film behind its script puts into the notes.
fn checked<R: Threads + Wait + Sync + AllocGlobal>(
    rt: &R,
    script: &str,
    film: &[u8],
) -> io::Result<String> {
    let told = check(rt, script, film)?;
    let mut note = String::new(rt.alloc());
    for byte in told.notes.bytes() {
        if *byte != b'\n' {
            note.push(char::from(*byte))?;
        }
    }
    Ok(note)
}

/// The entries of an order, each as client:value, and with the code where that is not Ok.
fn entries_of(alloc: Global, order: &Order) -> io::Result<String> {
    let mut text = String::new(alloc);
    for turn in order.turns() {
        let entry = if turn.code == 0 {
            format!(in alloc; " {}:{}", turn.client, turn.value)?
        } else {
            format!(in alloc; " {}:{}!{}", turn.client, turn.value, turn.code)?
        };
        text.push_str(entry.as_str())?;
    }
    Ok(text)
}

/// The place of a client's first entry in an order, or how many entries there are.
fn first_of(order: &Order, client: u8) -> usize {
    let turns = order.turns();
    for (place, turn) in turns.iter().enumerate() {
        if turn.client == client {
            return place;
        }
    }
    turns.len()
}

/// Plays a script whose client 1 is held behind client 2, and tells whether client 2 came first, and what `check` says of the film.
pub(crate) fn tell_second_first<R: Threads + Wait + Sync + AllocGlobal + Print>(
    rt: &R,
    script: &str,
    holds: &[Hold],
    most: u64,
) -> io::Result<()> {
    let gate = Holding::new(Vec::from_slice(rt.alloc(), holds)?, most);
    let bytes = Vec::from_slice(rt.alloc(), script.as_bytes())?;
    let played = play_by(rt, bytes, &["film", "--threads"], &gate)?;
    let late = if gate.was_late() {
        "a hold was late"
    } else {
        "in time"
    };
    let second = first_of(&played.order, 2) < first_of(&played.order, 1);
    let note = checked(rt, script, played.film.bytes())?;
    println!(rt; "two beside one another: {late}; client 2 before client 1: {second}; {note}")
}

/// Plays a script with its clients on threads under a gate, and tells whether a hold reached its limit, the journal, the number of the
/// film's bytes in form 1, and what `check` says of the film.
pub(crate) fn tell_held<R: Threads + Wait + Sync + AllocGlobal + Print>(
    rt: &R,
    name: &str,
    script: &str,
    holds: &[Hold],
    most: u64,
) -> io::Result<()> {
    let gate = Holding::new(Vec::from_slice(rt.alloc(), holds)?, most);
    let bytes = Vec::from_slice(rt.alloc(), script.as_bytes())?;
    let played = play_by(rt, bytes, &["film", "--threads", "--film", "1"], &gate)?;
    let late = if gate.was_late() {
        "a hold was late"
    } else {
        "in time"
    };
    let entries = entries_of(rt.alloc(), &played.order)?;
    let note = checked(rt, script, played.film.bytes())?;
    println!(rt;
        "{name}: {late};{entries}; {} bytes; {note}",
        played.film.bytes().len()
    )
}
