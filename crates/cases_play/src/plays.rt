//! A script's play by the top call.

use std::alloc::{AllocError, Global};
use std::io;
use std::sync::Wait;
use std::thread::Threads;
use wf_play::{Open, Status};
use wf_plays::{Played, check, log, play_by};

/// What a comment begins with that tells of the film in form 1.
pub(crate) const OF_ONE: &str = "film 1:";

/// The play of a text, whether its frames painted over the last ones give the same film, and where a comment tells of its film in
/// form 1 also that one.
#[derive(Drop)]
pub(crate) struct Plays {
    pub(crate) played: Played,
    pub(crate) repainted: bool,
    pub(crate) of_one: Option<Played>,
}

/// Plays a text in the forms that its comments tell of.
pub(crate) fn play_text<R: Threads + Wait + Sync + AllocGlobal>(
    rt: &R,
    text: &str,
) -> io::Result<Plays> {
    let played = play_by(
        rt,
        Vec::from_slice(rt.alloc(), text.as_bytes())?,
        &["film"],
        &Open,
    )?;
    let bytes = Vec::from_slice(rt.alloc(), text.as_bytes())?;
    let again = play_by(rt, bytes, &["film", "--repaint"], &Open)?;
    let of_one = if text.contains(OF_ONE) {
        let bytes = Vec::from_slice(rt.alloc(), text.as_bytes())?;
        Some(play_by(rt, bytes, &["film", "--film", "1"], &Open)?)
    } else {
        None
    };
    let repainted = played.film.bytes() == again.film.bytes();
    Ok(Plays {
        played,
        repainted,
        of_one,
    })
}

/// The notes of a play, with `,` for `:`.
fn noted(alloc: Global, told: &Played) -> Result<String, AllocError> {
    let mut note = String::new(alloc);
    for byte in told.notes.bytes() {
        note.push(match *byte {
            b':' => ',',
            other => char::from(other),
        })?;
    }
    Ok(note)
}

/// What a check of `film` after `text` puts into the notes, with `,` for `:`.
pub(crate) fn check_film<R: Threads + Wait + Sync + AllocGlobal>(
    rt: &R,
    text: &str,
    film: &[u8],
) -> io::Result<String> {
    let told = check(rt, text, film)?;
    Ok(noted(rt.alloc(), &told)?)
}

/// The lines of a log, with `, ` between them, or `nothing`.
fn logged(alloc: Global, told: &Played) -> Result<String, AllocError> {
    let mut lines = String::new(alloc);
    let mut ended = false;
    for byte in told.film.bytes() {
        if ended {
            lines.push_str(", ")?;
        }
        ended = *byte == b'\n';
        if !ended {
            lines.push(char::from(*byte))?;
        }
    }
    if lines.is_empty() {
        lines.push_str("nothing")?;
    }
    Ok(lines)
}

/// The log of `film` after `text`, by a queue of `depth` happenings, or the note that comes in its place.
pub(crate) fn log_film<R: Threads + Wait + Sync + AllocGlobal>(
    rt: &R,
    text: &str,
    film: &[u8],
    depth: &str,
) -> io::Result<String> {
    let told = log(rt, text, film, depth)?;
    if told.status == Status::Done {
        return Ok(logged(rt.alloc(), &told)?);
    }
    Ok(noted(rt.alloc(), &told)?)
}
