//! Reads a film.

ghost use Rattle.std.specs.Prelude.{◌≡◌, IfOk, OnOk};
ghost use Rattle.wf_film.specs.Film.{PlainFilm};
ghost use Rattle.wf_film.specs.Stands.{IsWhole, Stands, outline};
ghost use Rattle.wf_film.specs.Reading.{TellsFault, TellsFilm, behind, end_at, film_fault, outlined, read_film};
ghost use Rattle.wf_film.specs.Rules.{Finds, Gives};

use crate::fault::FilmStop;
use crate::fields::{byte_of, form_of};
use crate::film::Film;
use crate::frames::frames_of;
use crate::journal::journal_of;
use crate::rule::{Breach, ReadStop, Rule};
use std::alloc::Global;

/// The bytes behind the end.
#[tactic(auto, unfolding(crate::specs::Reading::end_at))]
fn behind_end(bytes: &[u8]) -> Result<&[u8], Breach>
    ensures { Finds (λ x. x.now) result (behind (end_at bytes.now)) }
{
    let (tag, rest) = byte_of(bytes)?;
    if tag != b'E' {
        return Err(Breach::at(Rule::Tag, bytes));
    }
    Ok(rest)
}

/// The film that the bytes stand for, or the first rule that they break.
#[tactic(auto, unfolding(crate::specs::Reading::read_film, crate::specs::Reading::film_at))]
fn film_of(alloc: Global, bytes: &[u8]) -> Result<Film, ReadStop>
    ensures { Gives (λ film. film) result (outlined (read_film bytes.now)) }
{
    let (form, rest) = form_of(bytes)?;
    let (frames, rest) = frames_of(form, rest)?;
    let (order, rest) = journal_of(alloc, rest)?;
    let rest = behind_end(rest)?;
    if !rest.is_empty() {
        return Err(Breach::at(Rule::Last, rest).into());
    }
    Ok(Film::new(form, frames, order))
}

/// Reads the film that `bytes` stand for, or the first fault. In one pass; memory is taken for the journal alone.
pub fn read(alloc: Global, bytes: &[u8]) -> Result<Film, FilmStop>
    // No fault where a film is read, and else the first fault of the bytes.
    ensures fault { TellsFault result (film_fault bytes.now) }
    // What is read is a film that the bytes stand for.
    ensures film { IfOk result (λ film. (plain : PlainFilm) × Stands bytes.now plain × (film ≡ outline plain)) }
    // A film that the bytes stand for is read, and no other.
    ensures only { (plain : PlainFilm) → Stands bytes.now plain → TellsFilm result plain }
    // What is read is no front of another film, and no front of it is one.
    ensures whole { OnOk result (IsWhole bytes.now) }
{
    match film_of(alloc, bytes) {
        Ok(film) => Ok(film),
        Err(ReadStop::Breaks(broken)) => Err(FilmStop::of(broken, bytes)),
        Err(ReadStop::NoMemory) => Err(FilmStop::NoMemory),
    }
}
