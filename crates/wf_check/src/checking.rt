//! The check of a film.

ghost use Rattle.std.specs.Prelude.{◌≡◌, ◌≢◌, IfOk};
ghost use Rattle.wf_film.specs.Film.{PlainFilm};
ghost use Rattle.wf_film.specs.Stands.{Stands, outline};
ghost use Rattle.wf_check.specs.Verdicts.{IsFound, Says};

use crate::comparing::Comparison;
use crate::verdict::Verdict;
use std::alloc::Global;
use wf_film::{Film, FilmStop, read};
use wf_script::Script;
use wf_turn::{ReplayStop, replay};
use wf_words::NoMemory;

/// Checks bytes against the film of a script and of the order that their own journal tells, in their own form. Memory is taken
/// for the journal and for what the script makes; of the frames, one is there at a time. What is found comes in one order:
/// BadFilm, BadOrder, Differs.
pub fn check(alloc: Global, script: &Script, film: &[u8]) -> Result<Verdict, NoMemory>
    ensures { IfOk result (Says script.now film.now) }
{
    match read(alloc, film) {
        Ok(read) => check_film(alloc, script, film, &read),
        Err(FilmStop::Fault { at, rule }) => Ok(Verdict::BadFilm { at, rule }),
        Err(FilmStop::NoMemory) => Err(NoMemory),
    }
}

/// Checks `bytes` as `check` does, of which `film` was read: so whoever wants the journal of a film reads it once. The journal is
/// played, and the bytes are compared with its film as that is made.
pub fn check_film(
    alloc: Global,
    script: &Script,
    bytes: &[u8],
    film: &Film,
) -> Result<Verdict, NoMemory>
    requires { (plain : PlainFilm) × Stands bytes.now plain × (film.now ≡ outline plain) }
    ensures { IfOk result (Says script.now bytes.now) }
{
    let mut comparison = Comparison::new(bytes);
    match replay(alloc, script, film.order(), film.form(), &mut comparison) {
        Ok(()) => Ok(comparison.verdict()),
        Err(stop) => stopped(stop),
    }
}

/// What is found where a journal was not played to its end, which is never by a fault of the comparison.
fn stopped(stop: ReplayStop) -> Result<Verdict, NoMemory>
    requires { stop ≢ ReplayStop.WriteFault }
    ensures { IsFound stop result }
{
    match stop {
        ReplayStop::BadEntry { entry } => Ok(Verdict::BadOrder { entry }),
        ReplayStop::WriteFault => unreachable!(),
        ReplayStop::NoMemory => Err(NoMemory),
    }
}
