//! The mode `events`: the log of what happens at the display in the film after a script.

ghost use Rattle.std.specs.Prelude.{◌≡◌, ◌≢◌, ◌≤◌, ℕ, [], IfErr, IfOk, IfSome};
ghost use Rattle.wf_film.specs.Film.{PlainFilm};
ghost use Rattle.wf_film.specs.Stands.{Stands, outline};
ghost use Rattle.wf_play.specs.Check.{SaysOfParts};
ghost use Rattle.wf_play.specs.Events.{HasNoLog, IsLogIn, IsLogOf, PutsLog, SaysOfLog};
ghost use Rattle.wf_play.specs.Report.{IsCaused, SaysOfFilm};

use crate::checked::{FILM_LIMIT, status_of};
use crate::parts::parts_of;
use crate::report::Status;
use crate::top::{SCRIPT_LIMIT, refusal_of};
use std::alloc::Global;
use wf_check::{NoMemory, Verdict, check_film};
use wf_events::{Log, events};
use wf_film::{Film, FilmStop, read};
use wf_io::{ReadStop, Sink, Source, read_all};
use wf_script::{Script, parse};

/// Checks `bytes`, of which `film` was read, and makes the log of its journal, where it is the film of `script`.
fn log_of_film(
    alloc: Global,
    depth: u8,
    script: &Script,
    bytes: &[u8],
    film: &Film,
) -> Result<Log, Status>
    requires film { (plain : PlainFilm) × Stands bytes.now plain × (film.now ≡ outline plain) }
    ensures log { IfOk result (IsLogIn depth script.now bytes.now) }
    ensures stop { IfErr result (HasNoLog script.now bytes.now) }
{
    match check_film(alloc, script, bytes, film) {
        Ok(Verdict::Same) => match events(alloc, script, film.order(), depth.into()) {
            Ok(log) => Ok(log),
            Err(NoMemory) => Err(Status::NoMemory),
        },
        Ok(verdict) => Err(status_of(verdict)),
        Err(NoMemory) => Err(Status::NoMemory),
    }
}

/// Reads a film of `script`, and makes the log of its journal.
fn log_of_script(alloc: Global, depth: u8, script: &Script, film: &[u8]) -> Result<Log, Status>
    ensures log { IfOk result (IsLogIn depth script.now film.now) }
    ensures stop { IfErr result (HasNoLog script.now film.now) }
{
    match read(alloc, film) {
        Ok(read) => log_of_film(alloc, depth, script, film, &read),
        Err(FilmStop::Fault { at, rule }) => Err(Status::BadFilm { at, rule }),
        Err(FilmStop::NoMemory) => Err(Status::NoMemory),
    }
}

/// Makes the log of the journal of a film of the script that bytes stand for.
fn log_of_parts(alloc: Global, depth: u8, script: &[u8], film: &[u8]) -> Result<Log, Status>
    ensures log { IfOk result (IsLogOf depth script.now film.now) }
    ensures stop { IfErr result (λ s. SaysOfParts script.now film.now s × (s ≢ Status.Done)) }
{
    match parse(alloc, script) {
        Ok(script) => log_of_script(alloc, depth, &script, film),
        Err(fault) => Err(refusal_of(fault)),
    }
}

/// Puts a log.
fn put_log<O: Sink>(log: &Log, film: &mut O) -> Status
    ensures puts { PutsLog O.took film.old film.new log.now result }
    ensures film { SaysOfFilm O.took film.old film.new [] result }
    ensures caused { IsCaused 0 0 (O.faults film.old) (O.faults film.new) result }
    ensures count { O.faults film.old ≤ O.faults film.new }
{
    match log.write(film) {
        Ok(()) => Status::Done,
        Err(stop) => Status::WriteFault {
            written: stop.written as u64,
        },
    }
}

/// Puts the log of the film after the script in these bytes, of which each is kept once.
fn log_parts<O: Sink>(alloc: Global, depth: u8, bytes: &[u8], film: &mut O) -> Status
    ensures says { SaysOfLog O.took film.old film.new depth bytes.now result }
    ensures mode { result ≢ Status.Usage }
    ensures film { SaysOfFilm O.took film.old film.new [] result }
    ensures caused { (before now : ℕ) → IsCaused before now (O.faults film.old) (O.faults film.new) result }
    ensures count { O.faults film.old ≤ O.faults film.new }
{
    let (script, behind) = parts_of(bytes);
    if script.len() > SCRIPT_LIMIT || behind.len() > FILM_LIMIT {
        return Status::TooLong;
    }
    match log_of_parts(alloc, depth, script, behind) {
        Ok(log) => put_log(&log, film),
        Err(status) => status,
    }
}

/// Reads a script and the film after it, checks the film, and puts the log of its journal into `film`.
#[inline(never)]
pub(crate) fn play_events<I: Source, O: Sink>(
    alloc: Global,
    depth: u8,
    input: &mut I,
    film: &mut O,
) -> Status
    ensures mode { result ≢ Status.Usage }
    ensures input { IfSome (I.left input.old) (λ bytes. SaysOfLog O.took film.old film.new depth bytes result) }
    ensures film { SaysOfFilm O.took film.old film.new [] result }
    ensures caused { IsCaused (I.faults input.old) (I.faults input.new) (O.faults film.old) (O.faults film.new) result }
    ensures input_count { I.faults input.old ≤ I.faults input.new }
    ensures film_count { O.faults film.old ≤ O.faults film.new }
{
    match read_all(alloc, input, SCRIPT_LIMIT + FILM_LIMIT) {
        Ok(bytes) => log_parts(alloc, depth, &bytes, film),
        Err(ReadStop::Fault) => Status::ReadFault,
        Err(ReadStop::TooLong) => Status::TooLong,
        Err(ReadStop::NoMemory) => Status::NoMemory,
    }
}
