//! The mode `check`: the film behind a script is checked.

ghost use Rattle.std.specs.Prelude.{◌≡◌, ◌≢◌, ◌≤◌, IfSome};
ghost use Rattle.wf_play.specs.Check.{AreWithin, IsOutcome, IsTooLong, SaysOfCheck, SaysOfParts, status_of};
ghost use Rattle.wf_play.specs.Report.{IsCaused};

use crate::parts::parts_of;
use crate::report::Status;
use crate::top::{SCRIPT_LIMIT, refusal_of};
use std::alloc::Global;
use wf_check::{NoMemory, Verdict, check};
use wf_io::{ReadStop, Source, read_all};
use wf_script::parse;

/// The longest film that is checked, in bytes.
pub(crate) const FILM_LIMIT: usize = 67_108_864;

/// The status of a verdict.
pub(crate) fn status_of(verdict: Verdict) -> Status
    ensures { result ≡ status_of verdict }
{
    match verdict {
        Verdict::Same => Status::Done,
        Verdict::BadFilm { at, rule } => Status::BadFilm { at, rule },
        Verdict::BadOrder { entry } => Status::BadOrder { entry },
        Verdict::Differs { at } => Status::Differs { at },
    }
}

/// Checks a film against the script that bytes stand for.
fn check_film(alloc: Global, script: &[u8], film: &[u8]) -> Status
    ensures { SaysOfParts script.now film.now result }
{
    let script = match parse(alloc, script) {
        Ok(script) => script,
        Err(fault) => return refusal_of(fault),
    };
    match check(alloc, &script, film) {
        Ok(verdict) => status_of(verdict),
        Err(NoMemory) => Status::NoMemory,
    }
}

/// Checks the film behind the script in these bytes, of which each is kept once.
fn check_parts(alloc: Global, bytes: &[u8]) -> Status
    ensures says { SaysOfCheck bytes.now result }
    ensures outcome { IsOutcome result }
{
    let (script, film) = parts_of(bytes);
    if script.len() > SCRIPT_LIMIT || film.len() > FILM_LIMIT {
        return Status::TooLong;
    }
    check_film(alloc, script, film)
}

/// Reads a script and the film behind it, and checks the film. Serial play has nothing of it on the stack.
#[inline(never)]
pub(crate) fn play_check<I: Source>(alloc: Global, input: &mut I) -> Status
    ensures mode { result ≢ Status.Usage }
    ensures input { IfSome (I.left input.old) (λ bytes. SaysOfCheck bytes result) }
    ensures caused { IsCaused (I.faults input.old) (I.faults input.new) 0 0 result }
    ensures count { I.faults input.old ≤ I.faults input.new }
{
    match read_all(alloc, input, SCRIPT_LIMIT + FILM_LIMIT) {
        Ok(bytes) => check_parts(alloc, &bytes),
        Err(ReadStop::Fault) => Status::ReadFault,
        Err(ReadStop::TooLong) => Status::TooLong,
        Err(ReadStop::NoMemory) => Status::NoMemory,
    }
}
