//! The clock: each tick composes both contexts, and then shows the port.

ghost use Rattle.std.specs.Prelude.{◌≡◌, IfSome, IsTrue, option_map};
ghost use Rattle.wf_calls.specs.Parts.{is_begin};
ghost use Rattle.wf_calls.specs.Places.{job_in};
ghost use Rattle.wf_calls.specs.Requests.{call_of};
ghost use Rattle.wf_machine.specs.Object.{IsPaintable};
ghost use Rattle.wf_model.specs.Picture.{painted_job};

use crate::ends::{Stop, value_of};
use std::thread::Threads;
use wf_calls::{Answer, Job, JobPlace, Request};
use wf_kernel::picture_rows;
use wf_machine::Machine;

/// The number under which the clock makes its calls.
const CLOCK: u8 = 0;

/// How many contexts are live at most.
const CONTEXTS: u32 = 16;

/// How many workers paint a frame at most. A small picture has fewer.
const WORKERS: u32 = 4;

/// Composes a frame of each active context of `machine` with threads of `rt`, by rising handles: so the context of the screen, which is
/// the second, shows what the one off the screen composed just before it. Each frame stands in `place` from its Begin to its End.
pub(crate) fn compose<R: Threads + Sync>(
    rt: &R,
    machine: &mut Machine,
    place: &mut JobPlace,
) -> Result<(), Stop> {
    let mut after = 0;
    for _ in 0..CONTEXTS {
        // The active context with the least handle above `after`, or the value 0 where there is none left.
        after = begin_painted(rt, machine, place, &Request::BeginNext { after })?;
        end(machine, place)?;
        if after == 0 {
            break;
        }
    }
    Ok(())
}

/// Begins a frame of port 1 of `machine`, and leaves it in `place`, painted with threads of `rt`.
pub(crate) fn begin_port<R: Threads + Sync>(
    rt: &R,
    machine: &mut Machine,
    place: &mut JobPlace,
) -> Result<(), Stop> {
    begin_painted(rt, machine, place, &Request::BeginPort { port: 1 })?;
    Ok(())
}

/// Ends the frame of `machine` that stands in `place`, if one does. Its picture goes to the stream that its context draws into.
pub(crate) fn end(machine: &mut Machine, place: &mut JobPlace) -> Result<(), Stop> {
    if place.is_held() {
        value_of(machine.end(CLOCK, place))?;
    }
    Ok(())
}

/// Begins a frame of `machine` in `place` by `request`, paints it with threads of `rt` where one comes, and returns the value of the
/// answer.
fn begin_painted<R: Threads + Sync>(
    rt: &R,
    machine: &mut Machine,
    place: &mut JobPlace,
    request: &Request,
) -> Result<u32, Stop>
    requires { IsTrue (is_begin (call_of request.now)) }
{
    let answer = begin(machine, place, request);
    paint_held(rt, place);
    value_of(answer)
}

/// Begins a frame of `machine` by `request`. What stands in `place` then can be painted.
fn begin(machine: &mut Machine, place: &mut JobPlace, request: &Request) -> Answer
    requires { IsTrue (is_begin (call_of request.now)) }
    ensures { IfSome (job_in place.new) IsPaintable }
{
    // A place that is given to a Begin is empty, so no Job is lost.
    place.clear();
    let answer = machine.begin(CLOCK, request, place);
    if !answer.code.is_ok() {
        place.clear();
    }
    answer
}

/// Paints the frame that stands in `place` with threads of `rt`, if one does.
fn paint_held<R: Threads + Sync>(rt: &R, place: &mut JobPlace)
    requires { IfSome (job_in place.old) IsPaintable }
    ensures { job_in place.new ≡ option_map painted_job (job_in place.old) }
{
    if place.is_held() {
        paint(rt, place.job_mut());
    }
}

/// Paints the picture of `job`, with threads of `rt`.
fn paint<R: Threads + Sync>(rt: &R, job: &mut Job)
    requires { IsPaintable job.old }
    ensures { job.new ≡ painted_job job.old }
{
    picture_rows(rt, WORKERS, &job.scene, &job.contents, &mut job.image);
}
