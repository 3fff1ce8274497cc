//! A tick: frames are begun, painted and ended, contexts are composed, and who waits is answered.

ghost use Rattle.std.specs.Prelude.{◌≡◌, ◌+◌, ◌*◌, ◌≤◌, ◌++◌, [], None, IfSome, IsTrue, length, option_map};
ghost use Rattle.wf_calls.specs.declared.call.Call.TheVariants as Call;
ghost use Rattle.wf_calls.specs.Parts.{is_begin};
ghost use Rattle.wf_calls.specs.Places.{job_in};
ghost use Rattle.wf_calls.specs.Requests.{call_of};
ghost use Rattle.wf_host.specs.Made.{told_of};
ghost use Rattle.wf_model.specs.Picture.{painted_job};
ghost use Rattle.wf_serve.specs.Ticks.{asked, composed, composed_all, ended, framed, pictured, waiter, waiters, woken};

use crate::answers::Answers;
use crate::kind::WAIT;
use wf_calls::{JobPlace, Request};
use wf_guard::{CLIENTS, OUTPUT};
use wf_host::{Told, paint_held};
use wf_machine::Machine;
use wf_model::MOST_CONTEXTS;

/// Begins a frame of `machine` by a `request` of `client`, paints it, and tells what was answered.
pub(crate) fn begin(
    machine: &mut Machine,
    client: u8,
    place: &mut JobPlace,
    request: &Request,
) -> Told
    requires begins { IsTrue (is_begin (call_of request.now)) }
    requires none { job_in place.old ≡ None }
    ensures machine { machine.new ≡ (asked client (call_of request.now) machine.old).0 }
    ensures told { result ≡ told_of (asked client (call_of request.now) machine.old).1 }
    ensures frame { job_in place.new ≡ pictured (asked client (call_of request.now) machine.old).1 }
{
    let answer = machine.begin(client, request, place);
    let told = Told::of(answer);
    if answer.code.is_ok() {
        paint_held(place);
    } else {
        place.clear();
    }
    told
}

/// Ends the frame of `machine` for `client` that stands in `place`, if one does.
pub(crate) fn end(machine: &mut Machine, client: u8, place: &mut JobPlace)
    ensures machine { machine.new ≡ ended client (job_in place.old) machine.old }
    ensures frame { job_in place.new ≡ None }
{
    if place.is_held() {
        let _answer = machine.end(client, place);
    }
    place.clear();
}

/// Composes the next active context of `machine` whose handle is above `after`, and returns that handle, or 0 where there is none.
fn compose_next(machine: &mut Machine, place: &mut JobPlace, after: u32) -> u32
    requires none { job_in place.old ≡ None }
    ensures machine { machine.new ≡ (framed OUTPUT (Call.BeginNext after) machine.old).now }
    ensures value { result ≡ (framed OUTPUT (Call.BeginNext after) machine.old).told.value }
    ensures frame { job_in place.new ≡ None }
{
    let told = begin(machine, OUTPUT, place, &Request::BeginNext { after });
    end(machine, OUTPUT, place);
    told.value
}

/// Composes the active contexts of `machine`, by rising handle.
fn compose(machine: &mut Machine, place: &mut JobPlace)
    requires none { job_in place.old ≡ None }
    ensures machine { machine.new ≡ composed MOST_CONTEXTS 0 machine.old }
    ensures frame { job_in place.new ≡ None }
{
    let mut after = 0;
    for _ in 0..MOST_CONTEXTS {
        after = compose_next(machine, place, after);
        if after == 0 {
            return;
        }
    }
}

/// Composes all active contexts of `machine`.
pub(crate) fn compose_all(machine: &mut Machine, place: &mut JobPlace)
    requires none { job_in place.old ≡ None }
    ensures machine { machine.new ≡ composed_all machine.old }
    ensures frame { job_in place.new ≡ None }
{
    compose(machine, place);
}

/// Answers `client`, if it `waits` for `tick`.
fn wake_one(waits: bool, client: u8, tick: u32, answers: &mut Answers)
    requires { length answers.old + 11 ≤ 8192 }
    ensures put { answers.new ≡ answers.old ++ waiter waits client tick }
    ensures few { length answers.new ≤ length answers.old + 11 }
{
    if waits {
        answers.put(
            client,
            WAIT,
            Told {
                code: 0,
                value: tick,
            },
            &[],
        );
    }
}

/// Answers the clients that wait for `tick`.
fn wake(waiting: &[bool; CLIENTS], tick: u32, answers: &mut Answers)
    requires { length answers.old ≤ 11 }
    ensures { answers.new ≡ answers.old ++ waiters CLIENTS waiting.now tick }
{
    for n in 0..CLIENTS {
        wake_one(waiting[n], n as u8, tick, answers);
    }
}

/// Answers all clients that wait for `tick`.
pub(crate) fn wake_all(waiting: &[bool; CLIENTS], tick: u32, answers: &mut Answers)
    requires { length answers.old ≤ 11 }
    ensures { answers.new ≡ answers.old ++ woken waiting.now tick }
{
    wake(waiting, tick, answers);
}
