//! What a message asks a desk for.

ghost use Rattle.std.specs.Prelude.{◌≡◌, ◌<◌, IsTrue, if◌then◌else◌, option_map};
ghost use Rattle.wf_calls.specs.Requests.{call_of};
ghost use Rattle.wf_desk.specs.Pass.{IsOwn, Made};
ghost use Rattle.wf_machine.specs.Object.{MayAnswer, after, is_ready};
ghost use Rattle.wf_wire.specs.Asked.{asked, is_acquire, is_show, lent, moves_canvas, wanted_call};

use crate::message::Message;
use std::sync::Wait;
use wf_calls::{Call, Reply, Request};
use wf_desk::{Desk, Pass};
use wf_image::Canvas;
use wf_machine::{Machine, SmallCall};

/// Tells whether a request is for a write buffer.
fn is_acquire(request: &Request) -> bool
    ensures { result ≡ is_acquire request.now }
{
    matches!(request, Request::Acquire { .. })
}

/// Tells whether `message` asks for a port to be shown.
pub(crate) fn is_show(message: &Message) -> bool
    ensures { result ≡ is_show message.now }
{
    match message {
        Message::Ask(request) => matches!(request, Request::BeginPort { .. }),
        _ => false,
    }
}

/// Keeps the canvas that was `given` with the answer to `message`, where that takes the place of the one that was held.
pub(crate) fn keep(held: &mut Option<Canvas>, message: &Message, given: Option<Canvas>)
    ensures { held.new ≡ (if moves_canvas message.now then given else held.old) }
{
    let moves = match message {
        Message::Ask(request) => is_acquire(request),
        _ => true,
    };
    if moves {
        *held = given;
    }
}

/// What a message asks a desk for: a call in which no frame begins, or one that may begin a frame.
pub(crate) enum Wanted {
    Small(SmallCall),
    Frame(Request),
}

/// Tells what a request asks a desk for.
fn want(request: Request) -> Wanted
    ensures { wanted_call result ≡ call_of request }
{
    match SmallCall::of(request) {
        Some(small) => Wanted::Small(small),
        None => Wanted::Frame(request),
    }
}

/// Tells what `message` asks a desk for, which takes the canvas with it that it needs, or returns `None` where it makes no call.
pub(crate) fn asked(held: &mut Option<Canvas>, message: &Message) -> Option<Wanted>
    ensures call { option_map wanted_call result ≡ asked held.old message.now }
    ensures held { held.new ≡ lent message.now held.old }
{
    match message {
        Message::Ask(request) => {
            if held.is_some() && is_acquire(request) {
                None
            } else {
                Some(want(*request))
            }
        }
        Message::Post => match held.take() {
            Some(canvas) => Some(Wanted::Small(SmallCall::post(canvas))),
            None => None,
        },
        Message::Discard => match held.take() {
            Some(canvas) => Some(Wanted::Small(SmallCall::discard(canvas))),
            None => None,
        },
        Message::Paint(_) => None,
    }
}

/// Makes a call through `pass`, at a moment when no frame runs that it would begin beside.
pub(crate) fn make<R: Wait>(
    rt: &R,
    desk: &Desk<Machine>,
    pass: &mut Pass<Machine>,
    call: Call,
) -> Reply
    requires desk { pass.old.desk ≡ desk.now.id }
    requires left { 0 < pass.old.left }
    ensures made { Made after MayAnswer (λ h. IsTrue (is_ready h call)) pass.old call result pass.new }
    ensures own { IsOwn after MayAnswer pass.new }
{
    desk.call_when(rt, pass, call)
}
