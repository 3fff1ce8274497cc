//! One message, from what it asks for to its answer.

ghost use Rattle.std.specs.Prelude.{◌≡◌, ◌≤◌, ◌<◌, IsTrue, length};
ghost use Rattle.wf_io.specs.Causes.{HasCause};
ghost use Rattle.wf_calls.specs.Requests.{call_of};
ghost use Rattle.wf_desk.specs.Pass.{IsOwn};
ghost use Rattle.wf_machine.specs.Object.{MayAnswer, after};
ghost use Rattle.wf_wire.specs.Answers.{quiet_bytes};
ghost use Rattle.wf_wire.specs.Asked.{quiet_canvas, wanted_call};
ghost use Rattle.wf_wire.specs.Heard.{Called, Heard};
ghost use Rattle.wf_wire.specs.Messages.{may_paint};
ghost use Rattle.wf_wire.specs.Putting.{Writes};

use crate::answering::{ANSWER_BYTES, finish, parts_of, put_answer};
use crate::asking::{Wanted, asked, is_show, keep, make};
use crate::message::Message;
use std::sync::Wait;
use wf_calls::{Call, Request};
use wf_desk::{Desk, Pass};
use wf_image::Canvas;
use wf_io::{Sink, WriteStop};
use wf_machine::{Machine, SmallCall};

/// The code of the answer to a message that lacks a canvas, or has one already.
const NO_EVENT: u8 = 255;

/// Answers `message`, which makes no call.
fn hear_quietly<K: Sink>(
    held: &mut Option<Canvas>,
    message: &Message,
    out: &mut K,
) -> Result<usize, WriteStop>
    requires paints { IsTrue (may_paint message.now) }
    ensures held { held.new ≡ quiet_canvas message.now held.old }
    ensures writes { Writes K.took out.old out.new (quiet_bytes message.now held.old) result }
    ensures few { length (quiet_bytes message.now held.old) ≤ ANSWER_BYTES }
    ensures cause { HasCause (K.faults out.old) (K.faults out.new) result }
{
    match message {
        Message::Paint(paint) => match held {
            Some(canvas) => {
                canvas.paint(paint);
                put_answer(out, 0, 0)
            }
            None => put_answer(out, NO_EVENT, 0),
        },
        _ => put_answer(out, NO_EVENT, 0),
    }
}

/// Makes the `call` of `message`, in which no frame begins, and answers it.
fn hear_small<R: Wait, K: Sink>(
    rt: &R,
    desk: &Desk<Machine>,
    pass: &mut Pass<Machine>,
    held: &mut Option<Canvas>,
    message: &Message,
    call: SmallCall,
    out: &mut K,
) -> Result<usize, WriteStop>
    requires desk { pass.old.desk ≡ desk.now.id }
    requires left { 0 < pass.old.left }
    ensures called { Called K.took pass.old pass.new message.now call held.old held.new out.old out.new result }
    ensures cause { HasCause (K.faults out.old) (K.faults out.new) result }
{
    let (answer, canvas) = desk.perform_when(rt, pass, call);
    keep(held, message, canvas);
    put_answer(out, answer.code.number(), answer.value)
}

/// Makes the `call` of `message`, which may begin a frame, and answers it.
fn hear_call<R: Wait, K: Sink>(
    rt: &R,
    desk: &Desk<Machine>,
    pass: &mut Pass<Machine>,
    held: &mut Option<Canvas>,
    message: &Message,
    call: Call,
    out: &mut K,
) -> Result<usize, WriteStop>
    requires desk { pass.old.desk ≡ desk.now.id }
    requires left { 2 ≤ pass.old.left }
    requires own { IsOwn after MayAnswer pass.old }
    ensures called { Called K.took pass.old pass.new message.now call held.old held.new out.old out.new result }
    ensures cause { HasCause (K.faults out.old) (K.faults out.new) result }
{
    let reply = make(rt, desk, pass, call);
    let code = reply.code;
    let value = reply.value;
    let (canvas, job) = parts_of(code.is_ok(), reply.payload);
    keep(held, message, canvas);
    match job {
        Some(job) => finish(
            rt,
            desk,
            pass,
            is_show(message),
            code.number(),
            value,
            job,
            out,
        ),
        None => put_answer(out, code.number(), value),
    }
}

/// Makes the call of the `request` of `message`, which may begin a frame, and answers it. Calls and replies, with the room of a Job, are
/// here alone: inlined, each message would set that room.
#[inline(never)]
fn hear_frame<R: Wait, K: Sink>(
    rt: &R,
    desk: &Desk<Machine>,
    pass: &mut Pass<Machine>,
    held: &mut Option<Canvas>,
    message: &Message,
    request: Request,
    out: &mut K,
) -> Result<usize, WriteStop>
    requires desk { pass.old.desk ≡ desk.now.id }
    requires left { 2 ≤ pass.old.left }
    requires own { IsOwn after MayAnswer pass.old }
    ensures called { Called K.took pass.old pass.new message.now (call_of request) held.old held.new out.old out.new result }
    ensures cause { HasCause (K.faults out.old) (K.faults out.new) result }
{
    hear_call(rt, desk, pass, held, message, request.call(), out)
}

/// Makes the call that is `wanted` of `message`, and answers it.
fn hear_wanted<R: Wait, K: Sink>(
    rt: &R,
    desk: &Desk<Machine>,
    pass: &mut Pass<Machine>,
    held: &mut Option<Canvas>,
    message: &Message,
    wanted: Wanted,
    out: &mut K,
) -> Result<usize, WriteStop>
    requires desk { pass.old.desk ≡ desk.now.id }
    requires left { 2 ≤ pass.old.left }
    requires own { IsOwn after MayAnswer pass.old }
    ensures called { Called K.took pass.old pass.new message.now (wanted_call wanted) held.old held.new out.old out.new result }
    ensures cause { HasCause (K.faults out.old) (K.faults out.new) result }
{
    match wanted {
        Wanted::Small(small) => hear_small(rt, desk, pass, held, message, small, out),
        Wanted::Frame(request) => hear_frame(rt, desk, pass, held, message, request, out),
    }
}

/// Answers `message` by its call, or by none.
fn hear_either<R: Wait, K: Sink>(
    rt: &R,
    desk: &Desk<Machine>,
    pass: &mut Pass<Machine>,
    held: &mut Option<Canvas>,
    message: &Message,
    out: &mut K,
) -> Result<usize, WriteStop>
    requires desk { pass.old.desk ≡ desk.now.id }
    requires left { 2 ≤ pass.old.left }
    requires own { IsOwn after MayAnswer pass.old }
    requires paints { IsTrue (may_paint message.now) }
    ensures heard { Heard K.took pass.old pass.new message.now held.old held.new out.old out.new result }
    ensures cause { HasCause (K.faults out.old) (K.faults out.new) result }
{
    match asked(held, message) {
        Some(wanted) => hear_wanted(rt, desk, pass, held, message, wanted, out),
        None => hear_quietly(held, message, out),
    }
}

/// Answers `message`, with the canvas that is held.
pub(crate) fn hear<R: Wait, K: Sink>(
    rt: &R,
    desk: &Desk<Machine>,
    pass: &mut Pass<Machine>,
    held: &mut Option<Canvas>,
    message: Message,
    out: &mut K,
) -> Result<usize, WriteStop>
    requires desk { pass.old.desk ≡ desk.now.id }
    requires left { 2 ≤ pass.old.left }
    requires own { IsOwn after MayAnswer pass.old }
    requires paints { IsTrue (may_paint message) }
    ensures heard { Heard K.took pass.old pass.new message held.old held.new out.old out.new result }
    ensures cause { HasCause (K.faults out.old) (K.faults out.new) result }
{
    // The message is dropped here, where one way leads out.
    hear_either(rt, desk, pass, held, &message, out)
}
