//! Messages, read and answered one after another.

ghost use Rattle.std.specs.Prelude.{◌≡◌, ◌≤◌, None, IsErrOf, IsTrue};
ghost use Rattle.wf_io.specs.Causes.{Rose};
ghost use Rattle.wf_desk.specs.Pass.{IsOwn};
ghost use Rattle.wf_machine.specs.Object.{MayAnswer, after};
ghost use Rattle.wf_wire.specs.Heard.{Discards};
ghost use Rattle.wf_wire.specs.Served.{Served, is_write_fault, stop_of};

use crate::asking::make;
use crate::hearing::hear;
use crate::session::Session;
use crate::stop::ServeStop;
use std::sync::Wait;
use wf_calls::Call;
use wf_desk::{Desk, Pass};
use wf_image::Canvas;
use wf_io::{Sink, Source};
use wf_machine::Machine;

/// The calls that have to be left before a message is answered: two for the message, and one for the canvas that may be held then.
const LEAST_LEFT: u32 = 3;

/// Answers the messages of `session` up to the end of its input or to what stops it. No canvas is held before the first.
pub(crate) fn answer_all<R: Wait, I: Source, K: Sink>(
    session: &mut Session,
    rt: &R,
    desk: &Desk<Machine>,
    pass: &mut Pass<Machine>,
    held: &mut Option<Canvas>,
    input: &mut I,
    out: &mut K,
) -> Result<(), ServeStop>
    requires desk { pass.old.desk ≡ desk.now.id }
    requires left { 1 ≤ pass.old.left }
    requires own { IsOwn after MayAnswer pass.old }
    requires none { held.old ≡ None }
    ensures served { Served K.took pass.old pass.new out.old out.new session.old (I.left input.old) (I.left input.new) held.new
        (stop_of result) }
    ensures left { 1 ≤ pass.new.left }
    ensures input_count { I.faults input.old ≤ I.faults input.new }
    ensures read_fault { IsErrOf result ServeStop.ReadFault → Rose (I.faults input.old) (I.faults input.new) }
    ensures out_count { K.faults out.old ≤ K.faults out.new }
    ensures write_fault { IsTrue (is_write_fault (stop_of result)) → Rose (K.faults out.old) (K.faults out.new) }
{
    let mut written = 0u64;
    let mut at = session.at();
    while let Some(message) = session.next(input)? {
        if pass.left() < LEAST_LEFT {
            return Err(ServeStop::Quota { at });
        }
        match hear(rt, desk, pass, held, message, out) {
            Ok(n) => written += n as u64,
            Err(stop) => {
                return Err(ServeStop::WriteFault {
                    written: written + stop.written as u64,
                });
            }
        }
        at = session.at();
    }
    Ok(())
}

/// Discards a canvas that is `held`.
pub(crate) fn discard<R: Wait>(
    rt: &R,
    desk: &Desk<Machine>,
    pass: &mut Pass<Machine>,
    held: Option<Canvas>,
)
    requires desk { pass.old.desk ≡ desk.now.id }
    requires left { 1 ≤ pass.old.left }
    requires own { IsOwn after MayAnswer pass.old }
    ensures { Discards pass.old pass.new held }
{
    if let Some(canvas) = held {
        let _reply = make(rt, desk, pass, Call::Discard(canvas));
    }
}
