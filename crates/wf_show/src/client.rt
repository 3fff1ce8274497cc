//! A client's program, played to its end through a desk.

ghost use Rattle.std.specs.Prelude.{◌≡◌, ◌≤◌, ◌<◌, [], None};
ghost use Rattle.wf_desk.specs.Pass.{IsOwn, Made};
ghost use Rattle.wf_machine.specs.Object.{MayAnswer, after};
ghost use Rattle.wf_turn.specs.Program.{place_of};
ghost use Rattle.wf_turn.specs.Quota.{left};
ghost use Rattle.wf_turn.specs.Ready.{IsFit};
ghost use Rattle.wf_show.specs.Running.{IsReadyFor, Runs};

use crate::gate::Gate;
use std::sync::Wait;
use wf_calls::Reply;
use wf_desk::{Desk, Pass};
use wf_kernel::Plain;
use wf_machine::Machine;
use wf_turn::{Program, Wanted};

/// Makes the call that a program wants; one that waits, at a moment when no frame runs.
pub(crate) fn ask<R: Wait>(
    rt: &R,
    desk: &Desk<Machine>,
    pass: &mut Pass<Machine>,
    wanted: Wanted,
) -> Reply
    requires desk { pass.old.desk ≡ desk.now.id }
    requires left { 0 < pass.old.left }
    ensures made { Made after MayAnswer (IsReadyFor wanted) pass.old wanted.call result pass.new }
    ensures own { IsOwn after MayAnswer pass.new }
{
    if wanted.wait {
        desk.call_when(rt, pass, wanted.call)
    } else {
        desk.call(rt, pass, wanted.call)
    }
}

/// Plays the program of a client from 1 to 7 to its end. Each call that it wants goes through the desk, between the gate's two,
/// and a Job that comes is painted outside of the desk. The pass has made no call, and has as many left as the program. It may
/// wait, refuses nothing, and only the machine's creations can lack memory.
pub fn run_client<R: Wait, G: Gate>(
    rt: &R,
    desk: &Desk<Machine>,
    pass: &mut Pass<Machine>,
    program: &mut Program,
    gate: &G,
)
    requires desk { pass.old.desk ≡ desk.now.id }
    requires client { pass.old.client ≡ program.old.client }
    requires none { pass.old.mine ≡ [] }
    requires fit { IsFit program.old }
    requires left { left program.old ≤ pass.old.left }
    ensures runs { Runs program.old program.new pass.old pass.new }
    ensures through { place_of program.new ≡ None }
{
    let client = program.client();
    let quota = pass.left();
    while let Some(wanted) = program.next() {
        let event = quota - pass.left() + 1;
        gate.before(client, event);
        let reply = ask(rt, desk, pass, wanted);
        gate.after(client, event);
        program.took(reply);
        program.paint(&mut Plain);
    }
}
