//! The clock on the calling thread, and the others beside it.

ghost use Rattle.std.specs.Prelude.{◌≡◌, ◌+◌, ◌*◌, ◌<◌, ◌^◌, All, None, IfErr, OnOk};
ghost use Rattle.wf_io.specs.Causes.{HasCause};
ghost use Rattle.wf_turn.specs.Program.{place_of};
ghost use Rattle.wf_show.specs.Clocks.{Cuts, IsClock, Shows};
ghost use Rattle.wf_show.specs.Players.{AllWorked, IsWaiting};

use crate::clock::go_on;
use crate::gate::Gate;
use crate::player::{Player, run_all};
use std::sync::Wait;
use std::thread::{Threads, join_mut};
use wf_desk::Desk;
use wf_film::{FRAME_BYTES, Writer};
use wf_io::{Sink, WriteStop};
use wf_kernel::Painter;
use wf_machine::Machine;

/// Plays the clock's program to its end, and puts its frames, while the others play theirs on threads.
pub(crate) fn play_together<R: Threads + Wait + Sync, K: Sink, G: Gate, P: Painter>(
    rt: &R,
    desk: &Desk<Machine>,
    gate: &G,
    clock: &mut Player,
    painter: &mut P,
    k: &mut K,
    writer: &mut Writer,
    others: &mut [Player],
) -> Result<(), WriteStop>
    requires ready { P.ready }
    requires clock { IsClock desk.now.id clock.old }
    requires few { writer.old.written + clock.old.pass.left * FRAME_BYTES < 2 ^ 62 }
    requires others { All (IsWaiting desk.now.id) others.old }
    ensures others { AllWorked others.old others.new }
    ensures clock { IsClock desk.now.id clock.new }
    ensures all { OnOk result (Shows K.took k.old k.new writer.old.form writer.old.written writer.new.written clock.old clock.new) }
    ensures through { OnOk result (place_of clock.new.program ≡ None) }
    ensures few { OnOk result (writer.new.written < 2 ^ 62) }
    ensures part { IfErr result (λ stop. Cuts K.took k.old k.new writer.old.form writer.old.written stop.written clock.old clock.new) }
    ensures cause { HasCause (K.faults k.old) (K.faults k.new) result }
{
    let (_, played) = join_mut(
        rt,
        &mut ||
            requires { All (IsWaiting desk.now.id) others.now }
            ensures { AllWorked others.entry.now others.exit.now }
        { run_all(rt, desk, gate, others) },
        &mut ||
            requires { IsClock desk.now.id clock.now × (writer.now.written + clock.now.pass.left * FRAME_BYTES < 2 ^ 62)
                × P.ready }
        { go_on(rt, desk, clock, painter, k, writer) },
    );
    played
}
