//! The clock, which is client 0, and writes the film.

ghost use Rattle.std.specs.Prelude.{◌≡◌, ◌+◌, ◌*◌, ◌<◌, ◌≤◌, ◌^◌, ℕ, length, flat_map, None, IfErr, IsSome, IsSomeAnd, OnOk, false, true};
ghost use Rattle.wf_film.specs.Film.{frame_bytes};
ghost use Rattle.wf_film.specs.Frames.{PutsFrames};
ghost use Rattle.wf_io.specs.Bytes.{PutsPart};
ghost use Rattle.wf_io.specs.Causes.{HasCause};
ghost use Rattle.wf_machine.specs.Object.{IsPaintable};
ghost use Rattle.wf_turn.specs.Playing.{job_frames};
ghost use Rattle.wf_turn.specs.Program.{in_setup, place_of};
ghost use Rattle.wf_show.specs.Clocks.{Advances, Cuts, IsClock, SetsUp, Shows, start};
ghost use Rattle.wf_show.specs.Together.{IsSettingUp};

use crate::client::ask;
use crate::player::Player;
use std::sync::Wait;
use std::thread::Threads;
use wf_desk::Desk;
use wf_film::{FRAME_BYTES, Writer};
use wf_io::{Sink, WriteStop};
use wf_kernel::Painter;
use wf_machine::Machine;
use wf_turn::{Program, put_job};

/// Makes the next call of the clock's program, and paints a Job that comes. It answers whether one came.
fn advance<R: Threads + Wait + Sync, P: Painter>(
    rt: &R,
    desk: &Desk<Machine>,
    clock: &mut Player,
    painter: &mut P,
) -> bool
    requires ready { P.ready }
    requires clock { IsClock desk.now.id clock.old }
    requires more { IsSome (place_of clock.old.program) }
    ensures { Advances desk.now.id clock.old clock.new result }
{
    let Some(wanted) = clock.program.next() else {
        unreachable!()
    };
    let reply = ask(rt, desk, &mut clock.pass, wanted);
    clock.program.took(reply);
    clock.program.paint(painter)
}

/// Puts the frame of the painted Job that a program holds, if it is a port's, as begun by the event of a place.
fn put_frame<K: Sink>(
    program: &Program,
    begin: u32,
    k: &mut K,
    writer: &mut Writer,
) -> Result<(), WriteStop>
    requires paintable { IsSomeAnd program.now.job IsPaintable }
    requires few { writer.old.written < 2 ^ 62 }
    ensures all { OnOk result (PutsFrames K.took k.old k.new writer.old.form writer.old.written writer.new.written
        (job_frames begin program.now)) }
    ensures form { writer.new.form ≡ writer.old.form }
    ensures most { OnOk result (writer.new.written ≤ writer.old.written + FRAME_BYTES) }
    ensures part { IfErr result (λ stop. PutsPart K.took k.old k.new writer.old.written
        (flat_map (frame_bytes writer.old.form) (job_frames begin program.now)) stop.written) }
    ensures cause { HasCause (K.faults k.old) (K.faults k.new) result }
{
    match program.job() {
        Some(job) => put_job(k, writer, program.tick(), begin, job),
        None => Ok(()),
    }
}

/// Makes the next call, and puts the frame that it shows. Where the sink fails, the frame ends.
fn step<R: Threads + Wait + Sync, K: Sink, P: Painter>(
    rt: &R,
    desk: &Desk<Machine>,
    clock: &mut Player,
    painter: &mut P,
    k: &mut K,
    writer: &mut Writer,
) -> Result<(), WriteStop>
    requires ready { P.ready }
    requires clock { IsClock desk.now.id clock.old }
    requires more { IsSome (place_of clock.old.program) }
    requires few { writer.old.written + clock.old.pass.left * FRAME_BYTES < 2 ^ 62 }
    ensures clock { IsClock desk.now.id clock.new }
    ensures form { writer.new.form ≡ writer.old.form }
    ensures all { OnOk result (Shows K.took k.old k.new writer.old.form writer.old.written writer.new.written clock.old clock.new) }
    ensures left { OnOk result (clock.new.pass.left + 1 ≡ clock.old.pass.left) }
    ensures most { OnOk result (writer.new.written ≤ writer.old.written + FRAME_BYTES) }
    ensures setting { SetsUp clock.old clock.new }
    ensures part { IfErr result (λ stop. Cuts K.took k.old k.new writer.old.form writer.old.written stop.written clock.old clock.new) }
    ensures cause { HasCause (K.faults k.old) (K.faults k.new) result }
{
    if advance(rt, desk, clock, painter) {
        let begin = clock.pass.place();
        if let Err(stop) = put_frame(&clock.program, begin, k, writer) {
            advance(rt, desk, clock, painter);
            return Err(stop);
        }
    }
    Ok(())
}

/// Plays the clock's program to its end, and puts its frames. Where the sink fails, the frame ends, and nothing more is played.
pub(crate) fn go_on<R: Threads + Wait + Sync, K: Sink, P: Painter>(
    rt: &R,
    desk: &Desk<Machine>,
    clock: &mut Player,
    painter: &mut P,
    k: &mut K,
    writer: &mut Writer,
) -> Result<(), WriteStop>
    requires ready { P.ready }
    requires clock { IsClock desk.now.id clock.old }
    requires few { writer.old.written + clock.old.pass.left * FRAME_BYTES < 2 ^ 62 }
    ensures clock { IsClock desk.now.id clock.new }
    ensures all { OnOk result (Shows K.took k.old k.new writer.old.form writer.old.written writer.new.written clock.old clock.new) }
    ensures through { OnOk result (place_of clock.new.program ≡ None) }
    ensures few { OnOk result (writer.new.written < 2 ^ 62) }
    ensures part { IfErr result (λ stop. Cuts K.took k.old k.new writer.old.form writer.old.written stop.written clock.old clock.new) }
    ensures cause { HasCause (K.faults k.old) (K.faults k.new) result }
{
    while clock.program.place().is_some() {
        if let Err(stop) = step(rt, desk, clock, painter, k, writer) {
            return Err(stop);
        }
    }
    Ok(())
}

/// Plays the setup. Where the sink fails, the frame ends, and nothing more is played.
pub(crate) fn set_up<R: Threads + Wait + Sync, K: Sink, P: Painter>(
    rt: &R,
    desk: &Desk<Machine>,
    clock: &mut Player,
    painter: &mut P,
    k: &mut K,
    writer: &mut Writer,
) -> Result<(), WriteStop>
    requires ready { P.ready }
    requires clock { IsClock desk.now.id clock.old }
    requires few { writer.old.written + clock.old.pass.left * FRAME_BYTES < 2 ^ 62 }
    ensures clock { IsClock desk.now.id clock.new }
    ensures form { writer.new.form ≡ writer.old.form }
    ensures all { OnOk result (Shows K.took k.old k.new writer.old.form writer.old.written writer.new.written clock.old clock.new) }
    ensures over { OnOk result (in_setup clock.new.program ≡ false) }
    ensures few { OnOk result (writer.new.written + clock.new.pass.left * FRAME_BYTES < 2 ^ 62) }
    ensures setting { IsSettingUp (start clock.old) clock.old.pass.seen → IsSettingUp (start clock.new) clock.new.pass.seen }
    ensures part { IfErr result (λ stop. Cuts K.took k.old k.new writer.old.form writer.old.written stop.written clock.old clock.new) }
    ensures cause { HasCause (K.faults k.old) (K.faults k.new) result }
{
    while clock.program.in_setup() {
        if let Err(stop) = step(rt, desk, clock, painter, k, writer) {
            return Err(stop);
        }
    }
    Ok(())
}
