//! Plays a script with its clients on threads, and writes the film of the order that came about.

ghost use Rattle.std.specs.Prelude.{◌≡◌, ◌≤◌, ◌<◌, IfErr, IfOk, None, OnErr, OnOk, length};
ghost use Rattle.wf_film.specs.Stands.{IsFilm, as_read};
ghost use Rattle.wf_io.specs.Causes.{HasCause};
ghost use Rattle.wf_turn.specs.Films.{IsCaused, PlaysFilm};
ghost use Rattle.wf_turn.specs.Play.{plain_film};
ghost use Rattle.wf_turn.specs.Program.{place_of};
ghost use Rattle.wf_show.specs.Clocks.{IsClock, start};
ghost use Rattle.wf_show.specs.Ends.{AllPlay, AreEnded, IsCut, IsFilmed, OthersThrough};
ghost use Rattle.wf_show.specs.Players.{AreFresh, IsFresh};
ghost use Rattle.wf_show.specs.Together.{IsSettingUp};

use crate::clock::set_up;
use crate::closing::close;
use crate::gate::Gate;
use crate::player::{Player, run_all};
use crate::players::Players;
use crate::teaching::teach;
use crate::together::play_together;
use std::alloc::Global;
use std::sync::Wait;
use std::thread::Threads;
use wf_calls::Order;
use wf_desk::Desk;
use wf_film::{FilmForm, Writer};
use wf_io::{Sink, WriteStop};
use wf_kernel::{Painter, Rows};
use wf_machine::Machine;
use wf_script::Script;
use wf_turn::PlayStop;

/// Where the setup is through, the others are told of it, and play without the clock.
fn play_others<R: Threads + Wait + Sync, G: Gate>(
    rt: &R,
    desk: &Desk<Machine>,
    gate: &G,
    clock: &mut Player,
    others: &mut [Player],
)
    requires clock { IsClock desk.now.id clock.old }
    requires setting { IsSettingUp (start clock.old) clock.old.pass.seen }
    requires others { AreFresh desk.now.id clock.old.program.script 1 others.old }
    ensures clock { clock.new ≡ clock.old }
    ensures ended { AreEnded desk.now.id clock.old others.old others.new }
{
    if !clock.program.in_setup() {
        teach(desk, clock, others);
        run_all(rt, desk, gate, others);
    }
}

/// Plays all programs, and puts the magic and the frames. Where the sink fails, the frame ends, and the clock plays no further line.
fn play_all<R: Threads + Wait + Sync, K: Sink, G: Gate, P: Painter>(
    rt: &R,
    desk: &Desk<Machine>,
    gate: &G,
    form: FilmForm,
    clock: &mut Player,
    painter: &mut P,
    k: &mut K,
    others: &mut [Player],
) -> Result<Writer, WriteStop>
    requires ready { P.ready }
    requires clock { IsFresh desk.now.id clock.old.program.script 0 clock.old }
    requires others { AreFresh desk.now.id clock.old.program.script 1 others.old }
    ensures many { length others.new ≡ length others.old }
    ensures clock { IsClock desk.now.id clock.new }
    ensures script { clock.new.program.script ≡ clock.old.program.script }
    ensures played { OnOk result (AllPlay desk.now.id clock.new others.old others.new) }
    ensures through { OnOk result (place_of clock.new.program ≡ None) }
    ensures film { IfOk result (λ writer. IsFilmed K.took k.old k.new form writer clock.new) }
    ensures ended { OnErr result (AreEnded desk.now.id clock.new others.old others.new) }
    ensures cut { IfErr result (λ stop. IsCut K.took k.old k.new form stop.written clock.old clock.new) }
    ensures cause { HasCause (K.faults k.old) (K.faults k.new) result }
{
    let mut writer = match Writer::new(k, form) {
        Ok(writer) => writer,
        Err(stop) => {
            play_others(rt, desk, gate, clock, others);
            return Err(stop);
        }
    };
    if let Err(stop) = set_up(rt, desk, clock, painter, k, &mut writer) {
        play_others(rt, desk, gate, clock, others);
        return Err(stop);
    }
    teach(desk, clock, others);
    if let Err(stop) = play_together(rt, desk, gate, clock, painter, k, &mut writer, others) {
        return Err(stop);
    }
    Ok(writer)
}

/// Plays `script` with its clients on threads as [`threaded_by`] does, and paints client 0's frames in bands for up to `rows` workers, from
/// 1 to 16.
pub fn threaded<R: Threads + Wait + Sync, K: Sink, G: Gate>(
    rt: &R,
    alloc: Global,
    script: &Script,
    form: FilmForm,
    k: &mut K,
    gate: &G,
    rows: u32,
) -> Result<Order, PlayStop>
    requires some { 1 ≤ rows }
    requires rows { rows ≤ 16 }
    ensures plays { PlaysFilm K.took k.old k.new form script.now result }
    ensures stands { IfOk result (λ order. IsFilm (as_read (plain_film form script.now order))) }
    ensures others { OthersThrough script.now result }
    ensures caused { IsCaused (K.faults k.old) (K.faults k.new) result }
{
    threaded_by(rt, alloc, script, form, k, gate, &mut Rows::new(rt, rows))
}

/// Plays `script` with its clients on threads, and puts into `k`, in a `form`, the film of the order that came about, which the order
/// tells. Client 0 plays its setup first. Then each of the clients 1 to 7 plays on a thread of its own where one can be had, and else they
/// play one after another; the calling thread plays the rest of client 0, paints its frames by `painter`, and alone writes. Each client
/// enters `gate` before it plays. All memory but that of the script's own creations, and of the painter's copies, is taken before the first
/// byte is put. Where the sink fails at a frame, that frame ends, client 0 plays no further line, and the others go through theirs. It may
/// wait. What it moves is off the stack when it returns.
#[inline(never)]
pub fn threaded_by<R: Threads + Wait + Sync, K: Sink, G: Gate, P: Painter>(
    rt: &R,
    alloc: Global,
    script: &Script,
    form: FilmForm,
    k: &mut K,
    gate: &G,
    painter: &mut P,
) -> Result<Order, PlayStop>
    requires ready { P.ready }
    ensures plays { PlaysFilm K.took k.old k.new form script.now result }
    ensures stands { IfOk result (λ order. IsFilm (as_read (plain_film form script.now order))) }
    ensures others { OthersThrough script.now result }
    ensures caused { IsCaused (K.faults k.old) (K.faults k.new) result }
{
    let opened = match Players::open(alloc, script) {
        Ok(opened) => opened,
        Err(_) => return Err(PlayStop::NoMemory),
    };
    let Players {
        desk,
        mut clock,
        mut others,
        ended,
    } = opened;
    let played = play_all(rt, &desk, gate, form, &mut clock, painter, k, &mut others);
    let order = close(desk, clock, others, ended);
    match played {
        Ok(writer) => match writer.finish(k, &order) {
            Ok(()) => Ok(order),
            Err(stop) => Err(write_fault(stop, order)),
        },
        Err(stop) => Err(write_fault(stop, order)),
    }
}

/// The stop of a film whose sink failed, with the order of what was played.
fn write_fault(stop: WriteStop, order: Order) -> PlayStop
    ensures { result ≡ PlayStop.WriteFault stop.written order }
{
    PlayStop::WriteFault {
        written: stop.written as u64,
        order,
    }
}
