//! Plays a script serially: the events of each line stand together, in the order of the file.

ghost use Rattle.std.specs.Prelude.{◌≡◌, ◌+◌, ◌-◌, ◌*◌, ◌<◌, ◌≤◌, ◌^◌, [], map, length, vec_capacity};
ghost use Rattle.std.specs.Prelude.{IfErr, IfOk, IsTrue, None, OnOk};
ghost use Rattle.std.specs.List.{list_all};
ghost use Rattle.wf_io.specs.Causes.{HasCause};
ghost use Rattle.wf_film.specs.Stands.{IsFilm, as_read};
ghost use Rattle.wf_script.specs.Script.{may_tick};
ghost use Rattle.wf_turn.specs.Films.{IsCaused, PlaysFilm, PlaysSerially};
ghost use Rattle.wf_turn.specs.Play.{first_client, plain_film};
ghost use Rattle.wf_turn.specs.Played.{IsFirstStill, Plays, PlaysNext, StopsTurn, StopsTurns, TurnedFirst};
ghost use Rattle.wf_turn.specs.Playing.{EndsNext, IsCast, may_turn, script_of};
ghost use Rattle.wf_turn.specs.Program.{place_of};
ghost use Rattle.wf_turn.specs.Quota.{all_left, most_turns};
ghost use Rattle.wf_turn.specs.Serial.{IsFirst, IsInFileOrder, IsRun};
ghost use Rattle.wf_turn.specs.Turns.{opening_show};

use crate::quotas::quota_of_all;
use crate::show::Show;
use std::alloc::Global;
use wf_calls::{Order, Turn};
use wf_film::{FRAME_BYTES, FilmForm, Writer};
use wf_io::{Sink, WriteStop};
use wf_kernel::{Painter, Plain};
use wf_script::{MOST_LINES, Script};
use wf_words::NoMemory;

/// Why a film was not played to its end.
#[derive(Drop)]
pub enum PlayStop {
    /// The sink failed when it had taken this many bytes; the order is what was played.
    WriteFault { written: u64, order: Order },
    /// Nothing was put.
    NoMemory,
}

impl From<NoMemory> for PlayStop {
    ghost use Rattle.std.specs.Prelude.{◌≡◌};
    ghost use Rattle.wf_turn.specs.declared.player.PlayStop.TheVariants as stop;

    ghost from_gives = { λ _ e. e ≡ stop.NoMemory };

    fn from(_no_memory: NoMemory) -> PlayStop {
        PlayStop::NoMemory
    }
}

/// Plays the lines of a script in file order, and writes its film in a form. All memory but that of the script's own
/// creations is taken before the first byte is put. Where the sink fails at a frame, that frame ends, and then play stops.
pub fn serial<K: Sink>(
    alloc: Global,
    script: &Script,
    form: FilmForm,
    k: &mut K,
) -> Result<Order, PlayStop>
    ensures plays { PlaysFilm K.took k.old k.new form script.now result }
    ensures file_order { IsInFileOrder script.now result }
    ensures stands { IfOk result (λ order. IsFilm (as_read (plain_film form script.now order))) }
    ensures caused { IsCaused (K.faults k.old) (K.faults k.new) result }
{
    serial_by(alloc, script, form, k, &mut Plain)
}

/// Plays and writes the same as `serial`, with a painter that paints the frames. What the painter takes of memory, it takes when
/// it paints.
pub fn serial_by<K: Sink, P: Painter>(
    alloc: Global,
    script: &Script,
    form: FilmForm,
    k: &mut K,
    painter: &mut P,
) -> Result<Order, PlayStop>
    requires ready { P.ready }
    ensures plays { PlaysFilm K.took k.old k.new form script.now result }
    ensures file_order { IsInFileOrder script.now result }
    ensures stands { IfOk result (λ order. IsFilm (as_read (plain_film form script.now order))) }
    ensures caused { IsCaused (K.faults k.old) (K.faults k.new) result }
{
    // The show stays where it was opened: it is large.
    write_opened(
        alloc,
        &mut Show::open(alloc, script),
        script,
        form,
        k,
        painter,
    )
}

/// Writes the film of `script`'s show, if it was opened.
fn write_opened<K: Sink, P: Painter>(
    alloc: Global,
    opened: &mut Result<Show, NoMemory>,
    script: &Script,
    form: FilmForm,
    k: &mut K,
    painter: &mut P,
) -> Result<Order, PlayStop>
    requires ready { P.ready }
    requires opened { IfOk opened.old (λ show. show ≡ opening_show script.now) }
    requires cast { IfOk opened.old IsCast }
    ensures plays { PlaysFilm K.took k.old k.new form script.now result }
    ensures file_order { IsInFileOrder script.now result }
    ensures stands { IfOk result (λ order. IsFilm (as_read (plain_film form script.now order))) }
    ensures caused { IsCaused (K.faults k.old) (K.faults k.new) result }
{
    let most = quota_of_all(script.lines());
    match opened {
        Ok(show) => match Vec::with_capacity(alloc, most) {
            Ok(played) => write_film(show, form, k, painter, played),
            Err(_) => Err(PlayStop::NoMemory),
        },
        Err(_) => Err(PlayStop::NoMemory),
    }
}

/// Writes the film of a show that is open, and its order into `played`, which has room for all turns.
fn write_film<K: Sink, P: Painter>(
    show: &mut Show,
    form: FilmForm,
    k: &mut K,
    painter: &mut P,
    mut played: Vec<Turn>,
) -> Result<Order, PlayStop>
    requires ready { P.ready }
    requires opened { show.old ≡ opening_show (script_of show.old) }
    requires cast { IsCast show.old }
    requires few { length (script_of show.old).lines ≤ MOST_LINES }
    requires ticks { IsTrue (list_all may_tick (script_of show.old).lines) }
    requires none { played.items ≡ [] }
    requires room { most_turns (script_of show.old).lines ≤ vec_capacity played }
    ensures plays { PlaysSerially K.took k.old k.new form (script_of show.old) result }
    ensures stands { IfOk result (λ order. IsFilm (as_read (plain_film form (script_of show.old) order))) }
    ensures caused { IsCaused (K.faults k.old) (K.faults k.new) result }
{
    let mut writer = match Writer::new(k, form) {
        Ok(writer) => writer,
        Err(stop) => return Err(write_fault(stop, Order::new(played))),
    };
    if let Err(stop) = play_turns(show, k, painter, &mut writer, &mut played) {
        return Err(write_fault(stop, Order::new(played)));
    }
    let order = Order::new(played);
    match writer.finish(k, &order) {
        Ok(()) => Ok(order),
        Err(stop) => Err(write_fault(stop, order)),
    }
}

/// Makes the stop of a film whose sink failed, with the `order` so far.
fn write_fault(stop: WriteStop, order: Order) -> PlayStop
    ensures { result ≡ PlayStop.WriteFault stop.written order }
{
    PlayStop::WriteFault {
        written: stop.written as u64,
        order,
    }
}

/// Plays all turns, and puts their frames.
fn play_turns<K: Sink, P: Painter>(
    show: &mut Show,
    k: &mut K,
    painter: &mut P,
    writer: &mut Writer,
    played: &mut Vec<Turn>,
) -> Result<(), WriteStop>
    requires ready { P.ready }
    requires cast { IsCast show.old }
    requires alone { EndsNext show.old }
    requires none { played.old.items ≡ [] }
    requires room { all_left show.old.programs ≤ vec_capacity played.old }
    requires few { writer.old.written + all_left show.old.programs * FRAME_BYTES < 2 ^ 62 }
    requires early { show.old.turns + all_left show.old.programs < 2 ^ 31 }
    ensures all { OnOk result (Plays K.took k.old k.new writer.old.form writer.old.written writer.new.written IsRun show.old show.new
        played.new.items) }
    ensures over { OnOk result (first_client (map place_of show.new.programs) ≡ None) }
    ensures few { OnOk result (writer.new.written < 2 ^ 62) }
    ensures many { length played.new.items ≤ all_left show.old.programs }
    ensures part { IfErr result (λ stop. StopsTurns K.took k.old k.new writer.old.form writer.old.written stop.written
        show.old show.new played.new.items) }
    ensures cause { HasCause (K.faults k.old) (K.faults k.new) result }
{
    let mut next = show.first();
    while let Some(client) = next {
        if let Err(stop) = play_turn(show, client, k, painter, writer, played) {
            return Err(stop);
        }
        next = show.first_after(client);
    }
    Ok(())
}

/// Plays the next turn, of the client of the first line that is not through, and puts its frame. Where the sink fails,
/// the frame ends.
fn play_turn<K: Sink, P: Painter>(
    show: &mut Show,
    client: usize,
    k: &mut K,
    painter: &mut P,
    writer: &mut Writer,
    played: &mut Vec<Turn>,
) -> Result<(), WriteStop>
    requires ready { P.ready }
    requires cast { IsCast show.old }
    requires alone { EndsNext show.old }
    requires first { IsFirst show.old.programs client }
    requires allowed { IsTrue (may_turn show.old.programs client) }
    requires room { length played.old.items + all_left show.old.programs ≤ vec_capacity played.old }
    requires few { writer.old.written + all_left show.old.programs * FRAME_BYTES < 2 ^ 62 }
    requires early { show.old.turns + all_left show.old.programs < 2 ^ 31 }
    ensures all { OnOk result (PlaysNext K.took k.old k.new writer.old.form writer.old.written writer.new.written show.old show.new
        played.old.items played.new.items) }
    ensures cast { OnOk result (IsCast show.new) }
    ensures alone { OnOk result (EndsNext show.new) }
    ensures still { OnOk result (IsFirstStill show.new.programs client) }
    ensures fewer { OnOk result (all_left show.new.programs + 1 ≤ all_left show.old.programs) }
    ensures many { length played.new.items + all_left show.new.programs ≤ length played.old.items + all_left show.old.programs }
    ensures most { OnOk result (writer.new.written ≤ writer.old.written + FRAME_BYTES) }
    ensures form { writer.new.form ≡ writer.old.form }
    ensures early { OnOk result (show.new.turns ≡ show.old.turns + 1) }
    ensures room { OnOk result (vec_capacity played.old ≤ vec_capacity played.new) }
    ensures part { IfErr result (λ stop. StopsTurn K.took k.old k.new writer.old.form writer.old.written stop.written
        show.old show.new played.old.items played.new.items) }
    ensures cause { HasCause (K.faults k.old) (K.faults k.new) result }
{
    let begin = show.turns();
    let (turn, painted) = next_turn(show, client, painter);
    played.push_reserved(turn);
    if let Err(stop) = show.put_frame(client, painted, begin, k, writer) {
        let (end, _) = next_turn(show, client, painter);
        played.push_reserved(end);
        return Err(stop);
    }
    Ok(())
}

/// Takes the next turn, of the client of the first line that is not through. Returns the entry, and whether a Job was painted.
fn next_turn<P: Painter>(show: &mut Show, client: usize, painter: &mut P) -> (Turn, bool)
    requires ready { P.ready }
    requires cast { IsCast show.old }
    requires alone { EndsNext show.old }
    requires first { IsFirst show.old.programs client }
    requires allowed { IsTrue (may_turn show.old.programs client) }
    requires early { show.old.turns < 2 ^ 32 - 1 }
    ensures { TurnedFirst show.old client show.new result.0 result.1 }
{
    match show.turn(client, false, painter) {
        Some(taken) => taken,
        None => unreachable!(),
    }
}
