//! Plays an order again, and writes its film.

ghost use Rattle.std.specs.Prelude.{◌≡◌, ◌-◌, ◌<◌, ◌≤◌, ◌^◌, IfOk, OnOk, length};
ghost use Rattle.wf_turn.specs.Play.{same_turn};
ghost use Rattle.wf_turn.specs.Playing.{IsCast, script_of};
ghost use Rattle.wf_turn.specs.Replayed.{Enters, IsEntryCaused, IsReplayCaused, PlaysAgain, PlaysAll};
ghost use Rattle.wf_turn.specs.Turns.{opening_show};

use crate::show::Show;
use std::alloc::Global;
use wf_calls::{Order, Turn};
use wf_film::{FilmForm, Writer};
use wf_io::Sink;
use wf_kernel::{Painter, Plain};
use wf_script::Script;
use wf_words::NoMemory;

/// The code of an entry that lacked memory.
const OUT_OF_MEMORY: u8 = 1;

/// Why an order was not played again to its end.
#[derive(Clone, Copy, Debug, PartialEq, Eq)]
pub enum ReplayStop {
    /// This entry, counted from 0, is no turn; or all are, so many, and a program is not through.
    BadEntry { entry: u32 },
    /// The sink failed.
    WriteFault,
    NoMemory,
}

impl From<NoMemory> for ReplayStop {
    ghost use Rattle.std.specs.Prelude.{◌≡◌};
    ghost use Rattle.wf_turn.specs.declared.replaying.ReplayStop.TheVariants as stop;

    ghost from_gives = { λ _ e. e ≡ stop.NoMemory };

    fn from(_no_memory: NoMemory) -> ReplayStop {
        ReplayStop::NoMemory
    }
}

/// Plays an order again, in which any client may have the next turn, and writes its film in a form. A creation that lacked
/// memory is refused again. The first entry that is no turn stops it, and so do programs that are not through in the end.
pub fn replay<K: Sink>(
    alloc: Global,
    script: &Script,
    order: &Order,
    form: FilmForm,
    k: &mut K,
) -> Result<(), ReplayStop>
    requires { length order.now < 2 ^ 32 }
    ensures plays { PlaysAgain K.took k.old k.new form script.now order.now result }
    ensures caused { IsReplayCaused (K.faults k.old) (K.faults k.new) result }
{
    replay_by(alloc, script, order, form, k, &mut Plain)
}

/// Plays and writes the same as `replay`, with a painter that paints the frames.
pub fn replay_by<K: Sink, P: Painter>(
    alloc: Global,
    script: &Script,
    order: &Order,
    form: FilmForm,
    k: &mut K,
    painter: &mut P,
) -> Result<(), ReplayStop>
    requires ready { P.ready }
    requires few { length order.now < 2 ^ 32 }
    ensures plays { PlaysAgain K.took k.old k.new form script.now order.now result }
    ensures caused { IsReplayCaused (K.faults k.old) (K.faults k.new) result }
{
    // The show stays where it was opened: it is large.
    write_opened(
        &mut Show::open(alloc, script),
        script,
        order,
        form,
        k,
        painter,
    )
}

/// Plays an order again by `script`'s show, if it was opened, and writes its film.
fn write_opened<K: Sink, P: Painter>(
    opened: &mut Result<Show, NoMemory>,
    script: &Script,
    order: &Order,
    form: FilmForm,
    k: &mut K,
    painter: &mut P,
) -> Result<(), ReplayStop>
    requires ready { P.ready }
    requires opened { IfOk opened.old (λ show. show ≡ opening_show script.now) }
    requires cast { IfOk opened.old IsCast }
    requires few { length order.now < 2 ^ 32 }
    ensures plays { PlaysAgain K.took k.old k.new form script.now order.now result }
    ensures caused { IsReplayCaused (K.faults k.old) (K.faults k.new) result }
{
    match opened {
        Ok(show) => write_again(show, order, form, k, painter),
        Err(_) => Err(ReplayStop::NoMemory),
    }
}

/// What became of an entry.
#[derive(Clone, Copy, Debug, PartialEq, Eq)]
pub(crate) enum Entered {
    /// It is a turn, and its frame is put.
    Taken,
    /// It is no turn.
    NoTurn,
    /// It is a turn whose frame was not put whole.
    WriteFault,
    /// There is no memory to try it.
    NoMemory,
}

/// Writes the film of an order by a show that is open.
fn write_again<K: Sink, P: Painter>(
    show: &mut Show,
    order: &Order,
    form: FilmForm,
    k: &mut K,
    painter: &mut P,
) -> Result<(), ReplayStop>
    requires ready { P.ready }
    requires opened { show.old ≡ opening_show (script_of show.old) }
    requires cast { IsCast show.old }
    requires few { length order.now < 2 ^ 32 }
    ensures plays { PlaysAgain K.took k.old k.new form (script_of show.old) order.now result }
    ensures caused { IsReplayCaused (K.faults k.old) (K.faults k.new) result }
{
    let mut writer = match Writer::new(k, form) {
        Ok(writer) => writer,
        Err(_) => return Err(ReplayStop::WriteFault),
    };
    if let Err(stop) = play_entries(show, order.turns(), k, &mut writer, painter) {
        return Err(stop);
    }
    if !show.is_over() {
        return Err(ReplayStop::BadEntry {
            entry: order.turns().len() as u32,
        });
    }
    match writer.finish(k, order) {
        Ok(()) => Ok(()),
        Err(_) => Err(ReplayStop::WriteFault),
    }
}

/// Plays all entries, and puts their frames.
fn play_entries<K: Sink, P: Painter>(
    show: &mut Show,
    entries: &[Turn],
    k: &mut K,
    writer: &mut Writer,
    painter: &mut P,
) -> Result<(), ReplayStop>
    requires ready { P.ready }
    requires cast { IsCast show.old }
    requires fresh { show.old.turns ≡ 0 }
    requires few { length entries.now < 2 ^ 32 }
    requires small { writer.old.written ≤ 4 }
    ensures plays { PlaysAll K.took k.old k.new writer.old.form writer.old.written writer.new.written show.old show.new entries.now
        result }
    ensures small { OnOk result (writer.new.written < 2 ^ 62) }
    ensures caused { IsReplayCaused (K.faults k.old) (K.faults k.new) result }
{
    for (place, entry) in entries.iter().enumerate() {
        match play_entry(show, *entry, k, writer, painter) {
            Entered::Taken => {}
            Entered::NoTurn => {
                return Err(ReplayStop::BadEntry {
                    entry: place as u32,
                });
            }
            Entered::WriteFault => return Err(ReplayStop::WriteFault),
            Entered::NoMemory => return Err(ReplayStop::NoMemory),
        }
    }
    Ok(())
}

/// Checks that two entries are the same.
fn same_turn(one: Turn, other: Turn) -> bool
    ensures { result ≡ same_turn one other }
{
    one.client == other.client && one.code == other.code && one.value == other.value
}

/// Plays an entry, and puts its frame. A creation that lacked memory is refused it again.
fn play_entry<K: Sink, P: Painter>(
    show: &mut Show,
    entry: Turn,
    k: &mut K,
    writer: &mut Writer,
    painter: &mut P,
) -> Entered
    requires ready { P.ready }
    requires cast { IsCast show.old }
    requires early { show.old.turns < 2 ^ 32 - 1 }
    requires few { writer.old.written < 2 ^ 62 }
    ensures enters { Enters K.took k.old k.new writer.old.form writer.old.written writer.new.written show.old show.new entry result }
    ensures form { writer.new.form ≡ writer.old.form }
    ensures caused { IsEntryCaused (K.faults k.old) (K.faults k.new) result }
{
    let begin = show.turns();
    let client = usize::from(entry.client);
    let memory_refused = entry.code == OUT_OF_MEMORY;
    let (turn, painted) = match show.turn(client, memory_refused, painter) {
        Some(taken) => taken,
        None => return Entered::NoTurn,
    };
    if !memory_refused && turn.code == OUT_OF_MEMORY {
        return Entered::NoMemory;
    }
    if !same_turn(turn, entry) {
        return Entered::NoTurn;
    }
    match show.put_frame(client, painted, begin, k, writer) {
        Ok(()) => Entered::Taken,
        Err(_) => Entered::WriteFault,
    }
}
