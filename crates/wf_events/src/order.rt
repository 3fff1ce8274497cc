//! The log of an order.

ghost use Rattle.std.specs.Prelude.{◌≡◌, ◌+◌, ◌<◌, ◌≤◌, ◌^◌, ◌&&◌, not, [], length, IfOk, OnOk, IsSome};
ghost use Rattle.wf_turn.specs.Play.{IsComplete, is_marked, replay_from};
ghost use Rattle.wf_turn.specs.Playing.{IsCast, with_frames};
ghost use Rattle.wf_turn.specs.Quota.{all_left};
ghost use Rattle.wf_turn.specs.Turns.{opening_show};
ghost use Rattle.wf_events.specs.Inside.{Logs, MayFollow, Taken};
ghost use Rattle.wf_events.specs.Log.{ends_tick, log, stretches_from};
ghost use Rattle.wf_events.specs.Text.{log_text};

use crate::log::{Log, Queue};
use crate::watch::{happened, look_at};
use std::alloc::Global;
use wf_calls::{Order, Turn};
use wf_kernel::Plain;
use wf_script::{MOST_LINES, Script};
use wf_turn::Show;
use wf_words::NoMemory;

/// The code of an entry that lacked memory.
const OUT_OF_MEMORY: u8 = 1;

/// Makes the log of what happens at the display in an order of the turns of `script`: the text of a queue that has room for `depth`
/// happenings, and is written and emptied after the last turn of each tick and after the last turn of all. The order is legal and
/// complete. It is played once more for it, with its pictures, and memory is taken for what the script makes and for the text.
pub fn events(alloc: Global, script: &Script, order: &Order, depth: u32) -> Result<Log, NoMemory>
    requires complete { IsComplete script.now order.now }
    ensures { IfOk result (λ text. text ≡ log script.now order.now depth) }
{
    // The show stays where it was opened: it is large.
    log_opened(alloc, &mut Show::open(alloc, script), script, order, depth)
}

/// Makes the log by `script`'s show, if it was opened.
fn log_opened(
    alloc: Global,
    opened: &mut Result<Show, NoMemory>,
    script: &Script,
    order: &Order,
    depth: u32,
) -> Result<Log, NoMemory>
    requires opened { IfOk opened.old (λ show. show ≡ opening_show script.now) }
    requires cast { IfOk opened.old IsCast }
    requires complete { IsComplete script.now order.now }
    ensures { IfOk result (λ text. text ≡ log script.now order.now depth) }
{
    prove_few_lines(script);
    match opened {
        Ok(show) => log_turns(alloc, show, order.turns(), depth),
        Err(_) => Err(NoMemory),
    }
}

/// Shows that `script` has few lines, and so an order of it few turns. It changes nothing.
fn prove_few_lines(script: &Script)
    ensures { length script.now.lines ≤ MOST_LINES }
{
    let _lines = script.lines();
}

/// Checks whether the clock was in the tick of a line `before`, and is in that tick no more.
fn ends_tick(before: Option<usize>, after: Option<usize>) -> bool
    ensures { result ≡ ends_tick before after }
{
    match (before, after) {
        (None, _) => false,
        (Some(_), None) => true,
        (Some(line), Some(other)) => line != other,
    }
}

/// Checks whether a `turn` lacked memory that was not refused to it.
fn lacks_memory(memory_refused: bool, turn: Turn) -> bool
    ensures { result ≡ (not memory_refused && is_marked turn) }
{
    !memory_refused && turn.code == OUT_OF_MEMORY
}

/// Takes the turn of an entry. There is no memory for it where a creation lacks memory that did not lack it.
fn take_entry(show: &mut Show, entry: Turn) -> Result<(), NoMemory>
    requires cast { IsCast show.old }
    requires early { show.old.turns + all_left show.old.programs < 2 ^ 31 }
    requires legal { MayFollow show.old entry }
    ensures { OnOk result (Taken show.old show.new entry) }
{
    let memory_refused = entry.code == OUT_OF_MEMORY;
    match show.turn(usize::from(entry.client), memory_refused, &mut Plain) {
        Some((turn, _)) => {
            if lacks_memory(memory_refused, turn) {
                return Err(NoMemory);
            }
            Ok(())
        }
        // The entry is a turn, as the proof shows.
        None => unreachable!(),
    }
}

/// Takes the turn of an entry, and puts what happened in it into `queue`.
fn log_turn(show: &mut Show, entry: Turn, queue: &mut Queue) -> Result<(), NoMemory>
    requires cast { IsCast show.old }
    requires early { show.old.turns + all_left show.old.programs < 2 ^ 31 }
    requires legal { MayFollow show.old entry }
    requires few { queue.old.lost + 13 < 2 ^ 31 }
    ensures { OnOk result (Logs show.old show.new entry queue.old queue.new) }
{
    let place = show.turns();
    let line = show.tick_line();
    let before = look_at(show.machine());
    take_entry(show, entry)?;
    let found = happened(&before, &look_at(show.machine()));
    queue.note_all(place, found.as_slice())?;
    if ends_tick(line, show.tick_line()) {
        queue.flush()?;
    }
    Ok(())
}

/// Makes the log of the turns of `entries`, of a show that is open.
fn log_turns(alloc: Global, show: &mut Show, entries: &[Turn], depth: u32) -> Result<Log, NoMemory>
    requires cast { IsCast show.old }
    requires early { show.old.turns + all_left show.old.programs < 2 ^ 20 }
    requires legal { IsSome (replay_from (with_frames [] show.old) entries.now) }
    ensures { IfOk result (λ text. text ≡ log_text depth (stretches_from (with_frames [] show.old) [] entries.now)) }
{
    let mut queue = Queue::new(alloc, depth);
    for entry in entries {
        log_turn(show, *entry, &mut queue)?;
    }
    queue.flush()?;
    Ok(queue.into_log())
}
