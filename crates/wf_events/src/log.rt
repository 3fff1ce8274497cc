//! The text of a log, and the queue by which it is made.

ghost use Rattle.std.specs.Prelude.{◌≡◌, ◌+◌, ◌<◌, ◌≤◌, ◌^◌, ◌++◌, ◌∷◌, [], IfErr, OnOk, length, map, decimal, codes};
ghost use Rattle.wf_io.specs.Bytes.{Puts, PutsPart};
ghost use Rattle.wf_io.specs.Causes.{HasCause};
ghost use Rattle.wf_events.specs.Queue.{AreTold, IsFlushed, Queues};
ghost use Rattle.wf_events.specs.Text.{bit, line_of, text_of};

use crate::happening::Happening;
use std::alloc::Global;
use std::marker::Model;
use wf_io::{Sink, WriteStop, write_all};
use wf_text::{MOST, Text, add, add_number};
use wf_words::NoMemory;

/// The text of a log: a line for each happening that found room in the queue, and one that counts those that did not, for each stretch
/// of turns.
#[derive(Drop)]
pub struct Log {
    text: Vec<u8>,
}

impl Model for Log {
    ghost use Rattle.std.specs.Prelude.{ℕ, List};

    ghost Value = { List ℕ };

    ghost view = { λ log. log.text.items };
}

impl Log {
    /// Puts the text into `k`. It takes no memory.
    pub fn write<K: Sink>(&self, k: &mut K) -> Result<(), WriteStop>
        ensures all { OnOk result (Puts K.took k.old k.new self.now) }
        ensures part { IfErr result (λ stop. PutsPart K.took k.old k.new 0 self.now stop.written) }
        ensures cause { HasCause (K.faults k.old) (K.faults k.new) result }
    {
        write_all(k, &self.text)
    }
}

/// Adds a number after a word.
fn add_counted(line: &mut Text, word: &[u8], number: u32)
    requires { length line.old.items + length word.now + 20 ≤ MOST }
    ensures text { line.new.items ≡ line.old.items ++ word.now ++ decimal number }
    ensures most { length line.new.items ≤ length line.old.items + length word.now + 20 }
{
    add(line, word);
    add_number(line, u64::from(number));
}

/// Adds an attachment to a line.
fn add_attachment(line: &mut Text, port: u32, on: bool)
    requires { length line.old.items + 48 ≤ MOST }
    ensures text { line.new.items ≡ line.old.items ++ codes "attach " ++ decimal port ++ codes " " ++ decimal (bit on) }
    ensures most { length line.new.items ≤ length line.old.items + 48 }
{
    add_counted(line, b"attach ", port);
    add_counted(line, b" ", u32::from(on));
}

/// Adds a happening to a line.
fn add_happening(line: &mut Text, happening: Happening)
    requires { length line.old.items + 48 ≤ MOST }
    ensures text { line.new.items ≡ line.old.items ++ text_of happening }
    ensures most { length line.new.items ≤ length line.old.items + 48 }
{
    match happening {
        Happening::Bind { pipe } => add_counted(line, b"bind ", pipe),
        Happening::Attach { port, on } => add_attachment(line, port, on),
        Happening::Released { count } => add_counted(line, b"released ", count),
    }
}

/// Makes the line of a happening in the turn of a place of the order.
fn line_of(place: u32, happening: Happening) -> Text
    ensures { result.items ≡ line_of (place, happening) }
{
    let mut line = Text::new();
    add_number(&mut line, u64::from(place));
    add(&mut line, b" ");
    add_happening(&mut line, happening);
    add(&mut line, b"\n");
    line
}

/// The log while it is made: its text, for how many happenings a stretch has room, for how many more this one has, and how many were
/// lost in it. What finds room stands in the text at once, so there is no list of what is queued.
#[derive(Drop)]
pub(crate) struct Queue {
    text: Vec<u8>,
    depth: u32,
    room: u32,
    lost: u32,
}

impl Queue {
    /// Makes an empty queue with room for `depth` happenings.
    pub(crate) fn new(alloc: Global, depth: u32) -> Queue
        ensures queue { Queues [] [] result }
        ensures depth { result.depth ≡ depth }
        ensures none { result.lost ≡ 0 }
    {
        Queue {
            text: Vec::new(alloc),
            depth,
            room: depth,
            lost: 0,
        }
    }

    /// Adds a happening to the stretch, in the turn of a place of the order.
    fn note(&mut self, place: u32, happening: Happening) -> Result<(), NoMemory>
        requires few { self.old.lost < 2 ^ 31 }
        ensures told { OnOk result (AreTold self.old self.new ((place, happening) ∷ [])) }
        ensures most { OnOk result (self.new.lost ≤ self.old.lost + 1) }
    {
        if self.room == 0 {
            self.lost += 1;
            return Ok(());
        }
        self.text
            .extend_from_slice(line_of(place, happening).as_slice())?;
        self.room -= 1;
        Ok(())
    }

    /// Adds happenings to the stretch, all in the turn of a place of the order.
    pub(crate) fn note_all(&mut self, place: u32, happenings: &[Happening]) -> Result<(), NoMemory>
        requires few { self.old.lost + length happenings.now < 2 ^ 31 }
        ensures told { OnOk result (AreTold self.old self.new (map (λ e. (place, e)) happenings.now)) }
        ensures most { OnOk result (self.new.lost ≤ self.old.lost + length happenings.now) }
    {
        for happening in happenings {
            self.note(place, *happening)?;
        }
        Ok(())
    }

    /// Ends the stretch: a line counts what was lost, if anything was, and another stretch begins.
    pub(crate) fn flush(&mut self) -> Result<(), NoMemory>
        ensures flushed { OnOk result (IsFlushed self.old self.new) }
        ensures none { OnOk result (self.new.lost ≡ 0) }
    {
        if self.lost > 0 {
            let mut line = Text::new();
            add_counted(&mut line, b"lost ", self.lost);
            add(&mut line, b"\n");
            self.text.extend_from_slice(line.as_slice())?;
        }
        self.room = self.depth;
        self.lost = 0;
        Ok(())
    }

    /// Returns the log, whose last stretch has ended.
    pub(crate) fn into_log(self) -> Log
        ensures { result ≡ self.text.items }
    {
        Log { text: self.text }
    }
}
