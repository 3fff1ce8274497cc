//! A show: the machine, and the programs of the eight clients.

ghost use Rattle.std.specs.Prelude.{◌≡◌, ◌+◌, ◌-◌, ◌*◌, ◌<◌, ◌≤◌, ◌^◌, ◌&&◌, ◌||◌, ◌==◌, nat_lt, not, map, option_map, length};
ghost use Rattle.std.specs.Prelude.{flat_map, IfOk, IfErr, IfSome, IsTrue, MatchOption, OnOk};
ghost use Rattle.wf_film.specs.Film.{frame_bytes};
ghost use Rattle.wf_film.specs.Frames.{PutsFrames};
ghost use Rattle.wf_io.specs.Bytes.{PutsPart};
ghost use Rattle.wf_io.specs.Causes.{HasCause};
ghost use Rattle.wf_machine.specs.Object.{IsPaintable};
ghost use Rattle.wf_turn.specs.Play.{first_client, is_marked};
ghost use Rattle.wf_turn.specs.Played.{IsFirstStill};
ghost use Rattle.wf_turn.specs.Playing.{HasNoTurn, HoldsPaintable, IsCast, Turned, may_turn, shown_by};
ghost use Rattle.wf_turn.specs.Program.{place_of};
ghost use Rattle.wf_turn.specs.Turns.{is_over, opening_show, shown, tick_line};

use crate::cast::Cast;
use crate::program::unasked;
use crate::stage::Asked;
use crate::turning::take_turn;
use std::alloc::Global;
use std::marker::Model;
use wf_calls::{Job, JobKind, Turn};
use wf_film::{FRAME_BYTES, Writer};
use wf_io::{Sink, WriteStop};
use wf_kernel::Painter;
use wf_machine::Machine;
use wf_script::Script;
use wf_words::NoMemory;

/// The machine, the programs of the eight clients of a script by their numbers, the place where each turn puts its call, and the
/// number of turns so far. It goes on by one turn at a time, of whichever client.
#[derive(Drop)]
pub struct Show<'a> {
    machine: Machine,
    cast: Cast<'a>,
    place: Asked,
    turns: u32,
}

impl<'a> Model for Show<'a> {
    ghost use Rattle.wf_turn.specs.Turns.{Show};
    ghost use Rattle.wf_turn.specs.Playing.{show_of};

    ghost Value = { Show };

    ghost view = { show_of };
}

/// The number of clients.
const CLIENTS: usize = 8;

/// Checks that a client may have a turn: it is one of the eight, and the clock while the setup is not through.
fn may_turn(client: usize, in_setup: bool) -> bool
    ensures { result ≡ (nat_lt client 8 && not (not (client == 0) && in_setup)) }
{
    client < CLIENTS && !(client != 0 && in_setup)
}

impl<'a> Show<'a> {
    /// Opens the machine before its first call, and the programs of `script` before theirs. What it moves is off the stack when it
    /// returns.
    #[inline(never)]
    pub fn open(alloc: Global, script: &'a Script) -> Result<Show<'a>, NoMemory>
        ensures opened { IfOk result (λ show. show ≡ opening_show script.now) }
        ensures cast { IfOk result IsCast }
    {
        let machine = Machine::open(alloc, script.ports())?;
        let cast = Cast::open(alloc, script)?;
        Ok(Show {
            machine,
            cast,
            place: unasked(),
            turns: 0,
        })
    }

    /// Returns the machine as the turns so far left it.
    pub fn machine(&self) -> &Machine
        ensures { result.now ≡ self.now.state }
    {
        &self.machine
    }

    /// Returns the place among the script's lines of the clock's line, where that is a tick, or `None`.
    pub fn tick_line(&self) -> Option<usize>
        ensures { result ≡ tick_line self.now.programs }
    {
        self.cast.tick_line()
    }

    /// Returns the number of turns so far.
    pub fn turns(&self) -> u32
        ensures { result ≡ self.now.turns }
    {
        self.turns
    }

    /// Finds the client of the first line in the file that is not through, or `None` where all are.
    pub(crate) fn first(&self) -> Option<usize>
        requires cast { IsCast self.now }
        ensures first { option_map (λ c. c.0) (first_client (map place_of self.now.programs)) ≡ result }
        ensures allowed { IfSome result (λ c. IsTrue (may_turn self.now.programs c)) }
    {
        match self.cast.first() {
            Some((client, _)) => Some(client),
            None => None,
        }
    }

    /// Finds, after a turn of the client `last`, the client of the first line in the file that is not through, or `None` where all are.
    /// While the line of `last` was begun and is not through, that is the one.
    pub(crate) fn first_after(&self, last: usize) -> Option<usize>
        requires cast { IsCast self.now }
        requires still { IsFirstStill self.now.programs last }
        ensures first { option_map (λ c. c.0) (first_client (map place_of self.now.programs)) ≡ result }
        ensures allowed { IfSome result (λ c. IsTrue (may_turn self.now.programs c)) }
    {
        if self.cast.program(last).is_begun() {
            Some(last)
        } else {
            self.first()
        }
    }

    /// Checks that every program is through.
    pub(crate) fn is_over(&self) -> bool
        ensures { result ≡ is_over self.now }
    {
        self.cast.is_over()
    }

    /// Takes the turn of `client`, to which memory is refused where `memory_refused` says so, and lets `painter` paint the Job that
    /// comes. Returns the entry, and whether a Job was painted; or `None` where `client` has no turn now. After `None` the show is of
    /// no further use.
    pub fn turn<P: Painter>(
        &mut self,
        client: usize,
        memory_refused: bool,
        painter: &mut P,
    ) -> Option<(Turn, bool)>
        requires ready { P.ready }
        requires cast { IsCast self.old }
        requires early { self.old.turns < 2 ^ 32 - 1 }
        ensures { MatchOption result (HasNoTurn self.old client)
            (λ x. Turned self.old client (memory_refused || is_marked x.0) self.new x.0 x.1) }
    {
        let was_setup = self.cast.in_setup();
        if !may_turn(client, was_setup) {
            return None;
        }
        let taken = self.cast.take_turn(
            &mut self.machine,
            client,
            memory_refused,
            &mut self.place,
            painter,
        );
        match taken {
            Some(taken) => {
                self.cast.hand_on(was_setup);
                self.turns += 1;
                Some(taken)
            }
            None => None,
        }
    }

    /// Puts the frame of the Job that `client`'s program holds, if one was painted and it is a port's, as begun by the turn of the
    /// place `begin`.
    pub(crate) fn put_frame<K: Sink>(
        &self,
        client: usize,
        painted: bool,
        begin: u32,
        k: &mut K,
        writer: &mut Writer,
    ) -> Result<(), WriteStop>
        requires cast { IsCast self.now }
        requires within { client < 8 }
        requires paintable { IsTrue painted → HoldsPaintable self.now.programs client }
        requires few { writer.old.written < 2 ^ 62 }
        ensures all { OnOk result (PutsFrames K.took k.old k.new writer.old.form writer.old.written writer.new.written
            (shown_by begin painted self.now.programs client)) }
        ensures form { writer.new.form ≡ writer.old.form }
        ensures most { OnOk result (writer.new.written ≤ writer.old.written + FRAME_BYTES) }
        ensures part { IfErr result (λ stop. PutsPart K.took k.old k.new writer.old.written
            (flat_map (frame_bytes writer.old.form) (shown_by begin painted self.now.programs client)) stop.written) }
        ensures cause { HasCause (K.faults k.old) (K.faults k.new) result }
    {
        if !painted {
            return Ok(());
        }
        let program = self.cast.program(client);
        match program.job() {
            Some(job) => put_job(k, writer, program.tick(), begin, job),
            None => Ok(()),
        }
    }
}

/// Puts the frame that a painted `job` shows in a tick, if it is a port's, as begun by the turn of the place `begin`.
pub fn put_job<K: Sink>(
    k: &mut K,
    writer: &mut Writer,
    tick: u32,
    begin: u32,
    job: &Job,
) -> Result<(), WriteStop>
    requires paintable { IsPaintable job.now }
    requires few { writer.old.written < 2 ^ 62 }
    ensures all { OnOk result (PutsFrames K.took k.old k.new writer.old.form writer.old.written writer.new.written
        (shown job.now.kind tick begin job.now)) }
    ensures form { writer.new.form ≡ writer.old.form }
    ensures most { OnOk result (writer.new.written ≤ writer.old.written + FRAME_BYTES) }
    ensures part { IfErr result (λ stop. PutsPart K.took k.old k.new writer.old.written
        (flat_map (frame_bytes writer.old.form) (shown job.now.kind tick begin job.now)) stop.written) }
    ensures cause { HasCause (K.faults k.old) (K.faults k.new) result }
{
    match job.kind {
        JobKind::Context { .. } => Ok(()),
        JobKind::Port { port } => writer.frame(k, port as u8, tick, begin, &job.image),
    }
}
