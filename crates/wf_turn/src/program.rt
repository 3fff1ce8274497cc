//! The program of a client: its lines one after another, as calls.

ghost use Rattle.std.specs.Prelude.{◌≡◌, ◌<◌, ◌≤◌, slice_get, IfOk, IfSome, IsSomeAnd, IsTrue, None};
ghost use Rattle.std.specs.List.{list_all};
ghost use Rattle.std.specs.Option.{option_copied, IfNone};
ghost use Rattle.wf_calls.specs.Parts.{is_begin};
ghost use Rattle.wf_calls.specs.Places.{job_in};
ghost use Rattle.wf_script.specs.Script.{is_line};
ghost use Rattle.wf_turn.specs.Going.{GoesOnAfter};
ghost use Rattle.wf_turn.specs.Program.{first_line, issued, handle, in_setup, is_begun, next, place_of};
ghost use Rattle.wf_turn.specs.Program.{line_of, program, taught, tick_of};
ghost use Rattle.wf_turn.specs.Quota.{left, quota};
ghost use Rattle.wf_turn.specs.Ready.{IsFit};

use crate::names::Names;
use crate::setup::setup_lines;
use crate::skipping::skip;
use crate::stage::{Asked, Stage, Wanted};
use std::alloc::Global;
use std::marker::Model;
use wf_calls::{JobPlace, Request};
use wf_image::Canvas;
use wf_script::{Line, Name, Script, Verb};
use wf_words::NoMemory;

/// The program of a client of a script. It hands out the calls of the client's lines one after another, and takes the
/// answers. Only `new` can lack memory.
#[derive(Drop)]
pub struct Program<'a> {
    pub(crate) script: &'a Script,
    pub(crate) client: u8,
    pub(crate) port_count: u32,
    pub(crate) at: usize,
    pub(crate) setup: usize,
    pub(crate) own: Names<'a>,
    pub(crate) learned: Names<'a>,
    pub(crate) canvas: Option<Canvas>,
    pub(crate) job: JobPlace,
    pub(crate) unpainted: bool,
    pub(crate) stage: Stage,
    pub(crate) tick: u32,
}

impl<'a> Model for Program<'a> {
    ghost use Rattle.wf_turn.specs.Program.{Program};
    ghost use Rattle.wf_turn.specs.Inside.{program_of, IsProgram};

    ghost Value = { Program };

    ghost view = { program_of };

    ghost invariant = { IsProgram };
}

/// Where a call is put that a program asks for: any call.
pub(crate) fn unasked() -> Asked {
    Asked {
        request: Request::DeviceNew,
        wait: false,
    }
}

/// A place that holds no Job. What it is made of is off the stack when it returns.
#[inline(never)]
fn empty_place(alloc: Global) -> Result<JobPlace, NoMemory>
    ensures { IfOk result (λ place. job_in place ≡ None) }
{
    JobPlace::new(alloc)
}

/// The line at a place, if there is one.
fn line_at(lines: &[Line], at: usize) -> Option<&Line>
    requires { IsTrue (list_all is_line lines.now) }
    ensures line { option_copied result ≡ slice_get lines.now at }
    ensures sound { IfSome result (λ l. IsTrue (is_line l.now)) }
{
    lines.get(at)
}

impl<'a> Program<'a> {
    /// Makes the program of a client before its first call.
    pub fn new(alloc: Global, script: &'a Script, client: u8) -> Result<Program<'a>, NoMemory>
        ensures program { IfOk result (λ p. p ≡ program script.now client) }
        ensures fit { IfOk result IsFit }
        ensures left { IfOk result (λ p. left p ≤ quota script.now.lines client) }
    {
        let lines = script.lines();
        let setup = setup_lines(lines);
        let own = Names::new(alloc, lines, client)?;
        let learned = Names::new(alloc, &lines[..setup], 0)?;
        let job = empty_place(alloc)?;
        let mut canvas = None;
        let at = skip(lines, client, 0, &mut canvas);
        Ok(Program {
            script,
            client,
            port_count: script.ports().modes.len() as u32,
            at,
            setup,
            own,
            learned,
            canvas,
            job,
            unpainted: false,
            stage: Stage::Fresh,
            tick: 0,
        })
    }

    /// The value of a name, or 0 for none.
    pub(crate) fn handle(&self, name: &'a Option<Name>) -> u32
        ensures { result ≡ handle self.now name.now }
    {
        let Some(name) = name else {
            return 0;
        };
        match self.own.value(name) {
            Some(value) => value,
            None => self.learned.value(name).unwrap_or(0),
        }
    }

    /// The line that is not through yet, if there is one.
    pub(crate) fn first_line(&self) -> Option<&'a Line>
        ensures line { option_copied result ≡ first_line self.now }
        ensures sound { IfSome result (λ l. IsTrue (is_line l.now)) }
    {
        line_at(self.script.lines(), self.at)
    }

    /// Returns the next call, or `None` where the client's lines are through. What the call carries goes out with it. No Job is
    /// held that is not painted yet, and no answer is owed. Once an answer is taken, and the Job that came is painted, there is
    /// a next call again, or the lines are through; a call that waits begins a frame.
    pub fn next(&mut self) -> Option<Wanted>
        ensures wanted { result ≡ next self.old }
        ensures issued { self.new ≡ issued self.old }
        ensures waits { IfSome result (λ w. IsTrue w.wait → IsTrue (is_begin w.call)) }
        ensures left { IsFit self.old → IfSome result (λ _. 0 < left self.old) }
        ensures goes_on { IsFit self.old → IfSome result (GoesOnAfter self.old) }
        ensures through { IsFit self.old → IfNone result (place_of self.old ≡ None) }
        ensures same { IsFit self.old → IfNone result (self.new ≡ self.old) }
    {
        let mut place = unasked();
        let asks = self.asks(&mut place);
        self.wanted(asks, place)
    }

    /// Returns the client whose program it is.
    pub fn client(&self) -> u8
        ensures { result ≡ self.now.client }
    {
        self.client
    }

    /// Returns the number of the running tick, from 1, or of the last one.
    pub fn tick(&self) -> u32
        ensures { result ≡ self.now.tick }
    {
        self.tick
    }

    /// Returns the place among the script's lines of the first one that is not through, or `None` where all are.
    pub fn place(&self) -> Option<usize>
        ensures place { result ≡ place_of self.now }
        ensures own { IfSome result (λ place. IsSomeAnd (slice_get self.now.script.lines place) (λ l. l.client ≡ self.now.client)) }
    {
        match self.first_line() {
            Some(_) => Some(self.at),
            None => None,
        }
    }

    /// Returns the place among the script's lines of the first one that is not through, where that is a tick, or `None`.
    pub(crate) fn tick_line(&self) -> Option<usize>
        ensures { result ≡ tick_of self.now }
    {
        let line = self.first_line()?;
        match line.verb {
            Verb::Tick => self.place(),
            _ => None,
        }
    }

    /// Returns the number of the line of the next event in the script's canonical text, counted from 1, or 0 where the client's
    /// lines are through.
    pub fn line(&self) -> u32
        ensures { result ≡ line_of self.now }
    {
        let ports = self.script.ports();
        match self.place() {
            Some(place) => {
                let before = if ports.pipes == 0 { 1 } else { 2 };
                before + self.port_count + place as u32 + 1
            }
            None => 0,
        }
    }

    /// Checks whether a line was begun that is not through.
    pub(crate) fn is_begun(&self) -> bool
        ensures { result ≡ is_begun self.now.stage }
    {
        match self.stage {
            Stage::Fresh => false,
            _ => true,
        }
    }

    /// Tells whether a line of the setup is not through: of client 0's lines before the first line of another client.
    pub fn in_setup(&self) -> bool
        ensures { result ≡ in_setup self.now }
    {
        match self.place() {
            Some(place) => place < self.setup,
            None => false,
        }
    }

    /// Takes over the values of the names that the setup bound. Both programs are of one script, and `clock` is client
    /// 0's.
    pub fn learn(&mut self, clock: &Program)
        requires script { clock.now.script ≡ self.old.script }
        requires clock { clock.now.client ≡ 0 }
        ensures taught { self.new ≡ taught clock.now self.old }
        ensures fit { IsFit self.old → IsFit self.new }
        ensures left { left self.new ≡ left self.old }
    {
        self.learned.learn(&clock.own);
    }
}
