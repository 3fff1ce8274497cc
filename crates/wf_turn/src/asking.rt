//! What a program asks for next: a call that brings nothing, which is put in its place, or a call that brings an image, which is told
//! without it.

ghost use Rattle.std.specs.Prelude.{◌≡◌, ◌≢◌, is_some, option_map, Some, None, true};
ghost use Rattle.std.specs.Prelude.{if◌then◌else◌};
ghost use Rattle.wf_calls.specs.Parts.{carries, is_begin, part_of};
ghost use Rattle.wf_calls.specs.Requests.{call_of};
ghost use Rattle.wf_turn.specs.Asked.{as_wanted, asked, begins_frame, given, handed, is_ending, takes_job};
ghost use Rattle.wf_turn.specs.Calls.{plain_call};
ghost use Rattle.wf_turn.specs.Program.{asked_for, first_call, handle, kept_first, next, plain};

use crate::program::Program;
use crate::stage::{Asked, Asks, Phase, Stage, Wanted};
use wf_calls::{Call, Request};
use wf_script::{Name, Verb};

/// A call that waits for nothing.
fn plain(call: Call) -> Wanted
    ensures { result ≡ plain call }
{
    Wanted { call, wait: false }
}

/// Asks for what a tick asks for.
fn ask_phase(place: &mut Asked, phase: Phase) -> Asks
    ensures asks { result ≡ Asks.Call }
    ensures put { as_wanted place.new ≡ asked_for phase }
{
    place.wait = true;
    place.request = match phase {
        Phase::Contexts { last, .. } => Request::BeginNext { after: last },
        Phase::Ports { port } => Request::BeginPort { port: port.into() },
    };
    Asks::Call
}

/// Whether a line's first call begins a frame.
fn begins_frame(verb: &Verb) -> bool
    ensures { result ≡ begins_frame verb.now }
{
    match verb {
        Verb::Tick | Verb::Compose { .. } | Verb::TryCompose { .. } => true,
        _ => false,
    }
}

impl<'a> Program<'a> {
    /// What a line of one call that waits for nothing asks for, if it is such a line.
    fn ask_one(&self, verb: &'a Verb, place: &mut Asked) -> Asks
        ensures asked { asked self.now.job (as_wanted place.new) result ≡ option_map plain (plain_call (handle self.now) verb.now) }
        ensures call { result ≡ Asks.Call → carries (part_of (call_of place.new.request)) ≡ is_begin (call_of place.new.request) }
        ensures other { result ≢ Asks.End }
    {
        place.wait = false;
        if self.plain_call(verb, &mut place.request) {
            Asks::Call
        } else {
            Asks::Nothing
        }
    }

    /// Asks for a frame of a context.
    fn ask_composed(
        &self,
        device: &'a Option<Name>,
        context: &'a Option<Name>,
        wait: bool,
        place: &mut Asked,
    ) -> Asks
        ensures asks { result ≡ Asks.Call }
        ensures put { as_wanted place.new
            ≡ record { call = Call.BeginContext (handle self.now device.now) (handle self.now context.now); wait = wait } }
    {
        place.wait = wait;
        place.request = Request::BeginContext {
            device: self.handle(device),
            context: self.handle(context),
        };
        Asks::Call
    }

    /// Asks for a stream's write buffer, unless one is held.
    fn ask_buffer(&self, stream: &'a Option<Name>) -> Asks
        ensures asked { (w : Wanted) → asked self.now.job w result
            ≡ (if is_some self.now.canvas then None else Some (plain (Call.Acquire (handle self.now stream.now)))) }
        ensures carries { (result ≢ Asks.Call) × (result ≢ Asks.End) }
    {
        if self.canvas.is_some() {
            return Asks::Nothing;
        }
        Asks::Acquire {
            stream: self.handle(stream),
        }
    }

    /// Hands the canvas out, to be posted.
    fn ask_post(&mut self) -> Asks
        ensures asked { (w : Wanted) → asked self.old.job w result ≡ option_map (λ canvas. plain (Call.Post canvas)) self.old.canvas }
        ensures carries { (result ≢ Asks.Call) × (result ≢ Asks.End) }
        ensures issued { self.new ≡ record self.old { canvas = None } }
    {
        match self.canvas.take() {
            Some(canvas) => Asks::Post(canvas),
            None => Asks::Nothing,
        }
    }

    /// Hands the canvas out, to be given back.
    fn ask_discard(&mut self) -> Asks
        ensures asked { (w : Wanted) → asked self.old.job w result ≡ option_map (λ canvas. plain (Call.Discard canvas)) self.old.canvas }
        ensures carries { (result ≢ Asks.Call) × (result ≢ Asks.End) }
        ensures issued { self.new ≡ record self.old { canvas = None } }
    {
        match self.canvas.take() {
            Some(canvas) => Asks::Discard(canvas),
            None => Asks::Nothing,
        }
    }

    /// What a line asks for first, if it makes an event.
    fn ask_first(&mut self, verb: &'a Verb, place: &mut Asked) -> Asks
        ensures asked { asked self.old.job (as_wanted place.new) result ≡ first_call self.old verb.now }
        ensures call { result ≡ Asks.Call → carries (part_of (call_of place.new.request)) ≡ is_begin (call_of place.new.request) }
        ensures other { result ≢ Asks.End }
        ensures issued { self.new ≡ record self.old { canvas = kept_first verb.now self.old.canvas } }
    {
        match verb {
            Verb::Acquire { stream } | Verb::Frame { stream, .. } => self.ask_buffer(stream),
            Verb::Post => self.ask_post(),
            Verb::Discard => self.ask_discard(),
            Verb::Paint(_) => Asks::Nothing,
            Verb::Tick => ask_phase(place, Phase::Contexts { asked: 0, last: 0 }),
            Verb::Compose { device, context } => self.ask_composed(device, context, true, place),
            Verb::TryCompose { device, context } => {
                self.ask_composed(device, context, false, place)
            }
            _ => self.ask_one(verb, place),
        }
    }

    /// What is asked for next. A Job to be ended stays where it is held, and a canvas goes out.
    pub(crate) fn asks(&mut self, place: &mut Asked) -> Asks
        ensures asked { asked self.old.job (as_wanted place.new) result ≡ next self.old }
        ensures call { result ≡ Asks.Call → carries (part_of (call_of place.new.request)) ≡ is_begin (call_of place.new.request) }
        ensures end { result ≡ Asks.End → is_ending self.old ≡ true }
        ensures issued { self.new ≡ handed self.old result }
    {
        let Some(line) = self.first_line() else {
            return Asks::Nothing;
        };
        match self.stage {
            Stage::Fresh => self.ask_first(&line.verb, place),
            Stage::Posting => self.ask_post(),
            Stage::Ticking(phase) => ask_phase(place, phase),
            Stage::Ending(_) => Asks::End,
        }
    }

    /// The call that was asked for. What it carries goes out with it.
    pub(crate) fn wanted(&mut self, asks: Asks, place: Asked) -> Option<Wanted>
        ensures wanted { result ≡ asked self.old.job (as_wanted place) asks }
        ensures issued { self.new ≡ given self.old asks }
    {
        match asks {
            Asks::Nothing => None,
            Asks::Call => Some(Wanted {
                call: place.request.call(),
                wait: place.wait,
            }),
            Asks::Acquire { stream } => Some(plain(Call::Acquire { stream })),
            Asks::Post(canvas) => Some(plain(Call::Post(canvas))),
            Asks::Discard(canvas) => Some(plain(Call::Discard(canvas))),
            Asks::End => match self.job.take() {
                Some(job) => Some(plain(Call::End(job))),
                None => None,
            },
        }
    }

    /// Whether the next call begins a frame, whose Job is held then.
    pub(crate) fn takes_job(&self) -> bool
        ensures { result ≡ takes_job self.now }
    {
        let Some(line) = self.first_line() else {
            return false;
        };
        match self.stage {
            Stage::Fresh => begins_frame(&line.verb),
            Stage::Ticking(_) => true,
            Stage::Posting | Stage::Ending(_) => false,
        }
    }
}
