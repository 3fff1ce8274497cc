//! The machine.

ghost use Rattle.std.specs.Prelude.{◌≡◌, ◌<◌, ◌≤◌, ◌&&◌, IfOk, IfSome, IsSome, IsTrue, None, false, length, not, true};
ghost use Rattle.std.specs.Option.{IfNone};
ghost use Rattle.wf_stream.specs.Streams.{held};
ghost use Rattle.wf_calls.specs.Creations.{is_creation};
ghost use Rattle.wf_calls.specs.Parts.{carries, is_begin, part_of};
ghost use Rattle.wf_calls.specs.Places.{job_in};
ghost use Rattle.wf_calls.specs.Replies.{bare, with_canvas, with_job};
ghost use Rattle.wf_calls.specs.PortRules.{may_declare};
ghost use Rattle.wf_calls.specs.Requests.{brings, call_of};
ghost use Rattle.wf_model.specs.Names.{kept, names};
ghost use Rattle.wf_model.specs.Frames.{is_running};
ghost use Rattle.wf_model.specs.State.{opening};
ghost use Rattle.wf_machine.specs.Object.{IsMarkedStep, IsRefusal, IsStep, MayAnswer, MayDeny, after, denied, is_ready};

use crate::parts::Parts;
use crate::replies::with_canvas;
use std::alloc::Global;
use std::marker::Model;
use wf_calls::{Answer, Call, Job, JobPlace, MOST_PIPELINES, Ports, Reply, Request};
use wf_image::Canvas;
use wf_model::{Pipeline, Port};
use wf_stream::Held;
use wf_words::NoMemory;

/// Everything that the clients call. Between two calls it keeps just the streams that something names.
#[derive(Drop)]
pub struct Machine {
    parts: Parts,
    // Where `run` has its Jobs: off the stack, since a machine is moved when it is made.
    place: Box<JobPlace>,
}

/// A place that holds no Job, off the stack.
#[inline(never)]
fn boxed_place(alloc: Global) -> Result<Box<JobPlace>, NoMemory> {
    let place = JobPlace::new(alloc)?;
    Ok(Box::new(alloc, place)?)
}

impl Model for Machine {
    ghost use Rattle.wf_model.specs.State.{State};
    ghost use Rattle.wf_machine.specs.Object.{IsSettled};

    ghost Value = { State };

    ghost view = { λ m. m.parts };

    ghost invariant = { λ m. IsSettled m.parts };
}

impl Machine {
    /// Makes the machine before the first call: for each port a screen, and an image for the frames of each of its modes.
    pub fn open(alloc: Global, ports: &Ports) -> Result<Machine, NoMemory>
        requires { IsTrue (may_declare ports.now) }
        ensures { IfOk result (λ machine. machine ≡ opening ports.now) }
    {
        Ok(Machine {
            parts: Parts::open(alloc, ports)?,
            place: boxed_place(alloc)?,
        })
    }

    /// Answers a client's call that brings nothing and takes nothing, as `run` does, or none where it is another call. It
    /// moves no image and no Job, and is what `run` stands on.
    pub fn answer(&mut self, client: u8, call: &Request) -> Option<Answer>
        ensures carries { IfNone result (IsTrue (carries (part_of (call_of call.now))) × (self.new ≡ self.old)) }
        ensures after { IfSome result (λ answer. self.new ≡ after self.old client (call_of call.now) (bare answer)) }
        ensures may { IfSome result (λ answer. MayAnswer self.old client (call_of call.now) (bare answer)) }
        ensures lifetime { self.new.streams ≡ kept self.new }
        ensures refused { IfSome result (λ answer. IsRefusal self.old self.new (call_of call.now) answer.code) }
    {
        self.parts.act_plain(call)
    }

    /// Begins a frame as `run` does for a `call` that begins one. The Job that comes is written in `place`, which stays empty where none
    /// comes: so no Job is moved, and none is lost.
    pub fn begin(&mut self, client: u8, call: &Request, place: &mut JobPlace) -> Answer
        requires begins { IsTrue (is_begin (call_of call.now)) }
        requires empty { job_in place.old ≡ None }
        ensures step { IsStep self.old client (call_of call.now) self.new (with_job result (job_in place.new)) }
        ensures lifetime { self.new.streams ≡ kept self.new }
    {
        self.parts.act_begin(call, place)
    }

    /// Ends the running frame as `run` does, by the Job in this place. A Job that is not the running frame's stays there.
    pub fn end(&mut self, client: u8, place: &mut JobPlace) -> Answer
        requires { IsSome (job_in place.old) }
        ensures step { IfSome (job_in place.old)
            (λ j. IsStep self.old client (Call.End j) self.new (with_job result (job_in place.new))) }
        ensures lifetime { self.new.streams ≡ kept self.new }
    {
        self.parts.act_end(place)
    }

    /// Takes a stream's write buffer, as `run` does, if it is free.
    pub fn acquire(&mut self, client: u8, stream: u32) -> (Answer, Option<Canvas>)
        ensures step { IsStep self.old client (Call.Acquire stream) self.new (with_canvas result) }
        ensures lifetime { self.new.streams ≡ kept self.new }
    {
        self.parts.act_acquire(stream)
    }

    /// Posts a write buffer, which waits in its stream as a finished image, as `run` does. One that is refused comes back.
    pub fn post(&mut self, client: u8, canvas: Canvas) -> (Answer, Option<Canvas>)
        ensures step { IsStep self.old client (Call.Post canvas) self.new (with_canvas result) }
        ensures lifetime { self.new.streams ≡ kept self.new }
    {
        self.parts.act_post(canvas)
    }

    /// Gives a write buffer back unseen, as `run` does. One that is refused comes back.
    pub fn discard(&mut self, client: u8, canvas: Canvas) -> (Answer, Option<Canvas>)
        ensures step { IsStep self.old client (Call.Discard canvas) self.new (with_canvas result) }
        ensures lifetime { self.new.streams ≡ kept self.new }
    {
        self.parts.act_discard(canvas)
    }

    /// Runs a client's call that begins a frame.
    fn run_begin(&mut self, client: u8, call: &Request) -> Reply
        requires { IsTrue (is_begin (call_of call.now)) }
        ensures step { IsStep self.old client (call_of call.now) self.new result }
    {
        let place = &mut *self.place;
        place.clear();
        let answer = self.parts.act_begin(call, place);
        Reply::with_job(answer, place.take())
    }

    /// Takes the write buffer that a client's call asks for.
    fn take(&mut self, client: u8, call: &Request) -> (Answer, Option<Canvas>)
        requires carries { IsTrue (carries (part_of (call_of call.now))) }
        requires small { is_begin (call_of call.now) ≡ false }
        ensures step { IsStep self.old client (call_of call.now) self.new (with_canvas result) }
    {
        match call {
            Request::Acquire { stream } => self.acquire(client, *stream),
            // Nothing else takes something and begins no frame, as the proof shows.
            _ => unreachable!(),
        }
    }

    /// Runs a client's call that brings nothing, and may take a write buffer or a Job.
    fn run_taking(&mut self, client: u8, call: &Request) -> Reply
        requires { IsTrue (carries (part_of (call_of call.now))) }
        ensures step { IsStep self.old client (call_of call.now) self.new result }
    {
        if call.is_begin() {
            self.run_begin(client, call)
        } else {
            with_canvas(self.take(client, call))
        }
    }

    /// Runs a client's call that brings nothing and begins no frame, as `run` does.
    pub(crate) fn run_small(&mut self, client: u8, call: &Request) -> (Answer, Option<Canvas>)
        requires { is_begin (call_of call.now) ≡ false }
        ensures step { IsStep self.old client (call_of call.now) self.new (with_canvas result) }
    {
        match self.answer(client, call) {
            Some(answer) => (answer, None),
            None => self.take(client, call),
        }
    }

    /// Runs a client's call that brings nothing.
    fn run_request(&mut self, client: u8, call: &Request) -> Reply
        ensures step { IsStep self.old client (call_of call.now) self.new result }
    {
        match self.answer(client, call) {
            Some(answer) => Reply::bare(answer),
            None => self.run_taking(client, call),
        }
    }

    /// Runs a client's End.
    fn run_end(&mut self, client: u8, job: Job) -> Reply
        ensures step { IsStep self.old client (Call.End job) self.new result }
    {
        let place = &mut *self.place;
        place.put(job);
        let answer = self.parts.act_end(place);
        Reply::with_job(answer, place.take())
    }

    /// Runs a client's call that brings a write buffer or a Job.
    fn run_bringing(&mut self, client: u8, call: Call) -> Reply
        requires { IsTrue (brings call) }
        ensures step { IsStep self.old client call self.new result }
    {
        match call {
            Call::Post(canvas) => with_canvas(self.post(client, canvas)),
            Call::Discard(canvas) => with_canvas(self.discard(client, canvas)),
            Call::End(job) => self.run_end(client, job),
            // Nothing else is brought, as the proof shows.
            _ => unreachable!(),
        }
    }

    /// Runs a client's call, as one indivisible step. A stream that the call leaves without a name is dropped in it. A
    /// creation for which there is no memory answers OutOfMemory. A refused call leaves all as it was, but that the call's
    /// error register takes the refusal where it is empty.
    pub fn run(&mut self, client: u8, call: Call) -> Reply
        ensures after { self.new ≡ after self.old client call result }
        ensures may { MayAnswer self.old client call result }
        ensures lifetime { self.new.streams ≡ kept self.new }
        ensures refused { IsRefusal self.old self.new call result.code }
    {
        match call.request() {
            Some(request) => self.run_request(client, &request),
            None => self.run_bringing(client, call),
        }
    }

    /// Refuses a creation as `run` does where there is no memory for it: one that no other refusal meets answers OutOfMemory.
    fn refuse(&mut self, client: u8, call: &Request) -> Reply
        requires { IsTrue (is_creation (call_of call.now)) }
        ensures step { IsMarkedStep true self.old client (call_of call.now) self.new result }
        ensures lifetime { self.new.streams ≡ kept self.new }
    {
        self.parts.deny(call)
    }

    /// Answers a client's call that brings nothing, where memory is refused to it.
    fn deny_request(&mut self, client: u8, call: &Request) -> Reply
        ensures step { IsMarkedStep true self.old client (call_of call.now) self.new result }
    {
        if call.is_creation() {
            self.refuse(client, call)
        } else {
            self.run_request(client, call)
        }
    }

    /// Answers a client's call as `run` does, but that memory is refused to it: a creation that no other refusal meets answers
    /// OutOfMemory, and makes nothing. So an event is played again that was refused where memory ran out.
    pub fn deny(&mut self, client: u8, call: Call) -> Reply
        ensures after { self.new ≡ denied self.old client call }
        ensures may { MayDeny self.old client call result }
        ensures lifetime { self.new.streams ≡ kept self.new }
        ensures refused { IsRefusal self.old self.new call result.code }
    {
        match call.request() {
            Some(request) => self.deny_request(client, &request),
            None => self.run_bringing(client, call),
        }
    }

    /// Whether a call can be answered now that begins a frame or does not.
    fn is_free(&self, begins: bool) -> bool
        ensures { result ≡ not (begins && is_running self.now) }
    {
        !begins || !self.parts.frame.is_running()
    }

    /// Tells whether a call can be answered now: no call that begins a frame waits for the running one.
    pub fn ready(&self, call: &Call) -> bool
        ensures { result ≡ is_ready self.now call.now }
    {
        self.is_free(call.is_begin())
    }

    /// Tells the same of a call that brings nothing.
    pub fn ready_for(&self, call: &Request) -> bool
        ensures { result ≡ is_ready self.now (call_of call.now) }
    {
        self.is_free(call.is_begin())
    }

    /// Returns the number of names of a stream, whose number counts from 1 all streams that were ever made, screens included; 0
    /// where none is kept.
    pub fn count(&self, stream: u32) -> u32
        requires { 0 < stream }
        ensures { result ≡ length (names self.now stream) }
    {
        self.parts.count(stream)
    }

    /// Returns how many streams are kept, and the bytes of their buffers.
    pub fn held(&self) -> Held
        ensures held { result ≡ held self.now.streams }
        ensures lifetime { self.now.streams ≡ kept self.now }
    {
        self.parts.store.held()
    }

    /// Returns the ports, by rising number from 1.
    pub fn ports(&self) -> &[Port]
        ensures ports { result.now ≡ self.now.display.ports }
        ensures few { length result.now ≤ 4 }
    {
        self.parts.display.ports()
    }

    /// Returns the pipelines, by rising number from 1.
    pub fn pipelines(&self) -> &[Pipeline]
        ensures pipelines { result.now ≡ self.now.display.pipelines }
        ensures few { length result.now ≤ MOST_PIPELINES }
    {
        self.parts.display.pipelines()
    }
}
