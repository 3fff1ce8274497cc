//! A call, and what it does.

ghost use Rattle.std.specs.Prelude.{◌≡◌, IsTrue, IfSome, IsSome, MatchOption};
ghost use Rattle.wf_calls.specs.Parts.{carries, is_of_core, part_of};
ghost use Rattle.wf_calls.specs.Places.{job_in};
ghost use Rattle.wf_calls.specs.Replies.{bare, with_canvas, with_job};
ghost use Rattle.wf_calls.specs.Requests.{call_of};
ghost use Rattle.wf_machine.specs.Object.{IsAct};

use crate::parts::Parts;
use wf_calls::{Answer, Call, JobPlace, Part, Request};
use wf_image::Canvas;

impl Parts {
    /// Does what a call asks for that brings nothing and takes nothing, or none where it is another call.
    pub(crate) fn act_plain(&mut self, call: &Request) -> Option<Answer>
        ensures { MatchOption result (IsTrue (carries (part_of (call_of call.now)))
            × (self.new ≡ self.old)) (λ answer. IsAct self.old (call_of call.now) self.new (bare answer)) }
    {
        match call.part() {
            Part::Streams => Some(self.act_on_streams(call)),
            Part::Composition { .. } => Some(self.act_on_objects(call)),
            Part::Display => Some(self.act_on_display(call)),
            Part::Buffers | Part::Begin { .. } | Part::End => None,
        }
    }

    /// Does what a call of composition asks for.
    fn act_on_objects(&mut self, call: &Request) -> Answer
        requires { IsTrue (is_of_core (part_of (call_of call.now))) }
        ensures { IsAct self.old (call_of call.now) self.new (bare result) }
    {
        let screen = self.screen_of(call);
        self.core.prove_few_names();
        self.display.prove_few_names();
        self.core.run(&mut self.store, call, screen)
    }

    /// Does what a call of the display asks for.
    fn act_on_display(&mut self, call: &Request) -> Answer
        requires { part_of (call_of call.now) ≡ Part.Display }
        ensures { IsAct self.old (call_of call.now) self.new (bare result) }
    {
        self.core.prove_few_names();
        self.display.prove_few_names();
        self.display.run(&mut self.store, call)
    }

    /// Ends the frame of the Job in a place.
    pub(crate) fn act_end(&mut self, place: &mut JobPlace) -> Answer
        requires { IsSome (job_in place.old) }
        ensures { IfSome (job_in place.old) (λ j. IsAct self.old (Call.End j) self.new (with_job result (job_in place.new))) }
    {
        self.end(place)
    }

    /// Takes a stream's write buffer.
    pub(crate) fn act_acquire(&mut self, stream: u32) -> (Answer, Option<Canvas>)
        ensures { IsAct self.old (Call.Acquire stream) self.new (with_canvas result) }
    {
        self.acquire(stream)
    }

    /// Posts a write buffer, which waits in its stream as a finished image.
    pub(crate) fn act_post(&mut self, canvas: Canvas) -> (Answer, Option<Canvas>)
        ensures { IsAct self.old (Call.Post canvas) self.new (with_canvas result) }
    {
        self.post(canvas)
    }

    /// Gives a write buffer back unseen.
    pub(crate) fn act_discard(&mut self, canvas: Canvas) -> (Answer, Option<Canvas>)
        ensures { IsAct self.old (Call.Discard canvas) self.new (with_canvas result) }
    {
        self.discard(canvas)
    }
}
