//! Calls in which no frame begins or ends, as operations at a desk.

ghost use Rattle.std.specs.Prelude.{◌≡◌, IsTrue, MatchOption, false};
ghost use Rattle.wf_calls.specs.Parts.{is_begin};
ghost use Rattle.wf_calls.specs.Replies.{with_canvas};
ghost use Rattle.wf_calls.specs.Requests.{call_of};
ghost use Rattle.wf_machine.specs.SmallCalls.{call_asked};

use crate::machine::Machine;
use std::marker::Model;
use wf_calls::{Answer, Call, Request, Turn};
use wf_desk::Operation;
use wf_image::Canvas;

#[derive(Drop)]
pub(crate) enum Asked {
    Request(Request),
    Post(Canvas),
    Discard(Canvas),
}

/// A call in which no frame begins or ends. It moves a canvas at most, where each `Call` and each `Reply` has the room of a Job.
/// Clauses see it as the call.
#[derive(Drop)]
pub struct SmallCall {
    asked: Asked,
}

impl Model for SmallCall {
    ghost use Rattle.std.specs.Prelude.{◌≡◌, false};
    ghost use Rattle.wf_calls.specs.declared.call.Call.{Call};
    ghost use Rattle.wf_calls.specs.Parts.{is_begin};
    ghost use Rattle.wf_machine.specs.SmallCalls.{call_asked};

    ghost Value = { Call };

    ghost view = { λ small. call_asked small.asked };

    ghost invariant = { λ small. is_begin (call_asked small.asked) ≡ false };
}

impl SmallCall {
    /// Makes the call of `request`, or returns `None` where it begins a frame.
    pub fn of(request: Request) -> Option<SmallCall>
        ensures { MatchOption result (IsTrue (is_begin (call_of request))) (λ small. small ≡ call_of request) }
    {
        if request.is_begin() {
            None
        } else {
            Some(SmallCall {
                asked: Asked::Request(request),
            })
        }
    }

    /// Makes the call that posts `canvas`.
    pub fn post(canvas: Canvas) -> SmallCall
        ensures { result ≡ Call.Post canvas }
    {
        SmallCall {
            asked: Asked::Post(canvas),
        }
    }

    /// Makes the call that gives `canvas` back unseen.
    pub fn discard(canvas: Canvas) -> SmallCall
        ensures { result ≡ Call.Discard canvas }
    {
        SmallCall {
            asked: Asked::Discard(canvas),
        }
    }

    /// Shows the prover that no frame begins in this call. Does nothing at run time.
    fn prove_small(&self)
        ensures { is_begin self.now ≡ false }
    {
        let _asked = &self.asked;
    }

    fn into_asked(self) -> Asked
        ensures asked { call_asked result ≡ self }
        ensures small { is_begin (call_asked result) ≡ false }
    {
        self.asked
    }
}

/// At a desk a small call is the event of its call, with the reply of its answer and the canvas that comes with that.
impl Operation<Machine> for SmallCall {
    type Answer = (Answer, Option<Canvas>);

    ghost call = { λ small. small };

    ghost reply = { with_canvas };

    fn ready(&self, _machine: &Machine) -> bool {
        self.prove_small();
        true
    }

    fn run(self, machine: &mut Machine, client: u8) -> (Answer, Option<Canvas>) {
        match self.into_asked() {
            Asked::Request(request) => machine.run_small(client, &request),
            Asked::Post(canvas) => machine.post(client, canvas),
            Asked::Discard(canvas) => machine.discard(client, canvas),
        }
    }

    fn entry(client: u8, answer: &(Answer, Option<Canvas>)) -> Turn {
        answer.0.entry(client)
    }
}
