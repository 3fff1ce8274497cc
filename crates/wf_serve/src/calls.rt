//! Messages of calls and paints, and frames that the window manager asks for.

ghost use Rattle.std.specs.Prelude.{◌≡◌, [], ◌++◌, IsTrue, None, Some};
ghost use Rattle.wf_calls.specs.Parts.{is_begin};
ghost use Rattle.wf_calls.specs.Places.{job_in};
ghost use Rattle.wf_calls.specs.Requests.{call_of};
ghost use Rattle.wf_serve.specs.AnswerBytes.{answer_bytes, answer_to};
ghost use Rattle.wf_serve.specs.Bodies.{message_in};
ghost use Rattle.wf_serve.specs.Heard.{begin_in, shot_bytes};
ghost use Rattle.wf_serve.specs.Steps.{BeginsOne, Calls};
ghost use Rattle.wf_wire.specs.Messages.{may_paint};

use crate::answers::Answers;
use crate::body::message_in;
use crate::hearing::put_one;
use crate::live::Core;
use crate::tick::{begin, end};
use wf_calls::{Code, JobPlace, Request};
use wf_host::Told;
use wf_wire::Message;

/// Answers a `request` of `client` that began a frame, with the picture that stands in `place` where it is a port's.
fn put_shot(
    answers: &mut Answers,
    client: u8,
    number: u8,
    told: Told,
    request: &Request,
    place: &JobPlace,
)
    requires { answers.old ≡ [] }
    ensures { answers.new ≡ answer_bytes (answer_to client number told (shot_bytes (call_of request.now) (job_in place.now))) }
{
    match (request, place.job()) {
        (Request::BeginPort { .. }, Some(job)) => {
            answers.put_picture(client, number, told, &job.image);
        }
        _ => put_one(answers, client, number, told),
    }
}

impl Core {
    /// Begins a frame by a `request` of `client`, paints it and ends it at once, and answers, with the picture where it is a port's.
    fn begin_one(&mut self, client: u8, number: u8, request: &Request, answers: &mut Answers)
        requires begins { IsTrue (is_begin (call_of request.now)) }
        requires none { answers.old ≡ [] }
        ensures { BeginsOne client number (call_of request.now) self.old self.new answers.new }
    {
        let told = begin(&mut self.machine, client, &mut self.place, request);
        put_shot(answers, client, number, told, request, &self.place);
        end(&mut self.machine, client, &mut self.place);
    }

    /// Does what a message of a call or of a paint asks for, and answers.
    fn call_for(&mut self, client: u8, number: u8, message: &Message, answers: &mut Answers)
        requires paint { IsTrue (may_paint message.now) }
        requires none { answers.old ≡ [] }
        ensures { Calls (begin_in (Some message.now)) client number (Some message.now) self.old self.new answers.new }
    {
        if let Message::Ask(request) = message {
            if request.is_begin() {
                return self.begin_one(client, number, request, answers);
            }
        }
        let told = self.ask_for(client, message);
        put_one(answers, client, number, told);
    }

    /// Does what the `body` of a message of `number` asks for, a call or a paint, and answers.
    pub(crate) fn call(&mut self, client: u8, number: u8, body: &[u8], answers: &mut Answers)
        requires { answers.old ≡ [] }
        ensures { Calls (begin_in (message_in number body.now)) client number (message_in number body.now) self.old self.new
            answers.new }
    {
        match message_in(number, body) {
            Some(message) => self.call_for(client, number, &message, answers),
            None => put_one(
                answers,
                client,
                number,
                Told::refused(Code::IllegalArgument),
            ),
        }
    }
}
