//! What a call answers: its code and its value, and what comes with them.

ghost use Rattle.std.specs.Prelude.{◌≡◌};
ghost use Rattle.wf_calls.specs.Codes.{entry};
ghost use Rattle.wf_calls.specs.Replies.{bare, done, refusal, refused, told, with_canvas, with_job};

use crate::call::Job;
use crate::code::Code;
use crate::order::Turn;
use wf_image::Canvas;

/// What comes with a reply.
#[derive(Drop)]
pub enum Payload {
    Nothing,
    Canvas(Canvas),
    Job(Job),
}

/// The answer to a call.
#[derive(Drop)]
pub struct Reply {
    pub code: Code,
    pub value: u32,
    pub payload: Payload,
}

/// The answer to a call with which nothing comes.
#[derive(Clone, Copy, Debug, PartialEq, Eq)]
pub struct Answer {
    pub code: Code,
    pub value: u32,
}

/// Why a call is refused: its code, and its value.
#[derive(Clone, Copy, Debug, PartialEq, Eq)]
pub struct Refusal {
    pub code: Code,
    pub value: u32,
}

impl Refusal {
    /// Makes a refusal of `code` alone, with the value 0.
    pub fn of(code: Code) -> Refusal
        ensures { result ≡ refusal code }
    {
        Refusal { code, value: 0 }
    }
}

impl Answer {
    /// Makes the answer of a call that was carried out, with `value`.
    pub fn done(value: u32) -> Answer
        ensures { result ≡ done value }
    {
        Answer {
            code: Code::Ok,
            value,
        }
    }

    /// Makes the answer of a call that was refused by `refusal`.
    pub fn refused(refusal: Refusal) -> Answer
        ensures { result ≡ refused refusal }
    {
        Answer {
            code: refusal.code,
            value: refusal.value,
        }
    }

    /// Returns the journal's entry of this answer to `client`.
    pub fn entry(&self, client: u8) -> Turn
        ensures { result ≡ entry client (bare self.now) }
    {
        Turn {
            client,
            code: self.code.number(),
            value: self.value,
        }
    }
}

impl Reply {
    /// Makes the reply of `answer` with which nothing comes.
    pub fn bare(answer: Answer) -> Reply
        ensures { result ≡ bare answer }
    {
        Reply {
            code: answer.code,
            value: answer.value,
            payload: Payload::Nothing,
        }
    }

    /// Makes the reply of `answer` with which `canvas` comes, or nothing.
    pub fn with_canvas(answer: Answer, canvas: Option<Canvas>) -> Reply
        ensures { result ≡ with_canvas (answer, canvas) }
    {
        Reply {
            code: answer.code,
            value: answer.value,
            payload: match canvas {
                Some(canvas) => Payload::Canvas(canvas),
                None => Payload::Nothing,
            },
        }
    }

    /// Makes the reply of `answer` with which `job` comes, or nothing.
    pub fn with_job(answer: Answer, job: Option<Job>) -> Reply
        ensures { result ≡ with_job answer job }
    {
        Reply {
            code: answer.code,
            value: answer.value,
            payload: match job {
                Some(job) => Payload::Job(job),
                None => Payload::Nothing,
            },
        }
    }

    /// The answer, without what comes with it.
    fn told(&self) -> Answer
        ensures { result ≡ told self.now }
    {
        Answer {
            code: self.code,
            value: self.value,
        }
    }

    /// Returns the journal's entry of this reply to `client`.
    pub fn entry(&self, client: u8) -> Turn
        ensures { result ≡ entry client self.now }
    {
        self.told().entry(client)
    }
}
