//! Refusals by a code alone, and answers with which a canvas comes.

ghost use Rattle.std.specs.Prelude.{◌≡◌};
ghost use Rattle.wf_calls.specs.Replies.{bare, done, gives_back_canvas, gives_canvas, refusal, refused, with_canvas};

use wf_calls::{Answer, Code, Refusal, Reply};
use wf_image::Canvas;

/// The answer by which a call is refused.
pub(crate) fn refuse(code: Code) -> Answer
    ensures { result ≡ refused (refusal code) }
{
    Answer::refused(Refusal::of(code))
}

/// The answer by which a call is refused that asks for a write buffer.
pub(crate) fn refused(code: Code) -> (Answer, Option<Canvas>)
    ensures { with_canvas result ≡ bare (refused (refusal code)) }
{
    (refuse(code), None)
}

/// The answer that gives a write buffer.
pub(crate) fn giving_canvas(canvas: Canvas) -> (Answer, Option<Canvas>)
    ensures { with_canvas result ≡ gives_canvas canvas }
{
    (Answer::done(0), Some(canvas))
}

/// The answer that hands a refused canvas back.
pub(crate) fn giving_back_canvas(canvas: Canvas) -> (Answer, Option<Canvas>)
    ensures { with_canvas result ≡ gives_back_canvas canvas }
{
    (refuse(Code::BadHandle), Some(canvas))
}

/// The answer that takes a canvas.
pub(crate) fn taking_canvas() -> (Answer, Option<Canvas>)
    ensures { with_canvas result ≡ bare (done 0) }
{
    (Answer::done(0), None)
}

/// The reply of an answer with which a canvas comes, or nothing.
pub(crate) fn with_canvas(answered: (Answer, Option<Canvas>)) -> Reply
    ensures { result ≡ with_canvas answered }
{
    Reply::with_canvas(answered.0, answered.1)
}
