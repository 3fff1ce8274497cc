//! What an embedder is told of a call.

ghost use Rattle.std.specs.Prelude.{◌≡◌};
ghost use Rattle.wf_calls.specs.Replies.{bare, refusal, refused};
ghost use Rattle.wf_host.specs.Made.{not_made, told_of};

use wf_calls::{Answer, Code};

/// The code where no call was made.
pub const NOT_MADE: u8 = 255;

/// What an embedder is told of a call: the number of its code, or `NOT_MADE`, and its value.
#[repr(C)]
#[derive(Clone, Copy, Debug, PartialEq, Eq)]
pub struct Told {
    pub code: u8,
    pub value: u32,
}

impl Told {
    /// Tells of an `answer`.
    pub fn of(answer: Answer) -> Told
        ensures { result ≡ told_of (bare answer) }
    {
        Told {
            code: answer.code.number(),
            value: answer.value,
        }
    }

    /// Tells that what was asked for is done, with no call.
    pub fn done() -> Told
        ensures { result ≡ record { code = 0; value = 0 } }
    {
        Told { code: 0, value: 0 }
    }

    /// Tells of a refusal by a `code` alone.
    pub fn refused(code: Code) -> Told
        ensures { result ≡ told_of (bare (refused (refusal code))) }
    {
        Told {
            code: code.number(),
            value: 0,
        }
    }

    /// Tells that no call was made.
    pub fn not_made() -> Told
        ensures { result ≡ not_made }
    {
        Told {
            code: NOT_MADE,
            value: 0,
        }
    }
}
