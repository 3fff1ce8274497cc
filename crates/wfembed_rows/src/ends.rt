//! Why the program ends early: in words, and as an exit status.

use std::alloc::{AllocError, AllocFailed};
use std::fmt;
use wf_calls::{Answer, Code};
use wf_io::WriteStop;
use wf_words::NoMemory;

/// What went wrong.
#[derive(Clone, Copy, Debug, PartialEq, Eq)]
pub(crate) enum Stop {
    /// There was no memory.
    NoMemory,
    /// A call was refused with this code.
    Refused(Code),
    /// The output took no more.
    NotWritten,
}

impl Stop {
    /// Returns the exit status of the program: those of `wfplay` for what both have.
    pub(crate) fn status(self) -> u8 {
        match self {
            Stop::NoMemory | Stop::Refused(Code::OutOfMemory) => 10,
            Stop::Refused(_) => 5,
            Stop::NotWritten => 6,
        }
    }
}

/// Returns the value of an `answer`, or its refusal.
pub(crate) fn value_of(answer: Answer) -> Result<u32, Stop> {
    if answer.code.is_ok() {
        Ok(answer.value)
    } else {
        Err(Stop::Refused(answer.code))
    }
}

impl fmt::Display for Stop {
    fn fmt<W: fmt::Write>(&self, f: &mut fmt::Formatter<W>) -> fmt::Result {
        match self {
            Stop::NoMemory => f.write_str("there was no memory"),
            Stop::Refused(code) => write!(f, "a call was refused: {code:?}"),
            Stop::NotWritten => f.write_str("the output took no more"),
        }
    }
}

impl From<NoMemory> for Stop {
    fn from(_stop: NoMemory) -> Stop {
        Stop::NoMemory
    }
}

impl From<AllocError> for Stop {
    fn from(_stop: AllocError) -> Stop {
        Stop::NoMemory
    }
}

impl<T: Drop> From<AllocFailed<T>> for Stop {
    fn from(_stop: AllocFailed<T>) -> Stop {
        Stop::NoMemory
    }
}

impl From<WriteStop> for Stop {
    fn from(_stop: WriteStop) -> Stop {
        Stop::NotWritten
    }
}
