//! Why the program ends early.

use std::alloc::{AllocError, AllocFailed};
use wf_calls::Code;
use wf_io::WriteStop;
use wf_words::NoMemory;

/// What went wrong.
#[derive(Debug, Drop)]
pub(crate) enum Stop {
    /// There was no memory.
    NoMemory,
    /// A call was refused with this code.
    Refused(Code),
    /// The output took no more.
    NotWritten,
}

impl From<NoMemory> for Stop {
    fn from(_stop: NoMemory) -> Stop {
        Stop::NoMemory
    }
}

impl From<AllocError> for Stop {
    fn from(_stop: AllocError) -> Stop {
        Stop::NoMemory
    }
}

impl<T: Drop> From<AllocFailed<T>> for Stop {
    fn from(_stop: AllocFailed<T>) -> Stop {
        Stop::NoMemory
    }
}

impl From<Code> for Stop {
    fn from(code: Code) -> Stop {
        Stop::Refused(code)
    }
}

impl From<WriteStop> for Stop {
    fn from(_stop: WriteStop) -> Stop {
        Stop::NotWritten
    }
}
