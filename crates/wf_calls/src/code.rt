//! What a call answers.

ghost use Rattle.std.specs.Prelude.{◌≡◌};
ghost use Rattle.wf_calls.specs.Codes.{code_number, is_ok_code};

/// What a call answers: Ok, or why it is refused. The journal prints the numbers of `number`.
#[derive(Clone, Copy, Debug, PartialEq, Eq)]
pub enum Code {
    Ok,
    OutOfMemory,
    IllegalArgument,
    Unsupported,
    NotSupported,
    BadAttribute,
    InUse,
    Busy,
    NoBuffer,
    BadDevice,
    BadHandle,
    Inconsistency,
    Limit,
}

impl Code {
    /// Tells whether the code says that a call was carried out.
    pub fn is_ok(self) -> bool
        ensures { result ≡ is_ok_code self }
    {
        matches!(self, Code::Ok)
    }

    /// Returns the number that stands for the code in the journal, from 0 for Ok to 12 for Limit.
    pub fn number(self) -> u8
        ensures { result ≡ code_number self }
    {
        match self {
            Code::Ok => 0,
            Code::OutOfMemory => 1,
            Code::IllegalArgument => 2,
            Code::Unsupported => 3,
            Code::NotSupported => 4,
            Code::BadAttribute => 5,
            Code::InUse => 6,
            Code::Busy => 7,
            Code::NoBuffer => 8,
            Code::BadDevice => 9,
            Code::BadHandle => 10,
            Code::Inconsistency => 11,
            Code::Limit => 12,
        }
    }
}
