//! How a play ended.

ghost use Rattle.std.specs.Prelude.{◌≡◌, []};
ghost use Rattle.wf_play.specs.Report.{exit_of};

use std::alloc::Global;
use wf_calls::Order;

/// How a play ended.
#[derive(Clone, Copy, Debug, PartialEq, Eq)]
pub enum Status {
    /// All was put, or the film that was checked is the film of its script and of its journal, or a session was answered to its end.
    Done,
    /// The words are no command.
    Usage,
    /// The input failed.
    ReadFault,
    /// The input is longer than it may be: a script than 1,048,576 bytes, and a film than 67,108,864.
    TooLong,
    /// The input is no script: the first line that breaks a rule, counted from 1, and the least rule that it breaks.
    Refused { line: u32, rule: u32 },
    /// The film's sink failed when it had taken this many bytes.
    WriteFault { written: u64 },
    /// The film that was checked differs at this byte, counted from 0, from the film of the script and of its journal.
    Differs { at: u64 },
    /// This entry of its journal, counted from 0, is no turn of the script; or all are, so many, and a program is not through.
    BadOrder { entry: u32 },
    /// What stands behind the script is no film: at this byte, counted from 0, it breaks this rule of films.
    BadFilm { at: u64, rule: u32 },
    /// At this byte, counted from 0, a session breaks this rule.
    BadMessage { at: u64, rule: u32 },
    /// The message of a session at this byte, counted from 0, may not be answered any more: fewer than three calls are left to the client.
    Quota { at: u64 },
    /// There was no memory. Nothing was put into the film.
    NoMemory,
}

impl Status {
    /// Returns the exit status of the program.
    pub fn exit(&self) -> u8
        ensures { result ≡ exit_of self.now }
    {
        match self {
            Status::Done => 0,
            Status::Usage => 2,
            Status::ReadFault => 3,
            Status::TooLong => 4,
            Status::Refused { .. } => 5,
            Status::WriteFault { .. } => 6,
            Status::Differs { .. } => 7,
            Status::BadOrder { .. } => 8,
            Status::BadFilm { .. } => 9,
            Status::NoMemory => 10,
            Status::BadMessage { .. } => 11,
            Status::Quota { .. } => 12,
        }
    }
}

/// How a play ended, and the order of the events that were played: with `Done` and `WriteFault`, and else empty.
#[derive(Drop)]
pub struct Report {
    pub status: Status,
    pub order: Order,
}

/// A report of what played nothing.
pub(crate) fn without_order(alloc: Global, status: Status) -> Report
    ensures status { result.status ≡ status }
    ensures order { result.order ≡ [] }
{
    Report {
        status,
        order: Order::new(Vec::new(alloc)),
    }
}
