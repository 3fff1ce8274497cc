//! The kinds of the arguments of messages, and the range of each. tools/calls writes this file.

ghost use Rattle.std.specs.Prelude.{◌≡◌};
ghost use Rattle.wf_wire.specs.Kinds.{range_of};

use wf_pixel::{MOST_COORDINATE, MOST_SIDE};

/// What an argument is.
#[derive(Clone, Copy)]
pub(crate) enum Kind {
    Number,
    Handle,
    Format,
    Stat,
    Transition,
    Element,
    Context,
    Port,
    Pipe,
    Channel,
    Coordinate,
    Extent,
    Square,
}

/// Returns the least and the most that an argument of `kind` may be.
pub(crate) fn range_of(kind: Kind) -> (i64, i64)
    ensures { result ≡ range_of kind }
{
    match kind {
        Kind::Number => (i64::MIN, i64::MAX),
        Kind::Handle => (0, 4294967295),
        Kind::Format => (0, 3),
        Kind::Stat => (0, 1),
        Kind::Transition => (0, 1),
        Kind::Element => (0, 8),
        Kind::Context => (0, 4),
        Kind::Port => (0, 5),
        Kind::Pipe => (0, 9),
        Kind::Channel => (0, 255),
        Kind::Coordinate => (-i64::from(MOST_COORDINATE), i64::from(MOST_COORDINATE)),
        Kind::Extent => (0, i64::from(MOST_COORDINATE)),
        Kind::Square => (1, i64::from(MOST_SIDE)),
    }
}
