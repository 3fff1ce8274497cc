//! The kinds of messages, by who sends them and by their numbers.

ghost use Rattle.std.specs.Prelude.{◌≡◌};
ghost use Rattle.wf_serve.specs.Kinds.{is_of_apps, kind_in, kind_of, may_send};

use wf_guard::{BROKER, MANAGER, OUTPUT};

/// The number of the message that says who is gone.
pub const GONE: u8 = 0;
/// The number of the message that puts pixels.
pub const PUT: u8 = 50;
/// The number of a tick.
pub const TICK: u8 = 51;
/// The number of the message that waits for the next tick.
pub const WAIT: u8 = 52;
/// The number of the message that tells another client something.
pub const TELL: u8 = 53;
/// The number of the message that asks for the size of a stream.
pub const SIZE: u8 = 54;
/// The number of the answer that tells a client what another one told it.
pub const TOLD: u8 = 55;
/// The number of the answer that tells the window manager who is gone.
pub const LEFT: u8 = 56;

/// What kind of message it is.
#[derive(Clone, Copy, Debug, PartialEq, Eq)]
pub enum Kind {
    /// One that its client may not send, or that is none.
    Refused,
    /// A call of the machine.
    Call,
    Gone,
    Put,
    Tick,
    Wait,
    Tell,
    Size,
}

/// The last message about a canvas and a stream that an app may send, and the first paint.
const LAST_OF_STREAMS: u8 = 6;

const FIRST_PAINT: u8 = 46;

/// Tells whether an app may send a message of `number`: of streams and canvases, paints, and those that are no calls.
fn is_of_apps(number: u8) -> bool
    ensures { result ≡ is_of_apps number }
{
    number <= LAST_OF_STREAMS || number >= FIRST_PAINT
}

/// Tells whether `client` may send a message of `number`: the broker says who is gone, the output ticks and tells, the window manager
/// sends all others, and apps those of their own streams.
fn may_send(client: u8, number: u8) -> bool
    ensures { result ≡ may_send client number }
{
    if client == BROKER {
        number == GONE
    } else if client == OUTPUT {
        number == TICK || number == TELL
    } else {
        client < OUTPUT
            && number != GONE
            && number != TICK
            && number <= SIZE
            && (client == MANAGER || is_of_apps(number))
    }
}

/// Returns the kind of a message of `number` that may be sent.
fn kind_in(number: u8) -> Kind
    ensures { result ≡ kind_in number }
{
    match number {
        GONE => Kind::Gone,
        PUT => Kind::Put,
        TICK => Kind::Tick,
        WAIT => Kind::Wait,
        TELL => Kind::Tell,
        SIZE => Kind::Size,
        _ => Kind::Call,
    }
}

/// Returns the kind of a message of `number` that `client` sends.
pub fn kind_of(client: u8, number: u8) -> Kind
    ensures { result ≡ kind_of client number }
{
    if may_send(client, number) {
        kind_in(number)
    } else {
        Kind::Refused
    }
}
