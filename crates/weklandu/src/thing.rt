//! What a handle leads to.

ghost use Rattle.std.specs.Prelude.{◌≡◌, None};
ghost use Rattle.wf_calls.specs.declared.call.Call.TheVariants as call;
ghost use Rattle.wf_host.specs.Made.{BeginsBy, Calls, Ends, Gives};
ghost use Rattle.wf_host.specs.Reading.{Submits};
ghost use Rattle.wf_host.specs.declared.told.TheConstants.{NOT_MADE};
ghost use Rattle.wf_wire.specs.Messages.{told_by};
ghost use Rattle.weklandu.specs.Things.{AtBoth, AtFrame, AtMachine, IsNoCode, IsNone, Measures, ReadsIn, TellsHeld, WritesTold};
ghost use Rattle.weklandu.specs.Things.{extent_of, order_of, told_done};

use wf_calls::{Code, Request};
use wf_host::{Frame, Host, NOT_MADE, Order, Told};

/// What a handle leads to: a machine with what is held for its embedder, or a place for frames.
#[derive(Drop)]
pub enum Thing {
    Machine(Host),
    Frame(Frame),
}

/// The sides of a picture, in pixels; both 0 where there is none.
#[repr(C)]
#[derive(Clone, Copy)]
pub struct Extent {
    pub w: u32,
    pub h: u32,
}

/// Tells by a number whether something was done.
fn told_done(done: bool) -> u8
    ensures { result ≡ told_done done }
{
    if done { Code::Ok.number() } else { NOT_MADE }
}

/// Finds the order of bytes that a number names: 0 for R G B A, 1 for B G R A.
fn order_of(number: u32) -> Option<Order>
    ensures { result ≡ order_of number }
{
    match number {
        0 => Some(Order::Rgba),
        1 => Some(Order::Bgra),
        _ => None,
    }
}

impl Thing {
    /// Makes the call of the message of `number` with arguments of these `bits` for `client`, if this is a machine.
    pub(crate) fn call(&mut self, client: u8, number: u8, bits: &[u64]) -> Told
        ensures { AtMachine IsNone (Calls client (told_by number bits.now)) self.old self.new result }
    {
        match self {
            Thing::Machine(host) => host.call(client, number, bits),
            Thing::Frame(_) => Told::not_made(),
        }
    }

    /// Posts the canvas that is held of `stream`, for `client`, if this is a machine.
    pub(crate) fn post(&mut self, client: u8, stream: u32) -> Told
        ensures { AtMachine IsNone (Gives client call.Post stream) self.old self.new result }
    {
        match self {
            Thing::Machine(host) => host.post(client, stream),
            Thing::Frame(_) => Told::not_made(),
        }
    }

    /// Discards the canvas that is held of `stream`, for `client`, if this is a machine.
    pub(crate) fn discard(&mut self, client: u8, stream: u32) -> Told
        ensures { AtMachine IsNone (Gives client call.Discard stream) self.old self.new result }
    {
        match self {
            Thing::Machine(host) => host.discard(client, stream),
            Thing::Frame(_) => Told::not_made(),
        }
    }

    /// Tells by 1 that a canvas of `stream` is held, if this is a machine.
    pub(crate) fn holds(&mut self, stream: u32) -> u8
        ensures { AtMachine (λ r. r ≡ 0) (TellsHeld stream) self.old self.new result }
    {
        match self {
            Thing::Machine(host) => u8::from(host.is_held(stream)),
            Thing::Frame(_) => 0,
        }
    }

    /// Writes `pixels`, whose rows stand `stride` bytes apart, into the canvas that is held of `stream`, if this is a machine.
    pub(crate) fn write(&mut self, stream: u32, pixels: &[u8], stride: usize) -> u8
        ensures { AtMachine IsNoCode (WritesTold stream pixels.now stride)
            self.old self.new result }
    {
        match self {
            Thing::Machine(host) => told_done(host.write(stream, pixels, stride)),
            Thing::Frame(_) => NOT_MADE,
        }
    }

    /// Takes the write buffer of `stream` for `client`, writes `pixels` into it and posts it, if this is a machine.
    pub(crate) fn submit(&mut self, client: u8, stream: u32, pixels: &[u8], stride: usize) -> Told
        ensures { AtMachine IsNone (Submits client stream pixels.now stride) self.old self.new result }
    {
        match self {
            Thing::Machine(host) => host.submit(client, stream, pixels, stride),
            Thing::Frame(_) => Told::not_made(),
        }
    }

    /// Begins a frame in `place` by a `request` of `client`, if this is a machine and that a place for frames.
    pub(crate) fn begin(&mut self, place: &mut Thing, client: u8, request: &Request) -> Told
        ensures { AtBoth (BeginsBy client request.now) self.old self.new place.old place.new result }
    {
        match (self, place) {
            (Thing::Machine(host), Thing::Frame(frame)) => host.begin(client, request, frame),
            _ => Told::not_made(),
        }
    }

    /// Ends the frame that stands in `place`, if this is a machine and that a place for frames.
    pub(crate) fn end(&mut self, place: &mut Thing, client: u8) -> Told
        ensures { AtBoth (Ends client) self.old self.new place.old place.new result }
    {
        match (self, place) {
            (Thing::Machine(host), Thing::Frame(frame)) => host.end(client, frame),
            _ => Told::not_made(),
        }
    }

    /// Paints the picture of a frame where that was not done yet, if this is a place for frames.
    pub(crate) fn paint(&mut self)
        ensures { self.new ≡ self.old }
    {
        match self {
            Thing::Frame(frame) => frame.paint(),
            Thing::Machine(_) => {}
        }
    }

    /// Returns the sides of the picture of a frame, if this is a place for frames.
    pub(crate) fn extent(&mut self) -> Extent
        ensures { AtFrame (λ e. e ≡ extent_of None) Measures self.old self.new result }
    {
        match self {
            Thing::Frame(frame) => extent_in(frame),
            Thing::Machine(_) => Extent { w: 0, h: 0 },
        }
    }

    /// Copies the rows of the picture of a frame into `out`, `stride` bytes apart, in the `order` of bytes of a number, if this is a place
    /// for frames.
    pub(crate) fn read(&mut self, out: &mut [u8], stride: usize, order: u32) -> u8
        ensures { AtFrame (λ n. (out.new ≡ out.old) × (n ≡ NOT_MADE)) (ReadsIn (order_of order) stride out.old out.new)
            self.old self.new result }
    {
        match self {
            Thing::Frame(frame) => read_in(frame, out, stride, order),
            Thing::Machine(_) => NOT_MADE,
        }
    }
}

/// Returns the sides of the picture of a frame.
fn extent_in(frame: &Frame) -> Extent
    ensures { result ≡ extent_of frame.now }
{
    match frame.size() {
        Some(size) => Extent {
            w: size.w,
            h: size.h,
        },
        None => Extent { w: 0, h: 0 },
    }
}

/// Copies the rows of the picture of a frame into `out`, in the `order` of bytes of a number.
fn read_in(frame: &mut Frame, out: &mut [u8], stride: usize, order: u32) -> u8
    ensures { ReadsIn (order_of order) stride out.old out.new frame.old frame.new result }
{
    match order_of(order) {
        Some(order) => told_done(frame.read(out, stride, order)),
        None => NOT_MADE,
    }
}
