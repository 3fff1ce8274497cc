//! What C calls of frames.

ghost use Rattle.std.specs.Prelude.{◌≡◌, None};
ghost use Rattle.wf_calls.specs.declared.request.Request.TheVariants as request;
ghost use Rattle.wf_host.specs.Made.{BeginsBy, Ends};
ghost use Rattle.wf_host.specs.declared.told.TheConstants.{NOT_MADE};
ghost use Rattle.weklandu.specs.Things.{Measures, OfBoth, OfFrame, OpensOne, ReadsIn, extent_of, order_of};
ghost use Rattle.weklandu.specs.declared.thing.Thing.TheVariants as thing;

use crate::slot::Slot;
use crate::thing::{Extent, Thing};
use std::alloc::Global;
use wf_calls::{Code, Request};
use wf_host::{Frame, NOT_MADE, Told};

/// Opens a place for one frame after another in a closed slot. Returns 0, or 1 where there is no memory, and 255 where the slot is open.
#[unsafe(no_mangle)]
pub extern "C" fn wk_frame_open(alloc: Global, frame: &mut Slot) -> u8
    ensures { OpensOne (thing.Frame None) frame.old.handle.state frame.new.handle.state result }
{
    if frame.live != 0 {
        return NOT_MADE;
    }
    match Frame::new(alloc) {
        Ok(place) => frame.open(alloc, Thing::Frame(place)),
        Err(_) => Code::OutOfMemory.number(),
    }
}

/// Begins a frame of a machine in a place, by a `request` of `client`.
fn begin(alloc: Global, machine: &mut Slot, frame: &mut Slot, client: u8, request: &Request) -> Told
    ensures { OfBoth (BeginsBy client request.now) machine.old.handle.state machine.new.handle.state frame.old.handle.state
        frame.new.handle.state result }
{
    let mut thing = machine.take(alloc);
    let mut place = frame.take(alloc);
    let told = match (&mut thing, &mut place) {
        (Some(thing), Some(place)) => thing.begin(place, client, request),
        _ => Told::not_made(),
    };
    machine.put(thing);
    frame.put(place);
    told
}

/// Begins a frame of the active context with the least handle above `after`. The value is the context's handle, or 0 where there is none
/// such, and then no frame begins.
#[unsafe(no_mangle)]
pub extern "C" fn wk_begin_next(
    alloc: Global,
    machine: &mut Slot,
    frame: &mut Slot,
    client: u8,
    after: u32,
) -> Told
    ensures { OfBoth (BeginsBy client (request.BeginNext after)) machine.old.handle.state machine.new.handle.state
        frame.old.handle.state frame.new.handle.state result }
{
    begin(alloc, machine, frame, client, &Request::BeginNext { after })
}

/// Begins a frame of a port, whose picture is what it shows.
#[unsafe(no_mangle)]
pub extern "C" fn wk_begin_port(
    alloc: Global,
    machine: &mut Slot,
    frame: &mut Slot,
    client: u8,
    port: i64,
) -> Told
    ensures { OfBoth (BeginsBy client (request.BeginPort port)) machine.old.handle.state machine.new.handle.state
        frame.old.handle.state frame.new.handle.state result }
{
    begin(alloc, machine, frame, client, &Request::BeginPort { port })
}

/// Begins a frame of a context that is not active.
#[unsafe(no_mangle)]
pub extern "C" fn wk_begin_context(
    alloc: Global,
    machine: &mut Slot,
    frame: &mut Slot,
    client: u8,
    device: u32,
    context: u32,
) -> Told
    ensures { OfBoth (BeginsBy client (request.BeginContext device context)) machine.old.handle.state machine.new.handle.state
        frame.old.handle.state frame.new.handle.state result }
{
    begin(
        alloc,
        machine,
        frame,
        client,
        &Request::BeginContext { device, context },
    )
}

/// Ends the frame that stands in a place, for `client`. One that is refused stays there, as that of another machine.
#[unsafe(no_mangle)]
pub extern "C" fn wk_end(alloc: Global, machine: &mut Slot, frame: &mut Slot, client: u8) -> Told
    ensures { OfBoth (Ends client) machine.old.handle.state machine.new.handle.state frame.old.handle.state frame.new.handle.state result }
{
    let mut thing = machine.take(alloc);
    let mut place = frame.take(alloc);
    let told = match (&mut thing, &mut place) {
        (Some(thing), Some(place)) => thing.end(place, client),
        _ => Told::not_made(),
    };
    machine.put(thing);
    frame.put(place);
    told
}

/// Paints the picture of a frame, where that was not done yet. Without it, the first that needs the picture paints it.
#[unsafe(no_mangle)]
pub extern "C" fn wk_paint(alloc: Global, frame: &mut Slot)
    ensures { frame.new.handle.state ≡ frame.old.handle.state }
{
    let mut thing = frame.take(alloc);
    if let Some(thing) = &mut thing {
        thing.paint();
    }
    frame.put(thing);
}

/// Returns the sides of the picture of a frame; both 0 where none stands there.
#[unsafe(no_mangle)]
pub extern "C" fn wk_frame_extent(alloc: Global, frame: &mut Slot) -> Extent
    ensures { OfFrame (λ e. e ≡ extent_of None) Measures frame.old.handle.state
        frame.new.handle.state result }
{
    let mut thing = frame.take(alloc);
    let extent = match &mut thing {
        Some(thing) => thing.extent(),
        None => Extent { w: 0, h: 0 },
    };
    frame.put(thing);
    extent
}

/// Copies the rows of the picture of a frame into `out`, `stride` bytes apart: for `order` 0 a pixel is R G B A, and for 1 it is B G R A.
/// Returns 0, or 255 where no frame stands there, the bytes have no room for the rows, or the order is none; nothing is written then.
#[unsafe(no_mangle)]
pub extern "C" fn wk_read_frame(
    alloc: Global,
    frame: &mut Slot,
    out: &mut [u8],
    stride: usize,
    order: u32,
) -> u8
    ensures { OfFrame (λ n. (out.new ≡ out.old) × (n ≡ NOT_MADE)) (ReadsIn (order_of order) stride out.old out.new)
        frame.old.handle.state frame.new.handle.state result }
{
    let mut thing = frame.take(alloc);
    let told = match &mut thing {
        Some(thing) => thing.read(out, stride, order),
        None => NOT_MADE,
    };
    frame.put(thing);
    told
}
