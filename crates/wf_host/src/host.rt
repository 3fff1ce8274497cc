//! The machine with what its embedder holds.

ghost use Rattle.std.specs.Prelude.{◌≡◌, [], IfOk, IsTrue, false};
ghost use Rattle.wf_calls.specs.Parts.{is_begin};
ghost use Rattle.wf_calls.specs.PortRules.{may_declare};
ghost use Rattle.wf_calls.specs.Requests.{call_of};
ghost use Rattle.wf_model.specs.State.{opening};
ghost use Rattle.wf_wire.specs.Asked.{is_acquire};
ghost use Rattle.wf_wire.specs.Messages.{told_by};
ghost use Rattle.wf_host.specs.Held.{holds};
ghost use Rattle.wf_host.specs.Made.{Asks, AsksCanvas, Begins, BeginsBy, Calls, Ends, Gives};
ghost use Rattle.wf_host.specs.Reading.{Fills, Submits, Writes, are_rows, written};

use crate::canvases::Canvases;
use crate::frame::Frame;
use crate::order::Order;
use crate::rows::{copy_rows, stands};
use crate::told::Told;
use std::alloc::Global;
use std::marker::Model;
use wf_calls::{Call, Ports, Request};
use wf_image::{Image, bytes_of_pixel};
use wf_machine::Machine;
use wf_wire::Message;
use wf_words::NoMemory;

/// A machine with the write buffers that its embedder holds, at most one of each stream. No call of it moves a Job, and none but a
/// creation takes memory.
#[derive(Drop)]
pub struct Host {
    machine: Machine,
    canvases: Canvases,
}

impl Model for Host {
    ghost use Rattle.wf_host.specs.Made.{Hosted};

    ghost Value = { Hosted };

    ghost view = { λ h. record { machine = h.machine; canvases = h.canvases } };
}

impl Host {
    /// Opens a machine with these `ports`, and holds nothing.
    pub fn open(alloc: Global, ports: &Ports) -> Result<Host, NoMemory>
        requires { IsTrue (may_declare ports.now) }
        ensures { IfOk result (λ host. host ≡ record { machine = opening ports.now; canvases = [] }) }
    {
        Ok(Host {
            machine: Machine::open(alloc, ports)?,
            canvases: Canvases::new(alloc)?,
        })
    }

    /// Makes the call of the message of `number` with arguments of these `bits`, for `client`. What asks for a canvas that is held, and
    /// what begins a frame, is a call of its own.
    pub fn call(&mut self, client: u8, number: u8, bits: &[u64]) -> Told
        ensures { Calls client (told_by number bits.now) self.old self.new result }
    {
        match Message::of(number, bits) {
            Some(Message::Ask(request)) => self.ask(client, &request),
            _ => Told::not_made(),
        }
    }

    /// Makes a `request` of `client`.
    pub fn ask(&mut self, client: u8, request: &Request) -> Told
        ensures { Asks client request.now self.old self.new result }
    {
        match request {
            Request::Acquire { stream } => self.acquire(client, *stream),
            _ => self.ask_plain(client, request),
        }
    }

    /// Makes a `request` of `client` that is not for a write buffer.
    fn ask_plain(&mut self, client: u8, request: &Request) -> Told
        requires { is_acquire request.now ≡ false }
        ensures { Asks client request.now self.old self.new result }
    {
        if request.is_begin() {
            return Told::not_made();
        }
        match self.machine.answer(client, request) {
            Some(answer) => Told::of(answer),
            // Nothing else takes something, as the proof shows.
            None => unreachable!(),
        }
    }

    /// Takes the write buffer of `stream` for `client`. It is held under the handle.
    pub fn acquire(&mut self, client: u8, stream: u32) -> Told
        ensures { AsksCanvas client stream self.old self.new result }
    {
        if self.canvases.is_full() {
            return Told::not_made();
        }
        let (answer, canvas) = self.machine.acquire(client, stream);
        self.canvases.put(stream, canvas);
        Told::of(answer)
    }

    /// Posts the canvas that is held of `stream`, for `client`. One that is refused is held as before.
    pub fn post(&mut self, client: u8, stream: u32) -> Told
        ensures { Gives client Call.Post stream self.old self.new result }
    {
        match self.canvases.take(stream) {
            Some(canvas) => {
                let (answer, back) = self.machine.post(client, canvas);
                self.canvases.put(stream, back);
                Told::of(answer)
            }
            None => Told::not_made(),
        }
    }

    /// Gives the canvas that is held of `stream` back unseen, for `client`. One that is refused is held as before.
    pub fn discard(&mut self, client: u8, stream: u32) -> Told
        ensures { Gives client Call.Discard stream self.old self.new result }
    {
        match self.canvases.take(stream) {
            Some(canvas) => {
                let (answer, back) = self.machine.discard(client, canvas);
                self.canvases.put(stream, back);
                Told::of(answer)
            }
            None => Told::not_made(),
        }
    }

    /// Tells whether a canvas of `stream` is held.
    pub fn is_held(&self, stream: u32) -> bool
        ensures { result ≡ holds stream self.now.canvases }
    {
        self.canvases.is_held(stream)
    }

    /// Writes `pixels` into the canvas that is held of `stream`, and tells whether it did: their rows stand `stride` bytes apart. It does
    /// not where none is held, where the pixels are too few, or where a row reaches into the next.
    pub fn write(&mut self, stream: u32, pixels: &[u8], stride: usize) -> bool
        ensures { Writes stream pixels.now stride self.old self.new result }
    {
        match self.canvases.take(stream) {
            Some(mut canvas) => {
                let done = write_image(&mut canvas.image, pixels, stride);
                self.canvases.put(stream, Some(canvas));
                done
            }
            None => false,
        }
    }

    /// Writes `pixels` into the canvas that is held of `stream`, as `write` does, and posts it for `client`. Where they are not its rows,
    /// it is discarded.
    fn fill(&mut self, client: u8, stream: u32, pixels: &[u8], stride: usize) -> Told
        ensures { Fills client stream pixels.now stride self.old self.new result }
    {
        if self.write(stream, pixels, stride) {
            return self.post(client, stream);
        }
        let _discarded = self.discard(client, stream);
        Told::not_made()
    }

    /// Takes the write buffer of `stream` for `client`, writes `pixels` into it, whose rows stand `stride` bytes apart, and posts it: three
    /// events, after which nothing more is held than before. Where the pixels are not its rows, it is discarded.
    pub fn submit(&mut self, client: u8, stream: u32, pixels: &[u8], stride: usize) -> Told
        ensures { Submits client stream pixels.now stride self.old self.new result }
    {
        let told = self.acquire(client, stream);
        if told.code != 0 {
            return told;
        }
        self.fill(client, stream, pixels, stride)
    }

    /// Begins a frame by a `request` of `client` where none stands in `frame`, which has it then.
    fn begin_frame(&mut self, client: u8, request: &Request, frame: &mut Frame) -> Told
        requires { IsTrue (is_begin (call_of request.now)) }
        ensures { Begins client (call_of request.now) self.old self.new frame.old frame.new result }
    {
        if frame.is_held() {
            return Told::not_made();
        }
        Told::of(frame.begin(&mut self.machine, client, request))
    }

    /// Begins a frame by a `request` of `client`, which stands in `frame` then. Where one stands there already, or where the request
    /// begins none, no call is made.
    pub fn begin(&mut self, client: u8, request: &Request, frame: &mut Frame) -> Told
        ensures { BeginsBy client request.now self.old self.new frame.old frame.new result }
    {
        if request.is_begin() {
            self.begin_frame(client, request, frame)
        } else {
            Told::not_made()
        }
    }

    /// Ends the frame that stands in `frame`, for `client`. One that is refused stays there, as that of another machine.
    pub fn end(&mut self, client: u8, frame: &mut Frame) -> Told
        ensures { Ends client self.old self.new frame.old frame.new result }
    {
        if frame.is_held() {
            Told::of(frame.end(&mut self.machine, client))
        } else {
            Told::not_made()
        }
    }
}

/// Writes the rows of `pixels`, which stand `stride` bytes apart, into an `image`, and tells whether they are its rows.
fn write_image(image: &mut Image, pixels: &[u8], stride: usize) -> bool
    ensures done { result ≡ are_rows stride pixels.now image.old }
    ensures image { image.new ≡ written stride pixels.now image.old }
{
    let size = image.size();
    let row = size.w as usize * bytes_of_pixel(image.format());
    let count = size.h as usize;
    if !stands(pixels.len(), stride, row, count) {
        return false;
    }
    copy_rows(
        image.bytes_mut(),
        row,
        pixels,
        stride,
        row,
        count,
        Order::Rgba,
    );
    true
}
