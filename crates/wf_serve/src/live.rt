//! The core: one machine, and what is kept of its clients.

ghost use Rattle.std.specs.Prelude.{◌≡◌, IfOk, IsTrue, None, false};
ghost use Rattle.wf_calls.specs.declared.request.Request.TheVariants as Request;
ghost use Rattle.wf_calls.specs.PortRules.{may_declare};
ghost use Rattle.wf_guard.specs.LiveStreams.{opened};
ghost use Rattle.wf_guard.specs.Policy.{refusal_of};
ghost use Rattle.wf_guard.specs.Serving.{Serves, discard, draw, plain, post};
ghost use Rattle.wf_image.specs.Paints.{is_paint, painted};
ghost use Rattle.wf_serve.specs.Drawing.{Puts, asked_of};
ghost use Rattle.wf_wire.specs.Asked.{is_acquire};
ghost use Rattle.wf_wire.specs.Messages.{may_paint};

use crate::pictures::Pictures;
use crate::pixels::{Rectangle, put_pixels};
use crate::screen::screens_of;
use std::alloc::Global;
use std::marker::Model;
use wf_calls::{Code, JobPlace, Ports, Request};
use wf_guard::{CLIENTS, Form, Owners, Screen};
use wf_host::{Canvases, Told};
use wf_image::Paint;
use wf_machine::Machine;
use wf_wire::Message;
use wf_words::NoMemory;

/// A machine that serves several clients: who made which live stream, what each client holds, who waits for the next tick, and how many
/// ticks there were, how pictures are put, and what each port shows. No call of it but a creation takes memory.
#[derive(Drop)]
pub struct Core {
    pub(crate) machine: Machine,
    pub(crate) owners: Owners,
    pub(crate) canvases: Canvases,
    pub(crate) waiting: [bool; CLIENTS],
    pub(crate) ticks: u32,
    pub(crate) pictures: Pictures,
    pub(crate) screens: Vec<Screen>,
    pub(crate) place: JobPlace,
}

impl Model for Core {
    ghost use Rattle.std.specs.Prelude.{◌≡◌, ◌≤◌, None, length};
    ghost use Rattle.wf_calls.specs.Places.{job_in};
    ghost use Rattle.wf_guard.specs.Serving.{Served};
    ghost use Rattle.wf_guard.specs.declared.form.TheConstants.{MOST_PORTS};

    ghost Value = { Served };

    ghost view = { λ c. record {
      machine = c.machine;
      owned = c.owners;
      held = c.canvases;
      waiting = c.waiting;
      ticks = c.ticks;
      form = c.pictures;
      shown = c.screens.items;
    } };

    ghost invariant = { λ c. (job_in c.place ≡ None) × (length c.screens.items ≤ MOST_PORTS) };
}

impl Core {
    /// Opens a machine with these `ports`, of which nobody has or waits for anything, and which puts pictures in a `form`.
    pub fn open(alloc: Global, form: Form, ports: &Ports) -> Result<Core, NoMemory>
        requires { IsTrue (may_declare ports.now) }
        ensures { IfOk result (λ core. core ≡ opened form ports.now) }
    {
        Ok(Core {
            machine: Machine::open(alloc, ports)?,
            owners: Owners::new(alloc)?,
            canvases: Canvases::new(alloc)?,
            waiting: [false; CLIENTS],
            ticks: 0,
            pictures: Pictures::new(alloc, form)?,
            screens: screens_of(alloc, ports)?,
            place: JobPlace::new(alloc)?,
        })
    }

    /// Makes a `request` of `client` that the policy lets through and that takes no write buffer.
    fn carry(&mut self, client: u8, request: &Request) -> Told
        requires through { refusal_of client request.now self.old.owned ≡ None }
        requires takes { is_acquire request.now ≡ false }
        ensures { Serves client (plain request.now) self.old self.new result }
    {
        match self.machine.answer(client, request) {
            Some(answer) => {
                if answer.code.is_ok() {
                    self.owners.keep(client, request, answer.value);
                }
                Told::of(answer)
            }
            // Nothing else takes something, as the proof shows.
            None => unreachable!(),
        }
    }

    /// Takes the write buffer of `stream` for `client`, whom the policy lets.
    fn acquire(&mut self, client: u8, stream: u32) -> Told
        requires { refusal_of client (Request.Acquire stream) self.old.owned ≡ None }
        ensures { Serves client (plain (Request.Acquire stream)) self.old self.new result }
    {
        if self.canvases.is_held(u32::from(client)) || self.canvases.is_full() {
            return Told::not_made();
        }
        let (answer, canvas) = self.machine.acquire(client, stream);
        self.canvases.put(u32::from(client), canvas);
        Told::of(answer)
    }

    /// Makes a `request` of `client`.
    pub fn ask(&mut self, client: u8, request: &Request) -> Told
        ensures { Serves client (plain request.now) self.old self.new result }
    {
        if let Some(code) = self.owners.refusal(client, request) {
            return Told::refused(code);
        }
        match request {
            Request::Acquire { stream } => self.acquire(client, *stream),
            _ => self.carry(client, request),
        }
    }

    /// Posts the canvas that `client` holds.
    pub fn post(&mut self, client: u8) -> Told
        ensures { Serves client post self.old self.new result }
    {
        match self.canvases.take(u32::from(client)) {
            Some(canvas) => {
                let (answer, back) = self.machine.post(client, canvas);
                self.canvases.put(u32::from(client), back);
                Told::of(answer)
            }
            None => Told::not_made(),
        }
    }

    /// Gives the canvas that `client` holds back unseen.
    pub fn discard(&mut self, client: u8) -> Told
        ensures { Serves client discard self.old self.new result }
    {
        match self.canvases.take(u32::from(client)) {
            Some(canvas) => {
                let (answer, back) = self.machine.discard(client, canvas);
                self.canvases.put(u32::from(client), back);
                Told::of(answer)
            }
            None => Told::not_made(),
        }
    }

    /// Paints on the canvas that `client` holds.
    pub fn paint(&mut self, client: u8, paint: &Paint) -> Told
        requires { IsTrue (is_paint paint.now) }
        ensures { Serves client (draw (λ image. painted image paint.now)) self.old self.new result }
    {
        match self.canvases.take(u32::from(client)) {
            Some(mut canvas) => {
                canvas.paint(paint);
                self.canvases.put(u32::from(client), Some(canvas));
                Told::done()
            }
            None => Told::not_made(),
        }
    }

    /// Puts `pixels` into a rectangle `r` of the canvas that `client` holds. Where it has no such rectangle, or where they are not its
    /// pixels, it stays as it was.
    pub fn put(&mut self, client: u8, r: &Rectangle, pixels: &[u8]) -> Told
        ensures { Puts client r.now pixels.now self.old self.new result }
    {
        match self.canvases.take(u32::from(client)) {
            Some(mut canvas) => {
                let done = put_pixels(&mut canvas.image, r, pixels);
                self.canvases.put(u32::from(client), Some(canvas));
                if done {
                    Told::done()
                } else {
                    Told::refused(Code::IllegalArgument)
                }
            }
            None => Told::not_made(),
        }
    }

    /// Does what a `message` of `client` asks for.
    pub fn ask_for(&mut self, client: u8, message: &Message) -> Told
        requires { IsTrue (may_paint message.now) }
        ensures { Serves client (asked_of message.now) self.old self.new result }
    {
        match message {
            Message::Ask(request) => self.ask(client, request),
            Message::Post => self.post(client),
            Message::Discard => self.discard(client),
            Message::Paint(paint) => self.paint(client, paint),
        }
    }
}
