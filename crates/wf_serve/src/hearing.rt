//! Messages, and what the core makes of them.

ghost use Rattle.std.specs.Prelude.{◌≡◌, false, ◌&&◌, ◌||◌, List, ℕ, find, option_map, ◌+◌, ◌*◌, ◌≤◌, ◌<◌, ◌++◌, ◌==◌, [], IfOk, OnOk};
ghost use Rattle.std.specs.Prelude.{◌∷◌, None, OnErr, drop, length, nat_le, replicate};
ghost use Rattle.wf_calls.specs.declared.call.Call.TheVariants as Call;
ghost use Rattle.wf_io.specs.Causes.{HasCause};
ghost use Rattle.wf_model.specs.Step.{step};
ghost use Rattle.wf_serve.specs.AnswerBytes.{answer_bytes, answer_to};
ghost use Rattle.wf_serve.specs.Bodies.{word_at};
ghost use Rattle.wf_serve.specs.Drawing.{Puts};
ghost use Rattle.wf_serve.specs.Heard.{Hears, done, left_shown};
ghost use Rattle.wf_guard.specs.LiveStreams.{destroyed_by};
ghost use Rattle.wf_serve.specs.Steps.{HasLeft, HearsKind, Leaves, PutsIf, TicksIf};
ghost use Rattle.wf_serve.specs.Heard.{is_handle, may_tell, one, rectangle_in, size_told, sized, tells, told_by, told_to, waited};
ghost use Rattle.wf_io.specs.Bytes.{Puts as PlainPuts};
ghost use Rattle.wf_serve.specs.Putting.{PutsFront, Writes};
ghost use Rattle.wf_guard.specs.Serving.{Served};
ghost use Rattle.wf_serve.specs.Kinds.{is_tick};
ghost use Rattle.wf_serve.specs.Ticks.{next_tick, ticked, woken};

use crate::answers::Answers;
use crate::body::word_at;
use crate::kind::{Kind, LEFT, SIZE, TELL, TICK, TOLD, WAIT, kind_of};
use crate::live::Core;
use crate::pixels::Rectangle;
use crate::screen::forget_all;
use crate::showing::play;
use crate::tick::wake_all;
use wf_calls::{Code, Request};
use wf_guard::{CLIENTS, MANAGER, OUTPUT, Owned, Screen};
use wf_host::Told;
use wf_io::{Sink, WriteStop};
use wf_machine::Machine;

/// The most bytes that a client is told at once.
pub const MOST_TOLD: usize = 4096;

/// Returns the rectangle that a body names, before its pixels.
fn rectangle_in(body: &[u8]) -> Rectangle
    requires { 32 ≤ length body.now }
    ensures { result ≡ rectangle_in body.now }
{
    Rectangle {
        x: word_at(body, 0),
        y: word_at(body, 1),
        w: word_at(body, 2),
        h: word_at(body, 3),
    }
}

/// Tells the size of a stream: the width times 65536, and the height.
fn size_told(owned: &Owned) -> Told
    ensures { result ≡ size_told owned.now }
{
    let width = owned.width.cast_unsigned() % 65_536;
    let height = owned.height.cast_unsigned() % 65_536;
    Told {
        code: 0,
        value: (width * 65_536 + height) as u32,
    }
}

/// Tells whether a body is the handle of a stream.
fn is_handle(body: &[u8]) -> bool
    ensures { result ≡ is_handle body.now }
{
    body.len() == 8 && word_at(body, 0) < 4_294_967_296
}

/// Puts one answer, to `client`, who sent the message of `number`.
pub(crate) fn put_one(answers: &mut Answers, client: u8, number: u8, told: Told)
    requires { length answers.old + 11 ≤ 8192 }
    ensures { answers.new ≡ answers.old ++ one client number told }
{
    answers.put(client, number, told, &[]);
}

/// Destroys `stream` of `client`.
fn destroy_stream(machine: &mut Machine, client: u8, stream: u32)
    ensures { machine.new ≡ (step machine.old client (Call.StreamDestroy stream) false).0 }
{
    let _answer = machine.answer(client, &Request::StreamDestroy { stream });
}

/// Destroys the stream of `one`, if `client` made it.
fn destroy_one(machine: &mut Machine, client: u8, one: &Owned)
    ensures { machine.new ≡ destroyed_by client (one.now ∷ []) machine.old }
{
    if one.client == client {
        destroy_stream(machine, client, one.stream);
    }
}

/// Destroys the streams of `client` among these.
fn destroy(machine: &mut Machine, client: u8, owned: &[Owned])
    ensures { machine.new ≡ destroyed_by client owned.now machine.old }
{
    for one in owned {
        destroy_one(machine, client, one);
    }
}

/// Lets all `screens` show nothing, where `client` is the output.
fn leave_screens(screens: &mut Vec<Screen>, client: u8)
    ensures shown { screens.new.items ≡ left_shown client screens.old.items }
    ensures count { length screens.new.items ≡ length screens.old.items }
{
    if client == OUTPUT {
        forget_all(screens);
    }
}

/// Tells client `to` these `bytes` of `client`, and answers this one.
fn pass(client: u8, to: u8, bytes: &[u8], answers: &mut Answers)
    requires none { answers.old ≡ [] }
    requires few { length bytes.now ≤ MOST_TOLD }
    ensures { answers.new ≡ answer_bytes (answer_to to TOLD (record { code = 0; value = client }) bytes.now) ++ one client TELL done }
{
    let told = Told {
        code: 0,
        value: u32::from(client),
    };
    answers.put(to, TOLD, told, bytes);
    put_one(answers, client, TELL, Told::done());
}

/// Tells whether `client` may tell client `to` something.
fn may_tell(client: u8, to: u64) -> bool
    ensures { result ≡ may_tell client to }
{
    client == MANAGER || client == OUTPUT || to == u64::from(MANAGER)
}

/// Tells whether a body of `count` bytes that begins with `to` tells a client something.
fn tells(to: u64, count: usize) -> bool
    ensures { result ≡ tells to count }
{
    count <= 8 + MOST_TOLD && to <= u64::from(OUTPUT)
}

/// Answers a message that tells client `to` something, whose body has 8 bytes at least.
fn tell_to(client: u8, to: u64, body: &[u8], answers: &mut Answers)
    requires none { answers.old ≡ [] }
    requires least { 8 ≤ length body.now }
    ensures { answers.new ≡ told_to client to body.now }
{
    if !tells(to, body.len()) {
        put_one(answers, client, TELL, Told::refused(Code::IllegalArgument));
    } else if may_tell(client, to) {
        pass(client, to as u8, &body[8..], answers);
    } else {
        put_one(answers, client, TELL, Told::refused(Code::Unsupported));
    }
}

/// Answers a message that tells another client something.
fn tell(client: u8, body: &[u8], answers: &mut Answers)
    requires { answers.old ≡ [] }
    ensures { answers.new ≡ told_by client body.now }
{
    if body.len() < 8 {
        put_one(answers, client, TELL, Told::refused(Code::IllegalArgument));
    } else {
        tell_to(client, word_at(body, 0), body, answers);
    }
}

impl Core {
    /// Puts the pixels of a body.
    fn put_body(&mut self, client: u8, body: &[u8]) -> Told
        ensures { PutsIf (nat_le 32 (length body.now)) client body.now self.old self.new result }
    {
        if body.len() < 32 {
            return Told::refused(Code::IllegalArgument);
        }
        self.put(client, &rectangle_in(body), &body[32..])
    }

    /// Returns what `stream` is, which `client` may ask for.
    fn owned_by(&self, client: u8, stream: u64) -> Option<&Owned>
        ensures { option_map (λ o. o.now) result
            ≡ find (λ o. (o.stream == stream) && ((client == MANAGER) || (o.client == client))) self.now.owned }
    {
        self.owners.list().iter().find(|one| {
            u64::from(one.stream) == stream && (client == MANAGER || one.client == client)
        })
    }

    /// Answers with the size of a stream.
    fn size(&self, client: u8, body: &[u8], answers: &mut Answers)
        requires { answers.old ≡ [] }
        ensures { answers.new ≡ sized client body.now self.now }
    {
        if !is_handle(body) {
            return put_one(answers, client, SIZE, Told::refused(Code::IllegalArgument));
        }
        match self.owned_by(client, word_at(body, 0)) {
            Some(owned) => put_one(answers, client, SIZE, size_told(owned)),
            None => put_one(answers, client, SIZE, Told::refused(Code::BadHandle)),
        }
    }

    /// Lets `client` wait for the next tick.
    fn wait(&mut self, client: u8, body: &[u8], answers: &mut Answers)
        requires few { client < CLIENTS }
        requires none { answers.old ≡ [] }
        ensures { (self.new, answers.new) ≡ waited client body.now self.old }
    {
        let at = usize::from(client);
        if !body.is_empty() {
            put_one(answers, client, WAIT, Told::refused(Code::IllegalArgument));
        } else if self.waiting[at] {
            put_one(answers, client, WAIT, Told::not_made());
        } else {
            self.waiting[at] = true;
        }
    }

    /// Lets all go that `client` has.
    fn leave(&mut self, client: u8)
        requires { client < CLIENTS }
        ensures { HasLeft client self.old self.new }
    {
        let _told = self.discard(client);
        destroy(&mut self.machine, client, self.owners.list());
        self.owners.leave(client);
        self.waiting[usize::from(client)] = false;
        leave_screens(&mut self.screens, client);
    }

    /// Answers the message that says who is gone.
    fn gone(&mut self, client: u8, number: u8, body: &[u8], answers: &mut Answers)
        requires { answers.old ≡ [] }
        ensures { Leaves client number body.now self.old self.new answers.new }
    {
        if body.len() != 8 || word_at(body, 0) > u64::from(OUTPUT) {
            return put_one(
                answers,
                client,
                number,
                Told::refused(Code::IllegalArgument),
            );
        }
        let who = word_at(body, 0) as u8;
        self.leave(who);
        let left = Told {
            code: 0,
            value: u32::from(who),
        };
        put_one(answers, MANAGER, LEFT, left);
        put_one(answers, client, number, Told::done());
    }

    /// Answers `tick`, and those who wait for it.
    fn answer_tick(&mut self, tick: u32, answers: &mut Answers)
        requires { answers.old ≡ [] }
        ensures now { self.new ≡ record self.old { waiting = replicate CLIENTS false; ticks = tick } }
        ensures answers { answers.new ≡ one OUTPUT TICK (record { code = 0; value = tick }) ++ woken self.old.waiting tick }
    {
        put_one(
            answers,
            OUTPUT,
            TICK,
            Told {
                code: 0,
                value: tick,
            },
        );
        wake_all(&self.waiting, tick, answers);
        self.waiting = [false; CLIENTS];
        self.ticks = tick;
    }

    /// Composes the contexts and shows the ports.
    fn tick_all<K: Sink>(&mut self, answers: &mut Answers, frames: &mut K) -> Result<(), WriteStop>
        requires { answers.old ≡ [] }
        ensures now { OnOk result (self.new ≡ (ticked self.old).now) }
        ensures answers { OnOk result (answers.new ≡ (ticked self.old).answers) }
        ensures writes { Writes K.took frames.old frames.new (ticked self.old).frames result }
        ensures cause { HasCause (K.faults frames.old) (K.faults frames.new) result }
    {
        let tick = self.ticks.wrapping_add(1);
        match play(
            &mut self.machine,
            &mut self.place,
            &mut self.pictures,
            &mut self.screens,
            tick,
            frames,
        ) {
            Ok(()) => {
                self.answer_tick(tick, answers);
                Ok(())
            }
            Err(stop) => Err(stop),
        }
    }

    /// Answers a tick.
    fn tick<K: Sink>(
        &mut self,
        client: u8,
        body: &[u8],
        answers: &mut Answers,
        frames: &mut K,
    ) -> Result<(), WriteStop>
        requires { answers.old ≡ [] }
        ensures heard { OnOk result ((fs : List ℕ) × TicksIf (length body.now == 0) client self.old self.new answers.new fs
            × PlainPuts K.took frames.old frames.new fs) }
        ensures cut { OnErr result ((after : Served) × (ans : List ℕ) × (fs : List ℕ)
            × TicksIf (length body.now == 0) client self.old after ans fs × PutsFront K.took frames.old frames.new fs) }
        ensures cause { HasCause (K.faults frames.old) (K.faults frames.new) result }
    {
        if body.is_empty() {
            return self.tick_all(answers, frames);
        }
        put_one(answers, client, TICK, Told::refused(Code::IllegalArgument));
        Ok(())
    }

    /// Answers a message that shows nothing.
    fn hear_quietly(
        &mut self,
        kind: Kind,
        client: u8,
        number: u8,
        body: &[u8],
        answers: &mut Answers,
    )
        requires quiet { is_tick kind ≡ false }
        requires waits { kind ≡ Kind.Wait → client < CLIENTS }
        requires none { answers.old ≡ [] }
        ensures { HearsKind kind client number body.now self.old self.new answers.new [] }
    {
        match kind {
            Kind::Refused => put_one(answers, client, number, Told::refused(Code::Unsupported)),
            Kind::Call => self.call(client, number, body, answers),
            Kind::Put => {
                let told = self.put_body(client, body);
                put_one(answers, client, number, told);
            }
            Kind::Size => self.size(client, body, answers),
            Kind::Wait => self.wait(client, body, answers),
            Kind::Tell => tell(client, body, answers),
            Kind::Gone => self.gone(client, number, body, answers),
            Kind::Tick => {}
        }
    }

    /// Does what a message asks for, by its kind.
    fn hear_kind<K: Sink>(
        &mut self,
        kind: Kind,
        client: u8,
        number: u8,
        body: &[u8],
        answers: &mut Answers,
        frames: &mut K,
    ) -> Result<(), WriteStop>
        requires waits { kind ≡ Kind.Wait → client < CLIENTS }
        requires none { answers.old ≡ [] }
        ensures heard { OnOk result ((fs : List ℕ) × HearsKind kind client number body.now self.old self.new answers.new fs
            × PlainPuts K.took frames.old frames.new fs) }
        ensures cut { OnErr result ((after : Served) × (ans : List ℕ) × (fs : List ℕ)
            × HearsKind kind client number body.now self.old after ans fs × PutsFront K.took frames.old frames.new fs) }
        ensures cause { HasCause (K.faults frames.old) (K.faults frames.new) result }
    {
        if kind == Kind::Tick {
            return self.tick(client, body, answers, frames);
        }
        self.hear_quietly(kind, client, number, body, answers);
        Ok(())
    }

    /// Does what a message of `client` asks for, by its `number` and its `body`: puts the answers into `answers`, in place of those that
    /// were there, and the pictures of a tick into `frames`.
    pub fn hear<K: Sink>(
        &mut self,
        client: u8,
        number: u8,
        body: &[u8],
        answers: &mut Answers,
        frames: &mut K,
    ) -> Result<(), WriteStop>
        ensures heard { OnOk result ((fs : List ℕ) × Hears client number body.now self.old self.new answers.new fs
            × PlainPuts K.took frames.old frames.new fs) }
        ensures cut { OnErr result ((after : Served) × (ans : List ℕ) × (fs : List ℕ)
            × Hears client number body.now self.old after ans fs × PutsFront K.took frames.old frames.new fs) }
        ensures cause { HasCause (K.faults frames.old) (K.faults frames.new) result }
    {
        answers.clear();
        let kind = kind_of(client, number);
        self.hear_kind(kind, client, number, body, answers, frames)
    }
}
