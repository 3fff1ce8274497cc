//! What C calls of machines.

ghost use Rattle.std.specs.Prelude.{◌≡◌, [], IsTrue, None};
ghost use Rattle.wf_calls.specs.PortRules.{may_declare};
ghost use Rattle.wf_calls.specs.declared.call.Call.TheVariants as call;
ghost use Rattle.wf_host.specs.Made.{Calls, Gives};
ghost use Rattle.wf_host.specs.PortsOf.{declares, ports_of};
ghost use Rattle.wf_host.specs.Reading.{Submits};
ghost use Rattle.wf_model.specs.State.{opening};
ghost use Rattle.wf_wire.specs.Messages.{told_by};
ghost use Rattle.weklandu.specs.Things.{IsNoCode, IsNone, OfMachine, Opens, OpensOne, TellsHeld, WritesTold};
ghost use Rattle.weklandu.specs.declared.thing.Thing.TheVariants as thing;

use crate::slot::Slot;
use crate::thing::Thing;
use std::alloc::Global;
use wf_calls::{Code, Ports};
use wf_host::{Host, Mode, NOT_MADE, Told, ports_of};

/// Opens a machine with `ports` ports, from 1 to 4, by their modes, and `pipes` pipelines, in a closed slot. Returns 0, or 1 where there
/// is no memory, 2 where these may not be declared, and 255 where the slot is open.
#[unsafe(no_mangle)]
pub extern "C" fn wk_open(
    alloc: Global,
    machine: &mut Slot,
    ports: u32,
    modes: &[Mode],
    pipes: u32,
) -> u8
    ensures { Opens (declares ports modes.now pipes) (record { machine = opening (ports_of ports modes.now pipes); canvases = [] })
        machine.old.handle.state machine.new.handle.state result }
{
    if machine.live != 0 {
        return NOT_MADE;
    }
    match ports_of(ports, modes, pipes) {
        Some(ports) => open_with(alloc, machine, &ports),
        None => Code::IllegalArgument.number(),
    }
}

/// Makes the call of the message of `number` with arguments of these `bits`, in two's complement, for `client`. Code 255 says that no
/// call was made: no message has the number, an argument is none, or it asks for what needs a place here, which `wk_post`, `wk_discard`
/// and the calls of frames give.
#[unsafe(no_mangle)]
pub extern "C" fn wk_call(
    alloc: Global,
    machine: &mut Slot,
    client: u8,
    number: u8,
    bits: &[u64],
) -> Told
    ensures { OfMachine IsNone (Calls client (told_by number bits.now)) machine.old.handle.state machine.new.handle.state result }
{
    let mut thing = machine.take(alloc);
    let told = match &mut thing {
        Some(thing) => thing.call(client, number, bits),
        None => Told::not_made(),
    };
    machine.put(thing);
    told
}

/// Posts the write buffer that is held of `stream`, for `client`. One that is refused is held as before.
#[unsafe(no_mangle)]
pub extern "C" fn wk_post(alloc: Global, machine: &mut Slot, client: u8, stream: u32) -> Told
    ensures { OfMachine IsNone (Gives client call.Post stream) machine.old.handle.state machine.new.handle.state result }
{
    let mut thing = machine.take(alloc);
    let told = match &mut thing {
        Some(thing) => thing.post(client, stream),
        None => Told::not_made(),
    };
    machine.put(thing);
    told
}

/// Gives the write buffer that is held of `stream` back unseen, for `client`.
#[unsafe(no_mangle)]
pub extern "C" fn wk_discard(alloc: Global, machine: &mut Slot, client: u8, stream: u32) -> Told
    ensures { OfMachine IsNone (Gives client call.Discard stream) machine.old.handle.state machine.new.handle.state result }
{
    let mut thing = machine.take(alloc);
    let told = match &mut thing {
        Some(thing) => thing.discard(client, stream),
        None => Told::not_made(),
    };
    machine.put(thing);
    told
}

/// Tells by 1 that a write buffer of `stream` is held, and by 0 that none is.
#[unsafe(no_mangle)]
pub extern "C" fn wk_holds(alloc: Global, machine: &mut Slot, stream: u32) -> u8
    ensures { OfMachine (λ r. r ≡ 0) (TellsHeld stream) machine.old.handle.state
        machine.new.handle.state result }
{
    let mut thing = machine.take(alloc);
    let told = match &mut thing {
        Some(thing) => thing.holds(stream),
        None => 0,
    };
    machine.put(thing);
    told
}

/// Writes `pixels`, whose rows stand `stride` bytes apart, into the write buffer that is held of `stream`. Returns 0, or 255 where none is
/// held, or the pixels are not its rows.
#[unsafe(no_mangle)]
pub extern "C" fn wk_write(
    alloc: Global,
    machine: &mut Slot,
    stream: u32,
    pixels: &[u8],
    stride: usize,
) -> u8
    ensures { OfMachine IsNoCode (WritesTold stream pixels.now stride)
        machine.old.handle.state machine.new.handle.state result }
{
    let mut thing = machine.take(alloc);
    let told = match &mut thing {
        Some(thing) => thing.write(stream, pixels, stride),
        None => NOT_MADE,
    };
    machine.put(thing);
    told
}

/// Takes the write buffer of `stream` for `client`, writes `pixels` into it and posts it: three events. Where the pixels are not its
/// rows, it is discarded.
#[unsafe(no_mangle)]
pub extern "C" fn wk_submit(
    alloc: Global,
    machine: &mut Slot,
    client: u8,
    stream: u32,
    pixels: &[u8],
    stride: usize,
) -> Told
    ensures { OfMachine IsNone (Submits client stream pixels.now stride) machine.old.handle.state machine.new.handle.state result }
{
    let mut thing = machine.take(alloc);
    let told = match &mut thing {
        Some(thing) => thing.submit(client, stream, pixels, stride),
        None => Told::not_made(),
    };
    machine.put(thing);
    told
}

/// Opens a machine with `ports` in a closed slot.
fn open_with(alloc: Global, machine: &mut Slot, ports: &Ports) -> u8
    requires closed { machine.old.handle.state ≡ None }
    requires may { IsTrue (may_declare ports.now) }
    ensures { OpensOne (thing.Machine (record { machine = opening ports.now; canvases = [] })) machine.old.handle.state
        machine.new.handle.state result }
{
    let Ok(host) = Host::open(alloc, ports) else {
        return Code::OutOfMemory.number();
    };
    machine.open(alloc, Thing::Machine(host))
}
