//! A session that is opened and served, and what is told of it.

ghost use Rattle.std.specs.Prelude.{◌≤◌, ◌<◌, IsTrue};
ghost use Rattle.wf_calls.specs.PortRules.{may_declare};

use std::alloc::{AllocError, Global};
use std::sync::Wait;
use wf_calls::Ports;
use wf_cases::{push_hex, told_hex};
use wf_desk::Desk;
use wf_io::{MemorySink, MemorySource};
use wf_machine::Machine;
use wf_wire::{ServeStop, Session};

/// The most bytes that a session puts here.
const ROOM: usize = 65_536;

/// How many calls the pass has, how many bytes the source gives at once, and which calls of the source and of the sink fail, 0 for none.
#[derive(Drop)]
pub(crate) struct Parts {
    pub(crate) quota: u32,
    pub(crate) step: usize,
    pub(crate) take: u32,
    pub(crate) put: u32,
    ghost some: { 1 ≤ quota },
    ghost moves: { 0 < step },
}

impl Parts {
    /// Makes the parts of a session in which nothing fails.
    pub(crate) fn new() -> Parts {
        Parts {
            quota: 1_048_576,
            step: 4096,
            take: 0,
            put: 0,
        }
    }
}

/// Tells how a session ended.
fn told_end(alloc: Global, end: Result<u64, ServeStop>) -> Result<String, AllocError> {
    match end {
        Ok(events) => format!(in alloc; "Ok {events}"),
        Err(ServeStop::ReadFault) => format!(in alloc; "ReadFault"),
        Err(ServeStop::WriteFault { written }) => format!(in alloc; "WriteFault {written}"),
        Err(ServeStop::BadMessage { at, rule }) => format!(in alloc; "BadMessage {at} {rule}"),
        Err(ServeStop::Quota { at }) => format!(in alloc; "Quota {at}"),
    }
}

/// Serves a session on a machine of its own, whose client has `quota` calls.
fn served<R: AllocGlobal + Wait>(
    rt: &R,
    quota: u32,
    session: Session,
    ports: &Ports,
    input: &mut MemorySource,
    out: &mut MemorySink,
) -> Result<Result<u64, ServeStop>, AllocError>
    requires ports { IsTrue (may_declare ports.now) }
    requires some { 1 ≤ quota }
{
    let alloc = rt.alloc();
    let Ok(machine) = Machine::open(alloc, ports) else {
        return Err(AllocError);
    };
    let Ok((desk, mut passes)) = Desk::open(alloc, machine, &[quota]) else {
        return Err(AllocError);
    };
    match passes.first_mut() {
        Some(pass) => Ok(session.serve(rt, &desk, pass, input, out)),
        None => Err(AllocError),
    }
}

/// Plays the session whose bytes these words are, in hexadecimal, and tells the bytes that were put and how it ended.
pub(crate) fn played<R: AllocGlobal + Wait>(
    rt: &R,
    parts: &Parts,
    words: &[&str],
) -> Result<String, AllocError> {
    let alloc = rt.alloc();
    let mut bytes = Vec::new(alloc);
    for word in words {
        push_hex(&mut bytes, word)?;
    }
    let mut input = MemorySource::new(bytes, parts.step, [parts.take].to_vec(alloc)?);
    let Ok(mut out) = MemorySink::new(alloc, ROOM, [parts.put].to_vec(alloc)?) else {
        return Err(AllocError);
    };
    let end = match Session::open(&mut input) {
        Ok((session, ports)) => served(rt, parts.quota, session, &ports, &mut input, &mut out)?,
        Err(stop) => Err(stop),
    };
    let put = told_hex(alloc, out.bytes())?;
    let end = told_end(alloc, end)?;
    format!(in alloc; "{put} {end}")
}
