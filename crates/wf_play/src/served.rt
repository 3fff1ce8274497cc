//! The mode `session`: one client's calls as bytes are answered.

ghost use Rattle.std.specs.Prelude.{◌≡◌, ◌≢◌, ◌≤◌, ℕ, Some, List, [], ◌∷◌, length, IfSome, IsErrOf, IsTrue};
ghost use Rattle.wf_calls.specs.PortRules.{may_declare};
ghost use Rattle.wf_calls.specs.declared.ports.Ports.{Ports as PlainPorts};
ghost use Rattle.wf_desk.specs.Desk.{AreAll};
ghost use Rattle.wf_io.specs.Causes.{Rose};
ghost use Rattle.wf_model.specs.State.{opening};
ghost use Rattle.wf_wire.specs.Served.{is_write_fault, stop_of};
ghost use Rattle.wf_play.specs.Report.{IsCaused};
ghost use Rattle.wf_play.specs.Serving.{IsClosed, IsOpened, first_pass, status_of_end};
ghost use Rattle.wf_play.specs.Sessions.{SaysOfSession};

use crate::report::Status;
use std::alloc::Global;
use std::sync::Wait;
use wf_calls::Ports;
use wf_desk::{Desk, Pass};
use wf_io::{Sink, Source};
use wf_machine::Machine;
use wf_wire::{ServeStop, Session};

/// The calls of the client of a session.
const SESSION_CALLS: u32 = 1_048_576;

/// The status of a session that ended.
fn status_of_end(end: Result<u64, ServeStop>) -> Status
    ensures { result ≡ status_of_end end }
{
    match end {
        Ok(_) => Status::Done,
        Err(ServeStop::ReadFault) => Status::ReadFault,
        Err(ServeStop::WriteFault { written }) => Status::WriteFault { written },
        Err(ServeStop::BadMessage { at, rule }) => Status::BadMessage { at, rule },
        Err(ServeStop::Quota { at }) => Status::Quota { at },
    }
}

/// Ends `desk`, with its `passes`. Its machine and its journal are dropped.
fn close(desk: Desk<Machine>, passes: Vec<Pass<Machine>>)
    requires passes { AreAll desk.id (length desk.quotas) passes.items }
    ensures { IsClosed desk passes.items }
{
    let _parts = desk.close(passes);
}

/// Answers the messages of `session` through the one pass of `desk`, which has made no call, and ends the desk.
fn serve_desk<R: Wait, I: Source, O: Sink>(
    rt: &R,
    session: Session,
    desk: Desk<Machine>,
    passes: Vec<Pass<Machine>>,
    input: &mut I,
    film: &mut O,
) -> Result<u64, ServeStop>
    requires passes { passes.items ≡ first_pass desk.id desk.opening ∷ [] }
    requires quotas { desk.quotas ≡ SESSION_CALLS ∷ [] }
    ensures says { (bytes rest : List ℕ) (ports : PlainPorts) → desk.opening ≡ opening ports → I.left input.old ≡ Some rest
        → IsOpened bytes ports session rest → SaysOfSession O.took film.old film.new bytes (status_of_end result) }
    ensures input_count { I.faults input.old ≤ I.faults input.new }
    ensures read_fault { IsErrOf result ServeStop.ReadFault → Rose (I.faults input.old) (I.faults input.new) }
    ensures film_count { O.faults film.old ≤ O.faults film.new }
    ensures write_fault { IsTrue (is_write_fault (stop_of result)) → Rose (O.faults film.old) (O.faults film.new) }
{
    let mut passes = passes;
    let mut pass = passes.remove(0);
    let end = session.serve(rt, &desk, &mut pass, input, film);
    passes.push_reserved(pass);
    close(desk, passes);
    end
}

/// Answers the messages of a session on a machine of these `ports`, whose only client it is.
fn serve_ports<R: Wait, I: Source, O: Sink>(
    rt: &R,
    alloc: Global,
    session: Session,
    ports: &Ports,
    input: &mut I,
    film: &mut O,
) -> Status
    requires { IsTrue (may_declare ports.now) }
    ensures mode { result ≢ Status.Usage }
    ensures says { (bytes rest : List ℕ) → I.left input.old ≡ Some rest → IsOpened bytes ports.now session rest
        → SaysOfSession O.took film.old film.new bytes result }
    ensures caused { IsCaused (I.faults input.old) (I.faults input.new) (O.faults film.old) (O.faults film.new) result }
    ensures input_count { I.faults input.old ≤ I.faults input.new }
    ensures film_count { O.faults film.old ≤ O.faults film.new }
{
    let Ok(machine) = Machine::open(alloc, ports) else {
        return Status::NoMemory;
    };
    let Ok((desk, passes)) = Desk::open(alloc, machine, &[SESSION_CALLS]) else {
        return Status::NoMemory;
    };
    status_of_end(serve_desk(rt, session, desk, passes, input, film))
}

/// Reads the header of a session, and answers its messages.
#[inline(never)]
pub(crate) fn play_session<R: Wait, I: Source, O: Sink>(
    rt: &R,
    alloc: Global,
    input: &mut I,
    film: &mut O,
) -> Status
    ensures mode { result ≢ Status.Usage }
    ensures input { IfSome (I.left input.old) (λ bytes. SaysOfSession O.took film.old film.new bytes result) }
    ensures caused { IsCaused (I.faults input.old) (I.faults input.new) (O.faults film.old) (O.faults film.new) result }
    ensures input_count { I.faults input.old ≤ I.faults input.new }
    ensures film_count { O.faults film.old ≤ O.faults film.new }
{
    match Session::open(input) {
        Ok((session, ports)) => serve_ports(rt, alloc, session, &ports, input, film),
        Err(stop) => status_of_end(Err(stop)),
    }
}
