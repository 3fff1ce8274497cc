//! One turn of a program.

ghost use Rattle.std.specs.Prelude.{◌≡◌, ◌≢◌, ◌&&◌, ◌||◌, not, true, IfSome, IsSome, IsTrue, MatchOption, None};
ghost use Rattle.wf_calls.specs.Codes.{entry};
ghost use Rattle.wf_calls.specs.Parts.{carries, is_begin, part_of};
ghost use Rattle.wf_calls.specs.Replies.{with_canvas};
ghost use Rattle.wf_calls.specs.Requests.{call_of};
ghost use Rattle.wf_machine.specs.Object.{is_ready};
ghost use Rattle.wf_turn.specs.Asked.{as_wanted, asked, is_ending, is_stuck, takes_job};
ghost use Rattle.wf_turn.specs.Play.{is_marked};
ghost use Rattle.wf_turn.specs.Playing.{Answers, Takes, TakesNext, wanted_now};
ghost use Rattle.wf_turn.specs.Program.{took};
ghost use Rattle.wf_turn.specs.Ready.{IsFit};

use crate::program::Program;
use crate::stage::{Asked, Asks, Wanted};
use wf_calls::{Answer, Call, Request, Turn};
use wf_image::Canvas;
use wf_kernel::Painter;
use wf_machine::Machine;

/// Takes a turn of `client`'s `program`: `machine` answers its next call, to which memory is refused where `memory_refused` says
/// so, and `painter` paints the Job that comes. Returns the entry, and whether a Job was painted; or `None` where the program is
/// through, or where its call waits and a frame runs. After `None` the program is of no further use: what its call carries may be
/// gone.
pub(crate) fn take_turn<P: Painter>(
    machine: &mut Machine,
    program: &mut Program,
    client: u8,
    memory_refused: bool,
    place: &mut Asked,
    painter: &mut P,
) -> Option<(Turn, bool)>
    requires ready { P.ready }
    requires fit { IsFit program.old }
    ensures { MatchOption result (wanted_now machine.old program.old ≡ None)
        (λ x. Takes (memory_refused || is_marked x.0) client machine.old machine.new program.old program.new x.0 x.1) }
{
    match answer_next(machine, program, client, memory_refused, place) {
        Some(turn) => Some((turn, program.paint(painter))),
        None => None,
    }
}

/// Has `machine` answer the next call of `program`, to which memory is refused where `memory_refused` says so, and leaves a Job that
/// comes to paint.
#[inline(never)]
fn answer_next(
    machine: &mut Machine,
    program: &mut Program,
    client: u8,
    memory_refused: bool,
    place: &mut Asked,
) -> Option<Turn>
    requires { IsFit program.old }
    ensures { MatchOption result (wanted_now machine.old program.old ≡ None)
        (λ t. TakesNext (memory_refused || is_marked t) client machine.old machine.new program.old program.new t) }
{
    if memory_refused {
        answer_denied(machine, program, client)
    } else {
        answer_asked(machine, program, client, place)
    }
}

/// Has `machine` answer the next call of `program`, to which memory is refused.
#[inline(never)]
fn answer_denied(machine: &mut Machine, program: &mut Program, client: u8) -> Option<Turn>
    requires { IsFit program.old }
    ensures { MatchOption result (wanted_now machine.old program.old ≡ None)
        (λ t. TakesNext true client machine.old machine.new program.old program.new t) }
{
    let Some(wanted) = program.next() else {
        return None;
    };
    if waits(machine, &wanted) {
        return None;
    }
    Some(deny(machine, program, client, wanted.call))
}

/// Checks whether a call waits, and a frame runs for which it waits.
fn waits(machine: &Machine, wanted: &Wanted) -> bool
    ensures { result ≡ (wanted.now.wait && not (is_ready machine.now wanted.now.call)) }
{
    wanted.wait && !machine.ready(&wanted.call)
}

/// Has `machine` answer `call`, to which memory is refused, and `program` take the answer.
#[inline(never)]
fn deny(machine: &mut Machine, program: &mut Program, client: u8, call: Call) -> Turn
    ensures { Answers true client machine.old machine.new call program.old program.new result }
{
    let reply = machine.deny(client, call);
    let turn = reply.entry(client);
    program.took(reply);
    turn
}

/// Has `machine` answer the next call of `program`. No large value is moved: the call is put in `place`.
fn answer_asked(
    machine: &mut Machine,
    program: &mut Program,
    client: u8,
    place: &mut Asked,
) -> Option<Turn>
    requires { IsFit program.old }
    ensures { MatchOption result (wanted_now machine.old program.old ≡ None)
        (λ t. TakesNext (is_marked t) client machine.old machine.new program.old program.new t) }
{
    let asks = program.asks(place);
    if is_stuck(machine, &asks, place) {
        return None;
    }
    Some(take_asked(machine, program, client, asks, place))
}

/// Checks whether a program has no turn now: its lines are through, or its call waits and a frame runs.
fn is_stuck(machine: &Machine, asks: &Asks, place: &Asked) -> bool
    ensures { result ≡ is_stuck machine.now asks.now (as_wanted place.now) }
{
    match asks {
        Asks::Nothing => true,
        Asks::Call => place.wait && !machine.ready_for(&place.request),
        _ => false,
    }
}

/// Has `machine` answer what a program asks for, and `program` take the answer. No Job is moved, neither where a frame begins nor
/// where it ends.
fn take_asked(
    machine: &mut Machine,
    program: &mut Program,
    client: u8,
    asks: Asks,
    place: &Asked,
) -> Turn
    requires some { asks ≢ Asks.Nothing }
    requires call { asks ≡ Asks.Call → carries (part_of (call_of place.now.request)) ≡ is_begin (call_of place.now.request) }
    requires begins { asks ≡ Asks.Call → is_begin (call_of place.now.request) ≡ true → takes_job program.old ≡ true }
    requires ends { asks ≡ Asks.End → (is_ending program.old ≡ true) × IsSome program.old.job }
    ensures { IfSome (asked program.old.job (as_wanted place.now) asks)
        (λ w. Answers (is_marked result) client machine.old machine.new w.call program.old program.new result) }
{
    match asks {
        Asks::Nothing => unreachable!(),
        Asks::Call => take_called(machine, program, client, &place.request),
        Asks::Acquire { stream } => take_canvas(program, client, machine.acquire(client, stream)),
        Asks::Post(canvas) => take_canvas(program, client, machine.post(client, canvas)),
        Asks::Discard(canvas) => take_canvas(program, client, machine.discard(client, canvas)),
        Asks::End => take_end(machine, program, client),
    }
}

/// Takes the turn of a call that carries nothing, or begins a frame.
fn take_called(machine: &mut Machine, program: &mut Program, client: u8, call: &Request) -> Turn
    requires call { carries (part_of (call_of call.now)) ≡ is_begin (call_of call.now) }
    requires begins { is_begin (call_of call.now) ≡ true → takes_job program.old ≡ true }
    ensures { Answers (is_marked result) client machine.old machine.new (call_of call.now) program.old program.new result }
{
    if call.is_begin() {
        return take_begin(machine, program, client, call);
    }
    match machine.answer(client, call) {
        Some(answer) => {
            program.took_answer(answer);
            answer.entry(client)
        }
        None => unreachable!(),
    }
}

/// Takes the turn of a call that begins a frame: the Job is put where the program holds it.
fn take_begin(machine: &mut Machine, program: &mut Program, client: u8, call: &Request) -> Turn
    requires call { IsTrue (is_begin (call_of call.now)) }
    requires begins { takes_job program.old ≡ true }
    ensures { Answers (is_marked result) client machine.old machine.new (call_of call.now) program.old program.new result }
{
    program.job.clear();
    let answer = machine.begin(client, call, &mut program.job);
    program.took_begun(answer);
    answer.entry(client)
}

/// Takes the turn of the end of a frame, whose Job is held.
fn take_end(machine: &mut Machine, program: &mut Program, client: u8) -> Turn
    requires job { IsSome program.old.job }
    requires ends { is_ending program.old ≡ true }
    ensures { IfSome program.old.job
        (λ job. Answers (is_marked result) client machine.old machine.new (Call.End job) program.old program.new result) }
{
    let answer = machine.end(client, &mut program.job);
    program.took_answer(answer);
    answer.entry(client)
}

/// Has the program take an answer with which a canvas comes, or nothing.
fn take_canvas(program: &mut Program, client: u8, answered: (Answer, Option<Canvas>)) -> Turn
    ensures now { program.new ≡ took program.old (with_canvas answered) }
    ensures entry { result ≡ entry client (with_canvas answered) }
{
    let (answer, canvas) = answered;
    match canvas {
        Some(canvas) => program.took_canvas(answer, canvas),
        None => program.took_answer(answer),
    }
    answer.entry(client)
}
