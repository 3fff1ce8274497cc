//! A run: messages are read, one after another, and each is answered before the next.

ghost use Rattle.std.specs.Prelude.{◌≡◌, ◌∷◌, ◌≤◌, ℕ, IfErr, IfOk, IsErrOf, IsTrue, OnErr, OnOk, length};
ghost use Rattle.wf_calls.specs.PortRules.{may_declare};
ghost use Rattle.wf_guard.specs.LiveStreams.{opened};
ghost use Rattle.wf_guard.specs.Serving.{Served};
ghost use Rattle.wf_io.specs.Bytes.{Puts};
ghost use Rattle.wf_io.specs.Causes.{Rose};
ghost use Rattle.wf_serve.specs.Putting.{PutsFront, Writes};
ghost use Rattle.wf_serve.specs.Runs.{HearsContent, IsOfSink, RunsTo, ServesNext, stop_of};

use crate::answers::Answers;
use crate::input::{MOST_FRAME, Next, next_frame};
use crate::live::Core;
use std::alloc::Global;
use wf_calls::Ports;
use wf_guard::Form;
use wf_io::{Sink, Source, write_all};
use wf_words::NoMemory;

/// Why a run stopped before its input ended.
#[derive(Clone, Copy, Debug, PartialEq, Eq)]
pub enum ServeStop {
    /// The source failed.
    ReadFault,
    /// What comes next in the input is no frame.
    BadFrame,
    /// The sink of answers failed.
    AnswersFault,
    /// The sink of frames failed.
    FramesFault,
    /// As many messages were served as can be counted, 2^64 - 1.
    Most,
}

/// Parts a content: the client, the number and the body.
fn parts_of(content: &[u8]) -> (u8, u8, &[u8])
    requires { 2 ≤ length content.now }
    ensures { result.0 ∷ result.1 ∷ result.2.now ≡ content.now }
{
    (content[0], content[1], &content[2..])
}

/// Puts the bytes of answers.
fn put_answers<K: Sink>(out: &mut K, bytes: &[u8]) -> Result<(), ServeStop>
    ensures writes { Writes K.took out.old out.new bytes.now result }
    ensures sink { IfErr result (λ stop. stop ≡ ServeStop.AnswersFault) }
    ensures count { K.faults out.old ≤ K.faults out.new }
    ensures fault { IsErrOf result ServeStop.AnswersFault → Rose (K.faults out.old) (K.faults out.new) }
{
    match write_all(out, bytes) {
        Ok(()) => Ok(()),
        Err(_) => Err(ServeStop::AnswersFault),
    }
}

/// Answers the message of a `content`, its client, its number and its body.
fn serve_one<K: Sink, F: Sink>(
    core: &mut Core,
    content: &[u8],
    answers: &mut Answers,
    out: &mut K,
    frames: &mut F,
) -> Result<(), ServeStop>
    requires { 2 ≤ length content.now }
    ensures heard { OnOk result (HearsContent content.now core.old core.new
        (λ ans. Puts K.took out.old out.new ans) (λ fs. Puts F.took frames.old frames.new fs)) }
    ensures cut { OnErr result ((after : Served) × HearsContent content.now core.old after
        (λ ans. PutsFront K.took out.old out.new ans) (λ fs. PutsFront F.took frames.old frames.new fs)) }
    ensures sink { IfErr result (λ stop. IsOfSink stop) }
    ensures out_count { K.faults out.old ≤ K.faults out.new }
    ensures frames_count { F.faults frames.old ≤ F.faults frames.new }
    ensures answers_fault { IsErrOf result ServeStop.AnswersFault → Rose (K.faults out.old) (K.faults out.new) }
    ensures frames_fault { IsErrOf result ServeStop.FramesFault → Rose (F.faults frames.old) (F.faults frames.new) }
{
    let (client, number, body) = parts_of(content);
    match core.hear(client, number, body, answers, frames) {
        Ok(()) => put_answers(out, answers.bytes()),
        Err(_) => Err(ServeStop::FramesFault),
    }
}

/// Serves the next message of `input`, and tells whether there was one.
fn serve_next<I: Source, K: Sink, F: Sink>(
    core: &mut Core,
    buffer: &mut [u8],
    answers: &mut Answers,
    input: &mut I,
    out: &mut K,
    frames: &mut F,
) -> Result<bool, ServeStop>
    requires { MOST_FRAME ≤ length buffer.old }
    ensures size { length buffer.new ≡ length buffer.old }
    ensures next { ServesNext K.took F.took core.old core.new (I.left input.old) (I.left input.new) out.old out.new frames.old frames.new
        result }
    ensures input_count { I.faults input.old ≤ I.faults input.new }
    ensures out_count { K.faults out.old ≤ K.faults out.new }
    ensures frames_count { F.faults frames.old ≤ F.faults frames.new }
    ensures read_fault { IsErrOf result ServeStop.ReadFault → Rose (I.faults input.old) (I.faults input.new) }
    ensures answers_fault { IsErrOf result ServeStop.AnswersFault → Rose (K.faults out.old) (K.faults out.new) }
    ensures frames_fault { IsErrOf result ServeStop.FramesFault → Rose (F.faults frames.old) (F.faults frames.new) }
{
    match next_frame(input, buffer) {
        Ok(Next::Frame(count)) => {
            match serve_one(core, &buffer[..count], answers, out, frames) {
                Ok(()) => Ok(true),
                Err(stop) => Err(stop),
            }
        }
        Ok(Next::End) => Ok(false),
        Ok(Next::Broken) => Err(ServeStop::BadFrame),
        Err(_) => Err(ServeStop::ReadFault),
    }
}

/// Serves the messages of `input` up to its end or to what stops the run, each before the next is read.
fn serve_all<I: Source, K: Sink, F: Sink>(
    core: &mut Core,
    buffer: &mut [u8],
    answers: &mut Answers,
    input: &mut I,
    out: &mut K,
    frames: &mut F,
) -> Result<(), ServeStop>
    requires { MOST_FRAME ≤ length buffer.old }
    ensures runs { RunsTo K.took F.took core.old (I.left input.old) (I.left input.new) out.old out.new frames.old frames.new
        (stop_of result) }
    ensures input_count { I.faults input.old ≤ I.faults input.new }
    ensures out_count { K.faults out.old ≤ K.faults out.new }
    ensures frames_count { F.faults frames.old ≤ F.faults frames.new }
    ensures read_fault { IsErrOf result ServeStop.ReadFault → Rose (I.faults input.old) (I.faults input.new) }
    ensures answers_fault { IsErrOf result ServeStop.AnswersFault → Rose (K.faults out.old) (K.faults out.new) }
    ensures frames_fault { IsErrOf result ServeStop.FramesFault → Rose (F.faults frames.old) (F.faults frames.new) }
{
    for _ in 0..u64::MAX {
        match serve_next(core, buffer, answers, input, out, frames) {
            Ok(true) => {}
            Ok(false) => return Ok(()),
            Err(stop) => return Err(stop),
        }
    }
    Err(ServeStop::Most)
}

/// Serves the messages of `input` for the clients of a machine with these `ports`, one after another, each before the next is read: puts
/// the answers into `out`, and into `frames` in a `form` the pictures of ticks that are others than their ports showed last.
///
/// A message comes as a frame of bytes: how many follow, in four bytes, the client's number, the message's number, and its body. A call
/// that is wrong or not allowed is answered, and stops nobody. Takes memory before the first message, and then for creations alone.
pub fn serve<I: Source, K: Sink, F: Sink>(
    alloc: Global,
    form: Form,
    ports: &Ports,
    input: &mut I,
    out: &mut K,
    frames: &mut F,
) -> Result<Result<(), ServeStop>, NoMemory>
    requires { IsTrue (may_declare ports.now) }
    ensures runs { IfOk result (λ end. RunsTo K.took F.took (opened form ports.now) (I.left input.old) (I.left input.new) out.old out.new
        frames.old frames.new (stop_of end)) }
    ensures read_fault { IfOk result (λ end. IsErrOf end ServeStop.ReadFault → Rose (I.faults input.old) (I.faults input.new)) }
    ensures answers_fault { IfOk result (λ end. IsErrOf end ServeStop.AnswersFault → Rose (K.faults out.old) (K.faults out.new)) }
    ensures frames_fault { IfOk result (λ end. IsErrOf end ServeStop.FramesFault → Rose (F.faults frames.old) (F.faults frames.new)) }
{
    let mut core = Core::open(alloc, form, ports)?;
    let mut answers = Answers::new(alloc)?;
    let mut buffer = vec![in alloc; 0u8; MOST_FRAME]?;
    Ok(serve_all(&mut core, &mut buffer, &mut answers, input, out, frames))
}
