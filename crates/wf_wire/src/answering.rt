//! Answers, and how they are put.

ghost use Rattle.std.specs.Prelude.{◌≡◌, ◌≤◌, ◌<◌, ◌++◌, IsTrue, Some, length};
ghost use Rattle.wf_io.specs.Causes.{HasCause};
ghost use Rattle.wf_calls.specs.declared.reply.Reply.{Reply as PlainReply};
ghost use Rattle.wf_desk.specs.Pass.{IsOwn, Made};
ghost use Rattle.wf_machine.specs.Object.{IsPaintable, MayAnswer, after, is_ready};
ghost use Rattle.wf_pixel.specs.Choice.{has_sides};
ghost use Rattle.wf_wire.specs.Answers.{answer_bytes, frame_bytes, image_bytes, job_in, shown_bytes};
ghost use Rattle.wf_model.specs.Picture.{painted_job};
ghost use Rattle.wf_calls.specs.Replies.{given_canvas};
ghost use Rattle.wf_wire.specs.Putting.{Writes};

use crate::asking::make;
use byteorder::{BigEndian, ByteOrder};
use std::sync::Wait;
use wf_calls::{Call, Job, Payload};
use wf_desk::{Desk, Pass};
use wf_image::{Canvas, Image};
use wf_io::{Sink, WriteStop, write_all};
use wf_kernel::picture;
use wf_machine::Machine;
use wf_pixel::MOST_SIDE;

/// The most bytes of an answer: its code and its value, and an image with its size.
pub(crate) const ANSWER_BYTES: u64 = 9 + 4 * MOST_SIDE as u64 * MOST_SIDE as u64;

/// Puts all of `bytes`, and tells how many they are.
fn put_all<K: Sink>(out: &mut K, bytes: &[u8]) -> Result<usize, WriteStop>
    ensures writes { Writes K.took out.old out.new bytes.now result }
    ensures cause { HasCause (K.faults out.old) (K.faults out.new) result }
{
    match write_all(out, bytes) {
        Ok(()) => Ok(bytes.len()),
        Err(stop) => Err(stop),
    }
}

/// Makes an answer of a code and a value.
fn answer_of(code: u8, value: u32) -> [u8; 5]
    ensures { result ≡ answer_bytes code value }
{
    let mut bytes = [code; 5];
    BigEndian::write_u32(&mut bytes[1..], value);
    bytes
}

/// Puts an answer of a code and a value.
pub(crate) fn put_answer<K: Sink>(out: &mut K, code: u8, value: u32) -> Result<usize, WriteStop>
    ensures writes { Writes K.took out.old out.new (answer_bytes code value) result }
    ensures few { length (answer_bytes code value) ≤ ANSWER_BYTES }
    ensures cause { HasCause (K.faults out.old) (K.faults out.new) result }
{
    put_all(out, &answer_of(code, value))
}

/// Makes what stands in front of the pixels of an image that is shown: a code, a value and the size.
fn head_of(code: u8, value: u32, image: &Image) -> [u8; 9]
    ensures head { answer_bytes code value ++ image_bytes image.now ≡ result ++ image.now.bytes }
    ensures sides { IsTrue (has_sides image.now.size) }
{
    let size = image.size();
    let mut bytes = [code; 9];
    BigEndian::write_u32(&mut bytes[1..], value);
    BigEndian::write_u16(&mut bytes[5..], size.w as u16);
    BigEndian::write_u16(&mut bytes[7..], size.h as u16);
    bytes
}

/// Puts an answer with an image, of which no byte is copied.
fn put_shown<K: Sink>(out: &mut K, code: u8, value: u32, image: &Image) -> Result<usize, WriteStop>
    ensures writes { Writes K.took out.old out.new (answer_bytes code value ++ image_bytes image.now) result }
    ensures few { length (answer_bytes code value ++ image_bytes image.now) ≤ ANSWER_BYTES }
    ensures cause { HasCause (K.faults out.old) (K.faults out.new) result }
{
    let pixels = image.bytes();
    let n = put_all(out, &head_of(code, value, image))?;
    match put_all(out, pixels) {
        Ok(more) => Ok(n + more),
        Err(stop) => Err(WriteStop {
            written: n + stop.written,
        }),
    }
}

/// Puts the answer of a frame that is painted, with its picture where it `shows`.
fn put_frame<K: Sink>(
    out: &mut K,
    shows: bool,
    code: u8,
    value: u32,
    image: &Image,
) -> Result<usize, WriteStop>
    ensures writes { Writes K.took out.old out.new (answer_bytes code value ++ frame_bytes shows image.now) result }
    ensures few { length (answer_bytes code value ++ frame_bytes shows image.now) ≤ ANSWER_BYTES }
    ensures cause { HasCause (K.faults out.old) (K.faults out.new) result }
{
    if shows {
        put_shown(out, code, value, image)
    } else {
        put_answer(out, code, value)
    }
}

/// Paints the picture of a frame that began.
fn paint(job: &mut Job)
    requires { IsPaintable job.old }
    ensures { job.new ≡ painted_job job.old }
{
    picture(&job.scene, &job.contents, &mut job.image);
}

/// Paints a frame that began, puts its answer, with the picture where it `shows`, and ends it, also where the sink fails. The picture
/// is put before the end, which takes the image with it.
pub(crate) fn finish<R: Wait, K: Sink>(
    rt: &R,
    desk: &Desk<Machine>,
    pass: &mut Pass<Machine>,
    shows: bool,
    code: u8,
    value: u32,
    job: Job,
    out: &mut K,
) -> Result<usize, WriteStop>
    requires desk { pass.old.desk ≡ desk.now.id }
    requires left { 0 < pass.old.left }
    requires paintable { IsPaintable job }
    ensures ended { (reply : PlainReply) × Made after MayAnswer (λ h. IsTrue (is_ready h (Call.End (painted_job job))))
        pass.old (Call.End (painted_job job)) reply pass.new }
    ensures own { IsOwn after MayAnswer pass.new }
    ensures writes { Writes K.took out.old out.new (answer_bytes code value ++ shown_bytes shows (Some job)) result }
    ensures few { length (answer_bytes code value ++ shown_bytes shows (Some job)) ≤ ANSWER_BYTES }
    ensures cause { HasCause (K.faults out.old) (K.faults out.new) result }
{
    let mut job = job;
    paint(&mut job);
    let put = put_frame(out, shows, code, value, &job.image);
    let _reply = make(rt, desk, pass, Call::End(job));
    put
}

/// Parts what came with an answer: the canvas, and the frame that began where the answer is Ok.
pub(crate) fn parts_of(ok: bool, payload: Payload) -> (Option<Canvas>, Option<Job>)
    ensures canvas { result.0 ≡ given_canvas payload }
    ensures job { result.1 ≡ job_in ok payload }
{
    match payload {
        Payload::Nothing => (None, None),
        Payload::Canvas(canvas) => (Some(canvas), None),
        Payload::Job(job) => (None, if ok { Some(job) } else { None }),
    }
}
