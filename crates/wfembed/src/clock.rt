//! The clock: what a program does at each vertical blank of its outputs.

ghost use Rattle.std.specs.Prelude.{IfSome};
ghost use Rattle.wf_machine.specs.Object.{IsPaintable};

use crate::client::ask;
use crate::ends::Stop;
use crate::ppm::write_ppm;
use std::alloc::Global;
use wf_calls::{Call, Job, Payload};
use wf_io::Sink;
use wf_kernel::picture;
use wf_machine::Machine;

/// The number under which the clock makes its calls.
const CLOCK: u8 = 0;

/// How many contexts are live at most.
const CONTEXTS: u32 = 16;

/// What a call answers that begins a frame: a value, and the frame, where one began.
#[derive(Drop)]
struct Begun {
    value: u32,
    job: Option<Job>,
}

/// Composes a frame of each active context into its screen, and then shows the screen of each port.
pub(crate) fn tick<K: Sink>(
    machine: &mut Machine,
    alloc: Global,
    output: &mut K,
) -> Result<(), Stop> {
    let mut after = 0;
    for _ in 0..CONTEXTS {
        // The active context with the least handle above `after`, or the value 0 where there is none left.
        let begun = begin(machine, Call::BeginNext { after });
        after = begun.value;
        if let Some(mut job) = begun.job {
            paint(&mut job);
            // The End posts the picture to the context's screen.
            ask(machine, CLOCK, Call::End(job))?;
        }
        if after == 0 {
            break;
        }
    }
    for port in 1..3 {
        // A port's scene is its screen, which the context has just composed.
        let begun = begin(machine, Call::BeginPort { port });
        if let Some(mut job) = begun.job {
            paint(&mut job);
            // Here a real output would take the image. Until the End the Job is ours.
            write_ppm(output, alloc, &job.image)?;
            ask(machine, CLOCK, Call::End(job))?;
        }
    }
    Ok(())
}

/// Begins a frame. At this one event it takes the committed scene, and of each stream in it the next finished image:
/// they move into the Job, so that no post, commit or destruction that comes later can touch the frame.
fn begin(machine: &mut Machine, call: Call) -> Begun
    ensures { IfSome result.job (λ job. IsPaintable job) }
{
    let reply = machine.run(CLOCK, call);
    let value = reply.value;
    if !reply.code.is_ok() {
        return Begun { value, job: None };
    }
    match reply.payload {
        Payload::Job(job) => Begun {
            value,
            job: Some(job),
        },
        _ => Begun { value, job: None },
    }
}

/// Paints the picture of a frame. That a Job which came with Ok can be painted is a clause of `Machine::run`; that the image is
/// then the picture of scene and contents, each pixel of it, is the clause of `picture`.
fn paint(job: &mut Job)
    requires { IsPaintable job.old }
{
    picture(&job.scene, &job.contents, &mut job.image);
}
