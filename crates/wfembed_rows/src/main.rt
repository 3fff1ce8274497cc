//! The program `wfembed_rows`: composes in two steps, and paints with four workers. A client draws into two streams at each tick; a
//! context off the screen composes eight mirrors of one of them into a third stream; and the screen of port 1 shows that stream beside
//! the other one. The last frame of the port is written to standard output, as a PPM picture (P6). docs/embedding.md goes through it.
#![tactic(auto)]

ghost use Rattle.std.specs.Prelude.{◌≡◌, ◌∷◌, [], IsTrue};
ghost use Rattle.wf_pixel.specs.Choice.{has_sides};

mod client;
mod clock;
mod ends;
mod ppm;
mod system;

use arrayvec::ArrayVec;
use ends::Stop;
use ppm::write_ppm;
use std::alloc::Global;
use std::process::ExitCode;
use std::thread::Threads;
use wf_calls::{JobPlace, Modes, Ports};
use wf_io::{Sink, StdSink};
use wf_machine::Machine;
use wf_pixel::Size;
use wf_words::NoMemory;

/// The screen of port 1.
const SCREEN: Size = Size { w: 128, h: 96 };

/// How many ticks there are.
const TICKS: u8 = 8;

fn main(rt: HostRuntime) -> ExitCode {
    let mut output = StdSink::new(rt.stdout());
    // `main` keeps the runtime and lends it as `&rt`: below, functions name by bounds what they use of it.
    match run(&rt, &mut output) {
        Ok(()) => ExitCode::SUCCESS,
        Err(stop) => {
            let _ = eprintln!(&rt; "wfembed_rows: {stop}");
            ExitCode::from(stop.status())
        }
    }
}

/// Opens the machine, and plays on it to `output`. What starts threads is given `rt` by the bound `Threads`, and since the work that goes
/// to a thread has it too, by the bound `Sync`.
fn run<R: Threads + Sync + AllocGlobal, K: Sink>(rt: &R, output: &mut K) -> Result<(), Stop> {
    let mut machine = open(rt.alloc(), SCREEN)?;
    // Here each frame stands from its Begin to its End, so no Job is moved.
    let mut place = JobPlace::new(rt.alloc())?;
    play(rt, &mut machine, &mut place, output)
}

/// Plays all ticks on `machine`, paints each frame in `place` with threads of `rt`, and writes the last one of the port to `output`.
fn play<R: Threads + Sync + AllocGlobal, K: Sink>(
    rt: &R,
    machine: &mut Machine,
    place: &mut JobPlace,
    output: &mut K,
) -> Result<(), Stop> {
    let streams = client::make_streams(machine)?;
    let desk = system::open(machine, streams)?;
    for tick in 0..TICKS {
        client::draw(machine, streams, tick)?;
        system::change(machine, desk, tick)?;
        clock::compose(rt, machine, place)?;
        clock::begin_port(rt, machine, place)?;
        // Here a real output would take the image, at each tick. Until the End the frame is ours.
        if tick == TICKS - 1 {
            write_frame(output, rt.alloc(), place)?;
        }
        clock::end(machine, place)?;
    }
    Ok(())
}

/// Writes the frame that stands in `place` to `output`, if one does.
fn write_frame<K: Sink>(output: &mut K, alloc: Global, place: &JobPlace) -> Result<(), Stop> {
    match place.job() {
        Some(job) => write_ppm(output, alloc, &job.image),
        None => Ok(()),
    }
}

/// Opens the machine before the first call, with one port of this `size`. All memory that its frames need is taken here.
fn open(alloc: Global, size: Size) -> Result<Machine, NoMemory>
    requires { IsTrue (has_sides size) }
{
    let mut modes: ArrayVec<Modes, 4> = ArrayVec::new();
    modes.push(one_mode(size));
    Machine::open(alloc, &Ports { modes, pipes: 0 })
}

/// Returns the one mode of a port, of this `size`.
fn one_mode(size: Size) -> Modes
    ensures { result.sizes.items ≡ size ∷ [] }
{
    let mut sizes: ArrayVec<Size, 4> = ArrayVec::new();
    sizes.push(size);
    Modes { sizes }
}
