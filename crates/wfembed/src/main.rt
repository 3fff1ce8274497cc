//! The program `wfembed`: composes without scripts and films, as a program does that has the machine inside. It opens the
//! machine with two ports, shows the window of one client on both, and writes the frame of each port to standard output, as PPM
//! pictures (P6), one after the other. docs/embedding.md goes through it, and says what real outputs need beside it.
#![tactic(auto)]

ghost use Rattle.std.specs.Prelude.{◌≡◌, ◌∷◌, [], IsTrue};
ghost use Rattle.wf_pixel.specs.Choice.{has_sides};

mod client;
mod clock;
mod ends;
mod ppm;
mod system;

use arrayvec::ArrayVec;
use ends::Stop;
use std::alloc::Global;
use wf_calls::{Modes, Ports};
use wf_io::StdSink;
use wf_machine::Machine;
use wf_pixel::Size;
use wf_words::NoMemory;

/// The screen of port 1, and that of port 2, which hangs upright.
const WIDE: Size = Size { w: 64, h: 48 };

const TALL: Size = Size { w: 48, h: 64 };

fn main(rt: HostRuntime) -> Result<(), Stop> {
    // What allocates is given the allocator, and answers NoMemory or the code OutOfMemory where there is none left.
    let alloc = rt.alloc();
    // The machine is a plain value. It starts no thread, reads no clock and opens no file.
    let mut machine = open(alloc, WIDE, TALL)?;
    // A client makes a stream and draws its first image. Only the handle goes to the window system, as it would in a message.
    let stream = client::make_stream(&mut machine)?;
    client::draw(&mut machine, stream)?;
    // The window system decides where the window stands on each screen. Port 2 hangs upright, so its picture is turned.
    let device = system::open_device(&mut machine)?;
    system::show(&mut machine, device, 1, 0, stream)?;
    system::show(&mut machine, device, 2, 90, stream)?;
    // One tick composes a frame for each context and shows one on each port.
    let mut output = StdSink::new(rt.stdout());
    clock::tick(&mut machine, alloc, &mut output)
}

/// The machine before the first call, with two ports. All memory that frames will need is taken here: for each port three
/// buffers of its screen, and one image for each mode.
fn open(alloc: Global, first: Size, second: Size) -> Result<Machine, NoMemory>
    requires first { IsTrue (has_sides first) }
    requires second { IsTrue (has_sides second) }
{
    // Up to four ports, in the order of their numbers, which count from 1.
    let mut modes: ArrayVec<Modes, 4> = ArrayVec::new();
    modes.push(one_mode(first));
    modes.push(one_mode(second));
    Machine::open(alloc, &Ports { modes, pipes: 0 })
}

/// A port has 1 to 4 modes, of which it opens in the first; these have one.
fn one_mode(size: Size) -> Modes
    ensures { result.sizes.items ≡ size ∷ [] }
{
    let mut sizes: ArrayVec<Size, 4> = ArrayVec::new();
    sizes.push(size);
    Modes { sizes }
}
