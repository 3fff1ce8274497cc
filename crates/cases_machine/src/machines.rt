//! The machine of a file's cases.

ghost use Rattle.std.specs.Prelude.{◌≡◌, ◌∷◌, [], IsTrue};
ghost use Rattle.wf_pixel.specs.Choice.{has_sides};

use arrayvec::ArrayVec;
use std::alloc::Global;
use wf_calls::{Modes, Ports};
use wf_cases::{number, size};
use wf_machine::Machine;
use wf_pixel::Size;

/// How many pipelines each machine has.
const PIPES: u32 = 2;

/// The modes of a port that has one.
fn one_mode(size: Size) -> Modes
    ensures { result.sizes.items ≡ size ∷ [] }
{
    let mut sizes: ArrayVec<Size, 4> = ArrayVec::new();
    sizes.push(size);
    Modes { sizes }
}

/// The machine of one port.
fn one_port(alloc: Global, size: Size) -> Option<Machine>
    requires { IsTrue (has_sides size) }
{
    let mut modes: ArrayVec<Modes, 4> = ArrayVec::new();
    modes.push(one_mode(size));
    Machine::open(
        alloc,
        &Ports {
            modes,
            pipes: PIPES,
        },
    )
    .ok()
}

/// The machine of two ports.
fn two_ports(alloc: Global, size: Size) -> Option<Machine>
    requires { IsTrue (has_sides size) }
{
    let mut modes: ArrayVec<Modes, 4> = ArrayVec::new();
    modes.push(one_mode(size));
    modes.push(one_mode(size));
    Machine::open(
        alloc,
        &Ports {
            modes,
            pipes: PIPES,
        },
    )
    .ok()
}

/// The machine of four ports.
fn four_ports(alloc: Global, size: Size) -> Option<Machine>
    requires { IsTrue (has_sides size) }
{
    let mut modes: ArrayVec<Modes, 4> = ArrayVec::new();
    modes.push(one_mode(size));
    modes.push(one_mode(size));
    modes.push(one_mode(size));
    modes.push(one_mode(size));
    Machine::open(
        alloc,
        &Ports {
            modes,
            pipes: PIPES,
        },
    )
    .ok()
}

/// The machine of one, two or four ports of a size, and of two pipelines, `ports W H COUNT`, or none where a side is out of its
/// range or no memory is left.
pub(crate) fn open(alloc: Global, words: &[&str]) -> Option<Machine> {
    let size = size(words, 1)?;
    match number::<u32>(words, 3) {
        1 => one_port(alloc, size),
        2 => two_ports(alloc, size),
        _ => four_ports(alloc, size),
    }
}
