//! The header of a session.

ghost use Rattle.std.specs.Prelude.{◌≡◌, ◌≤◌, ◌<◌, ◌+◌, ◌*◌, ◌^◌, length, IfOk, IsTrue};
ghost use Rattle.std.specs.List.{list_all};
ghost use Rattle.wf_calls.specs.PortRules.{may_declare, may_have};
ghost use Rattle.wf_wire.specs.Header.{header, mode_of, port, ports_of};
ghost use Rattle.wf_wire.specs.Taking.{Finds, IsCaused, seen};

use crate::fields::number_within;
use crate::stop::ServeStop;
use arrayvec::ArrayVec;
use wf_calls::{MOST_PIPELINES, Modes, Ports};
use wf_io::Source;
use wf_pixel::{MOST_SIDE, Size};

/// The bytes `WFW1` as one number.
const MAGIC: u64 = 0x5746_5731;

/// The longest side of a port.
const HIGHEST: u64 = MOST_SIDE as u64;

/// The most pipelines.
const MOST: u64 = MOST_PIPELINES as u64;

/// Makes the one mode of a port.
fn mode_of(w: u32, h: u32) -> Modes
    ensures { result ≡ mode_of w h }
{
    let mut sizes = ArrayVec::new();
    sizes.push(Size { w, h });
    Modes { sizes }
}

/// Reads the size of a port at the place `at`.
fn port_of<I: Source>(input: &mut I, at: &mut u64) -> Result<Modes, ServeStop>
    requires few { at.old < 2 ^ 61 }
    ensures finds { Finds port (I.left input.old) at.old (I.left input.new) at.new result }
    ensures may { IfOk result (λ modes. IsTrue (may_have modes)) }
    ensures most { at.new ≤ at.old + 4 }
    ensures caused { IsCaused (I.faults input.old) (I.faults input.new) result }
{
    let w = match number_within(input, at, 1, HIGHEST, 2) {
        Ok(w) => w,
        Err(stop) => return Err(stop),
    };
    match number_within(input, at, 1, HIGHEST, 2) {
        Ok(h) => Ok(mode_of(w as u32, h as u32)),
        Err(stop) => Err(stop),
    }
}

/// Reads the sizes of `count` ports.
fn ports_of<I: Source>(
    input: &mut I,
    at: &mut u64,
    count: u64,
) -> Result<ArrayVec<Modes, 4>, ServeStop>
    requires few { at.old < 2 ^ 60 }
    requires four { count ≤ 4 }
    ensures finds { Finds (ports_of count) (I.left input.old) at.old (I.left input.new) at.new (seen (λ modes. modes.items) result) }
    ensures count { IfOk result (λ modes. length modes.items ≡ count) }
    ensures may { IfOk result (λ modes. IsTrue (list_all may_have modes.items)) }
    ensures most { at.new ≤ at.old + 16 }
    ensures caused { IsCaused (I.faults input.old) (I.faults input.new) result }
{
    let mut modes = ArrayVec::new();
    for _ in 0..count {
        match port_of(input, at) {
            Ok(one) => modes.push(one),
            Err(stop) => return Err(stop),
        }
    }
    Ok(modes)
}

/// Reads the header, which begins at the place `at`.
pub(crate) fn header_of<I: Source>(input: &mut I, at: &mut u64) -> Result<Ports, ServeStop>
    requires few { at.old < 2 ^ 59 }
    ensures finds { Finds header (I.left input.old) at.old (I.left input.new) at.new result }
    ensures may { IfOk result (λ ports. IsTrue (may_declare ports)) }
    ensures most { at.new ≤ at.old + 22 }
    ensures caused { IsCaused (I.faults input.old) (I.faults input.new) result }
{
    match number_within(input, at, MAGIC, MAGIC, 4) {
        Ok(_) => (),
        Err(stop) => return Err(stop),
    }
    let count = match number_within(input, at, 1, 4, 1) {
        Ok(count) => count,
        Err(stop) => return Err(stop),
    };
    let modes = match ports_of(input, at, count) {
        Ok(modes) => modes,
        Err(stop) => return Err(stop),
    };
    match number_within(input, at, 0, MOST, 1) {
        Ok(pipes) => Ok(Ports {
            modes,
            pipes: pipes as u32,
        }),
        Err(stop) => Err(stop),
    }
}
