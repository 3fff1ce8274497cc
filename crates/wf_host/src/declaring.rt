//! Ports that are declared by a list of their modes.

ghost use Rattle.std.specs.Prelude.{◌≡◌, ◌≤◌, ◌^◌, ◌<◌, ◌+◌, IfSome, IsTrue, false, is_some, length};
ghost use Rattle.std.specs.Option.{IfNone};
ghost use Rattle.wf_calls.specs.PortRules.{may_declare, may_have};
ghost use Rattle.wf_pixel.specs.Choice.{has_sides};
ghost use Rattle.wf_host.specs.PortsOf.{are_of, declares, modes_of, ports_of};

use arrayvec::ArrayVec;
use wf_calls::{MOST_PIPELINES, Modes, Ports};
use wf_pixel::{MOST_SIDE, Size};

/// A mode of a port, which is counted from 1.
#[repr(C)]
#[derive(Clone, Copy, Debug, PartialEq, Eq)]
pub struct Mode {
    pub port: u32,
    pub w: u32,
    pub h: u32,
}

/// Tells whether the sides of a size are in their range.
fn has_sides(size: Size) -> bool
    ensures { result ≡ has_sides size }
{
    1 <= size.w && size.w <= MOST_SIDE && 1 <= size.h && size.h <= MOST_SIDE
}

/// Gathers the modes of a port, or returns `None` where they are none or more than four, or where a side is out of its range.
fn modes_of(modes: &[Mode], port: u32) -> Option<Modes>
    ensures modes { IfSome result (λ m. m ≡ modes_of port modes.now) }
    ensures may { IfSome result (λ m. IsTrue (may_have m)) }
    ensures none { IfNone result (may_have (modes_of port modes.now) ≡ false) }
{
    let mut sizes = ArrayVec::new();
    for mode in modes {
        if mode.port == port {
            let size = Size {
                w: mode.w,
                h: mode.h,
            };
            if sizes.len() == 4 {
                return None;
            }
            if !has_sides(size) {
                return None;
            }
            sizes.push(size);
        }
    }
    if sizes.is_empty() {
        return None;
    }
    Some(Modes { sizes })
}

/// Tells whether each of `modes` is of one of `count` ports.
fn are_of(modes: &[Mode], count: u32) -> bool
    ensures { result ≡ are_of count modes.now }
{
    modes
        .iter()
        .all(|mode| 1 <= mode.port && mode.port <= count)
}

/// Declares `count` ports, from 1 to 4, by their modes, of which each has 1 to 4, the one that it opens in first, and `pipes` pipelines;
/// or returns `None` where these may not be declared, or where a mode is of none of the ports.
pub fn ports_of(count: u32, modes: &[Mode], pipes: u32) -> Option<Ports>
    ensures declares { is_some result ≡ declares count modes.now pipes }
    ensures declared { IfSome result (λ ports. ports ≡ ports_of count modes.now pipes) }
    ensures may { IfSome result (λ ports. IsTrue (may_declare ports)) }
{
    if count < 1 || count > 4 || pipes > MOST_PIPELINES || !are_of(modes, count) {
        return None;
    }
    let mut ports = ArrayVec::new();
    for port in 0..count {
        ports.push(modes_of(modes, port + 1)?);
    }
    Some(Ports {
        modes: ports,
        pipes,
    })
}
