//! The window system: it decides which stream is seen where.

use crate::client::ask;
use wf_calls::{Call, Code};
use wf_machine::Machine;
use wf_scene::{ContextAttr, ElementAttr};

/// The number under which the window system makes its calls.
const SYSTEM: u8 = 0;

/// What lies behind the window: red, green, blue and alpha.
const BACKGROUND: [i64; 4] = [38, 70, 120, 255];

/// Which part of the stream is shown, as x, y, width and height: all of it.
const PART: [i64; 4] = [0, 0, 40, 30];

/// Where it is shown. Another width and height than those of the part would scale it.
const PLACE: [i64; 4] = [12, 9, 40, 30];

/// Opens a device, which owns all that the window system makes.
pub(crate) fn open_device(machine: &mut Machine) -> Result<u32, Code> {
    ask(machine, SYSTEM, Call::DeviceNew)
}

/// Shows a stream on a port, in a scene that is turned by some degrees.
pub(crate) fn show(
    machine: &mut Machine,
    device: u32,
    port: i64,
    turn: i64,
    stream: u32,
) -> Result<(), Code> {
    // A context composes the port's screen. Each port has at most one.
    let context = ask(machine, SYSTEM, Call::ScreenContext { device, port })?;
    // What a device's calls change is the cached scene, which nobody sees yet.
    for (attr, value) in [
        (ContextAttr::Background, BACKGROUND),
        (ContextAttr::Rotation, [turn, 0, 0, 0]),
    ] {
        let call = Call::ContextSet {
            device,
            context,
            attr,
            value,
        };
        ask(machine, SYSTEM, call)?;
    }
    let element = place(machine, device, context, stream)?;
    // Directly above the element `below`, or at the bottom for 0.
    let below = 0;
    let call = Call::ElementInsert {
        device,
        element,
        below,
    };
    ask(machine, SYSTEM, call)?;
    // The commit takes the whole cached scene, or nothing of it.
    ask(machine, SYSTEM, Call::Commit { device, context })?;
    // From now on each tick composes a frame of the context.
    ask(machine, SYSTEM, Call::Activate { device, context })?;
    Ok(())
}

/// Makes the element that is the window: a source stands for the stream, and the element shows a part of it at a place.
fn place(machine: &mut Machine, device: u32, context: u32, stream: u32) -> Result<u32, Code> {
    let call = Call::SourceNew {
        device,
        context,
        stream,
    };
    let source = ask(machine, SYSTEM, call)?;
    let element = ask(machine, SYSTEM, Call::ElementNew { device, context })?;
    for (attr, value) in [
        (ElementAttr::Source, [source.into(), 0, 0, 0]),
        (ElementAttr::SrcRect, PART),
        (ElementAttr::Dest, PLACE),
    ] {
        let call = Call::ElementSet {
            device,
            element,
            attr,
            value,
        };
        ask(machine, SYSTEM, call)?;
    }
    Ok(element)
}
