//! The window system: one device, whose context off the screen composes what its context of the screen shows.

ghost use Rattle.std.specs.Prelude.{◌<◌};

use crate::TICKS;
use crate::client::{Streams, ask, make_stream};
use crate::ends::Stop;
use wf_calls::Request;
use wf_machine::Machine;
use wf_pixel::Format;
use wf_scene::{ContextAttr, ElementAttr};

/// The number under which the window system makes its calls.
const SYSTEM: u8 = 0;

/// A value of an attribute. Of four numbers those are read that it has: of a rectangle x, y, width and height.
type Value = [i64; 4];

/// The whole pattern, all of the target of the mirrors, and where the screen shows that: at a third of its sides.
const PATTERN: Value = [0, 0, 120, 120];

const MIRRORS: Value = [0, 0, 240, 240];

const SHOWN: Value = [8, 8, 80, 80];

/// The whole gauge.
const GAUGE: Value = [0, 0, 24, 80];

/// What the window system keeps, by handles.
#[derive(Clone, Copy)]
pub(crate) struct Desk {
    device: u32,
    /// The context off the screen, which was made first: a tick composes contexts by rising handles.
    mirrors: u32,
    /// The context of the screen.
    screen: u32,
    /// The element of the screen that shows the gauge.
    gauge: u32,
}

/// Opens a device on `machine` with both contexts, builds their scenes over `streams`, and lets each tick compose them.
pub(crate) fn open(machine: &mut Machine, streams: Streams) -> Result<Desk, Stop> {
    let device = ask(machine, SYSTEM, &Request::DeviceNew)?;
    // The target of a context off the screen is a stream like any other: what shows it shows what was composed last.
    let stream = make_stream(machine, SYSTEM, (240, 240), Format::Rgbx8)?;
    let mirrors = ask(machine, SYSTEM, &Request::StreamContext { device, stream })?;
    show_mirrors(machine, device, mirrors, streams.pattern)?;
    let port = 1;
    let screen = ask(machine, SYSTEM, &Request::ScreenContext { device, port })?;
    let shown = show(machine, device, screen, stream, MIRRORS)?;
    set(machine, device, shown, ElementAttr::Dest, SHOWN)?;
    let gauge = show(machine, device, screen, streams.gauge, GAUGE)?;
    for context in [mirrors, screen] {
        ask(machine, SYSTEM, &Request::Activate { device, context })?;
    }
    Ok(Desk {
        device,
        mirrors,
        screen,
        gauge,
    })
}

/// Shows the whole `pattern` in `context` eight times over itself, at twice its sides and translucent: turned by each quarter, and so once
/// more upside down.
fn show_mirrors(
    machine: &mut Machine,
    device: u32,
    context: u32,
    pattern: u32,
) -> Result<(), Stop> {
    for flip in [0, 1] {
        for turn in [0, 90, 180, 270] {
            let mirror = show(machine, device, context, pattern, PATTERN)?;
            for (attr, value) in [
                (ElementAttr::Dest, MIRRORS),
                (ElementAttr::Flip, [flip, 0, 0, 0]),
                (ElementAttr::Rotation, [turn, 0, 0, 0]),
                // The sum of 1 for the element's own alpha, and 2 for that of its pixels.
                (ElementAttr::Transparency, [3, 0, 0, 0]),
                (ElementAttr::Alpha, [170, 0, 0, 0]),
            ] {
                set(machine, device, mirror, attr, value)?;
            }
        }
    }
    Ok(())
}

/// Makes an element at the bottom of `context` that shows the `part` of `stream`, and has no place yet.
fn show(
    machine: &mut Machine,
    device: u32,
    context: u32,
    stream: u32,
    part: Value,
) -> Result<u32, Stop> {
    let source = Request::SourceNew {
        device,
        context,
        stream,
    };
    let source = ask(machine, SYSTEM, &source)?;
    let element = ask(machine, SYSTEM, &Request::ElementNew { device, context })?;
    let value = [source.into(), 0, 0, 0];
    set(machine, device, element, ElementAttr::Source, value)?;
    set(machine, device, element, ElementAttr::SrcRect, part)?;
    let below = 0;
    let insert = Request::ElementInsert {
        device,
        element,
        below,
    };
    ask(machine, SYSTEM, &insert)?;
    Ok(element)
}

/// Sets an attribute of `element` to `value`.
fn set(
    machine: &mut Machine,
    device: u32,
    element: u32,
    attr: ElementAttr,
    value: Value,
) -> Result<(), Stop> {
    let request = Request::ElementSet {
        device,
        element,
        attr,
        value,
    };
    ask(machine, SYSTEM, &request)?;
    Ok(())
}

/// Changes both scenes of `desk` for `tick`: the mirrors get another background, and the gauge moves down. Nobody sees that before the
/// commits, each of which takes its whole scene.
pub(crate) fn change(machine: &mut Machine, desk: Desk, tick: u8) -> Result<(), Stop>
    requires { tick < TICKS }
{
    let device = desk.device;
    let at = i64::from(tick);
    let background = Request::ContextSet {
        device,
        context: desk.mirrors,
        attr: ContextAttr::Background,
        value: [20 + 4 * at, 24, 60 - 4 * at, 255],
    };
    ask(machine, SYSTEM, &background)?;
    let place = [96, 1 + at, 24, 80];
    set(machine, device, desk.gauge, ElementAttr::Dest, place)?;
    for context in [desk.mirrors, desk.screen] {
        ask(machine, SYSTEM, &Request::Commit { device, context })?;
    }
    Ok(())
}
