//! A client: it draws into two streams, and knows nothing of contexts.

ghost use Rattle.std.specs.Prelude.{◌≡◌, ◌<◌, false};
ghost use Rattle.wf_calls.specs.Parts.{carries, part_of};
ghost use Rattle.wf_calls.specs.Requests.{call_of};

use crate::TICKS;
use crate::ends::{Stop, value_of};
use wf_calls::Request;
use wf_image::{Canvas, Paint};
use wf_machine::Machine;
use wf_pixel::{Format, Rect, Rgba};

/// The number under which this client makes its calls.
const CLIENT: u8 = 1;

/// The client's streams, by their handles.
#[derive(Clone, Copy)]
pub(crate) struct Streams {
    /// The pattern that is mirrored, of 120 by 120 pixels.
    pub(crate) pattern: u32,
    /// The gauge of 24 by 80 pixels, which tells the tick.
    pub(crate) gauge: u32,
}

/// Makes a `request` of `client` on `machine`, and returns the value of its answer, or the code of its refusal. Write buffers and frames
/// have calls of their own.
pub(crate) fn ask(machine: &mut Machine, client: u8, request: &Request) -> Result<u32, Stop>
    requires { carries (part_of (call_of request.now)) ≡ false }
{
    // An Answer is a Reply without the room of what may come with it.
    match machine.answer(client, request) {
        Some(answer) => value_of(answer),
        // None comes for a request of a write buffer or of a frame alone.
        None => unreachable!(),
    }
}

/// Makes a stream of `client` on `machine`, of this size and `format`. With three buffers a picture can always be drawn: one is shown, one
/// is finished, and one is free.
pub(crate) fn make_stream(
    machine: &mut Machine,
    client: u8,
    (width, height): (i64, i64),
    format: Format,
) -> Result<u32, Stop> {
    let request = Request::StreamNew {
        width,
        height,
        format,
        buffers: 3,
    };
    ask(machine, client, &request)
}

/// Makes both streams of the client on `machine`.
pub(crate) fn make_streams(machine: &mut Machine) -> Result<Streams, Stop> {
    Ok(Streams {
        pattern: make_stream(machine, CLIENT, (120, 120), Format::Rgba8)?,
        gauge: make_stream(machine, CLIENT, (24, 80), Format::Rgbx8)?,
    })
}

/// Draws the images of `tick` into both `streams` of `machine`.
pub(crate) fn draw(machine: &mut Machine, streams: Streams, tick: u8) -> Result<(), Stop>
    requires { tick < TICKS }
{
    let mut canvas = acquire(machine, streams.pattern)?;
    draw_pattern(&mut canvas, tick);
    post(machine, canvas)?;
    let mut canvas = acquire(machine, streams.gauge)?;
    draw_gauge(&mut canvas, tick);
    post(machine, canvas)
}

/// Takes the write buffer of `stream` on `machine`. No Reply is needed: it stands beside the answer.
fn acquire(machine: &mut Machine, stream: u32) -> Result<Canvas, Stop> {
    match machine.acquire(CLIENT, stream) {
        (_, Some(canvas)) => Ok(canvas),
        (answer, None) => Err(Stop::Refused(answer.code)),
    }
}

/// Posts `canvas` on `machine`. One that is refused comes back beside the answer, and is let go here.
fn post(machine: &mut Machine, canvas: Canvas) -> Result<(), Stop> {
    let (answer, _) = machine.post(CLIENT, canvas);
    value_of(answer)?;
    Ok(())
}

/// Paints a bar, a square and a stripe on `canvas`, which move as `tick` rises. Around them the image stays transparent.
fn draw_pattern(canvas: &mut Canvas, tick: u8)
    requires { tick < TICKS }
{
    paint_box(canvas, 8 * tick, 20, (30, 14), opaque(240, 170, 40));
    paint_box(canvas, 70, 6 * tick, (22, 22), opaque(70, 190, 230));
    paint_box(
        canvas,
        4 * tick,
        100 - 5 * tick,
        (60, 6),
        opaque(230, 70, 120),
    );
}

/// Paints a gauge on `canvas` that is full at the last `tick`.
fn draw_gauge(canvas: &mut Canvas, tick: u8)
    requires { tick < TICKS }
{
    paint_box(canvas, 0, 0, (24, 80), opaque(30, 34, 48));
    paint_box(canvas, 4, 70 - 10 * tick, (16, 80), opaque(120, 220, 130));
}

/// Paints a rectangle of these sides on `canvas`, with its corner at `x` and `y`. Numbers of a byte are in the range of coordinates.
fn paint_box(canvas: &mut Canvas, x: u8, y: u8, (w, h): (u8, u8), color: Rgba) {
    let area = Rect {
        x: x.into(),
        y: y.into(),
        w: w.into(),
        h: h.into(),
    };
    canvas.paint(&Paint::Rectangle { area, color });
}

/// An opaque colour.
fn opaque(r: u8, g: u8, b: u8) -> Rgba {
    Rgba { r, g, b, a: 255 }
}
