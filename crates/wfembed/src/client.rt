//! A client: it has a stream, draws into its buffers, and knows nothing of screens.

use wf_calls::{Call, Code, Payload};
use wf_image::{Canvas, Paint};
use wf_machine::Machine;
use wf_pixel::{Format, Rect, Rgba};

/// The number under which this client makes its calls. Numbers are yours to give: the machine treats all clients alike.
const CLIENT: u8 = 1;

/// Runs a client's call that brings nothing back but a value, such as a handle, and gives that, or the code of the refusal.
pub(crate) fn ask(machine: &mut Machine, client: u8, call: Call) -> Result<u32, Code> {
    // Each call is one event: it is carried out as a whole, or refused and changes nothing but an error register.
    let reply = machine.run(client, call);
    if reply.code.is_ok() {
        Ok(reply.value)
    } else {
        Err(reply.code)
    }
}

/// Makes the stream of a window of 40 by 30 pixels. With three buffers the client can always draw: one is shown, one is
/// finished, and one is free.
pub(crate) fn make_stream(machine: &mut Machine) -> Result<u32, Code> {
    let call = Call::StreamNew {
        width: 40,
        height: 30,
        format: Format::Rgbx8,
        buffers: 3,
    };
    ask(machine, CLIENT, call)
}

/// Draws the next image of the window.
pub(crate) fn draw(machine: &mut Machine, stream: u32) -> Result<(), Code> {
    // The write buffer moves out of the machine into the client's hands. No pixel is copied, here or anywhere on its way.
    let reply = machine.run(CLIENT, Call::Acquire { stream });
    match reply.payload {
        Payload::Canvas(canvas) => finish(machine, canvas),
        // Busy: it is out already; NoBuffer: none is free until a frame takes the finished one; BadHandle: there is no such stream.
        _ => Err(reply.code),
    }
}

/// Paints a write buffer and posts it. The image is shown from the next frame on, without any commit.
fn finish(machine: &mut Machine, mut canvas: Canvas) -> Result<(), Code> {
    draw_window(&mut canvas);
    ask(machine, CLIENT, Call::Post(canvas))?;
    Ok(())
}

/// Paints a body in two tones, and a title bar. A real client writes its own pixels, through `canvas.image.bytes_mut()`: four
/// bytes each in the order red, green, blue, alpha, in rows from the top.
fn draw_window(canvas: &mut Canvas) {
    canvas.paint(&Paint::Ramp {
        first: opaque(255, 202, 87),
        second: opaque(255, 107, 107),
    });
    let area = Rect {
        x: 0,
        y: 0,
        w: 40,
        h: 6,
    };
    let color = opaque(62, 66, 92);
    canvas.paint(&Paint::Rectangle { area, color });
}

/// An opaque colour.
fn opaque(r: u8, g: u8, b: u8) -> Rgba {
    Rgba { r, g, b, a: 255 }
}
