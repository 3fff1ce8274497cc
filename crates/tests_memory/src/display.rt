//! What no clause says: that the creations succeed where memory is at hand.

use crate::samples::{SIZE, one_mode};
use arrayvec::ArrayVec;
use std::test::Fail;
use wf_calls::{Code, Modes, Ports};
use wf_display::Display;
use wf_pixel::Format;
use wf_stream::Store;

#[test]
fn creations_have_memory(rt: HostRuntime) -> Result<(), Fail> {
    let mut modes: ArrayVec<Modes, 4> = ArrayVec::new();
    modes.push(one_mode());
    let mut store = Store::new(rt.alloc());
    let mut display = Display::new(rt.alloc(), &Ports { modes, pipes: 1 }, &mut store)?;
    // The stream is no screen, so it is the second one; its handle is the first.
    let stream = store.make(SIZE, Format::Rgba8, 2).ok().ok_or("a refusal")?;
    let reply = display.display_source(&mut store, 1, stream);
    assert_eq!(rt; (reply.code, reply.value), (Code::Ok, 2));
    Ok(())
}
