//! What no clause says: that the calls that take memory succeed where memory is at hand.

use std::test::Fail;
use wf_pixel::{Format, Size};
use wf_stream::{Kind, Store, Stream};

const SIZE: Size = Size { w: 2, h: 1 };

#[test]
fn calls_have_memory(rt: HostRuntime) -> Result<(), Fail> {
    let stream = Stream::new(rt.alloc(), SIZE, Format::Rgba8, 2)?;
    let mut store = Store::new(rt.alloc());
    let screen = store.screen(SIZE)?;
    let made = store.make(SIZE, Format::A8, 2);
    let queue = Stream::queue(rt.alloc(), SIZE, Format::Rgba8, 8)?;
    let queued = store.queue(SIZE, Format::A8, 8);
    let minted = store.mint(Kind::Device, 5);
    assert_eq!(rt;
        (
            stream.is_out(),
            queue.is_out(),
            screen,
            made,
            queued,
            minted
        ),
        (false, false, 1, Ok(1), Ok(2), Ok(3))
    );
    Ok(())
}
