//! What no clause says: that an image is made where memory is at hand.

use std::test::Fail;
use wf_image::Image;
use wf_pixel::{Format, Size};

#[test]
fn an_image_has_memory(rt: HostRuntime) -> Result<(), Fail> {
    let image = Image::new(rt.alloc(), Size { w: 3, h: 2 }, Format::Rgba8)?;
    assert_eq!(rt; image.bytes(), [0; 24].as_slice());
    Ok(())
}
