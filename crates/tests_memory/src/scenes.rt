//! What no clause says: that a cached scene is made where memory is at hand.

use std::test::Fail;
use wf_pixel::Size;
use wf_scene::Cached;

#[test]
fn a_scene_has_memory(rt: HostRuntime) -> Result<(), Fail> {
    let cached = Cached::new(rt.alloc(), Size { w: 4, h: 2 }, true)?;
    assert_eq!(rt; cached.count(), 0);
    Ok(())
}
