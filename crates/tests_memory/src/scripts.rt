//! What no clause says: that a script is read, and one made, where memory is at hand. And what no call shows yet of ports and pipelines.

use std::test::Fail;
use wf_pixel::Size;
use wf_script::{make, parse};

#[test]
fn a_script_has_memory(rt: HostRuntime) -> Result<(), Fail> {
    let text = b"WFS1\nport 4x2 1x1\nport 8x8\npipes 3\n0 d = device\n0 tick\nend";
    let script = parse(rt.alloc(), text.as_slice())?;
    let ports = script.ports();
    let first = ports.modes.first().map(|modes| modes.sizes.as_slice());
    let sizes = [Size { w: 4, h: 2 }, Size { w: 1, h: 1 }];
    let made = make(rt.alloc(), 1)?;
    assert_eq!(rt;
        (
            script.lines().len(),
            ports.pipes,
            ports.modes.len(),
            first,
            made.lines().len()
        ),
        (2, 3, 2, Some(sizes.as_slice()), 16)
    );
    Ok(())
}
