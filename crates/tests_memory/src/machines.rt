//! What no clause says: that the creations succeed where memory is at hand.

use crate::samples::one_mode;
use arrayvec::ArrayVec;
use std::test::Fail;
use wf_calls::{Call, Code, Modes, Ports};
use wf_machine::Machine;
use wf_pixel::Format;

/// A new stream of 4 by 2.
fn stream_new(format: Format) -> Call {
    Call::StreamNew {
        width: 4,
        height: 2,
        format,
        buffers: 2,
    }
}

#[test]
fn creations_have_memory(rt: HostRuntime) -> Result<(), Fail> {
    let mut modes: ArrayVec<Modes, 4> = ArrayVec::new();
    modes.push(one_mode());
    let mut machine = Machine::open(rt.alloc(), &Ports { modes, pipes: 1 })?;
    let (device, context) = (1, 2);
    // Each answers its place as its handle.
    let creations = [
        Call::DeviceNew,
        Call::ScreenContext { device, port: 1 },
        Call::ElementNew { device, context },
        stream_new(Format::Rgba8),
        Call::SourceNew {
            device,
            context,
            stream: 4,
        },
        stream_new(Format::A8),
        Call::MaskNew {
            device,
            context,
            stream: 6,
        },
        stream_new(Format::Rgba8Pre),
        Call::StreamContext { device, stream: 8 },
        Call::DisplaySource { pipe: 1, stream: 4 },
        Call::StreamQueue {
            width: 4,
            height: 2,
            format: Format::Rgba8,
            depth: 8,
        },
    ];
    let mut handle = 0u32;
    for call in creations {
        handle = handle.wrapping_add(1);
        let reply = machine.run(0, call);
        assert_eq!(rt; (reply.code, reply.value), (Code::Ok, handle));
    }
    Ok(())
}
