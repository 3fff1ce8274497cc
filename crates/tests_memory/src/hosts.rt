//! What no clause of hosts says: that they open where memory is at hand. A picture goes through one by numbers and bytes.

use std::test::Fail;
use wf_calls::Request;
use wf_host::{Frame, Host, Mode, NOT_MADE, Order, ports_of};

/// The client of all calls.
const CLIENT: u8 = 1;

/// The calls by which stream 1 is shown on the first port, whose objects get the handles 2 to 5: their numbers and arguments.
const SHOWS: [(u8, &[u64]); 9] = [
    (1, &[2, 2, 2, 2]),
    (8, &[]),
    (11, &[2, 1]),
    (14, &[2, 3]),
    (16, &[2, 3, 1]),
    (20, &[2, 4, 1, 5, 0, 0, 0]),
    (20, &[2, 4, 2, 0, 0, 2, 2]),
    (20, &[2, 4, 0, 0, 0, 2, 2]),
    (22, &[2, 4, 0]),
];

#[test]
fn a_host_shows_what_is_submitted(rt: HostRuntime) -> Result<(), Fail> {
    let modes = [Mode {
        port: 1,
        w: 2,
        h: 2,
    }];
    let Some(ports) = ports_of(1, &modes, 0) else {
        panic!(rt; "one port of one mode");
    };
    let mut host = Host::open(rt.alloc(), &ports)?;
    let mut frame = Frame::new(rt.alloc())?;
    for (number, bits) in SHOWS {
        assert_eq!(rt;
            host.call(CLIENT, number, bits).code,
            0,
            "of message {number}"
        );
    }
    for number in [28, 29] {
        assert_eq!(rt;
            host.call(CLIENT, number, &[2, 3]).code,
            0,
            "of message {number}"
        );
    }
    // Rows of two pixels, twelve bytes apart.
    let pixels = [
        1, 2, 3, 255, 4, 5, 6, 255, 0, 0, 0, 0, 7, 8, 9, 255, 10, 11, 12, 255,
    ];
    assert_eq!(rt; host.submit(CLIENT, 1, &pixels, 7).code, NOT_MADE);
    assert_eq!(rt; host.submit(CLIENT, 1, &pixels, 12).code, 0);
    assert_eq!(rt; host.post(CLIENT, 1).code, NOT_MADE);
    let begun = host.begin(CLIENT, &Request::BeginNext { after: 0 }, &mut frame);
    assert_eq!(rt; (begun.code, begun.value), (0, 3));
    assert_eq!(rt; host.end(CLIENT, &mut frame).code, 0);
    let begun = host.begin(CLIENT, &Request::BeginPort { port: 1 }, &mut frame);
    assert_eq!(rt; (begun.code, begun.value), (0, 1));
    let mut out = [99u8; 20];
    assert!(rt; !frame.read(&mut out, 7, Order::Rgba));
    assert!(rt; frame.read(&mut out, 12, Order::Rgba));
    assert_eq!(rt;
        out,
        [
            1, 2, 3, 255, 4, 5, 6, 255, 99, 99, 99, 99, 7, 8, 9, 255, 10, 11, 12, 255
        ]
    );
    assert_eq!(rt; host.end(CLIENT, &mut frame).code, 0);
    assert_eq!(rt; host.end(CLIENT, &mut frame).code, NOT_MADE);
    Ok(())
}
