//! The program `cases_threads`: plays scripts with their clients on threads under gates that hold some of them, and tells what came: that
//! clients run beside one another, and inside one another's frames. A body that runs them one after another makes a hold late.
#![tactic(auto)]

mod gates;
mod plays;

use gates::Hold;
use plays::{tell_held, tell_second_first};
use std::io;

/// Client 1's first event is held until client 2's first was answered.
fn second_first() -> [Hold; 1] {
    [hold(1, 1, 2, 1)]
}

/// Each client's k-th event is held until that of the next higher client was answered, and client 7's second until client 1's first.
fn seven() -> [Hold; 13] {
    [
        hold(1, 1, 2, 1),
        hold(2, 1, 3, 1),
        hold(3, 1, 4, 1),
        hold(4, 1, 5, 1),
        hold(5, 1, 6, 1),
        hold(6, 1, 7, 1),
        hold(1, 2, 2, 2),
        hold(2, 2, 3, 2),
        hold(3, 2, 4, 2),
        hold(4, 2, 5, 2),
        hold(5, 2, 6, 2),
        hold(6, 2, 7, 2),
        hold(7, 2, 1, 1),
    ]
}

/// Client 2's first event is held until client 1's first was answered, and client 1's second until client 2's third.
fn inside_a_frame() -> [Hold; 2] {
    [hold(2, 1, 1, 1), hold(1, 2, 2, 3)]
}

/// A client's event, and the client whose event is to be answered before.
fn hold(client: u8, event: u32, behind: u8, answered: u32) -> Hold {
    Hold {
        client,
        event,
        behind,
        answered,
    }
}

const TWO_CLIENTS: &str =
    "WFS1\nport 1x1\n0 stat streams\n1 stat streams\n2 stat streams\n0 tick\nend\n";

const SEVEN_CLIENTS: &str =
    "WFS1\nport 1x1\n1 stat streams\n1 stat streams\n2 stat streams\n2 stat streams\n\
    3 stat streams\n3 stat streams\n4 stat streams\n4 stat streams\n5 stat streams\n5 stat streams\n\
    6 stat streams\n6 stat streams\n7 stat streams\n7 stat streams\nend\n";

const A_FRAME: &str = "WFS1\nport 1x1\n0 d = device\n0 t = stream 1 1 pre 2\n0 k = offscreen d t\n\
    1 compose d k\n1 stat streams\n2 del_stream t\n2 del_device d\n2 stat streams\nend\n";

fn main(rt: HostRuntime) -> io::Result<()> {
    tell_second_first(&rt, TWO_CLIENTS, &second_first(), 100_000_000)?;
    tell_held(
        &rt,
        "seven beside one another",
        SEVEN_CLIENTS,
        &seven(),
        1_000_000_000,
    )?;
    tell_held(
        &rt,
        "one inside another's frame",
        A_FRAME,
        &inside_a_frame(),
        1_000_000_000,
    )
}
