//! What no clause says: that a play with its clients on threads succeeds where memory is at hand.

use std::alloc::Global;
use std::sync::Wait;
use std::test::Fail;
use std::thread::Threads;
use wf_film::FilmForm;
use wf_io::MemorySink;
use wf_script::{Script, parse};
use wf_show::{Open, threaded};

/// One tick of a port without a context, beside a client that makes a stream.
const SCRIPT: &str = "WFS1\nport 4x2\n0 tick\n1 s = stream 1 1 rgba 2\nend\n";

/// How many turns the play has, or none where it did not come to its end.
fn turns<R: Threads + Wait + Sync>(
    rt: &R,
    alloc: Global,
    script: &Script,
    film: &mut MemorySink,
) -> Option<usize> {
    match threaded(rt, alloc, script, FilmForm::Two, film, &Open, 1) {
        Ok(order) => Some(order.turns().len()),
        Err(_) => None,
    }
}

#[test]
fn a_play_has_memory(rt: HostRuntime) -> Result<(), Fail> {
    let script = parse(rt.alloc(), SCRIPT.as_bytes())
        .ok()
        .ok_or("no script")?;
    let mut film = MemorySink::new(rt.alloc(), 4096, Vec::new(rt.alloc()))
        .ok()
        .ok_or("memory")?;
    let came = (
        turns(&rt, rt.alloc(), &script, &mut film),
        film.bytes().len(),
    );
    assert_eq!(rt; came, (Some(4), 80));
    Ok(())
}
