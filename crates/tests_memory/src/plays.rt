//! What no clause says: that the calls that take memory succeed where memory is at hand.

use std::alloc::Global;
use std::test::Fail;
use wf_film::FilmForm;
use wf_io::MemorySink;
use wf_kernel::Plain;
use wf_script::{Script, parse};
use wf_turn::{Program, replay, replay_by, serial, serial_by};

/// The clock makes a stream, which client 2 draws into while client 1 wants it too, and then a tick shows the port.
const SHARED: &str =
    "WFS1\nport 1x1\n0 s = stream 2 1 rgba 2\n2 acquire s\n1 frame s fill 1 2 3 4\n\
    2 paint fill 5 6 7 8\n0 tick\n2 post\nend\n";

/// The script.
fn shared(alloc: Global) -> Result<Script, Fail> {
    Ok(parse(alloc, SHARED.as_bytes()).ok().ok_or("no script")?)
}

/// A sink of 4,096 bytes.
fn sink(alloc: Global) -> Result<MemorySink, Fail> {
    Ok(
        MemorySink::new(alloc, 4096, Vec::new(alloc))
            .ok()
            .ok_or("memory")?,
    )
}

#[test]
fn plays_have_memory(rt: HostRuntime) -> Result<(), Fail> {
    let script = shared(rt.alloc())?;
    let clock = Program::new(rt.alloc(), &script, 0).ok().ok_or("memory")?;
    let mut film = sink(rt.alloc())?;
    let order = serial(rt.alloc(), &script, FilmForm::Two, &mut film)
        .ok()
        .ok_or("a stop")?;
    let mut again = sink(rt.alloc())?;
    let by = serial_by(rt.alloc(), &script, FilmForm::Two, &mut again, &mut Plain)
        .ok()
        .ok_or("a stop")?;
    let came = (
        clock.place(),
        order.turns().len(),
        film.bytes().len(),
        by.turns().len(),
        again.bytes().len(),
    );
    assert_eq!(rt; came, (Some(0), 7, 70, 7, 70));
    Ok(())
}

#[test]
fn replays_have_memory(rt: HostRuntime) -> Result<(), Fail> {
    let script = shared(rt.alloc())?;
    let mut film = sink(rt.alloc())?;
    let order = serial(rt.alloc(), &script, FilmForm::Two, &mut film)
        .ok()
        .ok_or("a stop")?;
    if order.turns().len() > 7 {
        return Err("too many turns".into());
    }
    replay(rt.alloc(), &script, &order, FilmForm::Two, &mut film)
        .ok()
        .ok_or("a stop")?;
    replay_by(
        rt.alloc(),
        &script,
        &order,
        FilmForm::Two,
        &mut film,
        &mut Plain,
    )
    .ok()
    .ok_or("a stop")?;
    assert_eq!(rt; film.bytes().len(), 3 * 70);
    Ok(())
}
