//! What no clause says: that a bench keeps what it painted where memory is at hand.

use std::alloc::Global;
use std::test::Fail;
use wf_damage::{Bench, Parts};
use wf_film::FilmForm;
use wf_io::MemorySink;
use wf_script::{Script, parse};
use wf_turn::{PlayStop, serial_by};

/// Two ticks of a port of 4 by 2, whose one layer has the same image at both.
const TWICE: &str =
    "WFS1\nport 4x2\n0 d = device\n0 c = screen d 1\n0 s = stream 1 1 rgba 2\n0 x = source d c s\n0 e = element d c\n\
    0 set d e source x\n0 set d e srcrect 0 0 1 1\n0 set d e dest 0 0 4 2\n0 insert d e none\n0 commit d c\n0 activate d c\n\
    0 frame s fill 9 8 7 255\n0 tick\n0 tick\nend\n";

/// How many pixels a bench with this room was asked for, and how many bytes the film has.
fn painted(alloc: Global, script: &Script, room: usize) -> Result<(u64, usize), PlayStop> {
    let (Ok(mut bench), Ok(mut film)) = (
        Bench::new(alloc, room, Parts::new()),
        MemorySink::new(alloc, 4096, Vec::new(alloc)),
    ) else {
        return Err(PlayStop::NoMemory);
    };
    serial_by(alloc, script, FilmForm::One, &mut film, &mut bench)?;
    Ok((bench.painted(), film.bytes().len()))
}

#[test]
fn pictures_are_kept(rt: HostRuntime) -> Result<(), Fail> {
    let script = parse(rt.alloc(), TWICE.as_bytes()).ok().ok_or("no script")?;
    // The first tick asks for 8 pixels of the context and for 8 of the port, and the second one for none, where there is room.
    let kept = painted(rt.alloc(), &script, 8_388_608).ok();
    let empty = painted(rt.alloc(), &script, 0).ok();
    assert_eq!(rt; (kept, empty), (Some((16, 232)), Some((32, 232))));
    Ok(())
}
