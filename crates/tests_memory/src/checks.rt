//! What no clause says: that a check succeeds where memory is at hand.

use crate::samples::{FILM, ONE_TICK};
use std::test::Fail;
use wf_check::{Verdict, check};
use wf_script::parse;

#[test]
fn films_are_judged(rt: HostRuntime) -> Result<(), Fail> {
    let script = parse(rt.alloc(), ONE_TICK.as_bytes())
        .ok()
        .ok_or("no script")?;
    // The film with another byte at a place, cut to a length.
    for (at, byte, length, want) in [
        (0, b'W', 74, Verdict::Same),
        (3, b'3', 74, Verdict::BadFilm { at: 0, rule: 1 }),
        (0, b'W', 30, Verdict::BadFilm { at: 30, rule: 3 }),
        (13, 0, 74, Verdict::Differs { at: 13 }),
        (18, 1, 74, Verdict::Differs { at: 18 }),
        (56, 1, 74, Verdict::BadOrder { entry: 0 }),
        (66, 2, 74, Verdict::BadOrder { entry: 1 }),
    ] {
        let mut film = FILM;
        if let Some(place) = film.get_mut(at) {
            *place = byte;
        }
        let bytes = film.get(..length).unwrap_or(&[]);
        let found = check(rt.alloc(), &script, bytes).ok().ok_or("memory")?;
        assert_eq!(rt; found, want, "byte {at}");
    }
    Ok(())
}
