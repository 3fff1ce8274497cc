//! What no clause says: that a film is read where memory is at hand.

use crate::samples::FILM;
use std::test::Fail;
use wf_film::{FilmForm, read};

#[test]
fn a_film_has_memory(rt: HostRuntime) -> Result<(), Fail> {
    let film = read(rt.alloc(), &FILM).ok().ok_or("a stop")?;
    let came = (film.form(), film.frames(), film.order().turns().len());
    assert_eq!(rt; came, (FilmForm::Two, 1, 3));
    Ok(())
}
