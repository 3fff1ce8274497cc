//! What no clause says: that words are read where memory is at hand.

use std::test::Fail;
use wf_command::{Asked, Mode, asked_by};
use wf_film::FilmForm;

#[test]
fn words_have_memory(rt: HostRuntime) -> Result<(), Fail> {
    let mut words = Vec::new(rt.alloc());
    for word in ["film", "--rows", "3"] {
        words.push(String::from_str(rt.alloc(), word)?)?;
    }
    let asked = asked_by(rt.alloc(), &words).ok().ok_or("a stop")?;
    let want = Asked {
        mode: Mode::Film,
        threads: false,
        rows: 3,
        form: FilmForm::Two,
        size: asked.size,
        depth: 64,
        repaint: false,
    };
    assert_eq!(rt; asked, want);
    Ok(())
}
