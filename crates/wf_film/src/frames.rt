//! The frames of a film.

ghost use Rattle.std.specs.Prelude.{◌≡◌, length};
ghost use Rattle.wf_film.specs.Reading.{begin_at, behind, counted, frame_at, frames_at};
ghost use Rattle.wf_film.specs.Rules.{Finds};

use crate::fields::{behind_pixels, byte_of, byte_within, side_of, u32_of};
use crate::form::FilmForm;
use crate::rule::{Breach, Rule};

/// The bytes behind a frame's begin, which form 1 leaves out.
fn behind_begin(form: FilmForm, bytes: &[u8]) -> Result<&[u8], Breach>
    ensures { Finds (λ x. x.now) result (behind (begin_at form bytes.now)) }
{
    match form {
        FilmForm::One => Ok(bytes),
        FilmForm::Two => {
            let (_begin, rest) = u32_of(bytes)?;
            Ok(rest)
        }
    }
}

/// The bytes behind a frame, whose tag was read.
#[tactic(auto, unfolding(crate::specs::Reading::frame_at))]
fn behind_frame(form: FilmForm, bytes: &[u8]) -> Result<&[u8], Breach>
    ensures { Finds (λ x. x.now) result (behind (frame_at form bytes.now)) }
{
    let (_port, rest) = byte_within(1, 4, bytes)?;
    let (_tick, rest) = u32_of(rest)?;
    let rest = behind_begin(form, rest)?;
    let (w, rest) = side_of(rest)?;
    let (h, rest) = side_of(rest)?;
    behind_pixels(4 * (w as usize * h as usize), rest)
}

/// How many frames there are, and the bytes behind the tag of the journal. No frame is kept.
pub(crate) fn frames_of(form: FilmForm, bytes: &[u8]) -> Result<(u64, &[u8]), Breach>
    ensures { Finds (λ x. (x.0, x.1.now)) result (counted (frames_at form (length bytes.now) bytes.now)) }
{
    let mut count = 0;
    let mut rest = bytes;
    loop {
        let (tag, behind) = byte_of(rest)?;
        if tag == b'J' {
            return Ok((count, behind));
        }
        if tag != b'F' {
            return Err(Breach::at(Rule::Tag, rest));
        }
        rest = behind_frame(form, behind)?;
        count += 1;
    }
}
