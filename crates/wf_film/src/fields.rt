//! The fields of a film: what is read from the front of its bytes, and the bytes behind it.

ghost use Rattle.std.specs.Prelude.{◌≡◌};
ghost use Rattle.wf_film.specs.Reading.{behind, byte_at, byte_within, form_at, number_at, pixels_at, side_at};
ghost use Rattle.wf_film.specs.Rules.{Finds};

use crate::form::FilmForm;
use crate::pieces::{MAGIC, MAGIC_OF_TWO};
use crate::rule::{Breach, Rule};
use byteorder::{BigEndian, ByteOrder};
use wf_pixel::MOST_SIDE;

/// The highest side of a frame.
const HIGHEST: u16 = MOST_SIDE as u16;

/// The form that the magic tells.
#[tactic(auto, unfolding(crate::specs::Reading::form_at))]
pub(crate) fn form_of(bytes: &[u8]) -> Result<(FilmForm, &[u8]), Breach>
    ensures { Finds (λ x. (x.0, x.1.now)) result (form_at bytes.now) }
{
    if bytes.len() < 4 {
        return Err(Breach::at_end());
    }
    let (magic, rest) = bytes.split_at(4);
    if magic == MAGIC.as_slice() {
        Ok((FilmForm::One, rest))
    } else if magic == MAGIC_OF_TWO.as_slice() {
        Ok((FilmForm::Two, rest))
    } else {
        Err(Breach::at(Rule::Magic, bytes))
    }
}

/// One byte.
pub(crate) fn byte_of(bytes: &[u8]) -> Result<(u8, &[u8]), Breach>
    ensures { Finds (λ x. (x.0, x.1.now)) result (byte_at bytes.now) }
{
    match bytes {
        [] => Err(Breach::at_end()),
        [byte, rest @ ..] => Ok((*byte, rest)),
    }
}

/// One byte that is a number in a range.
#[tactic(auto, using(std::proofs::lemmas::Bool::Decides::nat_tests))]
pub(crate) fn byte_within(low: u8, high: u8, bytes: &[u8]) -> Result<(u8, &[u8]), Breach>
    ensures { Finds (λ x. (x.0, x.1.now)) result (byte_within low high bytes.now) }
{
    let (number, rest) = byte_of(bytes)?;
    if number < low || number > high {
        return Err(Breach::at(Rule::Range, bytes));
    }
    Ok((number, rest))
}

/// A number of two bytes.
#[tactic(auto, unfolding(crate::specs::Reading::number_at))]
fn u16_of(bytes: &[u8]) -> Result<(u16, &[u8]), Breach>
    ensures { Finds (λ x. (x.0, x.1.now)) result (number_at 2 bytes.now) }
{
    if bytes.len() < 2 {
        return Err(Breach::at_end());
    }
    Ok((BigEndian::read_u16(bytes), &bytes[2..]))
}

/// A number of four bytes.
#[tactic(auto, unfolding(crate::specs::Reading::number_at))]
pub(crate) fn u32_of(bytes: &[u8]) -> Result<(u32, &[u8]), Breach>
    ensures { Finds (λ x. (x.0, x.1.now)) result (number_at 4 bytes.now) }
{
    if bytes.len() < 4 {
        return Err(Breach::at_end());
    }
    Ok((BigEndian::read_u32(bytes), &bytes[4..]))
}

/// A side of a frame.
#[tactic(auto, using(std::proofs::lemmas::Bool::Decides::nat_tests), unfolding(crate::specs::Reading::side_at))]
pub(crate) fn side_of(bytes: &[u8]) -> Result<(u16, &[u8]), Breach>
    ensures { Finds (λ x. (x.0, x.1.now)) result (side_at bytes.now) }
{
    let (side, rest) = u16_of(bytes)?;
    if side < 1 || side > HIGHEST {
        return Err(Breach::at(Rule::Range, bytes));
    }
    Ok((side, rest))
}

/// The bytes behind so many bytes of pixels.
#[tactic(auto, unfolding(crate::specs::Reading::pixels_at))]
pub(crate) fn behind_pixels(count: usize, bytes: &[u8]) -> Result<&[u8], Breach>
    ensures { Finds (λ x. x.now) result (behind (pixels_at count bytes.now)) }
{
    if bytes.len() < count {
        return Err(Breach::at_end());
    }
    Ok(&bytes[count..])
}
