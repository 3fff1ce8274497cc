//! The words of a paint.

ghost use Rattle.std.specs.Prelude.{◌≡◌, pos, negsuc};
ghost use Rattle.wf_script.specs.PaintWords.{checker, color, fill, paint_of, painted, ramp, rectangle, row, row_number};
ghost use Rattle.wf_script.specs.Pick.{first_as};
ghost use Rattle.wf_script.specs.Rules.{Gives, Reads};
ghost use Rattle.wf_script.specs.Words.{count_in, integer_in, words_in};
ghost use Rattle.wf_pixel.specs.Choice.{least_coordinate, most_coordinate};

use crate::ROW_DIGITS;
use crate::hex::hex_pixels;
use crate::numbers::{count_in, integer_in};
use crate::paint_form::PaintForm;
use crate::pick::{count, counted, first};
use crate::rule::{LineFault, Rule};
use std::alloc::Global;
use wf_image::Paint;
use wf_pixel::{MOST_COORDINATE, MOST_SIDE, Rect, Rgba};

/// The paint that words stand for.
#[tactic(auto, unfolding(crate::specs::PaintWords::paint_of))]
pub(crate) fn paint_of(alloc: Global, words: &[u8]) -> Result<Paint, LineFault>
    ensures { Gives (λ paint. paint) result (paint_of (words_in words.now)) }
{
    let (word, words) = first(words)?;
    let form = PaintForm::of_word(word).ok_or(Rule::Word)?;
    counted(form.count(), words)?;
    painted(alloc, form, words)
}

/// The paint of a form.
fn painted(alloc: Global, form: PaintForm, words: &[u8]) -> Result<Paint, LineFault>
    ensures { Gives (λ paint. paint) result (painted form (words_in words.now)) }
{
    match form {
        PaintForm::Fill => fill(words),
        PaintForm::Rectangle => rectangle(words),
        PaintForm::Checker => checker(words),
        PaintForm::Ramp => ramp(words),
        PaintForm::Row => row(alloc, words),
    }
}

/// A colour's channel.
fn channel_of(word: &[u8]) -> Option<u8>
    ensures { result ≡ count_in 0 255 word.now }
{
    let channel = count_in(0, 255, word)?;
    Some(channel as u8)
}

/// A colour's channel, and what stands behind it.
fn channel(words: &[u8]) -> Result<(u8, &[u8]), Rule>
    ensures { Reads result (first_as (count_in 0 255) (words_in words.now)) }
{
    let (word, words) = first(words)?;
    let channel = channel_of(word).ok_or(Rule::Word)?;
    Ok((channel, words))
}

/// A colour.
#[tactic(auto, unfolding(crate::specs::PaintWords::color))]
fn color(words: &[u8]) -> Result<(Rgba, &[u8]), Rule>
    ensures { Reads result (color (words_in words.now)) }
{
    let (r, words) = channel(words)?;
    let (g, words) = channel(words)?;
    let (b, words) = channel(words)?;
    let (a, words) = channel(words)?;
    Ok((Rgba { r, g, b, a }, words))
}

#[tactic(auto, unfolding(crate::specs::PaintWords::fill))]
fn fill(words: &[u8]) -> Result<Paint, LineFault>
    ensures { Gives (λ paint. paint) result (fill (words_in words.now)) }
{
    let (color, _) = color(words)?;
    Ok(Paint::Fill { color })
}

/// The place of a word, left of or above an image, or in it.
fn place_of(word: &[u8]) -> Option<i32>
    ensures { result ≡ integer_in least_coordinate most_coordinate word.now }
{
    let place = integer_in(
        -i64::from(MOST_COORDINATE),
        i64::from(MOST_COORDINATE),
        word,
    )?;
    Some(place as i32)
}

/// A place, left of or above an image, or in it.
fn place(words: &[u8]) -> Result<(i32, &[u8]), Rule>
    ensures { Reads result (first_as (integer_in least_coordinate most_coordinate) (words_in words.now)) }
{
    let (word, words) = first(words)?;
    let place = place_of(word).ok_or(Rule::Word)?;
    Ok((place, words))
}

#[tactic(auto, unfolding(crate::specs::PaintWords::rectangle))]
fn rectangle(words: &[u8]) -> Result<Paint, LineFault>
    ensures { Gives (λ paint. paint) result (rectangle (words_in words.now)) }
{
    let (x, words) = place(words)?;
    let (y, words) = place(words)?;
    let (w, words) = count(0, MOST_COORDINATE, words)?;
    let (h, words) = count(0, MOST_COORDINATE, words)?;
    let (color, _) = color(words)?;
    let area = Rect { x, y, w, h };
    Ok(Paint::Rectangle { area, color })
}

#[tactic(auto, unfolding(crate::specs::PaintWords::checker))]
fn checker(words: &[u8]) -> Result<Paint, LineFault>
    ensures { Gives (λ paint. paint) result (checker (words_in words.now)) }
{
    let (n, words) = count(1, MOST_SIDE, words)?;
    let (first, words) = color(words)?;
    let (second, _) = color(words)?;
    Ok(Paint::Checker { n, first, second })
}

#[tactic(auto, unfolding(crate::specs::PaintWords::ramp))]
fn ramp(words: &[u8]) -> Result<Paint, LineFault>
    ensures { Gives (λ paint. paint) result (ramp (words_in words.now)) }
{
    let (first, words) = color(words)?;
    let (second, _) = color(words)?;
    Ok(Paint::Ramp { first, second })
}

/// The number of a row.
#[tactic(auto, unfolding(crate::specs::PaintWords::row_number))]
fn row_number(word: &[u8]) -> Option<u32>
    ensures { result ≡ row_number word.now }
{
    let number = integer_in(0, i64::from(MOST_SIDE) - 1, word)?;
    Some(number as u32)
}

#[tactic(auto, using(std::proofs::lemmas::Bool::Decides::nat_tests), unfolding(crate::specs::PaintWords::row))]
fn row(alloc: Global, words: &[u8]) -> Result<Paint, LineFault>
    ensures { Gives (λ paint. paint) result (row (words_in words.now)) }
{
    let (word, words) = first(words)?;
    let y = row_number(word).ok_or(Rule::Word)?;
    let (word, _) = first(words)?;
    if word.len() > ROW_DIGITS {
        return Err(LineFault::Breaks(Rule::Word));
    }
    let pixels = hex_pixels(alloc, word)?;
    Ok(Paint::Row { y, pixels })
}
