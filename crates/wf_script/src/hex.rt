//! Pixels of hexadecimal digits.

ghost use Rattle.std.specs.Prelude.{◌≡◌, ◌<◌, IfSome, IfOk, slice_index};
ghost use Rattle.wf_script.specs.Canonical.{hex_digits, hex_pixel_word};
ghost use Rattle.wf_script.specs.PaintWords.{hex_byte, hex_digit, hex_pixel, hex_pixels};
ghost use Rattle.wf_script.specs.Rules.{Gives};

use crate::rule::{LineFault, Rule};
use std::alloc::Global;
use wf_image::Pixels;
use wf_pixel::Rgba;

/// The value of a hexadecimal digit of either case.
fn hex_digit(byte: u8) -> Option<u8>
    ensures value { result ≡ hex_digit byte }
    ensures small { IfSome result (λ n. n < 16) }
{
    if b'0' <= byte && byte <= b'9' {
        Some(byte - b'0')
    } else if b'a' <= byte && byte <= b'f' {
        Some(byte - b'a' + 10)
    } else if b'A' <= byte && byte <= b'F' {
        Some(byte - b'A' + 10)
    } else {
        None
    }
}

/// The byte of two hexadecimal digits.
#[tactic(auto, unfolding(crate::specs::PaintWords::hex_byte))]
fn hex_byte(high: u8, low: u8) -> Result<u8, Rule>
    ensures { result ≡ hex_byte high low }
{
    let high = hex_digit(high).ok_or(Rule::Word)?;
    let low = hex_digit(low).ok_or(Rule::Word)?;
    Ok(high * 16 + low)
}

/// The pixel of eight hexadecimal digits.
#[tactic(auto, unfolding(crate::specs::PaintWords::hex_pixel))]
fn hex_pixel(digits: &[u8; 8]) -> Result<Rgba, Rule>
    ensures { result ≡ hex_pixel digits.now }
{
    let r = hex_byte(digits[0], digits[1])?;
    let g = hex_byte(digits[2], digits[3])?;
    let b = hex_byte(digits[4], digits[5])?;
    let a = hex_byte(digits[6], digits[7])?;
    Ok(Rgba { r, g, b, a })
}

/// The pixels of a word.
pub(crate) fn hex_pixels(alloc: Global, word: &[u8]) -> Result<Pixels, LineFault>
    ensures { Gives (λ pixels. pixels) result (hex_pixels word.now) }
{
    let mut pixels = Vec::new(alloc);
    let mut rest = word;
    while !rest.is_empty() {
        let Some((digits, behind)) = rest.split_first_chunk::<8>() else {
            return Err(LineFault::Breaks(Rule::Word));
        };
        match hex_pixel(digits) {
            Ok(pixel) => pixels.push(pixel)?,
            Err(rule) => return Err(LineFault::Breaks(rule)),
        }
        rest = behind;
    }
    Ok(Pixels::new(pixels))
}

/// The hexadecimal digits, by their values.
const DIGITS: [u8; 16] = *b"0123456789abcdef";

/// The hexadecimal digit of a value.
fn digit_of(value: u8) -> u8
    requires { value < 16 }
    ensures { result ≡ slice_index hex_digits value }
{
    DIGITS[value as usize]
}

/// The eight hexadecimal digits of a pixel.
pub(crate) fn hex_of(pixel: Rgba) -> [u8; 8]
    ensures { result ≡ hex_pixel_word pixel }
{
    [
        digit_of(pixel.r / 16),
        digit_of(pixel.r % 16),
        digit_of(pixel.g / 16),
        digit_of(pixel.g % 16),
        digit_of(pixel.b / 16),
        digit_of(pixel.b % 16),
        digit_of(pixel.a / 16),
        digit_of(pixel.a % 16),
    ]
}
