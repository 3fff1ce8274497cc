//! Fills: one colour everywhere.

ghost use Rattle.std.specs.Prelude.{◌≡◌, ◌+◌, ◌*◌, ◌/◌, ◌%◌, ◌≤◌, ◌++◌, [], ◌∷◌, length, take, drop};
ghost use Rattle.wf_image.specs.Bitmap.{drawn_row, image_bytes};
ghost use Rattle.wf_image.specs.Paints.{painted_bytes};

use crate::paint::Paint;
use std::simd::prelude::*;
use wf_pixel::{Format, Rgba, Size};

/// Writes a colour everywhere on the bytes of an image of this size and format.
pub(crate) fn fill_bytes(bytes: &mut [u8], size: Size, format: Format, color: Rgba)
    requires count { length bytes.old ≡ image_bytes size format }
    ensures { bytes.new ≡ painted_bytes size format bytes.old (Paint.Fill color) }
{
    match format {
        Format::A8 => bytes.fill(color.a),
        _ => fill_pixels(bytes, color),
    }
}

/// Writes a pixel of four bytes everywhere, eight at a time.
fn fill_pixels(bytes: &mut [u8], color: Rgba)
    requires { length bytes.old % 4 ≡ 0 }
    ensures { bytes.new ≡ drawn_row (length bytes.old / 4) Format.Rgba8 (λ x. color) }
{
    let Rgba { r, g, b, a } = color;
    let eight = u8x32::from_array([
        r, g, b, a, r, g, b, a, r, g, b, a, r, g, b, a, r, g, b, a, r, g, b, a, r, g, b, a, r, g,
        b, a,
    ]);
    let blocks = bytes.len() / 32;
    for block in 0..blocks {
        eight.copy_to_slice(&mut bytes[32 * block..]);
    }
    for x in 8 * blocks..bytes.len() / 4 {
        put_four(bytes, x, color);
    }
}

/// Writes pixel `x` of a row of pixels of four bytes.
#[inline(always)]
pub(crate) fn put_four(row: &mut [u8], x: usize, color: Rgba)
    requires { 4 * x + 4 ≤ length row.old }
    ensures { row.new ≡ take (4 * x) row.old ++ (color.r ∷ color.g ∷ color.b ∷ color.a ∷ []) ++ drop (4 * x + 4) row.old }
{
    let pixel = u8x4::from_array([color.r, color.g, color.b, color.a]);
    pixel.copy_to_slice(&mut row[4 * x..]);
}
