//! The pixels of a layer's source that a stretch of the target shows, one after the other.

ghost use Rattle.std.specs.Prelude.{◌≡◌, ◌≢◌, ◌+◌, ◌*◌, ◌<◌, ◌≤◌, ◌≤ℤ◌, ℕ, false, length, nat_abs, pos, slice_index, Some};
ghost use Rattle.wf_pixel.specs.declared.Format.TheVariants.{Rgba8Pre};
ghost use Rattle.wf_image.specs.Bitmap.{pixel, drawn_row};
ghost use Rattle.wf_row.specs.Gather.{reversed};
ghost use Rattle.wf_kernel.specs.Placed.{across, is_crossed, source_colour};
ghost use Rattle.wf_kernel.specs.Prepared.{IsWalk};
ghost use Rattle.wf_kernel.specs.Laid.{IsCopied, IsStretch, laid, placed_texel};

use crate::bound::BoundLayer;
use crate::placing::{Walk, down};
use crate::stretch::Stretch;
use wf_image::Image;
use wf_pixel::{Format, Rect};
use wf_row::{copy_gathered_row, gather_column, gather_row, reverse_row};

/// The part of a row of the source that is shown as it stands.
#[inline(always)]
pub(crate) fn forward_line<'a>(layer: &BoundLayer, image: &'a Image, stretch: Stretch) -> &'a [u8]
    requires source { layer.now.source ≡ Some image.now }
    requires stretch { IsStretch layer.now stretch }
    requires walk { IsWalk layer.now.turn layer.now.layer Walk.Forward }
    ensures len { length result.now ≡ 4 * stretch.len }
    ensures value { result.now ≡ drawn_row stretch.len Rgba8Pre (λ i. source_colour layer.now image.now (stretch.across + i) stretch.down) }
{
    let row = down(layer.turn, &layer.layer, stretch.down);
    let first = left_column(layer.layer.src) + stretch.across;
    row_part(image, first, row, stretch.len)
}

/// Writes the pixels, where the walk is not forward.
pub(crate) fn fill_line(line: &mut [u8], layer: &BoundLayer, image: &Image, stretch: Stretch)
    requires count { length line.old ≡ 4 * stretch.len }
    requires source { layer.now.source ≡ Some image.now }
    requires stretch { IsStretch layer.now stretch }
    ensures { line.new ≡ drawn_row stretch.len Rgba8Pre (λ i. source_colour layer.now image.now (stretch.across + i) stretch.down) }
{
    match layer.walk {
        Walk::Forward => line.copy_from_slice(forward_line(layer, image, stretch)),
        Walk::Backward => reverse_row(line, backward_line(layer, image, stretch)),
        Walk::Table => {
            let first = stretch.x as usize;
            let places = &layer.table[first..first + stretch.len as usize];
            fill_gathered(line, layer, image, places, stretch);
        }
    }
}

/// The part of a row of the source that is shown from its last pixel to its first.
pub(crate) fn backward_line<'a>(layer: &BoundLayer, image: &'a Image, stretch: Stretch) -> &'a [u8]
    requires source { layer.now.source ≡ Some image.now }
    requires stretch { IsStretch layer.now stretch }
    requires walk { IsWalk layer.now.turn layer.now.layer Walk.Backward }
    ensures len { length result.now ≡ 4 * stretch.len }
    ensures value { reversed result.now
        ≡ drawn_row stretch.len Rgba8Pre (λ i. source_colour layer.now image.now (stretch.across + i) stretch.down) }
{
    let row = down(layer.turn, &layer.layer, stretch.down);
    let src = layer.layer.src;
    let first = left_column(src) + (src.w - stretch.across - stretch.len);
    row_part(image, first, row, stretch.len)
}

/// The same, where the target's columns are at these places of the source.
fn fill_gathered(
    line: &mut [u8],
    layer: &BoundLayer,
    image: &Image,
    places: &[u16],
    stretch: Stretch,
)
    requires count { length line.old ≡ 4 * stretch.len }
    requires source { layer.now.source ≡ Some image.now }
    requires stretch { IsStretch layer.now stretch }
    requires len { length places.now ≡ stretch.len }
    requires places { (i : ℕ) → i < stretch.len → slice_index places.now i ≡ across layer.now.turn layer.now.layer (stretch.across + i) }
    ensures { line.new ≡ drawn_row stretch.len Rgba8Pre (λ i. source_colour layer.now image.now (stretch.across + i) stretch.down) }
{
    let other = down(layer.turn, &layer.layer, stretch.down);
    let width = image.size().w;
    if layer.crossed {
        gather_column(line, image.bytes(), other, width, places);
    } else {
        gather_row(line, row_part(image, 0, other, width), places);
    }
}

/// Lays the source's pixels, made opaque, over a part of a row of the target, whose columns are at these places of a row of the source.
pub(crate) fn copy_gathered(
    part: &mut [u8],
    layer: &BoundLayer,
    image: &Image,
    places: &[u16],
    stretch: Stretch,
)
    requires count { length part.old ≡ 4 * stretch.len }
    requires source { layer.now.source ≡ Some image.now }
    requires straight { is_crossed layer.now.turn layer.now.layer ≡ false }
    requires copied { IsCopied layer.now image.now }
    requires stretch { IsStretch layer.now stretch }
    requires len { length places.now ≡ stretch.len }
    requires places { (i : ℕ) → i < stretch.len → slice_index places.now i ≡ across layer.now.turn layer.now.layer (stretch.across + i) }
    ensures { part.new ≡ laid stretch.len (λ i. placed_texel layer.now image.now (stretch.across + i) stretch.down) part.old }
{
    let other = down(layer.turn, &layer.layer, stretch.down);
    let width = image.size().w;
    copy_gathered_row(part, row_part(image, 0, other, width), places);
}

/// The first column of a rectangle that begins in an image.
fn left_column(r: Rect) -> u32
    requires { pos 0 ≤ℤ r.x }
    ensures { result ≡ nat_abs r.x }
{
    r.x as u32
}

/// The bytes of `n` pixels of an image's row.
fn row_part(image: &Image, x: u32, y: u32, n: u32) -> &[u8]
    requires colours { image.now.format ≢ Format.A8 }
    requires x { x + n ≤ image.now.size.w }
    requires y { y < image.now.size.h }
    ensures value { result.now ≡ drawn_row n Rgba8Pre (λ i. pixel image.now (x + i) y) }
    ensures len { length result.now ≡ 4 * n }
{
    let size = image.size();
    let at = 4 * (y as usize * size.w as usize + x as usize);
    &image.bytes()[at..at + 4 * n as usize]
}
