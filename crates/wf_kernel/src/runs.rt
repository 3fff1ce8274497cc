//! Rows of a target that are alike, and are written at once.

ghost use Rattle.std.specs.Prelude.{◌≡◌, ◌≢◌, ℕ, ◌+◌, ◌*◌, ◌<◌, ◌≤◌, ◌++◌, IfSome, IsTrue, Some, drop, false, flat_map, length};
ghost use Rattle.std.specs.List.{range_with_len};
ghost use Rattle.std.specs.Simd.Lanes.{chunk};
ghost use Rattle.wf_pixel.specs.declared.Format.TheVariants.{Rgba8Pre};
ghost use Rattle.wf_image.specs.Bitmap.{drawn_row, pixel};
ghost use Rattle.wf_kernel.specs.Bound.{bound_rows, bound_texel};
ghost use Rattle.wf_kernel.specs.Laid.{laid};
ghost use Rattle.wf_kernel.specs.Level.{IsLevel, lowest_top};
ghost use Rattle.wf_kernel.specs.Strips.{IsStrip};

use crate::bound::BoundLayer;
use crate::laying::is_copied;
use crate::painting::fill;
use crate::placing::down;
use crate::stretch::stretch_of;
use crate::strips::Strip;
use wf_image::Image;
use wf_pixel::{Format, MOST_SIDE, Rgba, Rotation};
use wf_row::{AlphaMode, blend_row};

/// Writes rows of the target from row `y` on, `rows` at most, where a strip shows the background alone in them, or one layer that
/// shows whole rows of its source as they stand there. It says how many it wrote: none where the strip shows anything else.
#[inline(always)]
pub(crate) fn paint_run(
    bytes: &mut [u8],
    width: u32,
    layers: &[BoundLayer],
    background: Rgba,
    strip: Strip,
    y: u32,
    rows: u32,
) -> u32
    requires few { width ≤ MOST_SIDE }
    requires within { y + rows ≤ MOST_SIDE }
    requires count { length bytes.old ≡ rows * (4 * width) }
    requires strip { IsStrip layers.now width strip }
    ensures few { result ≤ rows }
    ensures rows { bytes.new ≡ bound_rows width layers.now background y result ++ drop (result * (4 * width)) bytes.old }
{
    let n = rows_in(strip, width, y, rows);
    if n == 0 {
        return 0;
    }
    let part = &mut bytes[..4 * (n * width) as usize];
    if write_run(part, width, layers, background, strip, y, n) {
        n
    } else {
        0
    }
}

/// How many rows from row `y` on a strip has, of at most so many: none where it is not as wide as the target, or shows more than
/// the background alone or one layer.
#[inline(always)]
fn rows_in(strip: Strip, width: u32, y: u32, most: u32) -> u32
    requires base { IfSome strip.base (λ j. j < strip.top) }
    ensures few { result ≤ most }
    ensures whole { 0 < result → strip.width ≡ width }
    ensures one { 0 < result → strip.top ≡ lowest_top strip.base }
    ensures from { 0 < result → strip.from ≤ y }
    ensures bottom { 0 < result → y + result ≤ strip.bottom }
{
    if strip.width != width || !shows_one(strip) {
        return 0;
    }
    if y < strip.from || strip.bottom <= y {
        return 0;
    }
    most.min(strip.bottom - y)
}

/// Whether a strip shows the background alone, or one layer that hides it.
#[inline(always)]
fn shows_one(strip: Strip) -> bool
    requires base { IfSome strip.base (λ j. j < strip.top) }
    ensures { IsTrue result → strip.top ≡ lowest_top strip.base }
{
    match strip.base {
        Some(base) => strip.top == base + 1,
        None => strip.top == 0,
    }
}

/// Writes `n` rows of a strip that is as wide as the target, where they are alike, and says whether they are.
fn write_run(
    part: &mut [u8],
    width: u32,
    layers: &[BoundLayer],
    background: Rgba,
    strip: Strip,
    y: u32,
    n: u32,
) -> bool
    requires few { width ≤ MOST_SIDE }
    requires within { y + n ≤ MOST_SIDE }
    requires some { 1 ≤ n }
    requires count { length part.old ≡ 4 * (n * width) }
    requires strip { IsStrip layers.now width strip }
    requires whole { strip.width ≡ width }
    requires one { strip.top ≡ lowest_top strip.base }
    requires from { strip.from ≤ y }
    requires bottom { y + n ≤ strip.bottom }
    ensures done { IsTrue result → part.new ≡ bound_rows width layers.now background y n }
    ensures not_done { result ≡ false → part.new ≡ part.old }
{
    match strip.base {
        Some(base) => copy_rows(part, &layers[base], width, y, n),
        None => {
            fill(part, n * width, background);
            true
        }
    }
}

/// Lays a layer over `n` rows of the target from row `y` on, where it shows whole rows of its source as they stand there, and says
/// whether it does.
fn copy_rows(part: &mut [u8], layer: &BoundLayer, width: u32, y: u32, n: u32) -> bool
    requires few { width ≤ MOST_SIDE }
    requires within { y + n ≤ MOST_SIDE }
    requires some { 1 ≤ n }
    requires count { length part.old ≡ 4 * (n * width) }
    ensures done { IsTrue result → part.new ≡ flat_map (λ k. laid width (λ x. bound_texel layer.now (0 + x) (y + k))
        (chunk (k * (4 * width)) (4 * width) part.old)) (range_with_len 0 n) }
    ensures not_done { result ≡ false → part.new ≡ part.old }
{
    let Some(image) = layer.source else {
        return false;
    };
    if !is_level(layer, image, width) {
        return false;
    }
    let Some(stretch) = stretch_of(layer, 0, width, y) else {
        return false;
    };
    if stretch.len < width || layer.layer.dest.h - stretch.down < n {
        return false;
    }
    let first = down(layer.turn, &layer.layer, stretch.down);
    blend_row(part, rows_part(image, first, n), AlphaMode::Opaque, None);
    true
}

/// Whether a layer shows the rows of an image of this width as they stand there, one behind the other, and copies them.
#[inline(always)]
fn is_level(layer: &BoundLayer, image: &Image, width: u32) -> bool
    requires source { layer.now.source ≡ Some image.now }
    ensures { IsTrue result → IsLevel layer.now image.now width }
{
    let shown = &layer.layer;
    let (src, dest) = (shown.src, shown.dest);
    if layer.turn != Rotation::R0 || shown.turn != Rotation::R0 || shown.flip {
        return false;
    }
    image.size().w == width && src.w == dest.w && src.h == dest.h && is_copied(layer, image)
}

/// The bytes of `n` rows of an image.
fn rows_part(image: &Image, y: u32, n: u32) -> &[u8]
    requires colours { image.now.format ≢ Format.A8 }
    requires rows { y + n ≤ image.now.size.h }
    ensures len { length result.now ≡ 4 * (n * image.now.size.w) }
    ensures rows { (k : ℕ) → k < n → chunk (k * (4 * image.now.size.w)) (4 * image.now.size.w) result.now
        ≡ drawn_row image.now.size.w Rgba8Pre (λ i. pixel image.now i (y + k)) }
{
    let width = image.size().w as usize;
    let at = 4 * (y as usize * width);
    &image.bytes()[at..at + 4 * (n as usize * width)]
}
