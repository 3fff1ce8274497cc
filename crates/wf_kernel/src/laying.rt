//! Lays one layer over pixels of a row of the target.

ghost use Rattle.std.specs.Prelude.{◌≡◌, ◌≢◌, ℕ, ◌+◌, ◌*◌, ◌<◌, ◌≤◌, length, false, slice_index, true, All, IsTrue, Some};
ghost use Rattle.wf_pixel.specs.declared.Format.TheVariants.{Rgba8Pre};
ghost use Rattle.wf_pixel.specs.Arithmetic.{scaled};
ghost use Rattle.wf_pixel.specs.Place.{size_of};
ghost use Rattle.wf_image.specs.Bitmap.{read_at, drawn_row};
ghost use Rattle.wf_kernel.specs.Bound.{bound_texel, layer_at};
ghost use Rattle.wf_kernel.specs.Kept.{AreKept};
ghost use Rattle.wf_kernel.specs.Placed.{across, is_crossed, source_colour, mask_value};
ghost use Rattle.wf_kernel.specs.Laid.{laid, lifted_pixel, mode_of, fade_of, placed_texel, IsCopied, IsStretch};
ghost use Rattle.wf_kernel.specs.Prepared.{IsWalk};

use crate::ROW_BYTES;
use crate::bound::BoundLayer;
use crate::keeping::{COLUMNS, Kept, keep_block, keep_line};
use crate::lines::{backward_line, copy_gathered, fill_line, forward_line};
use crate::masks::{fill_values, straight_values};
use crate::placing::{Walk, down};
use crate::stretch::{Stretch, stretch_of};
use wf_image::Image;
use wf_pixel::{Format, MOST_SIDE, Rotation, SIDE_LEN, Size, turned};
use wf_row::{AlphaMode, blend_masked_row, blend_row, copy_reversed_row};

/// Lays a layer, by its place, over `width` pixels of row `y`, from column `first` on. The source's pixels go through what is
/// kept, where they are not taken as they stand.
#[inline(always)]
pub(crate) fn lay_row(
    row: &mut [u8],
    first: u32,
    width: u32,
    layers: &[BoundLayer],
    i: usize,
    kept: &mut [Kept],
    spare: &mut [[u8; ROW_BYTES]],
    y: u32,
)
    requires count { length row.old ≡ 4 * width }
    requires few { first + width ≤ MOST_SIDE }
    requires layer { i < length layers.now }
    requires kept { All (AreKept layers.now) kept.old }
    ensures row { row.new ≡ laid width (λ x. bound_texel (layer_at layers.now i) (first + x) y) row.old }
    ensures kept { All (AreKept layers.now) kept.new }
{
    if let Some(stretch) = stretch_of(&layers[i], first, width, y) {
        let at = 4 * (stretch.x - first) as usize;
        let part = &mut row[at..at + 4 * stretch.len as usize];
        lay_stretch(part, layers, i, kept, spare, stretch);
    }
}

/// Lays a layer over the pixels of a stretch.
#[inline(always)]
fn lay_stretch(
    part: &mut [u8],
    layers: &[BoundLayer],
    i: usize,
    kept: &mut [Kept],
    spare: &mut [[u8; ROW_BYTES]],
    stretch: Stretch,
)
    requires count { length part.old ≡ 4 * stretch.len }
    requires layer { i < length layers.now }
    requires stretch { IsStretch (layer_at layers.now i) stretch }
    requires kept { All (AreKept layers.now) kept.old }
    ensures part { part.new ≡ laid stretch.len (λ j. bound_texel (layer_at layers.now i) (stretch.x + j) stretch.y) part.old }
    ensures kept { All (AreKept layers.now) kept.new }
{
    let layer = &layers[i];
    let Some(image) = layer.source else {
        return;
    };
    match layer.walk {
        Walk::Forward => {
            let line = forward_line(layer, image, stretch);
            lay_forward(part, line, layer, image, stretch);
        }
        Walk::Backward => lay_backward(part, layers, i, kept, spare, image, stretch),
        Walk::Table => {
            let first = stretch.x as usize;
            let places = &layer.table[first..first + stretch.len as usize];
            lay_by_table(part, layers, i, kept, spare, image, places, stretch);
        }
    }
}

/// The same, where the target's columns are at these places of the source. It is a function of its own when it runs, too, so that the
/// path of layers that lie forward stays short.
#[inline(never)]
fn lay_by_table(
    part: &mut [u8],
    layers: &[BoundLayer],
    i: usize,
    kept: &mut [Kept],
    spare: &mut [[u8; ROW_BYTES]],
    image: &Image,
    places: &[u16],
    stretch: Stretch,
)
    requires count { length part.old ≡ 4 * stretch.len }
    requires layer { i < length layers.now }
    requires source { (layer_at layers.now i).source ≡ Some image.now }
    requires stretch { IsStretch (layer_at layers.now i) stretch }
    requires len { length places.now ≡ stretch.len }
    requires places { (k : ℕ) → k < stretch.len
        → slice_index places.now k ≡ across (layer_at layers.now i).turn (layer_at layers.now i).layer (stretch.across + k) }
    requires kept { All (AreKept layers.now) kept.old }
    ensures part { part.new ≡ laid stretch.len
        (λ j. placed_texel (layer_at layers.now i) image.now (stretch.across + j) stretch.down) part.old }
    ensures kept { All (AreKept layers.now) kept.new }
{
    if is_shown_once(&layers[i]) && is_copied(&layers[i], image) {
        copy_gathered(part, &layers[i], image, places, stretch);
    } else {
        lay_by_lines(part, layers, i, kept, spare, image, stretch);
    }
}

/// Whether rows of a layer's source are shown as rows, and each in one row of the target at most: it is not worth keeping.
fn is_shown_once(layer: &BoundLayer) -> bool
    ensures { IsTrue result → is_crossed layer.now.turn layer.now.layer ≡ false }
{
    let dest = layer.layer.dest;
    let size = turned(
        layer.turn,
        Size {
            w: dest.w,
            h: dest.h,
        },
    );
    !layer.crossed && size.h <= layer.layer.src.h
}

/// The same, where the source's pixels stand there from the last to the first.
fn lay_backward(
    part: &mut [u8],
    layers: &[BoundLayer],
    i: usize,
    kept: &mut [Kept],
    spare: &mut [[u8; ROW_BYTES]],
    image: &Image,
    stretch: Stretch,
)
    requires count { length part.old ≡ 4 * stretch.len }
    requires layer { i < length layers.now }
    requires source { (layer_at layers.now i).source ≡ Some image.now }
    requires stretch { IsStretch (layer_at layers.now i) stretch }
    requires walk { IsWalk (layer_at layers.now i).turn (layer_at layers.now i).layer Walk.Backward }
    requires kept { All (AreKept layers.now) kept.old }
    ensures part { part.new ≡ laid stretch.len
        (λ j. placed_texel (layer_at layers.now i) image.now (stretch.across + j) stretch.down) part.old }
    ensures kept { All (AreKept layers.now) kept.new }
{
    if is_copied(&layers[i], image) {
        lay_reversed(part, &layers[i], image, stretch);
    } else {
        lay_by_lines(part, layers, i, kept, spare, image, stretch);
    }
}

/// The same of a layer that is copied.
fn lay_reversed(part: &mut [u8], layer: &BoundLayer, image: &Image, stretch: Stretch)
    requires count { length part.old ≡ 4 * stretch.len }
    requires source { layer.now.source ≡ Some image.now }
    requires stretch { IsStretch layer.now stretch }
    requires walk { IsWalk layer.now.turn layer.now.layer Walk.Backward }
    requires copied { IsCopied layer.now image.now }
    ensures { part.new ≡ laid stretch.len (λ i. placed_texel layer.now image.now (stretch.across + i) stretch.down) part.old }
{
    copy_reversed_row(part, backward_line(layer, image, stretch));
}

/// The same, where the source's pixels go through a line. A picture with such a layer keeps some.
fn lay_by_lines(
    part: &mut [u8],
    layers: &[BoundLayer],
    i: usize,
    kept: &mut [Kept],
    spare: &mut [[u8; ROW_BYTES]],
    image: &Image,
    stretch: Stretch,
)
    requires count { length part.old ≡ 4 * stretch.len }
    requires layer { i < length layers.now }
    requires source { (layer_at layers.now i).source ≡ Some image.now }
    requires stretch { IsStretch (layer_at layers.now i) stretch }
    requires kept { All (AreKept layers.now) kept.old }
    ensures part { part.new ≡ laid stretch.len
        (λ j. placed_texel (layer_at layers.now i) image.now (stretch.across + j) stretch.down) part.old }
    ensures kept { All (AreKept layers.now) kept.new }
{
    if kept.is_empty() || spare.is_empty() {
        lay_apart(part, layers, i, image, stretch);
        return;
    }
    lay_kept(part, layers, i, &mut kept[0], &mut spare[0], image, stretch);
}

/// The same with a line that serves this stretch alone.
#[inline(never)]
fn lay_apart(part: &mut [u8], layers: &[BoundLayer], i: usize, image: &Image, stretch: Stretch)
    requires count { length part.old ≡ 4 * stretch.len }
    requires layer { i < length layers.now }
    requires source { (layer_at layers.now i).source ≡ Some image.now }
    requires stretch { IsStretch (layer_at layers.now i) stretch }
    ensures { part.new ≡ laid stretch.len
        (λ j. placed_texel (layer_at layers.now i) image.now (stretch.across + j) stretch.down) part.old }
{
    let layer = &layers[i];
    let mut spare = [0; ROW_BYTES];
    lay_filled(part, layer, &mut spare, image, stretch);
}

/// The same with lines that are kept.
fn lay_kept(
    part: &mut [u8],
    layers: &[BoundLayer],
    i: usize,
    kept: &mut Kept,
    spare: &mut [u8; ROW_BYTES],
    image: &Image,
    stretch: Stretch,
)
    requires count { length part.old ≡ 4 * stretch.len }
    requires layer { i < length layers.now }
    requires source { (layer_at layers.now i).source ≡ Some image.now }
    requires stretch { IsStretch (layer_at layers.now i) stretch }
    requires kept { AreKept layers.now kept.old }
    ensures part { part.new ≡ laid stretch.len
        (λ j. placed_texel (layer_at layers.now i) image.now (stretch.across + j) stretch.down) part.old }
    ensures kept { AreKept layers.now kept.new }
{
    let layer = &layers[i];
    if layer.crossed {
        lay_columns(part, layers, i, kept, spare, image, stretch);
    } else if layer.walk == Walk::Table {
        lay_rows(part, layers, i, kept, spare, image, stretch);
    } else {
        lay_filled(part, layer, spare, image, stretch);
    }
}

/// The same, where rows of the source are shown as rows: a row that was gathered serves further rows.
fn lay_rows(
    part: &mut [u8],
    layers: &[BoundLayer],
    i: usize,
    kept: &mut Kept,
    spare: &mut [u8; ROW_BYTES],
    image: &Image,
    stretch: Stretch,
)
    requires count { length part.old ≡ 4 * stretch.len }
    requires layer { i < length layers.now }
    requires source { (layer_at layers.now i).source ≡ Some image.now }
    requires stretch { IsStretch (layer_at layers.now i) stretch }
    requires kept { AreKept layers.now kept.old }
    ensures part { part.new ≡ laid stretch.len
        (λ j. placed_texel (layer_at layers.now i) image.now (stretch.across + j) stretch.down) part.old }
    ensures kept { AreKept layers.now kept.new }
{
    let layer = &layers[i];
    let other = down(layer.turn, &layer.layer, stretch.down);
    if !kept.line_of.has(i, stretch, other, 1) {
        keep_line(kept, layers, i, image, stretch);
    }
    if !kept.line_of.has(i, stretch, other, 1) {
        lay_filled(part, layer, spare, image, stretch);
        return;
    }
    kept.line_of.row = stretch.y;
    let at = 4 * (stretch.across - kept.line_of.across) as usize;
    let line = &kept.line[at..at + 4 * stretch.len as usize];
    lay_line(part, line, layer, image, stretch);
}

/// The same, where columns of the source are shown as rows: columns that were gathered at once serve as many rows.
fn lay_columns(
    part: &mut [u8],
    layers: &[BoundLayer],
    i: usize,
    kept: &mut Kept,
    spare: &mut [u8; ROW_BYTES],
    image: &Image,
    stretch: Stretch,
)
    requires count { length part.old ≡ 4 * stretch.len }
    requires layer { i < length layers.now }
    requires source { (layer_at layers.now i).source ≡ Some image.now }
    requires crossed { is_crossed (layer_at layers.now i).turn (layer_at layers.now i).layer ≡ true }
    requires stretch { IsStretch (layer_at layers.now i) stretch }
    requires kept { AreKept layers.now kept.old }
    ensures part { part.new ≡ laid stretch.len
        (λ j. placed_texel (layer_at layers.now i) image.now (stretch.across + j) stretch.down) part.old }
    ensures kept { AreKept layers.now kept.new }
{
    let layer = &layers[i];
    let other = down(layer.turn, &layer.layer, stretch.down);
    if !kept.block_of.has(i, stretch, other, COLUMNS) {
        keep_block(kept, layers, i, image, stretch);
    }
    if !kept.block_of.has(i, stretch, other, COLUMNS) {
        lay_filled(part, layer, spare, image, stretch);
        return;
    }
    kept.block_of.row = stretch.y;
    let column = (other - kept.block_of.other) as usize;
    let skip = (stretch.across - kept.block_of.across) as usize;
    let at = 4 * (kept.block_of.len as usize * column + skip);
    let line = &kept.block[at..at + 4 * stretch.len as usize];
    lay_line(part, line, layer, image, stretch);
}

/// The same, where the source's pixels go through a line that is kept for nothing.
fn lay_filled(
    part: &mut [u8],
    layer: &BoundLayer,
    spare: &mut [u8; ROW_BYTES],
    image: &Image,
    stretch: Stretch,
)
    requires count { length part.old ≡ 4 * stretch.len }
    requires source { layer.now.source ≡ Some image.now }
    requires stretch { IsStretch layer.now stretch }
    ensures { part.new ≡ laid stretch.len (λ i. placed_texel layer.now image.now (stretch.across + i) stretch.down) part.old }
{
    let line = &mut spare[..4 * stretch.len as usize];
    fill_line(line, layer, image, stretch);
    lay_line(part, line, layer, image, stretch);
}

/// The same, by the source's pixels, where these may stand in an image: most such layers are opaque, and are copied.
#[inline(always)]
fn lay_forward(part: &mut [u8], line: &[u8], layer: &BoundLayer, image: &Image, stretch: Stretch)
    requires count { length part.old ≡ 4 * stretch.len }
    requires source { layer.now.source ≡ Some image.now }
    requires stretch { IsStretch layer.now stretch }
    requires len { length line.now ≡ 4 * stretch.len }
    requires line { line.now ≡ drawn_row stretch.len Rgba8Pre (λ i. source_colour layer.now image.now (stretch.across + i) stretch.down) }
    ensures { part.new ≡ laid stretch.len (λ i. placed_texel layer.now image.now (stretch.across + i) stretch.down) part.old }
{
    if is_copied(layer, image) {
        blend_row(part, line, AlphaMode::Opaque, None);
    } else {
        lay_line(part, line, layer, image, stretch);
    }
}

/// Whether the pixels of a layer's source are copied: nothing makes them transparent.
#[inline(always)]
pub(crate) fn is_copied(layer: &BoundLayer, image: &Image) -> bool
    requires source { layer.now.source ≡ Some image.now }
    ensures { IsTrue result → IsCopied layer.now image.now }
{
    let transparency = layer.layer.transparency;
    if transparency.mask || transparency.alpha {
        return false;
    }
    match mode_of(image.format(), transparency.source) {
        AlphaMode::Opaque => true,
        _ => false,
    }
}

/// The same, by the source's pixels.
fn lay_line(part: &mut [u8], line: &[u8], layer: &BoundLayer, image: &Image, stretch: Stretch)
    requires count { length part.old ≡ 4 * stretch.len }
    requires source { layer.now.source ≡ Some image.now }
    requires stretch { IsStretch layer.now stretch }
    requires len { length line.now ≡ 4 * stretch.len }
    requires line { line.now ≡ drawn_row stretch.len Rgba8Pre (λ i. source_colour layer.now image.now (stretch.across + i) stretch.down) }
    ensures { part.new ≡ laid stretch.len (λ i. placed_texel layer.now image.now (stretch.across + i) stretch.down) part.old }
{
    let transparency = layer.layer.transparency;
    let mode = mode_of(image.format(), transparency.source);
    let fade = fade_of(transparency.alpha, layer.layer.alpha);
    if transparency.mask {
        let Some(mask) = layer.mask else {
            return;
        };
        lay_masked(part, line, layer, mask, mode, fade, stretch);
    } else {
        blend_row(part, line, mode, fade);
    }
}

/// The same through the layer's mask.
#[inline(never)]
fn lay_masked(
    part: &mut [u8],
    line: &[u8],
    layer: &BoundLayer,
    mask: &Image,
    mode: AlphaMode,
    fade: Option<u8>,
    stretch: Stretch,
)
    requires count { length part.old ≡ 4 * stretch.len }
    requires line { length line.now ≡ 4 * stretch.len }
    requires values { mask.now.format ≡ Format.A8 }
    requires size { mask.now.size ≡ size_of layer.now.layer.dest }
    requires stretch { IsStretch layer.now stretch }
    ensures { part.new ≡ laid stretch.len (λ i. Some (scaled (lifted_pixel mode fade (read_at Rgba8Pre line.now (4 * i)))
        (mask_value layer.now mask.now (stretch.across + i) stretch.down))) part.old }
{
    if layer.turn == Rotation::R0 {
        let values = straight_values(layer, mask, stretch);
        blend_masked_row(part, line, values, mode, fade);
    } else {
        lay_turned(part, line, layer, mask, mode, fade, stretch);
    }
}

/// The same where the target is turned, and the mask with it.
fn lay_turned(
    part: &mut [u8],
    line: &[u8],
    layer: &BoundLayer,
    mask: &Image,
    mode: AlphaMode,
    fade: Option<u8>,
    stretch: Stretch,
)
    requires count { length part.old ≡ 4 * stretch.len }
    requires line { length line.now ≡ 4 * stretch.len }
    requires values { mask.now.format ≡ Format.A8 }
    requires size { mask.now.size ≡ size_of layer.now.layer.dest }
    requires stretch { IsStretch layer.now stretch }
    ensures { part.new ≡ laid stretch.len (λ i. Some (scaled (lifted_pixel mode fade (read_at Rgba8Pre line.now (4 * i)))
        (mask_value layer.now mask.now (stretch.across + i) stretch.down))) part.old }
{
    let mut values = [0; SIDE_LEN];
    let values = &mut values[..stretch.len as usize];
    fill_values(values, layer, mask, stretch);
    blend_masked_row(part, line, values, mode, fade);
}

/// How the alpha of a source counts, which is asked for its own alpha or not.
fn mode_of(format: Format, is_own: bool) -> AlphaMode
    requires colours { format ≢ Format.A8 }
    ensures { result ≡ mode_of format is_own }
{
    match format {
        Format::Rgba8Pre if is_own => AlphaMode::Premultiplied,
        Format::Rgba8 if is_own => AlphaMode::Straight,
        _ => AlphaMode::Opaque,
    }
}

/// A layer's alpha, where it applies.
fn fade_of(applies: bool, alpha: u8) -> Option<u8>
    ensures { result ≡ fade_of applies alpha }
{
    if applies { Some(alpha) } else { None }
}
