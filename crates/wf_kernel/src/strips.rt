//! Cuts the rows of a target into pieces, of which each begins with the topmost layer that hides the others.

ghost use Rattle.std.specs.Prelude.{◌≡◌, ℕ, ◌+◌, ◌<◌, ◌≤◌, All, List, None, Some, IfSome, length};
ghost use Rattle.wf_kernel.specs.Bound.{Bound};
ghost use Rattle.wf_kernel.specs.Hiding.{IsCover, IsBeside};
ghost use Rattle.wf_kernel.specs.Strips.{IsStrip, IsCut};

use crate::bound::BoundLayer;
use wf_pixel::MOST_SIDE;

/// Some columns of some rows, with the topmost layer that hides all that is below it there, and how many layers count.
#[derive(Clone, Copy, Debug, PartialEq, Eq)]
pub(crate) struct Strip {
    pub(crate) first: u32,
    pub(crate) width: u32,
    pub(crate) from: u32,
    /// The row behind the last one.
    pub(crate) bottom: u32,
    pub(crate) base: Option<usize>,
    /// The layers from this one on show nothing there.
    pub(crate) top: usize,
}

/// A strip of no rows.
pub(crate) fn no_strip() -> Strip
    ensures { (layers : List Bound) (w : ℕ) → IsStrip layers w result }
{
    Strip {
        first: 0,
        width: 0,
        from: 0,
        bottom: 0,
        base: None,
        top: 0,
    }
}

/// The strip that begins at column `first` of row `y`, as it was found at place `k` for a row above, or anew.
pub(crate) fn strip_for(
    strips: &mut [Strip],
    k: usize,
    layers: &[BoundLayer],
    width: u32,
    first: u32,
    y: u32,
) -> Strip
    requires strips { All (IsStrip layers.now width) strips.old }
    requires few { width ≤ MOST_SIDE }
    requires first { first < width }
    requires row { y < MOST_SIDE }
    ensures strips { All (IsStrip layers.now width) strips.new }
    ensures strip { IsStrip layers.now width result }
    ensures first { result.first ≡ first }
    ensures from { result.from ≤ y }
    ensures bottom { y < result.bottom }
{
    if k < strips.len() {
        let known = strips[k];
        if known.first == first && known.from <= y && y < known.bottom {
            return known;
        }
        let strip = strip_at(layers, width, first, y);
        strips[k] = strip;
        return strip;
    }
    strip_at(layers, width, first, y)
}

/// Finds the first strip of row `y` anew, of a row of `width` pixels, and keeps it. It is a function of its own when it runs, too, so that
/// rows whose strips are known take a short way.
#[inline(never)]
pub(crate) fn find_first(strips: &mut [Strip], layers: &[BoundLayer], width: u32, y: u32)
    requires room { 1 ≤ length strips.old }
    requires strips { All (IsStrip layers.now width) strips.old }
    requires some { 1 ≤ width }
    requires few { width ≤ MOST_SIDE }
    requires row { y < MOST_SIDE }
    ensures { All (IsStrip layers.now width) strips.new }
{
    strips[0] = strip_at(layers, width, 0, y);
}

/// The strip that begins at column `first` of row `y`, of a row of `width` pixels. It stands in its caller, so that a strip that is known
/// goes into registers: by way of memory it would be read before the pixels that were written last have gone to the cache.
#[inline(always)]
fn strip_at(layers: &[BoundLayer], width: u32, first: u32, y: u32) -> Strip
    requires few { width ≤ MOST_SIDE }
    requires first { first < width }
    requires row { y < MOST_SIDE }
    ensures strip { IsStrip layers.now width result }
    ensures first { result.first ≡ first }
    ensures from { result.from ≤ y }
    ensures bottom { y < result.bottom }
{
    let whole = Strip {
        first,
        width: width - first,
        from: y,
        bottom: MOST_SIDE,
        base: None,
        top: layers.len(),
    };
    let topped = topped(layers, width, whole);
    based(layers, width, topped)
}

/// The strip without the layers on top that show nothing there.
fn topped(layers: &[BoundLayer], width: u32, strip: Strip) -> Strip
    requires few { width ≤ MOST_SIDE }
    requires strip { IsStrip layers.now width strip }
    requires some { 1 ≤ strip.width }
    requires rows { strip.from < strip.bottom }
    requires base { strip.base ≡ None }
    ensures strip { IsStrip layers.now width result }
    ensures cut { IsCut strip result }
    ensures base { result.base ≡ None }
{
    let mut left = strip;
    while left.top > 0 {
        let i = left.top - 1;
        let Some(cut) = cleared(&layers[i], left) else {
            return left;
        };
        left = Strip { top: i, ..cut };
    }
    left
}

/// The strip from the topmost layer on that hides what is below it.
fn based(layers: &[BoundLayer], width: u32, strip: Strip) -> Strip
    requires few { width ≤ MOST_SIDE }
    requires strip { IsStrip layers.now width strip }
    requires some { 1 ≤ strip.width }
    requires rows { strip.from < strip.bottom }
    requires base { strip.base ≡ None }
    ensures strip { IsStrip layers.now width result }
    ensures cut { IsCut strip result }
{
    let mut left = strip;
    let mut i = strip.top;
    while i > 0 {
        i -= 1;
        if let Some(covered) = covered(&layers[i], left) {
            return Strip {
                base: Some(i),
                ..covered
            };
        }
        if let Some(cut) = cleared(&layers[i], left) {
            left = cut;
        }
    }
    left
}

/// The strip, cut so that a layer shows nothing on it, or None where it shows something at its first pixel. At the left
/// side of a layer it is cut only where the layer hides, since else the layers below would be cut there in vain.
#[inline(always)]
fn cleared(layer: &BoundLayer, strip: Strip) -> Option<Strip>
    requires some { 1 ≤ strip.width }
    requires rows { strip.from < strip.bottom }
    requires few { strip.first + strip.width ≤ MOST_SIDE }
    ensures cut { IfSome result (λ s. IsCut strip s) }
    ensures base { IfSome result (λ s. s.base ≡ strip.base) }
    ensures top { IfSome result (λ s. s.top ≡ strip.top) }
    ensures beside { IfSome result (λ s. (y : ℕ) → s.from ≤ y → y < s.bottom → IsBeside layer.now s.first s.width y) }
{
    let columns = layer.columns;
    let rows = layer.rows;
    if columns.start + columns.len <= strip.first {
        return Some(strip);
    }
    if strip.first + strip.width <= columns.start {
        return Some(strip);
    }
    if rows.start + rows.len <= strip.from {
        return Some(strip);
    }
    if strip.from < rows.start {
        return Some(Strip {
            bottom: strip.bottom.min(rows.start),
            ..strip
        });
    }
    if strip.first < columns.start && layer.hides {
        return Some(Strip {
            width: columns.start - strip.first,
            ..strip
        });
    }
    None
}

/// The strip, cut so that a layer hides all that is below it there, or None where it hides nothing at its first pixel.
#[inline(always)]
fn covered(layer: &BoundLayer, strip: Strip) -> Option<Strip>
    requires some { 1 ≤ strip.width }
    requires rows { strip.from < strip.bottom }
    requires few { strip.first + strip.width ≤ MOST_SIDE }
    ensures cut { IfSome result (λ s. IsCut strip s) }
    ensures top { IfSome result (λ s. s.top ≡ strip.top) }
    ensures cover { IfSome result (λ s. (y : ℕ) → s.from ≤ y → y < s.bottom → IsCover layer.now s.first s.width y) }
{
    let columns = layer.columns;
    let rows = layer.rows;
    let end = columns.start + columns.len;
    let bottom = rows.start + rows.len;
    if !layer.hides || strip.first < columns.start || end <= strip.first {
        return None;
    }
    if strip.from < rows.start || bottom <= strip.from {
        return None;
    }
    Some(Strip {
        width: strip.width.min(end - strip.first),
        bottom: strip.bottom.min(bottom),
        ..strip
    })
}
