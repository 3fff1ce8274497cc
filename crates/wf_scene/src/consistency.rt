//! Which layers show the elements of a cached scene, and which rule the first bad one breaks.

ghost use Rattle.std.specs.Prelude.{◌≡◌, ◌+ℤ◌, ◌≤◌, ◌&&◌, pos, int_le, nat_lt, length, map, Some, None, IfOk, if◌then◌else◌};
ghost use Rattle.std.specs.Result.{result_err};
ghost use Rattle.wf_pixel.specs.Choice as choice;
ghost use Rattle.wf_pixel.specs.Place.{size_of};
ghost use Rattle.wf_scene.specs.Layers as layers;
ghost use Rattle.wf_scene.specs.Slots.{IsKept, elements_in, order_in};
ghost use Rattle.wf_scene.specs.Consistent as scene;

use crate::element::Element;
use crate::linked::INSERTED;
use crate::look::{Fault, Look};
use crate::slots::Slots;
use crate::{Layer, MOST_INSERTED};
use arrayvec::ArrayVec;
use wf_pixel::{MOST_SIDE, Rect, Size};

/// Layers from the bottom up.
type Layers = ArrayVec<Layer, MOST_INSERTED>;

/// The layers that show the inserted elements, or the first fault, both from the bottom up.
pub(crate) fn layers_of<L: Look>(look: &L, slots: &Slots) -> Result<Layers, Fault>
    requires kept { IsKept slots.now }
    requires room { length (order_in slots.now) ≤ MOST_INSERTED }
    ensures fault { let inserted = scene.elements_of (order_in slots.now) (elements_in slots.now) in
        result_err result ≡ scene.fault_from (L.sight look.now) 1 inserted }
    ensures layers { let inserted = scene.elements_of (order_in slots.now) (elements_in slots.now) in
        IfOk result (λ made. made.items ≡ map (scene.layer_of (L.sight look.now)) inserted) }
{
    let mut layers = Layers::new();
    let mut next = slots.links.lowest(INSERTED);
    while let Some(slot) = next {
        match layer_of(look, &slots.table[slot as usize]) {
            Ok(layer) => layers.push(layer),
            Err(rule) => {
                return Err(Fault {
                    place: layers.len() as u32 + 1,
                    rule,
                });
            }
        }
        next = slots.links.above(slot);
    }
    Ok(layers)
}

/// The layer that shows an element, or the first rule that the element breaks.
pub(crate) fn layer_of<L: Look>(look: &L, element: &Element) -> Result<Layer, u32>
    ensures { result ≡ scene.shown (L.sight look.now) element.now }
{
    let style = element.style;
    let Some(source) = look.source(element.source) else {
        return Err(1);
    };
    if !holds_rect(source.size, style.src) {
        return Err(2);
    }
    if !has_sides(style.dest) {
        return Err(3);
    }
    let mask = mask_stream(look, element).ok_or(4u32)?;
    Ok(style.layer(source.stream, mask))
}

/// The stream of an element's mask, 0 where no mask applies, or None where its mask is not live or has another size than
/// the destination.
fn mask_stream<L: Look>(look: &L, element: &Element) -> Option<u32>
    ensures { let sight = L.sight look.now in
        result ≡ (if scene.is_covered sight element.now then Some (scene.mask_stream sight element.now) else None) }
{
    if !element.style.transparency.mask {
        return Some(0);
    }
    let mask = look.mask(element.mask)?;
    let dest = element.style.dest;
    if mask.size.w == dest.w && mask.size.h == dest.h {
        Some(mask.stream)
    } else {
        None
    }
}

/// Tells whether `r` has sides of at least 1 and lies inside an image of `size`.
pub fn holds_rect(size: Size, r: Rect) -> bool
    ensures { result ≡ layers.holds_rect size r }
{
    begins_within(r) && ends_within(r.x, r.w, size.w) && ends_within(r.y, r.h, size.h)
}

/// Whether a rectangle has sides of at least 1 and begins at no negative place.
fn begins_within(r: Rect) -> bool
    ensures { result ≡ (nat_lt 0 r.w && nat_lt 0 r.h && int_le (pos 0) r.x && int_le (pos 0) r.y) }
{
    0 < r.w && 0 < r.h && 0 <= r.x && 0 <= r.y
}

/// Whether what begins at a place and is so long ends at a side's end or before it.
fn ends_within(start: i32, len: u32, side: u32) -> bool
    ensures { result ≡ int_le (start +ℤ pos len) (pos side) }
{
    i64::from(start) + i64::from(len) <= i64::from(side)
}

/// Tells whether `r` has sides from 1 to `MOST_SIDE`.
pub fn has_sides(r: Rect) -> bool
    ensures { result ≡ choice.has_sides (size_of r) }
{
    1 <= r.w && r.w <= MOST_SIDE && 1 <= r.h && r.h <= MOST_SIDE
}
