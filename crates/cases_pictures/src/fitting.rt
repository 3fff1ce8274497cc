//! Whether scene and images fit, tested as the tests run: so a table of scenes needs no proof of its own.

ghost use Rattle.std.specs.Prelude.{◌≢◌, ◌≡◌, ◌+ℤ◌, pos, int_le, nat_lt, IfSome, IsTrue};
ghost use Rattle.std.specs.Option.{option_copied};
ghost use Rattle.wf_pixel.specs.Choice.{is_side};
ghost use Rattle.wf_pixel.specs.Place.{size_of, IsDrawn};
ghost use Rattle.wf_scene.specs.Layers.{holds_rect};
ghost use Rattle.wf_model.specs.Picture.{Fits, LayerFits};

use wf_image::{Contents, Image};
use wf_pixel::{Format, MOST_COORDINATE, MOST_SIDE, Rect, Size};
use wf_scene::{Layer, Scene};

/// Whether there is a picture of the scene with these images.
pub(crate) fn fits(scene: &Scene, contents: &Contents) -> bool
    ensures { IsTrue result → Fits scene.now contents.now }
{
    if !is_side(scene.size.w) || !is_side(scene.size.h) {
        return false;
    }
    for layer in scene.layers.as_slice() {
        if !layer_fits(layer, contents) {
            return false;
        }
    }
    true
}

fn layer_fits(layer: &Layer, contents: &Contents) -> bool
    ensures { IsTrue result → LayerFits contents.now layer.now }
{
    is_drawn(layer.src)
        && is_drawn(layer.dest)
        && layer.src.x >= 0
        && layer.src.y >= 0
        && source_fits(contents.find(layer.stream), layer.src)
        && (!layer.transparency.mask || mask_fits(contents.find(layer.mask), layer.dest))
}

fn source_fits(source: Option<&Image>, src: Rect) -> bool
    ensures { IsTrue result → IfSome (option_copied source.entry) (λ i. (i.format ≢ Format.A8) × IsTrue (holds_rect i.size src)) }
{
    match source {
        Some(image) => image.format() != Format::A8 && holds(image.size(), src),
        None => true,
    }
}

fn mask_fits(mask: Option<&Image>, dest: Rect) -> bool
    ensures { IsTrue result → IfSome (option_copied mask.entry) (λ i. (i.format ≡ Format.A8) × (i.size ≡ size_of dest)) }
{
    match mask {
        Some(image) => {
            let size = image.size();
            image.format() == Format::A8 && size.w == dest.w && size.h == dest.h
        }
        None => true,
    }
}

/// Whether a rectangle lies inside of a size.
fn holds(size: Size, r: Rect) -> bool
    ensures { IsTrue result → IsTrue (holds_rect size r) }
{
    lies_within(r.x, r.w, size.w) && lies_within(r.y, r.h, size.h)
}

/// Whether a side of at least 1 lies inside of a longer one.
fn lies_within(start: i32, side: u32, len: u32) -> bool
    ensures some { IsTrue result → IsTrue (nat_lt 0 side) }
    ensures low { IsTrue result → IsTrue (int_le (pos 0) start) }
    ensures high { IsTrue result → IsTrue (int_le (start +ℤ pos side) (pos len)) }
{
    if start < 0 || side == 0 {
        return false;
    }
    u64::from(start as u32) + u64::from(side) <= u64::from(len)
}

fn is_drawn(r: Rect) -> bool
    ensures { IsTrue result → IsDrawn r }
{
    is_side(r.w)
        && is_side(r.h)
        && r.x.unsigned_abs() <= MOST_COORDINATE
        && r.y.unsigned_abs() <= MOST_COORDINATE
}

fn is_side(n: u32) -> bool
    ensures { IsTrue result → IsTrue (is_side n) }
{
    1 <= n && n <= MOST_SIDE
}
