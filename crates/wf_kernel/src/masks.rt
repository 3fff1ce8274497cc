//! The values of a layer's mask on a stretch of the target, one after the other.

ghost use Rattle.std.specs.Prelude.{◌≡◌, ◌+◌, ◌*◌, ◌<◌, ◌≤◌, ℕ, length, slice_index};
ghost use Rattle.std.specs.Simd.Lanes.{chunk};
ghost use Rattle.wf_pixel.specs.Place.{turned_back, size_of};
ghost use Rattle.wf_image.specs.Bitmap.{pixel};
ghost use Rattle.wf_kernel.specs.Placed.{mask_value};
ghost use Rattle.wf_kernel.specs.Laid.{IsStretch};

use crate::bound::BoundLayer;
use crate::stretch::Stretch;
use wf_image::Image;
use wf_pixel::{Format, Rotation, Size, turned_back};

/// The values of a mask on a target that is not turned: a part of one of its rows.
pub(crate) fn straight_values<'a>(layer: &BoundLayer, mask: &'a Image, stretch: Stretch) -> &'a [u8]
    requires turn { layer.now.turn ≡ Rotation.R0 }
    requires values { mask.now.format ≡ Format.A8 }
    requires size { mask.now.size ≡ size_of layer.now.layer.dest }
    requires stretch { IsStretch layer.now stretch }
    ensures len { length result.now ≡ stretch.len }
    ensures value { (i : ℕ) → i < stretch.len → slice_index result.now i ≡ mask_value layer.now mask.now (stretch.across + i) stretch.down }
{
    let _ = layer;
    let size = mask.size();
    let at = stretch.down as usize * size.w as usize + stretch.across as usize;
    &mask.bytes()[at..at + stretch.len as usize]
}

/// Writes the values of a mask.
pub(crate) fn fill_values(values: &mut [u8], layer: &BoundLayer, mask: &Image, stretch: Stretch)
    requires count { length values.old ≡ stretch.len }
    requires values { mask.now.format ≡ Format.A8 }
    requires size { mask.now.size ≡ size_of layer.now.layer.dest }
    requires stretch { IsStretch layer.now stretch }
    ensures len { length values.new ≡ stretch.len }
    ensures value { (i : ℕ) → i < stretch.len → slice_index values.new i ≡ mask_value layer.now mask.now (stretch.across + i) stretch.down }
{
    let turn = layer.turn;
    let dest = Size {
        w: layer.layer.dest.w,
        h: layer.layer.dest.h,
    };
    for i in 0..stretch.len {
        let (x, y) = turned_back(turn, dest, stretch.across + i, stretch.down);
        values[i as usize] = value_at(mask, x, y);
    }
}

/// The value of a mask at (x, y).
fn value_at(mask: &Image, x: u32, y: u32) -> u8
    requires values { mask.now.format ≡ Format.A8 }
    requires x { x < mask.now.size.w }
    requires y { y < mask.now.size.h }
    ensures { result ≡ (pixel mask.now x y).a }
{
    let size = mask.size();
    mask.bytes()[y as usize * size.w as usize + x as usize]
}
