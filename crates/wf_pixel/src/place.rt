//! Which pixel of a source shows at a point: the point is sampled, turned back, flipped back.

ghost use Rattle.std.specs.Prelude.{◌≡◌, ◌+◌, ◌<◌, ◌≤◌, ◌≤ℤ◌, pos, nat_abs, IfSome};
ghost use Rattle.wf_pixel.specs.Along.{along};
ghost use Rattle.wf_pixel.specs.Place.{turned, turned_back, flipped_back, source_pixel, place, IsDrawn};

use crate::arithmetic::samp;
use crate::{Rect, Rotation, Size};

/// Returns the distance of `point` from the `start` of a side of the length `side`, or None outside of the side.
pub fn along(start: i32, side: u32, point: i32) -> Option<u32>
    ensures value { result ≡ along start side point }
    ensures below { IfSome result (λ distance. distance < side) }
{
    if point < start {
        return None;
    }
    let distance = point.abs_diff(start);
    if distance < side {
        Some(distance)
    } else {
        None
    }
}

/// Returns `size` after `turn`.
pub fn turned(turn: Rotation, size: Size) -> Size
    ensures { result ≡ turned turn size }
{
    match turn {
        Rotation::R90 | Rotation::R270 => Size {
            w: size.h,
            h: size.w,
        },
        _ => size,
    }
}

/// Returns the place in a picture of `size` that `turn` brings to (`x`, `y`), which lies inside of the turned picture.
pub fn turned_back(turn: Rotation, size: Size, x: u32, y: u32) -> (u32, u32)
    requires x { x < (turned turn size).w }
    requires y { y < (turned turn size).h }
    ensures value { result ≡ turned_back turn size x y }
    ensures within_w { result.0 < size.w }
    ensures within_h { result.1 < size.h }
{
    match turn {
        Rotation::R0 => (x, y),
        Rotation::R90 => (y, size.h - 1 - x),
        Rotation::R180 => (size.w - 1 - x, size.h - 1 - y),
        Rotation::R270 => (size.w - 1 - y, x),
    }
}

/// Returns the pixel of a source that shows at the point (`x`, `y`), or None exactly where the point is outside of `dest`. The
/// rectangle `src` of the source is flipped from top to bottom where `flip` is set, then turned by `turn`, then scaled to
/// `dest`, where each point takes the nearest pixel. Sides are from 1 to `MOST_SIDE`, and coordinates at most
/// `MOST_COORDINATE` from 0; those of `src` are not negative.
pub fn source_place(
    src: Rect,
    flip: bool,
    turn: Rotation,
    dest: Rect,
    x: i32,
    y: i32,
) -> Option<(u32, u32)>
    requires src { IsDrawn src }
    requires dest { IsDrawn dest }
    requires src_x { pos 0 ≤ℤ src.x }
    requires src_y { pos 0 ≤ℤ src.y }
    ensures value { result ≡ place src flip turn dest x y }
    ensures within_w { IfSome result (λ p. p.0 < nat_abs src.x + src.w) }
    ensures within_h { IfSome result (λ p. p.1 < nat_abs src.y + src.h) }
{
    let dx = along(dest.x, dest.w, x)?;
    let dy = along(dest.y, dest.h, y)?;
    Some(source_pixel_at(src, flip, turn, dest, dx, dy))
}

/// The pixel of the source at distances from the corner of the destination.
fn source_pixel_at(
    src: Rect,
    flip: bool,
    turn: Rotation,
    dest: Rect,
    dx: u32,
    dy: u32,
) -> (u32, u32)
    requires src { IsDrawn src }
    requires dest { IsDrawn dest }
    requires src_x { pos 0 ≤ℤ src.x }
    requires src_y { pos 0 ≤ℤ src.y }
    requires dx { dx < dest.w }
    requires dy { dy < dest.h }
    ensures value { result ≡ source_pixel src flip turn dest dx dy }
    ensures within_w { result.0 < nat_abs src.x + src.w }
    ensures within_h { result.1 < nat_abs src.y + src.h }
{
    let size = Size { w: src.w, h: src.h };
    let shown = turned(turn, size);
    let x = samp(dx, dest.w, shown.w);
    let y = samp(dy, dest.h, shown.h);
    let (u, v) = turned_back(turn, size, x, y);
    (src.x as u32 + u, src.y as u32 + flip_back(flip, src.h, v))
}

/// The row that a flip of `h` rows brings to row `v`.
fn flip_back(flip: bool, h: u32, v: u32) -> u32
    requires { v < h }
    ensures value { result ≡ (flipped_back flip h (0, v)).1 }
    ensures within { result < h }
{
    if flip { h - 1 - v } else { v }
}
