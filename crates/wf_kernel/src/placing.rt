//! Where a layer lies on the target, and which pixel of its source shows at a distance from there.

ghost use Rattle.std.specs.Prelude.{◌≡◌, ◌≢◌, ◌+◌, ◌-◌, ◌*◌, ◌<◌, ◌≤◌, ◌≤ℤ◌, pos, negsuc, nat_abs, true, IsTrue};
ghost use Rattle.wf_pixel.specs.Arithmetic.{samp};
ghost use Rattle.wf_pixel.specs.Choice.{has_sides, least_coordinate, most_coordinate};
ghost use Rattle.wf_pixel.specs.Place.{turned, size_of, IsDrawn};
ghost use Rattle.wf_kernel.specs.Placed.{mirrored, left_on, top_on, turned_rect, flipped, left_of, top_of, across, down, is_quarter};
ghost use Rattle.wf_kernel.specs.Placed.{is_crossed, is_backward};
ghost use Rattle.wf_kernel.specs.Prepared.{IsWalk, needs_table};

use crate::FARTHEST;
use wf_pixel::{MOST_SIDE, Rect, Rotation, Size, samp, turned};
use wf_scene::Layer;

/// How the columns of the target go over the source.
#[derive(Clone, Copy, Debug, PartialEq, Eq)]
pub(crate) enum Walk {
    /// Along a row of it, a pixel to the right at each column.
    Forward,
    /// The same, to the left.
    Backward,
    /// By a table that has the source's coordinate for each column.
    Table,
}

/// A rectangle of a space, turned with the space into the target.
pub(crate) fn turned_rect(turn: Rotation, space: Size, r: Rect) -> Rect
    requires sides { IsTrue (has_sides space) }
    requires r { IsDrawn r }
    ensures value { result ≡ turned_rect turn space r }
    ensures w { result.w ≤ MOST_SIDE }
    ensures h { result.h ≤ MOST_SIDE }
    ensures x_low { negsuc (FARTHEST - 1) ≤ℤ result.x }
    ensures x_high { result.x ≤ℤ pos FARTHEST }
    ensures y_low { negsuc (FARTHEST - 1) ≤ℤ result.y }
    ensures y_high { result.y ≤ℤ pos FARTHEST }
{
    let size = turned(turn, Size { w: r.w, h: r.h });
    Rect {
        x: left_on(turn, space, r),
        y: top_on(turn, space, r),
        w: size.w,
        h: size.h,
    }
}

/// Where a rectangle of a space begins on the target from the left.
fn left_on(turn: Rotation, space: Size, r: Rect) -> i32
    requires sides { IsTrue (has_sides space) }
    requires r { IsDrawn r }
    ensures value { result ≡ left_on turn space r }
    ensures low { negsuc (FARTHEST - 1) ≤ℤ result }
    ensures high { result ≤ℤ pos FARTHEST }
{
    match turn {
        Rotation::R0 => r.x,
        Rotation::R90 => mirrored(space.h, r.y, r.h),
        Rotation::R180 => mirrored(space.w, r.x, r.w),
        Rotation::R270 => r.y,
    }
}

/// The same from the top.
fn top_on(turn: Rotation, space: Size, r: Rect) -> i32
    requires sides { IsTrue (has_sides space) }
    requires r { IsDrawn r }
    ensures value { result ≡ top_on turn space r }
    ensures low { negsuc (FARTHEST - 1) ≤ℤ result }
    ensures high { result ≤ℤ pos FARTHEST }
{
    match turn {
        Rotation::R0 => r.y,
        Rotation::R90 => r.x,
        Rotation::R180 => mirrored(space.h, r.y, r.h),
        Rotation::R270 => mirrored(space.w, r.x, r.w),
    }
}

/// Where a side of `w` pixels from `x` on begins, counted from the other end of `n` pixels.
fn mirrored(n: u32, x: i32, w: u32) -> i32
    requires n { n ≤ MOST_SIDE }
    requires w { w ≤ MOST_SIDE }
    requires low { least_coordinate ≤ℤ x }
    requires high { x ≤ℤ most_coordinate }
    ensures value { result ≡ mirrored n x w }
    ensures result_low { negsuc (FARTHEST - 1) ≤ℤ result }
    ensures result_high { result ≤ℤ pos FARTHEST }
{
    n as i32 - (x + w as i32)
}

/// The coordinate of the source's pixel that the distance from the left side of the destination determines.
fn left_of(layer: &Layer, dx: u32) -> u32
    requires src { IsDrawn layer.now.src }
    requires dest { IsDrawn layer.now.dest }
    requires x { pos 0 ≤ℤ layer.now.src.x }
    requires y { pos 0 ≤ℤ layer.now.src.y }
    requires dx { dx < layer.now.dest.w }
    ensures value { result ≡ left_of layer.now dx }
    ensures below { result < 65536 }
{
    let (src, w) = (layer.src, layer.dest.w);
    match layer.turn {
        Rotation::R0 => src.x as u32 + place_in(dx, w, src.w),
        Rotation::R90 => src.y as u32
            + flipped(layer.flip, src.h, src.h - 1 - place_in(dx, w, src.h)),
        Rotation::R180 => src.x as u32 + (src.w - 1 - place_in(dx, w, src.w)),
        Rotation::R270 => src.y as u32 + flipped(layer.flip, src.h, place_in(dx, w, src.h)),
    }
}

/// The other coordinate, which the distance from the top of the destination determines. Most layers are not turned, and each
/// piece of a row asks for it, so that case stands where it is asked.
#[inline(always)]
fn top_of(layer: &Layer, dy: u32) -> u32
    requires src { IsDrawn layer.now.src }
    requires dest { IsDrawn layer.now.dest }
    requires x { pos 0 ≤ℤ layer.now.src.x }
    requires y { pos 0 ≤ℤ layer.now.src.y }
    requires dy { dy < layer.now.dest.h }
    ensures value { result ≡ top_of layer.now dy }
    ensures below { result < 65536 }
{
    match layer.turn {
        Rotation::R0 => {
            let src = layer.src;
            src.y as u32 + flipped(layer.flip, src.h, place_in(dy, layer.dest.h, src.h))
        }
        _ => top_of_turned(layer, dy),
    }
}

/// The same of a layer that is turned.
#[inline(never)]
fn top_of_turned(layer: &Layer, dy: u32) -> u32
    requires turned { layer.now.turn ≢ Rotation.R0 }
    requires src { IsDrawn layer.now.src }
    requires dest { IsDrawn layer.now.dest }
    requires x { pos 0 ≤ℤ layer.now.src.x }
    requires y { pos 0 ≤ℤ layer.now.src.y }
    requires dy { dy < layer.now.dest.h }
    ensures value { result ≡ top_of layer.now dy }
    ensures below { result < 65536 }
{
    let (src, h) = (layer.src, layer.dest.h);
    match layer.turn {
        Rotation::R0 => unreachable!(),
        Rotation::R90 => src.x as u32 + place_in(dy, h, src.w),
        Rotation::R180 => src.y as u32
            + flipped(layer.flip, src.h, src.h - 1 - place_in(dy, h, src.h)),
        Rotation::R270 => src.x as u32 + (src.w - 1 - place_in(dy, h, src.w)),
    }
}

/// A row of a source of `h` rows, which may be flipped.
fn flipped(flip: bool, h: u32, v: u32) -> u32
    requires { v < h }
    ensures value { result ≡ flipped flip h v }
    ensures below { result < h }
{
    if flip { h - 1 - v } else { v }
}

/// The place in `s` pixels at which the middle of pixel `i` of `w` lies: no division where nothing is scaled.
#[tactic(auto, using(crate::proofs::Placed::samp_same))]
fn place_in(i: u32, w: u32, s: u32) -> u32
    requires i { i < w }
    requires w { w ≤ MOST_SIDE }
    requires s_low { 1 ≤ s }
    requires s_high { s ≤ MOST_SIDE }
    ensures value { result ≡ samp i w s }
    ensures below { result < s }
{
    if s == w {
        return i;
    }
    samp(i, w, s)
}

/// The coordinate of the source's pixel that the distance from a layer's left side on the target determines.
pub(crate) fn across(turn: Rotation, layer: &Layer, a: u32) -> u32
    requires src { IsDrawn layer.now.src }
    requires dest { IsDrawn layer.now.dest }
    requires x { pos 0 ≤ℤ layer.now.src.x }
    requires y { pos 0 ≤ℤ layer.now.src.y }
    requires a { a < (turned turn (size_of layer.now.dest)).w }
    ensures value { result ≡ across turn layer.now a }
    ensures below { result < 65536 }
{
    match turn {
        Rotation::R0 => left_of(layer, a),
        Rotation::R90 => top_of(layer, layer.dest.h - 1 - a),
        Rotation::R180 => left_of(layer, layer.dest.w - 1 - a),
        Rotation::R270 => top_of(layer, a),
    }
}

/// The other coordinate, which the distance from the layer's top on the target determines.
#[inline(always)]
pub(crate) fn down(turn: Rotation, layer: &Layer, d: u32) -> u32
    requires src { IsDrawn layer.now.src }
    requires dest { IsDrawn layer.now.dest }
    requires x { pos 0 ≤ℤ layer.now.src.x }
    requires y { pos 0 ≤ℤ layer.now.src.y }
    requires d { d < (turned turn (size_of layer.now.dest)).h }
    ensures value { result ≡ down turn layer.now d }
    ensures below { result < 65536 }
{
    match turn {
        Rotation::R0 => top_of(layer, d),
        Rotation::R90 => left_of(layer, d),
        Rotation::R180 => top_of(layer, layer.dest.h - 1 - d),
        Rotation::R270 => left_of(layer, layer.dest.w - 1 - d),
    }
}

/// Whether a turn is by a quarter, this way or the other.
fn is_quarter(turn: Rotation) -> bool
    ensures { result ≡ is_quarter turn }
{
    match turn {
        Rotation::R90 | Rotation::R270 => true,
        _ => false,
    }
}

/// Whether the columns of the target go along the rows of the source.
pub(crate) fn is_crossed(turn: Rotation, layer: &Layer) -> bool
    ensures { result ≡ is_crossed turn layer.now }
{
    is_quarter(turn) != is_quarter(layer.turn)
}

/// Whether a source's columns cannot be taken one after the other.
pub(crate) fn needs_table(turn: Rotation, layer: &Layer) -> bool
    ensures { result ≡ needs_table turn layer.now }
{
    let dest = layer.dest;
    is_crossed(turn, layer)
        || layer.src.w
            != turned(
                turn,
                Size {
                    w: dest.w,
                    h: dest.h,
                },
            )
            .w
}

/// How the columns of the target go over a layer's source.
pub(crate) fn walk_of(turn: Rotation, layer: &Layer) -> Walk
    requires src { IsDrawn layer.now.src }
    requires dest { IsDrawn layer.now.dest }
    ensures walk { IsWalk turn layer.now result }
    ensures table { result ≡ Walk.Table → needs_table turn layer.now ≡ true }
{
    if needs_table(turn, layer) {
        return Walk::Table;
    }
    if is_backward(turn, layer.turn) {
        Walk::Backward
    } else {
        Walk::Forward
    }
}

/// Whether a layer that is not crossed shows the columns of its source from the last to the first.
fn is_backward(turn: Rotation, layer_turn: Rotation) -> bool
    ensures { result ≡ is_backward turn layer_turn }
{
    match turn {
        Rotation::R0 => layer_turn == Rotation::R180,
        Rotation::R90 => layer_turn == Rotation::R90,
        Rotation::R180 => layer_turn == Rotation::R0,
        Rotation::R270 => layer_turn == Rotation::R270,
    }
}
