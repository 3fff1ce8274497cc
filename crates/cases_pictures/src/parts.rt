//! Parts of pictures, which are painted over an image on which something else stood.

ghost use Rattle.std.specs.Prelude.{◌≤◌};

use crate::dice::Dice;
use crate::plain::first_byte;
use wf_pixel::{MOST_SIDE, Rect, Size, along, turned, turned_back};
use wf_scene::Scene;

/// What stood in each byte of the image.
pub(crate) const BEFORE: u8 = 55;

/// A rectangle that is inside, across an edge or outside of a space, and empty at times.
pub(crate) fn area(dice: &mut Dice, space: Size) -> Rect
    requires w { space.w ≤ MOST_SIDE }
    requires h { space.h ≤ MOST_SIDE }
{
    Rect {
        x: dice.below(2 * space.w + 1) as i32 - space.w as i32 / 2,
        y: dice.below(2 * space.h + 1) as i32 - space.h as i32 / 2,
        w: dice.below(space.w + 8),
        h: dice.below(space.h + 8),
    }
}

/// How many pixels of `got` are neither, inside `area` of the scene's space, those of the picture `want`, nor elsewhere as they were.
pub(crate) fn differing(scene: &Scene, area: Rect, want: &[u8], got: &[u8]) -> u64
    requires w { scene.now.size.w ≤ MOST_SIDE }
    requires h { scene.now.size.h ≤ MOST_SIDE }
{
    let space = turned(scene.turn, scene.size);
    let mut count = 0u64;
    for y in 0..scene.size.h {
        for x in 0..scene.size.w {
            let (u, v) = turned_back(scene.turn, space, x, y);
            let inside = along(area.x, area.w, u as i32).is_some()
                && along(area.y, area.h, v as i32).is_some();
            if !is_right(inside, want, got, scene.size.w, x, y) {
                count = count.wrapping_add(1);
            }
        }
    }
    count
}

/// Whether the pixel at (x, y) of `got` is the one of `want` where it is `inside`, and else as it was.
fn is_right(inside: bool, want: &[u8], got: &[u8], w: u32, x: u32, y: u32) -> bool {
    match (four(want, w, x, y), four(got, w, x, y)) {
        (Some(a), Some(b)) => {
            if inside {
                a == b
            } else {
                b == [BEFORE; 4].as_slice()
            }
        }
        _ => false,
    }
}

/// The four bytes of the pixel at (x, y) of rows of `w` pixels.
fn four(bytes: &[u8], w: u32, x: u32, y: u32) -> Option<&[u8]> {
    bytes.get(first_byte(w, x, y)?..)?.get(..4)
}
