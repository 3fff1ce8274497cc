//! Finds where the pictures of two frames may differ.

ghost use Rattle.std.specs.Prelude.{◌≡◌, ◌+◌, ◌≤◌, ◌<◌, ◌++◌, ℕ, All, false, length, drop, take};
ghost use Rattle.wf_kernel.specs.Parts.{covers_at};
ghost use Rattle.wf_model.specs.Picture.{picture_pixel};
ghost use Rattle.wf_damage.specs.Areas.{is_still, areas_between, areas_of, whole_of};
ghost use Rattle.wf_damage.specs.Compared.{AreCompared};

use crate::comparing::{Compared, is_same};
use crate::equal::{same_frame, same_layer};
use arrayvec::ArrayVec;
use wf_image::Contents;
use wf_pixel::{Rect, turned};
use wf_scene::{Layer, MOST_INSERTED, Scene};

/// The most areas of two frames: two for each place of the layers.
pub const MOST_AREAS: usize = 2 * MOST_INSERTED;

/// Returns the rectangles, in the space where scenes are composed, in which the picture of `new` with the images of `now` may differ
/// from that of `old` with the images of `before`. It is the whole space where size, turn or background differ. Else each place of the
/// layers, from the bottom up, gives the destination of its old layer and that of its new one, where there are such, but nothing where
/// both are there and show the same. Outside of all of them both pictures have the same pixels.
pub fn areas(
    old: &Scene,
    before: &Contents,
    new: &Scene,
    now: &Contents,
) -> ArrayVec<Rect, MOST_AREAS>
    ensures areas { result.items ≡ areas_of old.now before.now new.now now.now }
    ensures outside { (x y : ℕ) → x < new.now.size.w → y < new.now.size.h → All (λ area. covers_at new.now area x y ≡ false) result.items
        → picture_pixel old.now before.now x y ≡ picture_pixel new.now now.now x y }
{
    areas_by(&mut Compared::new(), old, before, new, now)
}

/// Returns the same, and notes which images it compared.
pub(crate) fn areas_by(
    compared: &mut Compared,
    old: &Scene,
    before: &Contents,
    new: &Scene,
    now: &Contents,
) -> ArrayVec<Rect, MOST_AREAS>
    requires compared { AreCompared before.now now.now compared.old }
    ensures areas { result.items ≡ areas_of old.now before.now new.now now.now }
    ensures compared { AreCompared before.now now.now compared.new }
{
    let mut list = ArrayVec::new();
    if !same_frame(old, new) {
        list.push(whole_of(new));
        return list;
    }
    let a = old.layers.as_slice();
    let b = new.layers.as_slice();
    for i in 0..a.len().max(b.len()) {
        add_place(&mut list, compared, a, before, b, now, i);
    }
    list
}

/// Adds to `list` what place `i` gives.
fn add_place(
    list: &mut ArrayVec<Rect, MOST_AREAS>,
    compared: &mut Compared,
    a: &[Layer],
    before: &Contents,
    b: &[Layer],
    now: &Contents,
    i: usize,
)
    requires room { length list.old.items + 2 ≤ MOST_AREAS }
    requires compared { AreCompared before.now now.now compared.old }
    ensures list { list.new.items ≡ list.old.items ++ areas_between before.now now.now (take 1 (drop i a.now)) (take 1 (drop i b.now)) }
    ensures compared { AreCompared before.now now.now compared.new }
{
    if i < a.len() && i < b.len() {
        if !is_still(compared, before, now, &a[i], &b[i]) {
            list.push(a[i].dest);
            list.push(b[i].dest);
        }
    } else if i < a.len() {
        list.push(a[i].dest);
    } else if i < b.len() {
        list.push(b[i].dest);
    }
}

/// Returns the whole space in which `scene` is composed.
pub(crate) fn whole_of(scene: &Scene) -> Rect
    ensures { result ≡ whole_of scene.now }
{
    let space = turned(scene.turn, scene.size);
    Rect {
        x: 0,
        y: 0,
        w: space.w,
        h: space.h,
    }
}

/// Returns whether `l` shows before the same as `m` now. The images of a layer that moved are not compared.
fn is_still(
    compared: &mut Compared,
    before: &Contents,
    now: &Contents,
    l: &Layer,
    m: &Layer,
) -> bool
    requires compared { AreCompared before.now now.now compared.old }
    ensures still { result ≡ is_still before.now now.now l.now m.now }
    ensures compared { AreCompared before.now now.now compared.new }
{
    same_layer(l, m)
        && is_same(compared, before, now, l.stream)
        && (!l.transparency.mask || is_same(compared, before, now, l.mask))
}
