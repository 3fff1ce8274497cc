//! Whether scenes and layers are equal.

ghost use Rattle.std.specs.Prelude.{◌≡◌, IsTrue};
ghost use Rattle.wf_kernel.specs.Placed.{same_turn};
ghost use Rattle.wf_damage.specs.Areas.{same_bitmap, same_colour, same_frame, same_layer, same_rect, same_transparency};

use wf_image::Image;
use wf_pixel::{Format, Rect, Rgba, Rotation, Transparency};
use wf_scene::{Layer, Scene};

/// Returns whether size, turn and background of `old` and `new` are equal.
pub(crate) fn same_frame(old: &Scene, new: &Scene) -> bool
    ensures { result ≡ same_frame old.now new.now }
{
    old.size.w == new.size.w
        && old.size.h == new.size.h
        && same_turn(old.turn, new.turn)
        && same_colour(old.background, new.background)
}

/// Returns whether `l` and `m` are equal.
pub(crate) fn same_layer(l: &Layer, m: &Layer) -> bool
    ensures { result ≡ same_layer l.now m.now }
{
    l.stream == m.stream
        && l.mask == m.mask
        && same_rect(l.src, m.src)
        && same_rect(l.dest, m.dest)
        && l.flip == m.flip
        && same_turn(l.turn, m.turn)
        && same_transparency(l.transparency, m.transparency)
        && l.alpha == m.alpha
}

/// Returns whether `a` and `b` are equal: it stops at the first difference.
pub(crate) fn same_image(a: &Image, b: &Image) -> bool
    ensures { result ≡ same_bitmap a.now b.now }
{
    a.size() == b.size() && a.format() == b.format() && a.bytes() == b.bytes()
}

/// Returns whether `f` and `g` are equal.
pub(crate) fn same_format(f: Format, g: Format) -> bool
    ensures { IsTrue result → f ≡ g }
{
    f == g
}

/// Returns whether `c` and `d` are equal.
fn same_colour(c: Rgba, d: Rgba) -> bool
    ensures { result ≡ same_colour c d }
{
    c.r == d.r && c.g == d.g && c.b == d.b && c.a == d.a
}

/// Returns whether `r` and `s` are equal.
fn same_rect(r: Rect, s: Rect) -> bool
    ensures { result ≡ same_rect r s }
{
    r.x == s.x && r.y == s.y && r.w == s.w && r.h == s.h
}

/// Returns whether `t` and `u` are equal.
fn same_turn(t: Rotation, u: Rotation) -> bool
    ensures { result ≡ same_turn t u }
{
    match (t, u) {
        (Rotation::R0, Rotation::R0) => true,
        (Rotation::R90, Rotation::R90) => true,
        (Rotation::R180, Rotation::R180) => true,
        (Rotation::R270, Rotation::R270) => true,
        _ => false,
    }
}

/// Returns whether `t` and `u` are equal.
fn same_transparency(t: Transparency, u: Transparency) -> bool
    ensures { result ≡ same_transparency t u }
{
    t.alpha == u.alpha && t.source == u.source && t.mask == u.mask
}
