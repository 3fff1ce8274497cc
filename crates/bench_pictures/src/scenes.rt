//! The scenes whose pictures are timed.

ghost use Rattle.std.specs.Prelude.{◌≡◌, ◌≢◌, ◌≤◌, All, false, max, pos};
ghost use Rattle.bench_pictures.specs.Shown.{IsShown};

use arrayvec::ArrayVec;
use wf_pixel::{Format, MOST_SIDE, Rect, Rotation, Size, Transparency};
use wf_scene::{Layer, MOST_INSERTED};

/// What a scene shows.
#[derive(Clone, Copy, Debug, PartialEq, Eq)]
pub(crate) enum Kind {
    Nothing,
    Opaque,
    Scaled,
    Straight,
    Premultiplied,
    Masked,
    Shadow,
    Quarter,
    Half,
    Windows,
    Translucent,
    Turned,
}

pub(crate) const KINDS: [Kind; 12] = [
    Kind::Nothing,
    Kind::Opaque,
    Kind::Scaled,
    Kind::Straight,
    Kind::Premultiplied,
    Kind::Masked,
    Kind::Shadow,
    Kind::Quarter,
    Kind::Half,
    Kind::Windows,
    Kind::Translucent,
    Kind::Turned,
];

const OPAQUE: Transparency = Transparency {
    alpha: false,
    source: false,
    mask: false,
};

impl Kind {
    /// What stands in the table.
    pub(crate) fn name(self) -> &'static str {
        match self {
            Kind::Nothing => "no layer",
            Kind::Opaque => "one opaque layer",
            Kind::Scaled => "scaled up from five eighths",
            Kind::Straight => "straight alpha and global alpha",
            Kind::Premultiplied => "premultiplied alpha",
            Kind::Masked => "global alpha and a mask",
            Kind::Shadow => "one pixel through a mask",
            Kind::Quarter => "turned by 90",
            Kind::Half => "turned by 180",
            Kind::Windows => "16 overlapping windows",
            Kind::Translucent => "32 translucent layers of half the sides",
            Kind::Turned => "a target that is turned by 90",
        }
    }

    /// The format of the image that the layers show.
    pub(crate) fn format(self) -> Format
        ensures { result ≢ Format.A8 }
    {
        match self {
            Kind::Straight | Kind::Translucent => Format::Rgba8,
            Kind::Premultiplied => Format::Rgba8Pre,
            _ => Format::Rgbx8,
        }
    }

    /// How the picture is turned into the target.
    pub(crate) fn turn(self) -> Rotation {
        match self {
            Kind::Turned => Rotation::R90,
            _ => Rotation::R0,
        }
    }
}

/// The layers of a scene of this size from the bottom up, which show parts of an image as wide and as high as the size's
/// longer side.
pub(crate) fn layers_of(kind: Kind, size: Size) -> ArrayVec<Layer, MOST_INSERTED>
    requires w_low { 8 ≤ size.w }
    requires w_high { size.w ≤ MOST_SIDE }
    requires h_low { 8 ≤ size.h }
    requires h_high { size.h ≤ MOST_SIDE }
    ensures { All (IsShown size (max size.w size.h)) result.items }
{
    let whole = corner(size.w, size.h);
    let turned = corner(size.h, size.w);
    let source = Transparency {
        source: true,
        ..OPAQUE
    };
    let both = Transparency {
        alpha: true,
        ..source
    };
    let mask = Transparency {
        mask: true,
        ..OPAQUE
    };
    let masked = Transparency {
        alpha: true,
        ..mask
    };
    match kind {
        Kind::Nothing => ArrayVec::new(),
        Kind::Opaque => stack(1, size, layer(whole, whole, OPAQUE)),
        Kind::Scaled => stack(
            1,
            size,
            layer(corner(size.w * 5 / 8, size.h * 5 / 8), whole, OPAQUE),
        ),
        Kind::Straight => stack(1, size, layer(whole, whole, both)),
        Kind::Premultiplied => stack(1, size, layer(whole, whole, source)),
        Kind::Masked => stack(1, size, layer(whole, whole, masked)),
        Kind::Shadow => stack(1, size, layer(corner(1, 1), whole, mask)),
        Kind::Quarter => stack(
            1,
            size,
            turn_layer(Rotation::R90, layer(turned, whole, OPAQUE)),
        ),
        Kind::Half => stack(
            1,
            size,
            turn_layer(Rotation::R180, layer(whole, whole, OPAQUE)),
        ),
        Kind::Windows => windows(size),
        Kind::Translucent => panes(size, both),
        Kind::Turned => stack(1, size, layer(turned, turned, OPAQUE)),
    }
}

/// The rectangle of these sides in the corner.
fn corner(w: u32, h: u32) -> Rect
    ensures { result ≡ record { x = pos 0; y = pos 0; w = w; h = h } }
{
    Rect { x: 0, y: 0, w, h }
}

/// A layer that shows a part of the image.
fn layer(src: Rect, dest: Rect, transparency: Transparency) -> Layer
    ensures { result ≡ record {
      stream = 1;
      mask = 2;
      src = src;
      dest = dest;
      flip = false;
      turn = Rotation.R0;
      transparency = transparency;
      alpha = 200;
    } }
{
    Layer {
        stream: 1,
        mask: 2,
        src,
        dest,
        flip: false,
        turn: Rotation::R0,
        transparency,
        alpha: 200,
    }
}

/// The layer, turned.
fn turn_layer(turn: Rotation, layer: Layer) -> Layer
    ensures { result ≡ record layer { turn = turn } }
{
    Layer { turn, ..layer }
}

/// So many layers of one kind, 32 at most.
fn stack(count: u32, size: Size, layer: Layer) -> ArrayVec<Layer, MOST_INSERTED>
    requires { IsShown size (max size.w size.h) layer }
    ensures { All (IsShown size (max size.w size.h)) result.items }
{
    let mut layers = ArrayVec::new();
    for _ in 0..count {
        add(&mut layers, size, layer);
    }
    layers
}

/// Adds a layer where there is room.
fn add(layers: &mut ArrayVec<Layer, MOST_INSERTED>, size: Size, layer: Layer)
    requires layer { IsShown size (max size.w size.h) layer }
    requires layers { All (IsShown size (max size.w size.h)) layers.old.items }
    ensures { All (IsShown size (max size.w size.h)) layers.new.items }
{
    let _ = size;
    if layers.len() < MOST_INSERTED {
        layers.push(layer);
    }
}

/// A wallpaper, and 15 opaque windows of three quarters of the sides over one another.
fn windows(size: Size) -> ArrayVec<Layer, MOST_INSERTED>
    requires w_low { 8 ≤ size.w }
    requires w_high { size.w ≤ MOST_SIDE }
    requires h_low { 8 ≤ size.h }
    requires h_high { size.h ≤ MOST_SIDE }
    ensures { All (IsShown size (max size.w size.h)) result.items }
{
    let whole = corner(size.w, size.h);
    let mut layers = stack(1, size, layer(whole, whole, OPAQUE));
    for i in 1..16u32 {
        let part = corner(size.w * 3 / 4, size.h * 3 / 4);
        let dest = moved(
            part,
            i * 29 % 64 * (size.w / 4) / 64,
            i * 19 % 64 * (size.h / 4) / 64,
        );
        add(&mut layers, size, layer(part, dest, OPAQUE));
    }
    layers
}

/// 32 translucent layers of half the sides.
fn panes(size: Size, transparency: Transparency) -> ArrayVec<Layer, MOST_INSERTED>
    requires w_low { 8 ≤ size.w }
    requires w_high { size.w ≤ MOST_SIDE }
    requires h_low { 8 ≤ size.h }
    requires h_high { size.h ≤ MOST_SIDE }
    requires mask { transparency.mask ≡ false }
    ensures { All (IsShown size (max size.w size.h)) result.items }
{
    let mut layers = ArrayVec::new();
    for i in 0..32u32 {
        let part = corner(size.w / 2, size.h / 2);
        let dest = moved(
            part,
            i * 37 % 64 * (size.w / 2) / 64,
            i * 23 % 64 * (size.h / 2) / 64,
        );
        add(&mut layers, size, layer(part, dest, transparency));
    }
    layers
}

/// A rectangle in the corner, moved.
fn moved(r: Rect, x: u32, y: u32) -> Rect
    requires x { x ≤ MOST_SIDE }
    requires y { y ≤ MOST_SIDE }
    ensures { result ≡ record r { x = pos x; y = pos y } }
{
    Rect {
        x: x as i32,
        y: y as i32,
        ..r
    }
}
