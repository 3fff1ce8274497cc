//! What a pixel is: colours, formats, sizes, rectangles and turns; the arithmetic of colours, and which pixel of a
//! source shows at a point.
#![tactic(auto)]

ghost use Rattle.std.specs.Prelude.{◌≡◌};
ghost use Rattle.wf_pixel.specs.Choice.{is_a8};

mod arithmetic;
mod place;

pub use arithmetic::{lift, mul, over, samp};
pub use place::{along, source_place, turned, turned_back};

/// The most pixels of a side: of an image, a mode, a stream or a destination.
pub const MOST_SIDE: u32 = 1024;

/// The same as the length of a table.
pub const SIDE_LEN: usize = MOST_SIDE as usize;

/// The farthest that a coordinate of a rectangle may lie from 0, to either side; and the longest side that a rectangle may have
/// where no side is asked for.
pub const MOST_COORDINATE: u32 = 16_384;

/// A colour: red, green, blue and alpha, each from 0 to 255.
#[derive(Clone, Copy, Debug, Default, PartialEq, Eq)]
pub struct Rgba {
    pub r: u8,
    pub g: u8,
    pub b: u8,
    pub a: u8,
}

impl Rgba {
    /// Opaque black.
    pub const BLACK: Rgba = Rgba {
        r: 0,
        g: 0,
        b: 0,
        a: 255,
    };
}

/// How the bytes of a pixel are read.
#[derive(Clone, Copy, Debug, PartialEq, Eq)]
pub enum Format {
    /// Four bytes R, G, B, A; the colour is not multiplied by its alpha.
    Rgba8,
    /// Four bytes R, G, B, A; the colour is already multiplied by its alpha.
    Rgba8Pre,
    /// Four bytes R, G, B and one that is not read: alpha counts as 255.
    Rgbx8,
    /// One byte of alpha, for masks.
    A8,
}

impl Format {
    /// Tells whether this is the format of masks.
    pub fn is_a8(self) -> bool
        ensures { result ≡ is_a8 self }
    {
        matches!(self, Format::A8)
    }
}

/// Width and height in pixels.
#[derive(Clone, Copy, Debug, Default, PartialEq, Eq)]
pub struct Size {
    pub w: u32,
    pub h: u32,
}

/// A place and a size, in pixels. The place may lie outside of what it is laid on.
#[derive(Clone, Copy, Debug, Default, PartialEq, Eq)]
pub struct Rect {
    pub x: i32,
    pub y: i32,
    pub w: u32,
    pub h: u32,
}

/// A clockwise turn, in degrees.
#[derive(Clone, Copy, Debug, PartialEq, Eq)]
pub enum Rotation {
    R0,
    R90,
    R180,
    R270,
}

/// Which transparencies apply to a layer: its global alpha, its source's own alpha, its mask.
#[derive(Clone, Copy, Debug, Default, PartialEq, Eq)]
pub struct Transparency {
    pub alpha: bool,
    pub source: bool,
    pub mask: bool,
}
