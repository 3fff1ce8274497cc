//! The five paints.

ghost use Rattle.std.specs.Prelude.{◌≡◌};

use std::marker::Model;
use wf_pixel::{Rect, Rgba};

/// The pixels of a row, from the left.
#[derive(Drop)]
pub struct Pixels {
    pixels: Vec<Rgba>,
}

impl Model for Pixels {
    ghost use Rattle.std.specs.Prelude.{List};
    ghost use Rattle.wf_pixel.specs.declared.Rgba.{Rgba};

    ghost Value = { List Rgba };

    ghost view = { λ p. p.pixels.items };
}

impl Pixels {
    /// Takes `pixels` as they are. Nothing is copied.
    pub fn new(pixels: Vec<Rgba>) -> Pixels
        ensures { result ≡ pixels.items }
    {
        Pixels { pixels }
    }

    /// Returns the pixels, from the left.
    pub fn as_slice(&self) -> &[Rgba]
        ensures { result.now ≡ self.now }
    {
        &self.pixels
    }
}

/// What is painted. What lies outside of the image is dropped, and pixels that a paint does not name stay. An image
/// of masks keeps the alpha of a colour alone.
#[derive(Drop)]
pub enum Paint {
    /// Every pixel.
    Fill { color: Rgba },
    /// The pixels of a rectangle.
    Rectangle { area: Rect, color: Rgba },
    /// Squares of `n` by `n` pixels in turn, the first colour at the top left.
    Checker { n: u32, first: Rgba, second: Rgba },
    /// From the first colour at the left to the second at the right, each channel rounded down.
    Ramp { first: Rgba, second: Rgba },
    /// The pixels of row `y`, from the left.
    Row { y: u32, pixels: Pixels },
}
