//! Numbers without a pattern, the same in each run.

ghost use Rattle.std.specs.Prelude.{◌≢◌, ◌<◌, ◌≤◌};

use wf_pixel::{Format, Rgba, Rotation};

/// Where the numbers stand.
#[derive(Drop)]
pub(crate) struct Dice {
    state: u32,
}

impl Dice {
    pub(crate) fn new() -> Dice {
        Dice { state: 20261128 }
    }

    /// The next number.
    pub(crate) fn next(&mut self) -> u32 {
        let mut x = self.state;
        x ^= x << 13;
        x ^= x >> 17;
        x ^= x << 5;
        self.state = x;
        x
    }

    /// A number below this one.
    pub(crate) fn below(&mut self, n: u32) -> u32
        requires { 1 ≤ n }
        ensures { result < n }
    {
        (self.next() >> 3) % n
    }

    /// Whether one of so many chances came.
    pub(crate) fn one_in(&mut self, n: u32) -> bool
        requires { 1 ≤ n }
    {
        self.below(n) == 0
    }

    /// A byte, often one of the first and the last ones.
    pub(crate) fn byte(&mut self) -> u8 {
        match self.below(8) {
            0 => 0,
            1 => 255,
            2 => 254,
            3 => 1,
            _ => (self.below(256)) as u8,
        }
    }

    pub(crate) fn color(&mut self) -> Rgba {
        Rgba {
            r: self.byte(),
            g: self.byte(),
            b: self.byte(),
            a: self.byte(),
        }
    }

    pub(crate) fn turn(&mut self) -> Rotation {
        match self.below(4) {
            0 => Rotation::R0,
            1 => Rotation::R90,
            2 => Rotation::R180,
            _ => Rotation::R270,
        }
    }

    /// A format of four bytes a pixel.
    pub(crate) fn format(&mut self) -> Format
        ensures { result ≢ Format.A8 }
    {
        match self.below(3) {
            0 => Format::Rgba8,
            1 => Format::Rgba8Pre,
            _ => Format::Rgbx8,
        }
    }
}
