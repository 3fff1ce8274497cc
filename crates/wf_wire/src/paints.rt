//! The paints of messages.

ghost use Rattle.std.specs.Prelude.{◌≡◌, ◌<◌, nat_le, IsTrue};
ghost use Rattle.wf_pixel.specs.Choice.{is_coordinate, most_extent};
ghost use Rattle.wf_image.specs.Paints.{is_paint};
ghost use Rattle.wf_wire.specs.Paints.{channel_at, checker, color_at, coordinate_at, extent_at, fill, ramp, rectangle, square_at};

use crate::bits::{bit_at, number_at};
use wf_image::Paint;
use wf_pixel::{MOST_COORDINATE, MOST_SIDE, Rect, Rgba};

/// Returns the channel at a place of `bits`: the lowest 8 bits of it.
fn channel_at(bits: &[u64], place: usize) -> u8
    ensures { result ≡ channel_at bits.now place }
{
    (bit_at(bits, place) % 256) as u8
}

/// Returns the colour of the four channels from a place on.
fn color_at(bits: &[u64], place: usize) -> Rgba
    requires { place < 8 }
    ensures { result ≡ color_at bits.now place }
{
    Rgba {
        r: channel_at(bits, place),
        g: channel_at(bits, place + 1),
        b: channel_at(bits, place + 2),
        a: channel_at(bits, place + 3),
    }
}

/// Returns the coordinate at a place, or the end of the range that is next to it.
fn coordinate_at(bits: &[u64], place: usize) -> i32
    ensures coordinate { result ≡ coordinate_at bits.now place }
    ensures range { IsTrue (is_coordinate result) }
{
    let most = i64::from(MOST_COORDINATE);
    number_at(bits, place).clamp(-most, most) as i32
}

/// Returns the side of a rectangle at a place, or the longest.
fn extent_at(bits: &[u64], place: usize) -> u32
    ensures extent { result ≡ extent_at bits.now place }
    ensures range { IsTrue (nat_le result most_extent) }
{
    bit_at(bits, place).min(u64::from(MOST_COORDINATE)) as u32
}

/// Returns the side of a square at a place, or the end of the range that is next to it.
fn square_at(bits: &[u64], place: usize) -> u32
    ensures square { result ≡ square_at bits.now place }
    ensures least { IsTrue (nat_le 1 result) }
    ensures most { IsTrue (nat_le result MOST_SIDE) }
{
    bit_at(bits, place).clamp(1, u64::from(MOST_SIDE)) as u32
}

/// Returns the paint of a colour.
pub(crate) fn fill(bits: &[u64]) -> Paint
    ensures paint { result ≡ fill bits.now }
    ensures may { IsTrue (is_paint result) }
{
    Paint::Fill {
        color: color_at(bits, 0),
    }
}

/// Returns the paint of a rectangle.
pub(crate) fn rectangle(bits: &[u64]) -> Paint
    ensures paint { result ≡ rectangle bits.now }
    ensures may { IsTrue (is_paint result) }
{
    let area = Rect {
        x: coordinate_at(bits, 0),
        y: coordinate_at(bits, 1),
        w: extent_at(bits, 2),
        h: extent_at(bits, 3),
    };
    Paint::Rectangle {
        area,
        color: color_at(bits, 4),
    }
}

/// Returns the paint of squares of two colours.
pub(crate) fn checker(bits: &[u64]) -> Paint
    ensures paint { result ≡ checker bits.now }
    ensures may { IsTrue (is_paint result) }
{
    Paint::Checker {
        n: square_at(bits, 0),
        first: color_at(bits, 1),
        second: color_at(bits, 5),
    }
}

/// Returns the paint that goes from one colour to another.
pub(crate) fn ramp(bits: &[u64]) -> Paint
    ensures paint { result ≡ ramp bits.now }
    ensures may { IsTrue (is_paint result) }
{
    Paint::Ramp {
        first: color_at(bits, 0),
        second: color_at(bits, 4),
    }
}
