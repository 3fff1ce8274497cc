//! What the numbers of a call stand for, and the numbers that answer a question for an attribute. A number outside its
//! range stands for nothing.

ghost use Rattle.std.specs.Prelude.{◌≡◌, pos, length};
ghost use Rattle.wf_scene.specs.Values as number;

use crate::style::Filter;
use wf_pixel::{MOST_COORDINATE, Rect, Rgba, Rotation, Transparency};

/// Returns the rectangle of x, y, w and h in `value`, where each is in its range.
pub fn rect_of(value: [i64; 4]) -> Option<Rect>
    ensures { result ≡ number.rect_of value }
{
    Some(Rect {
        x: coordinate_of(value[0])?,
        y: coordinate_of(value[1])?,
        w: extent_of(value[2])?,
        h: extent_of(value[3])?,
    })
}

/// A number that a coordinate may have.
fn coordinate_of(z: i64) -> Option<i32>
    ensures { result ≡ number.coordinate_of z }
{
    if -i64::from(MOST_COORDINATE) <= z && z <= i64::from(MOST_COORDINATE) {
        Some(z as i32)
    } else {
        None
    }
}

/// A number that a side may have.
fn extent_of(z: i64) -> Option<u32>
    ensures { result ≡ number.extent_of z }
{
    if 0 <= z && z <= i64::from(MOST_COORDINATE) {
        Some(z as u32)
    } else {
        None
    }
}

/// Returns the colour of r, g, b and a in `value`, each from 0 to 255.
pub fn colour_of(value: [i64; 4]) -> Option<Rgba>
    ensures { result ≡ number.colour_of value }
{
    Some(Rgba {
        r: channel_of(value[0])?,
        g: channel_of(value[1])?,
        b: channel_of(value[2])?,
        a: channel_of(value[3])?,
    })
}

/// Returns `z` as a channel of a colour, or an alpha, where it is from 0 to 255.
pub fn channel_of(z: i64) -> Option<u8>
    ensures { result ≡ number.channel_of z }
{
    if 0 <= z && z <= 255 {
        Some(z as u8)
    } else {
        None
    }
}

/// Returns false for a `z` of 0, and true for 1.
pub fn flag_of(z: i64) -> Option<bool>
    ensures { result ≡ number.flag_of z }
{
    match z {
        0 => Some(false),
        1 => Some(true),
        _ => None,
    }
}

/// Returns the turn by `z` degrees: 0, 90, 180 or 270.
pub fn turn_of(z: i64) -> Option<Rotation>
    ensures { result ≡ number.turn_of z }
{
    match z {
        0 => Some(Rotation::R0),
        90 => Some(Rotation::R90),
        180 => Some(Rotation::R180),
        270 => Some(Rotation::R270),
        _ => None,
    }
}

/// Returns the degrees of `turn`.
pub fn degrees(turn: Rotation) -> u32
    ensures { result ≡ number.degrees turn }
{
    match turn {
        Rotation::R0 => 0,
        Rotation::R90 => 90,
        Rotation::R180 => 180,
        Rotation::R270 => 270,
    }
}

/// Returns the filter of the number `z`: 0, 1 or 2.
pub fn filter_of(z: i64) -> Option<Filter>
    ensures { result ≡ number.filter_of z }
{
    match z {
        0 => Some(Filter::None),
        1 => Some(Filter::Faster),
        2 => Some(Filter::Better),
        _ => None,
    }
}

/// Returns the number of `filter`.
pub fn filter_number(filter: Filter) -> u32
    ensures { result ≡ number.filter_number filter }
{
    match filter {
        Filter::None => 0,
        Filter::Faster => 1,
        Filter::Better => 2,
    }
}

/// Returns the transparency of `z`, the sum of 1 for a layer's own alpha, 2 for its source's and 4 for a mask; 2 and 4 not
/// together.
pub fn transparency_of(z: i64) -> Option<Transparency>
    ensures { result ≡ number.transparency_of z }
{
    match z {
        0 => Some(kinds(false, false, false)),
        1 => Some(kinds(true, false, false)),
        2 => Some(kinds(false, true, false)),
        3 => Some(kinds(true, true, false)),
        4 => Some(kinds(false, false, true)),
        5 => Some(kinds(true, false, true)),
        _ => None,
    }
}

/// Which transparencies apply.
fn kinds(alpha: bool, source: bool, mask: bool) -> Transparency
    ensures { result ≡ number.kinds alpha source mask }
{
    Transparency {
        alpha,
        source,
        mask,
    }
}

/// Returns the number of `t`.
pub fn transparency_number(t: Transparency) -> u32
    ensures { result ≡ number.transparency_number t }
{
    u32::from(t.alpha) + 2 * u32::from(t.source) + 4 * u32::from(t.mask)
}

/// Returns the four numbers of `r`, negative ones in two's complement.
pub fn rect_numbers(r: Rect) -> [u32; 4]
    ensures { result ≡ number.rect_numbers r }
{
    [r.x.cast_unsigned(), r.y.cast_unsigned(), r.w, r.h]
}

/// Returns the four numbers of `c`.
pub fn colour_numbers(c: Rgba) -> [u32; 4]
    ensures { result ≡ number.colour_numbers c }
{
    [c.r as u32, c.g as u32, c.b as u32, c.a as u32]
}

/// Returns the number at `index` of `numbers`, which counts from 0.
pub fn at_index(index: i64, numbers: &[u32]) -> Option<u32>
    ensures { result ≡ number.at_index index numbers.now }
{
    if index < 0 {
        return None;
    }
    numbers.get(index as usize).copied()
}
