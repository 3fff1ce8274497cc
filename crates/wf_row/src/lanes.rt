//! Vectors of 16 words, each of which has a byte.

ghost use Rattle.std.specs.Prelude.{◌≡◌, ◌+◌, ◌-◌, length, map, min};
ghost use Rattle.std.specs.Simd.Lanes.{zip2};
ghost use Rattle.wf_pixel.specs.Arithmetic.{mul};
ghost use Rattle.wf_row.specs.Bytes.{AreBytes, lows, highs, joined, seconds, twice, solid};

use std::simd::prelude::*;

/// The products of the lanes as parts of 255.
#[inline(always)]
pub(crate) fn mul_lanes(x: u16x16, q: u16x16) -> u16x16
    requires x { AreBytes 16 x }
    requires q { AreBytes 16 q }
    ensures value { result ≡ zip2 mul x q }
    ensures bytes { AreBytes 16 result }
{
    let t = x * q + u16x16::splat(128);
    (t + (t >> 8)) >> 8
}

/// What each lane lacks to 255.
#[inline(always)]
pub(crate) fn lacking_lanes(x: u16x16) -> u16x16
    requires { AreBytes 16 x }
    ensures value { result ≡ map (λ a. 255 - a) x }
    ensures bytes { AreBytes 16 result }
{
    u16x16::splat(255) - x
}

/// Each second lane, twice.
#[inline(always)]
pub(crate) fn second_lanes(x: u16x16) -> u16x16
    requires { AreBytes 16 x }
    ensures value { result ≡ seconds x }
    ensures bytes { AreBytes 16 result }
{
    x.swizzle([1, 1, 3, 3, 5, 5, 7, 7, 9, 9, 11, 11, 13, 13, 15, 15])
}

/// Each byte, twice, as words.
#[inline(always)]
pub(crate) fn twice_lanes(x: u8x8) -> u16x16
    requires { AreBytes 8 x }
    ensures value { result ≡ twice x }
    ensures bytes { AreBytes 16 result }
{
    let words = x.cast::<u16>();
    words.swizzle([0, 0, 1, 1, 2, 2, 3, 3, 4, 4, 5, 5, 6, 6, 7, 7])
}

/// The lower bytes of the words.
#[inline(always)]
pub(crate) fn low_lanes(x: u8x32) -> u16x16
    requires { AreBytes 32 x }
    ensures value { result ≡ lows x }
    ensures bytes { AreBytes 16 result }
{
    u16x16::from_le_bytes(x) & u16x16::splat(255)
}

/// The upper bytes of the words.
#[inline(always)]
pub(crate) fn high_lanes(x: u8x32) -> u16x16
    requires { AreBytes 32 x }
    ensures value { result ≡ highs x }
    ensures bytes { AreBytes 16 result }
{
    u16x16::from_le_bytes(x) >> 8
}

/// The bytes of words with these lower and upper bytes.
#[inline(always)]
pub(crate) fn joined_lanes(low: u16x16, high: u16x16) -> u8x32
    requires low { AreBytes 16 low }
    requires high { AreBytes 16 high }
    ensures value { result ≡ joined low high }
    ensures bytes { AreBytes 32 result }
{
    (low | (high << 8)).to_le_bytes()
}

/// The sums of bytes, 255 at most.
#[inline(always)]
pub(crate) fn sum_lanes(x: u8x32, y: u8x32) -> u8x32
    requires x { AreBytes 32 x }
    requires y { AreBytes 32 y }
    ensures value { result ≡ zip2 (λ a b. min 255 (a + b)) x y }
    ensures bytes { AreBytes 32 result }
{
    x.saturating_add(y)
}

/// The words, each second one 255.
#[inline(always)]
pub(crate) fn solid_lanes(x: u16x16) -> u16x16
    requires { AreBytes 16 x }
    ensures value { result ≡ solid x }
    ensures bytes { AreBytes 16 result }
{
    let alpha = u16x16::from_array([
        0, 255, 0, 255, 0, 255, 0, 255, 0, 255, 0, 255, 0, 255, 0, 255,
    ]);
    x | alpha
}
