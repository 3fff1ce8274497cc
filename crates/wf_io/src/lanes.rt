//! Sums of bytes, 32 at a time.

ghost use Rattle.std.specs.Prelude.{◌≡◌, ◌+◌, ◌*◌, ◌%◌, ◌^◌, ◌≤◌, length, sum, take};
ghost use Rattle.std.specs.Simd.Lanes.{chunk};

use std::simd::prelude::*;

/// Sums of four of the bytes from a place on, which make up 32 bytes together.
#[inline(always)]
fn fours(bytes: &[u8], at: usize) -> u32x8
    requires { at + 32 ≤ length bytes.now }
    ensures count { length result ≡ 8 }
    ensures sum { sum result ≡ sum (chunk at 32 bytes.now) }
{
    u8x32::from_slice(&bytes[at..]).dot4(u8x32::splat(1))
}

/// The sum of the lanes, modulo 2^32.
#[inline(always)]
fn lane_sum(lanes: u32x8) -> u32
    ensures { result ≡ sum lanes % 2 ^ 32 }
{
    lanes.reduce_sum()
}

/// The sums of lanes, each modulo 2^32.
#[inline(always)]
fn added(x: u32x8, y: u32x8) -> u32x8
    requires x { length x ≡ 8 }
    requires y { length y ≡ 8 }
    ensures count { length result ≡ 8 }
    ensures sum { sum result % 2 ^ 32 ≡ (sum x + sum y) % 2 ^ 32 }
{
    x + y
}

/// The sum of the bytes of some blocks of 32, modulo 2^32.
pub(crate) fn sum_of_blocks(bytes: &[u8], blocks: usize) -> u32
    requires { 32 * blocks ≤ length bytes.now }
    ensures { result ≡ sum (take (32 * blocks) bytes.now) % 2 ^ 32 }
{
    let mut lanes = u32x8::splat(0);
    for block in 0..blocks {
        lanes = added(lanes, fours(bytes, 32 * block));
    }
    lane_sum(lanes)
}
