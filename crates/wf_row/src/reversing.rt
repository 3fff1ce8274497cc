//! A row of pixels from its last one to its first.

ghost use Rattle.std.specs.Prelude.{◌≡◌, ◌<◌, ◌≤◌, ◌%◌, length, None};
ghost use Rattle.wf_row.specs.Bytes.{AreBytes, blended};
ghost use Rattle.wf_row.specs.Gather.{reversed};

use crate::AlphaMode;
use crate::copying::{opaque_lanes, opaque_pixel};
use crate::loading::{load_four, load_pixel, padded_four};
use std::simd::prelude::*;

/// Four pixels, the last first.
#[inline(always)]
fn reverse_lanes(x: u8x16) -> u8x16
    requires { AreBytes 16 x }
    ensures value { result ≡ reversed x }
    ensures bytes { AreBytes 16 result }
{
    x.swizzle([12, 13, 14, 15, 8, 9, 10, 11, 4, 5, 6, 7, 0, 1, 2, 3])
}

/// Writes into `out` the pixels of `src`, the last first.
pub fn reverse_row(out: &mut [u8], src: &[u8])
    requires whole { length src.now % 4 ≡ 0 }
    requires same { length out.old ≡ length src.now }
    ensures { out.new ≡ reversed src.now }
{
    let blocks = src.len() / 16;
    for block in 0..blocks {
        let at = 16 * block;
        let pixels = reverse_lanes(load_four(src, src.len() - 16 - at));
        pixels.copy_to_slice(&mut out[at..]);
    }
    let at = 16 * blocks;
    reverse_rest(&mut out[at..], &src[..src.len() - at]);
}

/// The same of fewer than four pixels.
fn reverse_rest(out: &mut [u8], src: &[u8])
    requires whole { length src.now % 4 ≡ 0 }
    requires same { length out.old ≡ length src.now }
    requires few { length src.now < 16 }
    ensures { out.new ≡ reversed src.now }
{
    if src.is_empty() {
        return;
    }
    let pixels = reverse_lanes(padded_four(src)).to_array();
    out.copy_from_slice(&pixels[16 - src.len()..]);
}

/// Lays the pixels of `src`, made opaque, over those of `row`, the last first.
pub fn copy_reversed_row(row: &mut [u8], src: &[u8])
    requires whole { length src.now % 4 ≡ 0 }
    requires same { length row.old ≡ length src.now }
    ensures { row.new ≡ blended AlphaMode.Opaque None (reversed src.now) row.old }
{
    let blocks = src.len() / 16;
    for block in 0..blocks {
        let at = 16 * block;
        let pixels = reverse_lanes(load_four(src, src.len() - 16 - at));
        opaque_lanes(pixels).copy_to_slice(&mut row[at..]);
    }
    for i in 4 * blocks..src.len() / 4 {
        let at = 4 * i;
        let pixel = load_pixel(src, src.len() - 4 - at);
        opaque_pixel(pixel).copy_to_slice(&mut row[at..]);
    }
}
