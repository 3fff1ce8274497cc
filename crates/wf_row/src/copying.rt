//! A row of opaque pixels. Four at a time: a vector of eight would be stored by its upper half first, which is slow where
//! the row is not yet in the first cache.

ghost use Rattle.std.specs.Prelude.{◌≡◌, ◌%◌, length};
ghost use Rattle.wf_row.specs.Bytes.{AreBytes, premultiplied_bytes, over_bytes};

use crate::AlphaMode;
use crate::loading::{load_four, load_pixel};
use std::simd::prelude::*;

/// Lays the pixels of a source, made opaque, over those of a row.
#[inline(always)]
pub(crate) fn copy_pixels(row: &mut [u8], src: &[u8])
    requires whole { length src.now % 4 ≡ 0 }
    requires same { length row.old ≡ length src.now }
    ensures { row.new ≡ over_bytes (premultiplied_bytes AlphaMode.Opaque src.now) row.old }
{
    let blocks = src.len() / 16;
    for block in 0..blocks {
        let at = 16 * block;
        opaque_lanes(load_four(src, at)).copy_to_slice(&mut row[at..]);
    }
    let at = 16 * blocks;
    copy_rest(&mut row[at..], &src[at..]);
}

/// Four pixels made opaque.
#[inline(always)]
pub(crate) fn opaque_lanes(x: u8x16) -> u8x16
    requires { AreBytes 16 x }
    ensures { result ≡ premultiplied_bytes AlphaMode.Opaque x }
{
    let alpha = u8x16::from_array([0, 0, 0, 255, 0, 0, 0, 255, 0, 0, 0, 255, 0, 0, 0, 255]);
    x | alpha
}

/// Writes fewer than four pixels of a source, made opaque: one by one, since most pieces of a row have some.
#[inline(always)]
fn copy_rest(row: &mut [u8], src: &[u8])
    requires whole { length src.now % 4 ≡ 0 }
    requires same { length row.old ≡ length src.now }
    ensures { row.new ≡ premultiplied_bytes AlphaMode.Opaque src.now }
{
    for i in 0..src.len() / 4 {
        let at = 4 * i;
        opaque_pixel(load_pixel(src, at)).copy_to_slice(&mut row[at..]);
    }
}

/// A pixel made opaque.
#[inline(always)]
pub(crate) fn opaque_pixel(x: u8x4) -> u8x4
    requires { AreBytes 4 x }
    ensures { result ≡ premultiplied_bytes AlphaMode.Opaque x }
{
    x | u8x4::from_array([0, 0, 0, 255])
}
