//! Pixels of a source laid over those of a row, eight at a time.

ghost use Rattle.std.specs.Prelude.{◌≡◌, ◌<◌, ◌%◌, length};
ghost use Rattle.wf_row.specs.Bytes.{AreBytes, blended};

use crate::AlphaMode;
use crate::block::{Block, lift_block};
use crate::loading::{load, padded};
use std::simd::prelude::*;

/// Lays the pixels of a source over those of a row.
#[inline(always)]
pub(crate) fn blend_pixels(row: &mut [u8], src: &[u8], mode: AlphaMode, fade: Option<u8>)
    requires whole { length src.now % 4 ≡ 0 }
    requires same { length row.old ≡ length src.now }
    ensures { row.new ≡ blended mode fade src.now row.old }
{
    let blocks = src.len() / 32;
    for block in 0..blocks {
        let at = 32 * block;
        let both = blend_block(load(src, at), load(row, at), mode, fade);
        both.copy_to_slice(&mut row[at..]);
    }
    let at = 32 * blocks;
    blend_rest(&mut row[at..], &src[at..], mode, fade);
}

/// Lays the pixels of a source over those of a row, of which there are fewer than eight.
fn blend_rest(row: &mut [u8], src: &[u8], mode: AlphaMode, fade: Option<u8>)
    requires whole { length src.now % 4 ≡ 0 }
    requires same { length row.old ≡ length src.now }
    requires few { length src.now < 32 }
    ensures { row.new ≡ blended mode fade src.now row.old }
{
    if src.is_empty() {
        return;
    }
    let both = blend_block(padded(src), padded(row), mode, fade).to_array();
    row.copy_from_slice(&both[..src.len()]);
}

/// The bytes of a source's eight pixels, lifted, over those of a row.
#[inline(always)]
fn blend_block(above: u8x32, below: u8x32, mode: AlphaMode, fade: Option<u8>) -> u8x32
    requires above { AreBytes 32 above }
    requires below { AreBytes 32 below }
    ensures { result ≡ blended mode fade above below }
{
    lift_block(above, mode, fade).over(Block::new(below))
}
