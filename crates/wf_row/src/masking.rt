//! Pixels of a source laid over those of a row through a mask, eight at a time.

ghost use Rattle.std.specs.Prelude.{◌≡◌, ◌<◌, ◌*◌, length};
ghost use Rattle.wf_row.specs.Bytes.{AreBytes, blended_masked};

use crate::AlphaMode;
use crate::block::{Block, lift_block};
use crate::loading::{load, load_mask, padded, padded_mask};
use std::simd::prelude::*;

/// Lays the masked pixels of a source over those of a row.
#[inline(always)]
pub(crate) fn mask_pixels(
    row: &mut [u8],
    src: &[u8],
    mask: &[u8],
    mode: AlphaMode,
    fade: Option<u8>,
)
    requires src { length src.now ≡ 4 * length mask.now }
    requires same { length row.old ≡ length src.now }
    ensures { row.new ≡ blended_masked mode fade mask.now src.now row.old }
{
    let blocks = mask.len() / 8;
    for block in 0..blocks {
        let at = 32 * block;
        let both = mask_block(
            load_mask(mask, 8 * block),
            load(src, at),
            load(row, at),
            mode,
            fade,
        );
        both.copy_to_slice(&mut row[at..]);
    }
    mask_rest(
        &mut row[32 * blocks..],
        &src[32 * blocks..],
        &mask[8 * blocks..],
        mode,
        fade,
    );
}
/// Lays the masked pixels of a source over those of a row, of which there are fewer than eight.
fn mask_rest(row: &mut [u8], src: &[u8], mask: &[u8], mode: AlphaMode, fade: Option<u8>)
    requires src { length src.now ≡ 4 * length mask.now }
    requires same { length row.old ≡ length src.now }
    requires few { length mask.now < 8 }
    ensures { row.new ≡ blended_masked mode fade mask.now src.now row.old }
{
    if src.is_empty() {
        return;
    }
    let both = mask_block(padded_mask(mask), padded(src), padded(row), mode, fade);
    row.copy_from_slice(&both.to_array()[..src.len()]);
}

/// The bytes of a source's eight pixels, lifted and masked, over those of a row.
#[inline(always)]
fn mask_block(mask: u8x8, above: u8x32, below: u8x32, mode: AlphaMode, fade: Option<u8>) -> u8x32
    requires mask { AreBytes 8 mask }
    requires above { AreBytes 32 above }
    requires below { AreBytes 32 below }
    ensures { result ≡ blended_masked mode fade mask above below }
{
    let lifted = lift_block(above, mode, fade);
    lifted.masked(mask).over(Block::new(below))
}
