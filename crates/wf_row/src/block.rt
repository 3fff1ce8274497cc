//! Eight pixels at once.

ghost use Rattle.std.specs.Prelude.{◌≡◌};
ghost use Rattle.wf_row.specs.Bytes.{AreBytes, premultiplied_bytes, faded_bytes, masked_bytes, over_bytes, lifted};

use crate::AlphaMode;
use crate::lanes::{
    high_lanes, joined_lanes, lacking_lanes, low_lanes, mul_lanes, second_lanes, solid_lanes,
    sum_lanes, twice_lanes,
};
use std::marker::Model;
use std::simd::prelude::*;

/// The channels of eight pixels, as words of which each has a byte: red and blue in `low`, green and alpha in `high`.
#[derive(Drop)]
pub(crate) struct Block {
    low: u16x16,
    high: u16x16,
}

impl Model for Block {
    ghost use Rattle.std.specs.Prelude.{ℕ, List};
    ghost use Rattle.wf_row.specs.Bytes.{AreHalves, joined};

    ghost Value = { List ℕ };

    ghost view = { λ b. joined b.low b.high };

    ghost invariant = { λ b. AreHalves b.low b.high };
}

impl Block {
    /// The pixels with these bytes.
    #[inline(always)]
    pub(crate) fn new(bytes: u8x32) -> Block
        requires { AreBytes 32 bytes }
        ensures { result ≡ bytes }
    {
        Block {
            low: low_lanes(bytes),
            high: high_lanes(bytes),
        }
    }

    /// Their bytes.
    #[inline(always)]
    pub(crate) fn bytes(self) -> u8x32
        ensures value { result ≡ self }
        ensures bytes { AreBytes 32 result }
    {
        joined_lanes(self.low, self.high)
    }

    /// The premultiplied pixels, by the alpha that each stores.
    #[inline(always)]
    pub(crate) fn premultiplied(self, mode: AlphaMode) -> Block
        ensures { result ≡ premultiplied_bytes mode self }
    {
        match mode {
            AlphaMode::Premultiplied => self,
            AlphaMode::Straight => {
                let alpha = second_lanes(self.high);
                Block {
                    low: mul_lanes(self.low, alpha),
                    high: mul_lanes(solid_lanes(self.high), alpha),
                }
            }
            AlphaMode::Opaque => Block {
                low: self.low,
                high: solid_lanes(self.high),
            },
        }
    }

    /// Each channel times `k`.
    #[inline(always)]
    pub(crate) fn faded(self, k: u8) -> Block
        ensures { result ≡ faded_bytes k self }
    {
        let k = u16x16::splat(k as u16);
        Block {
            low: mul_lanes(self.low, k),
            high: mul_lanes(self.high, k),
        }
    }

    /// The channels of each pixel times its mask.
    #[inline(always)]
    pub(crate) fn masked(self, mask: u8x8) -> Block
        requires { AreBytes 8 mask }
        ensures { result ≡ masked_bytes mask self }
    {
        let k = twice_lanes(mask);
        Block {
            low: mul_lanes(self.low, k),
            high: mul_lanes(self.high, k),
        }
    }

    /// The premultiplied pixels over others.
    #[inline(always)]
    pub(crate) fn over(self, below: Block) -> u8x32
        ensures { result ≡ over_bytes self below }
    {
        let lacking = lacking_lanes(second_lanes(self.high));
        let rest = joined_lanes(
            mul_lanes(below.low, lacking),
            mul_lanes(below.high, lacking),
        );
        sum_lanes(self.bytes(), rest)
    }
}

/// Eight pixels of a source as premultiplied ones, times `fade` where it fades.
#[inline(always)]
pub(crate) fn lift_block(bytes: u8x32, mode: AlphaMode, fade: Option<u8>) -> Block
    requires { AreBytes 32 bytes }
    ensures { result ≡ lifted mode fade bytes }
{
    let pixels = Block::new(bytes).premultiplied(mode);
    match fade {
        Some(k) => pixels.faded(k),
        None => pixels,
    }
}
