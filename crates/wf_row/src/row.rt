//! A row of pixels laid over another one. Each mode has a loop of its own, since the mode is known where the loop is
//! compiled.

ghost use Rattle.std.specs.Prelude.{◌≡◌, ◌*◌, ◌%◌, length};
ghost use Rattle.wf_row.specs.Bytes.{blended, blended_masked};

use crate::AlphaMode;
use crate::blending::blend_pixels;
use crate::copying::copy_pixels;
use crate::masking::mask_pixels;

/// Lays the pixels of `src` over those of `row`, which has the same width, and writes them there. The source's pixels are
/// multiplied by their own alpha as `mode` says, and then by `fade`, where it is given, as parts of 255. A pixel has four
/// bytes: red, green, blue and alpha. It cannot lack memory and refuses nothing.
pub fn blend_row(row: &mut [u8], src: &[u8], mode: AlphaMode, fade: Option<u8>)
    requires whole { length src.now % 4 ≡ 0 }
    requires same { length row.old ≡ length src.now }
    ensures { row.new ≡ blended mode fade src.now row.old }
{
    match fade {
        None => match mode {
            AlphaMode::Premultiplied => blend_pixels(row, src, AlphaMode::Premultiplied, None),
            AlphaMode::Straight => blend_pixels(row, src, AlphaMode::Straight, None),
            AlphaMode::Opaque => copy_pixels(row, src),
        },
        Some(k) => match mode {
            AlphaMode::Premultiplied => blend_pixels(row, src, AlphaMode::Premultiplied, Some(k)),
            AlphaMode::Straight => blend_pixels(row, src, AlphaMode::Straight, Some(k)),
            AlphaMode::Opaque => blend_pixels(row, src, AlphaMode::Opaque, Some(k)),
        },
    }
}

/// Does the same through `mask`, which has a byte for each pixel: the source's pixels are last multiplied by it, as parts of
/// 255.
pub fn blend_masked_row(row: &mut [u8], src: &[u8], mask: &[u8], mode: AlphaMode, fade: Option<u8>)
    requires src { length src.now ≡ 4 * length mask.now }
    requires same { length row.old ≡ length src.now }
    ensures { row.new ≡ blended_masked mode fade mask.now src.now row.old }
{
    match fade {
        None => match mode {
            AlphaMode::Premultiplied => mask_pixels(row, src, mask, AlphaMode::Premultiplied, None),
            AlphaMode::Straight => mask_pixels(row, src, mask, AlphaMode::Straight, None),
            AlphaMode::Opaque => mask_pixels(row, src, mask, AlphaMode::Opaque, None),
        },
        Some(k) => match mode {
            AlphaMode::Premultiplied => mask_pixels(
                row,
                src,
                mask,
                AlphaMode::Premultiplied,
                Some(k),
            ),
            AlphaMode::Straight => mask_pixels(row, src, mask, AlphaMode::Straight, Some(k)),
            AlphaMode::Opaque => mask_pixels(row, src, mask, AlphaMode::Opaque, Some(k)),
        },
    }
}
