//! The arithmetic of channels, in whole numbers: rounded products, the middle of a pixel, the premultiplied pixel, and
//! one pixel over another.

ghost use Rattle.std.specs.Prelude.{◌≡◌, ◌≢◌, ◌<◌, ◌≤◌};
ghost use Rattle.wf_pixel.specs.Arithmetic.{mul, samp, scaled, opaque, with_own_alpha, lift, channel_over, over};

use crate::{Format, MOST_SIDE, Rgba, Transparency};

/// Returns the product of `a` and `b` as parts of 255, to the nearest.
pub fn mul(a: u8, b: u8) -> u8
    ensures { result ≡ mul a b }
{
    ((u32::from(a) * u32::from(b) + 127) / 255) as u8
}

/// Returns the place in `s` pixels at which the middle of pixel `i` of `w` lies, where both fill the same length. The sides are
/// from 1 to `MOST_SIDE`.
pub fn samp(i: u32, w: u32, s: u32) -> u32
    requires i { i < w }
    requires w { w ≤ MOST_SIDE }
    requires s_low { 1 ≤ s }
    requires s_high { s ≤ MOST_SIDE }
    ensures value { result ≡ samp i w s }
    ensures below { result < s }
{
    ((2 * i + 1) * s) / (2 * w)
}

/// Returns the pixel `c` of a layer as a premultiplied one: its colour times the source's alpha, where `format` and `t` say so,
/// then times the layer's `alpha`, then times the mask's value `mask`. The format is not that of masks.
pub fn lift(c: Rgba, format: Format, t: Transparency, alpha: u8, mask: u8) -> Rgba
    requires colours { format ≢ Format.A8 }
    ensures { result ≡ lift c format t alpha mask }
{
    let own = if t.source {
        own_alpha(format, c)
    } else {
        solid(c)
    };
    let faded = if t.alpha { scale(own, alpha) } else { own };
    if t.mask { scale(faded, mask) } else { faded }
}

/// Returns the premultiplied pixel `p` over `d`, what is below it.
pub fn over(p: Rgba, d: Rgba) -> Rgba
    ensures { result ≡ over p d }
{
    Rgba {
        r: channel_above(p.a, p.r, d.r),
        g: channel_above(p.a, p.g, d.g),
        b: channel_above(p.a, p.b, d.b),
        a: channel_above(p.a, p.a, d.a),
    }
}

/// The pixel of a format as a premultiplied one, with the alpha that it stores.
fn own_alpha(format: Format, c: Rgba) -> Rgba
    ensures { result ≡ with_own_alpha format c }
{
    match format {
        Format::Rgba8Pre => c,
        Format::Rgbx8 => solid(c),
        _ => Rgba {
            r: mul(c.r, c.a),
            g: mul(c.g, c.a),
            b: mul(c.b, c.a),
            a: c.a,
        },
    }
}

/// The same colour, opaque.
fn solid(c: Rgba) -> Rgba
    ensures { result ≡ opaque c }
{
    Rgba { a: 255, ..c }
}

/// Every channel times `k`, as parts of 255.
fn scale(c: Rgba, k: u8) -> Rgba
    ensures { result ≡ scaled c k }
{
    Rgba {
        r: mul(c.r, k),
        g: mul(c.g, k),
        b: mul(c.b, k),
        a: mul(c.a, k),
    }
}

/// One channel of a premultiplied pixel with alpha `a`, over a channel below it. A pixel that is brighter than its
/// alpha ends at 255.
fn channel_above(a: u8, p: u8, d: u8) -> u8
    ensures { result ≡ channel_over a p d }
{
    p.saturating_add(mul(d, 255 - a))
}
