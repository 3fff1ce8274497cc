//! Pixels that are put into a rectangle of an image.

ghost use Rattle.std.specs.Prelude.{◌≡◌, ◌-◌, ◌≤◌, ◌++◌, IsTrue, drop, length, take};
ghost use Rattle.wf_host.specs.Rows.{copied, stands};
ghost use Rattle.wf_serve.specs.Pixels.{fits_side, may_put, put, put_in};

use wf_host::{Order, copy_rows};
use wf_image::{Image, bytes_of_pixel};

/// A rectangle of an image: the left and upper side, the width and the height in pixels.
#[derive(Clone, Copy, Debug)]
pub struct Rectangle {
    pub x: u64,
    pub y: u64,
    pub w: u64,
    pub h: u64,
}

/// Tells whether `count` pixels, at least one, from the place `from` on lie in a side of `side` pixels.
fn fits_side(from: u64, count: u64, side: u32) -> bool
    ensures { result ≡ fits_side from count side }
{
    let side = u64::from(side);
    1 <= count && count <= side && from <= side - count
}

/// Tells whether `count` bytes are the pixels of a rectangle `r`, which lies in an `image`.
fn may_put(image: &Image, r: &Rectangle, count: usize) -> bool
    ensures { result ≡ may_put image.now r.now count }
{
    let size = image.size();
    if !fits_side(r.x, r.w, size.w) || !fits_side(r.y, r.h, size.h) {
        return false;
    }
    count == r.w as usize * r.h as usize * bytes_of_pixel(image.format())
}

/// Copies `count` rows of `row` bytes from `pixels` into `bytes`, where they stand `stride` bytes apart from the place `at` on.
fn put_rows(bytes: &mut [u8], at: usize, stride: usize, pixels: &[u8], row: usize, count: usize)
    requires at { at ≤ length bytes.old }
    requires bytes { IsTrue (stands (length bytes.old - at) stride row count) }
    requires pixels { IsTrue (stands (length pixels.now) row row count) }
    ensures { bytes.new ≡ take at bytes.old ++ copied Order.Rgba stride row row count pixels.now (drop at bytes.old) }
{
    copy_rows(
        &mut bytes[at..],
        stride,
        pixels,
        row,
        row,
        count,
        Order::Rgba,
    );
}

/// Puts `pixels` into a rectangle `r` of an `image`, which has it.
fn put_in(image: &mut Image, r: &Rectangle, pixels: &[u8])
    requires { IsTrue (may_put image.old r.now (length pixels.now)) }
    ensures { image.new ≡ put_in r.now pixels.now image.old }
{
    let size = image.size();
    let bytes = bytes_of_pixel(image.format());
    let stride = size.w as usize * bytes;
    let row = r.w as usize * bytes;
    let at = r.y as usize * stride + r.x as usize * bytes;
    put_rows(image.bytes_mut(), at, stride, pixels, row, r.h as usize);
}

/// Puts `pixels` into a rectangle `r` of an `image`, and tells whether it did: not where it has no such rectangle, or where they are not
/// its pixels.
pub(crate) fn put_pixels(image: &mut Image, r: &Rectangle, pixels: &[u8]) -> bool
    ensures done { result ≡ may_put image.old r.now (length pixels.now) }
    ensures image { image.new ≡ put r.now pixels.now image.old }
{
    if may_put(image, r, pixels.len()) {
        put_in(image, r, pixels);
        return true;
    }
    false
}
