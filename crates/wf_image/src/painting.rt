//! Paints on the bytes of an image, row by row, and in each row only the span that the paint names.

ghost use Rattle.std.specs.Prelude.{◌≡◌, ℕ, ◌+◌, ◌*◌, ◌/◌, ◌%◌, ◌<◌, ◌≤◌, ◌++◌, ◌&&◌, pos, length, take, drop};
ghost use Rattle.std.specs.Prelude.{IsTrue, Some, is_some, nat_le, nat_lt, slice_get, unwrap_or};
ghost use Rattle.std.specs.Int.{int_max, int_min};
ghost use Rattle.wf_pixel.specs.Along.{along};
ghost use Rattle.wf_pixel.specs.Choice.{has_sides, is_coordinate, most_extent};
ghost use Rattle.wf_image.specs.Bitmap.{image_bytes, pixel_bytes, stored};
ghost use Rattle.wf_image.specs.Alike.{IsLike};
ghost use Rattle.wf_image.specs.Paints.{is_paint, ramp_channel, ramp_colour, named_colour, painted_row, painted_bytes};

use crate::filling::{fill_bytes, put_four};
use crate::image::bytes_of_pixel;
use crate::paint::{Paint, Pixels};
use wf_pixel::{Format, MOST_SIDE, Rect, Rgba, Size};

/// Paints on the bytes of an image of this size and format.
pub(crate) fn paint_bytes(bytes: &mut [u8], size: Size, format: Format, p: &Paint)
    requires sides { IsTrue (has_sides size) }
    requires count { length bytes.old ≡ image_bytes size format }
    requires paint { IsTrue (is_paint p.now) }
    ensures { bytes.new ≡ painted_bytes size format bytes.old p.now }
{
    match p {
        Paint::Fill { color } => fill_bytes(bytes, size, format, *color),
        _ => paint_rows(bytes, size, format, p),
    }
}

/// Paints on the bytes of an image row by row. A row gets the bytes of one above it, where the paint names the same colours in both.
fn paint_rows(bytes: &mut [u8], size: Size, format: Format, p: &Paint)
    requires sides { IsTrue (has_sides size) }
    requires count { length bytes.old ≡ image_bytes size format }
    requires paint { IsTrue (is_paint p.now) }
    ensures { bytes.new ≡ painted_bytes size format bytes.old p.now }
{
    let stride = size.w as usize * bytes_of_pixel(format);
    for y in 0..size.h {
        let like = row_like(p, y);
        if like < y {
            copy_row(
                bytes,
                like as usize * stride,
                y as usize * stride,
                size,
                format,
                p,
                y,
            );
        } else {
            paint_row_at(bytes, y as usize * stride, size, format, p, y);
        }
    }
}

/// Finds the first row in which the paint names the same colours as in row `y`.
fn row_like(p: &Paint, y: u32) -> u32
    requires y { y < MOST_SIDE }
    requires paint { IsTrue (is_paint p.now) }
    ensures order { result ≤ y }
    ensures same { (size : Size) (x : ℕ) → named_colour p.now size x result ≡ named_colour p.now size x y }
{
    match p {
        Paint::Fill { .. } => 0,
        Paint::Rectangle { area, .. } => first_along(area.y, area.h, y),
        Paint::Checker { n, .. } => first_alike(*n, y),
        Paint::Ramp { .. } => 0,
        Paint::Row { .. } => y,
    }
}

/// Finds the first number along a side, for a number along it, and each other number itself.
fn first_along(start: i32, side: u32, y: u32) -> u32
    requires start { IsTrue (is_coordinate start) }
    requires side { side ≤ most_extent }
    requires y { y < MOST_SIDE }
    ensures order { result ≤ y }
    ensures same { is_some (along start side (pos result)) ≡ is_some (along start side (pos y)) }
{
    let rows = span_of_side(start, side, MOST_SIDE);
    if contains(rows, y) { rows.0 } else { y }
}

/// Finds the first number whose `n`-th part, rounded down, is even where the part of `y` is even, and odd where it is odd.
fn first_alike(n: u32, y: u32) -> u32
    requires { 1 ≤ n }
    ensures order { result ≤ y }
    ensures same { (x : ℕ) → (x + result / n) % 2 ≡ (x + y / n) % 2 }
{
    if y / n % 2 == 0 { 0 } else { n }
}

/// Paints on row `y`, whose bytes begin at a place, by the bytes of a row above it in which the paint names the same colours.
fn copy_row(bytes: &mut [u8], from: usize, to: usize, size: Size, format: Format, p: &Paint, y: u32)
    requires width { size.w ≤ MOST_SIDE }
    requires y { y < MOST_SIDE }
    requires order { from + size.w * pixel_bytes format ≤ to }
    requires within { to + size.w * pixel_bytes format ≤ length bytes.old }
    requires paint { IsTrue (is_paint p.now) }
    requires like { IsLike size format p.now y (take (size.w * pixel_bytes format) (drop from bytes.old)) }
    ensures { bytes.new ≡ take to bytes.old ++ painted_row size format (take (size.w * pixel_bytes format) (drop to bytes.old)) p.now y
        ++ drop (to + size.w * pixel_bytes format) bytes.old }
{
    let (start, end) = span_of_row(p, size, y);
    let first = start as usize * bytes_of_pixel(format);
    let len = (end - start) as usize * bytes_of_pixel(format);
    copy_bytes(bytes, from + first, to + first, len);
}

/// Copies `len` bytes to a place after them.
fn copy_bytes(bytes: &mut [u8], from: usize, to: usize, len: usize)
    requires order { from + len ≤ to }
    requires within { to + len ≤ length bytes.old }
    ensures { bytes.new ≡ take to bytes.old ++ take len (drop from bytes.old) ++ drop (to + len) bytes.old }
{
    let (front, back) = bytes.split_at_mut(to);
    back[..len].copy_from_slice(&front[from..from + len]);
}

/// Paints on row `y`, whose bytes begin at a place.
fn paint_row_at(bytes: &mut [u8], at: usize, size: Size, format: Format, p: &Paint, y: u32)
    requires width { size.w ≤ MOST_SIDE }
    requires y { y < MOST_SIDE }
    requires within { at + size.w * pixel_bytes format ≤ length bytes.old }
    requires paint { IsTrue (is_paint p.now) }
    ensures { bytes.new ≡ take at bytes.old ++ painted_row size format (take (size.w * pixel_bytes format) (drop at bytes.old)) p.now y
        ++ drop (at + size.w * pixel_bytes format) bytes.old }
{
    let stride = size.w as usize * bytes_of_pixel(format);
    paint_row(&mut bytes[at..at + stride], size, format, p, y);
}

/// Paints on the bytes of row `y`.
fn paint_row(row: &mut [u8], size: Size, format: Format, p: &Paint, y: u32)
    requires width { size.w ≤ MOST_SIDE }
    requires y { y < MOST_SIDE }
    requires count { length row.old ≡ size.w * pixel_bytes format }
    requires paint { IsTrue (is_paint p.now) }
    ensures { row.new ≡ painted_row size format row.old p.now y }
{
    let (start, end) = span_of_row(p, size, y);
    for x in start..end {
        put_pixel(row, format, x as usize, colour_at(p, size, x, y));
    }
}

/// Writes pixel `x` of a row.
fn put_pixel(row: &mut [u8], format: Format, x: usize, color: Rgba)
    requires { (x + 1) * pixel_bytes format ≤ length row.old }
    ensures { row.new ≡ take (x * pixel_bytes format) row.old ++ stored format color ++ drop ((x + 1) * pixel_bytes format) row.old }
{
    match format {
        Format::A8 => row[x] = color.a,
        _ => put_four(row, x, color),
    }
}

/// The columns of row `y` that the paint names: from the first number up to the second, which is not among them.
fn span_of_row(p: &Paint, size: Size, y: u32) -> (u32, u32)
    requires width { size.w ≤ MOST_SIDE }
    requires y { y < MOST_SIDE }
    requires paint { IsTrue (is_paint p.now) }
    ensures order { result.0 ≤ result.1 }
    ensures within { result.1 ≤ size.w }
    ensures named { (x : ℕ) → x < size.w → is_some (named_colour p.now size x y) ≡ (nat_le result.0 x && nat_lt x result.1) }
{
    match p {
        Paint::Rectangle { area, .. } => span_of_rectangle(*area, size.w, y),
        Paint::Row { y: row, pixels } if *row == y => (
            0,
            size.w.min(pixels.as_slice().len() as u32),
        ),
        Paint::Row { .. } => (0, 0),
        _ => (0, size.w),
    }
}

/// The columns of row `y` that lie in a rectangle.
fn span_of_rectangle(area: Rect, width: u32, y: u32) -> (u32, u32)
    requires x { IsTrue (is_coordinate area.x) }
    requires y { IsTrue (is_coordinate area.y) }
    requires w { area.w ≤ most_extent }
    requires h { area.h ≤ most_extent }
    requires width { width ≤ MOST_SIDE }
    requires row { y < MOST_SIDE }
    ensures order { result.0 ≤ result.1 }
    ensures within { result.1 ≤ width }
    ensures named { (x : ℕ) → x < width → (is_some (along area.x area.w (pos x)) && is_some (along area.y area.h (pos y)))
        ≡ (nat_le result.0 x && nat_lt x result.1) }
{
    let rows = span_of_side(area.y, area.h, MOST_SIDE);
    if contains(rows, y) {
        span_of_side(area.x, area.w, width)
    } else {
        (0, 0)
    }
}

/// Whether a number is in a span.
fn contains(span: (u32, u32), n: u32) -> bool
    ensures { result ≡ (nat_le span.0 n && nat_lt n span.1) }
{
    span.0 <= n && n < span.1
}

/// The numbers below `len` that lie along a side.
fn span_of_side(start: i32, side: u32, len: u32) -> (u32, u32)
    requires start { IsTrue (is_coordinate start) }
    requires side { side ≤ most_extent }
    requires len { len ≤ MOST_SIDE }
    ensures order { result.0 ≤ result.1 }
    ensures within { result.1 ≤ len }
    ensures named { (x : ℕ) → x < len → is_some (along start side (pos x)) ≡ (nat_le result.0 x && nat_lt x result.1) }
{
    let low = i64::from(start);
    let high = low + i64::from(side);
    (up_to(low, len), up_to(high, len))
}

/// A number that is not negative and at most `len`: the nearest.
fn up_to(n: i64, len: u32) -> u32
    ensures { pos result ≡ int_min (int_max n (pos 0)) (pos len) }
{
    if n <= 0 {
        0
    } else if n < i64::from(len) {
        n as u32
    } else {
        len
    }
}

/// The colour that the paint names at a point.
fn colour_at(p: &Paint, size: Size, x: u32, y: u32) -> Rgba
    requires width { size.w ≤ MOST_SIDE }
    requires x { x < size.w }
    requires paint { IsTrue (is_paint p.now) }
    requires named { IsTrue (is_some (named_colour p.now size x y)) }
    ensures { named_colour p.now size x y ≡ Some result }
{
    match p {
        Paint::Fill { color } => *color,
        Paint::Rectangle { color, .. } => *color,
        Paint::Checker { n, first, second } => {
            if (u64::from(x / *n) + u64::from(y / *n)) % 2 == 0 {
                *first
            } else {
                *second
            }
        }
        Paint::Ramp { first, second } => ramp_at(size.w, x, *first, *second),
        Paint::Row { pixels, .. } => pixel_of_row(pixels, x),
    }
}

/// The pixel of column `x` that a row has.
fn pixel_of_row(pixels: &Pixels, x: u32) -> Rgba
    requires { IsTrue (is_some (slice_get pixels.now x)) }
    ensures { slice_get pixels.now x ≡ Some result }
{
    pixels.as_slice()[x as usize]
}

/// The colour of column `x` of a ramp.
fn ramp_at(w: u32, x: u32, first: Rgba, second: Rgba) -> Rgba
    requires width { w ≤ MOST_SIDE }
    requires x { x < w }
    ensures { result ≡ ramp_colour w x first second }
{
    Rgba {
        r: ramp_channel_at(w, x, first.r, second.r),
        g: ramp_channel_at(w, x, first.g, second.g),
        b: ramp_channel_at(w, x, first.b, second.b),
        a: ramp_channel_at(w, x, first.a, second.a),
    }
}

/// One channel of column `x` of a ramp.
fn ramp_channel_at(w: u32, x: u32, first: u8, second: u8) -> u8
    requires width { w ≤ MOST_SIDE }
    requires x { x < w }
    ensures { result ≡ ramp_channel w x first second }
{
    if w == 1 {
        return first;
    }
    let mixed = (u32::from(first) * (w - 1 - x) + u32::from(second) * x) / (w - 1);
    mixed as u8
}
