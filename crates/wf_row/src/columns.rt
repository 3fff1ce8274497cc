//! Columns of an image, one after the other. Where an image is large, its rows lie far from one another, and a visit to a row
//! costs the same for one pixel as for eight.

ghost use Rattle.std.specs.Prelude.{◌≡◌, ℕ, ◌+◌, ◌*◌, ◌<◌, ◌≤◌, All, length};
ghost use Rattle.wf_row.specs.Gather.{AreColumns, IsGathered, turned_lanes};

use crate::loading::{load_four, load_pixel};
use std::simd::prelude::*;

/// Writes into `out` eight columns of the image `src` at the rows `rows`, one after the other. The first column is named by
/// `column`, its pixel in row 0, and a row has `stride` pixels.
pub fn gather_columns(out: &mut [u8], src: &[u8], column: u32, stride: u32, rows: &[u16])
    requires out { length out.old ≡ 32 * length rows.now }
    requires within { All (λ r. 4 * (column + r * stride) + 32 ≤ length src.now) rows.now }
    ensures { AreColumns src.now column stride rows.now out.new }
{
    let fours = rows.len() / 4;
    for four in 0..fours {
        put_tile(out, src, column, stride, rows, 4 * four, 0);
        put_tile(out, src, column, stride, rows, 4 * four, 4);
    }
    for i in 4 * fours..rows.len() {
        let place = column as usize + rows[i] as usize * stride as usize;
        for j in 0..8 {
            let pixel = load_pixel(src, 4 * (place + j));
            pixel.copy_to_slice(&mut out[4 * (rows.len() * j + i)..]);
        }
    }
}

/// Writes four rows from row `i` on of four columns from column `j` on.
#[inline(always)]
fn put_tile(out: &mut [u8], src: &[u8], column: u32, stride: u32, rows: &[u16], i: usize, j: usize)
    requires out { length out.old ≡ 32 * length rows.now }
    requires within { All (λ r. 4 * (column + r * stride) + 32 ≤ length src.now) rows.now }
    requires i { i + 4 ≤ length rows.now }
    requires j { j ≤ 4 }
    ensures tile { (a b : ℕ) → i ≤ a → a < i + 4 → j ≤ b → b < j + 4
        → IsGathered src.now column stride rows.now out.new a b }
    ensures beside { (a b : ℕ) → a < length rows.now → IsGathered src.now column stride rows.now out.old a b
        → IsGathered src.now column stride rows.now out.new a b }
    ensures len { length out.new ≡ length out.old }
{
    let first = column as usize + j;
    let columns = turn_lanes(
        load_four(src, 4 * (first + rows[i] as usize * stride as usize)),
        load_four(src, 4 * (first + rows[i + 1] as usize * stride as usize)),
        load_four(src, 4 * (first + rows[i + 2] as usize * stride as usize)),
        load_four(src, 4 * (first + rows[i + 3] as usize * stride as usize)),
    );
    let n = rows.len();
    columns.0.copy_to_slice(&mut out[4 * (n * j + i)..]);
    columns.1.copy_to_slice(&mut out[4 * (n * (j + 1) + i)..]);
    columns.2.copy_to_slice(&mut out[4 * (n * (j + 2) + i)..]);
    columns.3.copy_to_slice(&mut out[4 * (n * (j + 3) + i)..]);
}

/// The first two pixels of each of two vectors, by turns.
const LEFT: [usize; 16] = [0, 1, 2, 3, 16, 17, 18, 19, 4, 5, 6, 7, 20, 21, 22, 23];

/// The last two.
const RIGHT: [usize; 16] = [8, 9, 10, 11, 24, 25, 26, 27, 12, 13, 14, 15, 28, 29, 30, 31];

/// The first two pixels of a vector, and then those of another one.
const LOWER: [usize; 16] = [0, 1, 2, 3, 4, 5, 6, 7, 16, 17, 18, 19, 20, 21, 22, 23];

/// The last two.
const UPPER: [usize; 16] = [8, 9, 10, 11, 12, 13, 14, 15, 24, 25, 26, 27, 28, 29, 30, 31];

/// Four rows of four pixels by their columns.
#[inline(always)]
fn turn_lanes(a: u8x16, b: u8x16, c: u8x16, d: u8x16) -> (u8x16, u8x16, u8x16, u8x16)
    requires a { length a ≡ 16 }
    requires b { length b ≡ 16 }
    requires c { length c ≡ 16 }
    requires d { length d ≡ 16 }
    ensures first { result.0 ≡ turned_lanes 0 a b c d }
    ensures second { result.1 ≡ turned_lanes 1 a b c d }
    ensures third { result.2 ≡ turned_lanes 2 a b c d }
    ensures fourth { result.3 ≡ turned_lanes 3 a b c d }
{
    let p = a.shuffle(b, LEFT);
    let q = c.shuffle(d, LEFT);
    let r = a.shuffle(b, RIGHT);
    let s = c.shuffle(d, RIGHT);
    (
        p.shuffle(q, LOWER),
        p.shuffle(q, UPPER),
        r.shuffle(s, LOWER),
        r.shuffle(s, UPPER),
    )
}
