//! Pixels at chosen places of a source, one after the other. A pixel goes through an array of four bytes: a copy from
//! slice to slice would ask at each pixel whether the two overlap.

ghost use Rattle.std.specs.Prelude.{◌≡◌, ◌+◌, ◌*◌, ◌<◌, ◌≤◌, All, length, None};
ghost use Rattle.std.specs.Simd.Lanes.{chunk};
ghost use Rattle.wf_row.specs.Bytes.{blended};
ghost use Rattle.wf_row.specs.Gather.{gathered_row, gathered_column};

use crate::AlphaMode;
use crate::copying::opaque_pixel;
use crate::loading::load_pixel;
use std::simd::prelude::*;

/// Writes into `out` the pixels of the row `src` at the columns `columns`.
pub fn gather_row(out: &mut [u8], src: &[u8], columns: &[u16])
    requires out { length out.old ≡ 4 * length columns.now }
    requires within { All (λ c. 4 * c + 4 ≤ length src.now) columns.now }
    ensures { out.new ≡ gathered_row src.now columns.now }
{
    for i in 0..columns.len() {
        let at = 4 * i;
        let pixel = pixel_at(src, columns[i] as usize);
        out[at..at + 4].copy_from_slice(&pixel);
    }
}

/// Lays the pixels of the row `src` at the columns `columns`, made opaque, over those of `row`.
pub fn copy_gathered_row(row: &mut [u8], src: &[u8], columns: &[u16])
    requires row { length row.old ≡ 4 * length columns.now }
    requires within { All (λ c. 4 * c + 4 ≤ length src.now) columns.now }
    ensures { row.new ≡ blended AlphaMode.Opaque None (gathered_row src.now columns.now) row.old }
{
    for i in 0..columns.len() {
        let pixel = load_pixel(src, 4 * columns[i] as usize);
        opaque_pixel(pixel).copy_to_slice(&mut row[4 * i..]);
    }
}

/// Writes into `out` the pixels of a column of the image `src` at the rows `rows`. The column is named by `column`, its pixel
/// in row 0, and a row has `stride` pixels.
pub fn gather_column(out: &mut [u8], src: &[u8], column: u32, stride: u32, rows: &[u16])
    requires out { length out.old ≡ 4 * length rows.now }
    requires within { All (λ r. 4 * (column + r * stride) + 4 ≤ length src.now) rows.now }
    ensures { out.new ≡ gathered_column src.now column stride rows.now }
{
    for i in 0..rows.len() {
        let at = 4 * i;
        let pixel = pixel_at(src, column as usize + rows[i] as usize * stride as usize);
        out[at..at + 4].copy_from_slice(&pixel);
    }
}

/// The bytes of a pixel by its number.
#[inline(always)]
fn pixel_at(src: &[u8], place: usize) -> [u8; 4]
    requires { 4 * place + 4 ≤ length src.now }
    ensures { result ≡ chunk (4 * place) 4 src.now }
{
    let at = 4 * place;
    [src[at], src[at + 1], src[at + 2], src[at + 3]]
}
