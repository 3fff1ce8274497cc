//! The order of the bytes of a pixel, and rows that are put so.

ghost use Rattle.std.specs.Prelude.{◌≡◌, ◌+◌, ◌≤◌, ◌/◌, length};
ghost use Rattle.wf_host.specs.Rows.{ordered, put_at, swapped_to};

use std::simd::prelude::*;

/// The order in which the bytes of a pixel are copied.
#[derive(Clone, Copy, Debug, PartialEq, Eq)]
pub enum Order {
    /// R G B A, as in an image.
    Rgba,
    /// B G R A: a word of 32 bits, X R G B or A R G B from its highest byte down, where the lowest comes first.
    Bgra,
}

/// Writes the pixels of `row` into `out` from the place `at` on, each with its first and third byte in each other's place.
fn put_swapped(out: &mut [u8], at: usize, row: &[u8])
    requires { at + length row.now ≤ length out.old }
    ensures put { out.new ≡ put_at at (swapped_to row.now (length row.now / 4)) out.old }
    ensures size { length out.new ≡ length out.old }
{
    for x in 0..row.len() / 4 {
        let from = 4 * x;
        let pixel = u8x4::from_array([row[from + 2], row[from + 1], row[from], row[from + 3]]);
        pixel.copy_to_slice(&mut out[at + from..]);
    }
}

/// Writes `row` into `out` from the place `at` on, in an `order` of its bytes.
pub fn put_row(out: &mut [u8], at: usize, row: &[u8], order: Order)
    requires { at + length row.now ≤ length out.old }
    ensures put { out.new ≡ put_at at (ordered order row.now) out.old }
    ensures size { length out.new ≡ length out.old }
{
    match order {
        Order::Rgba => out[at..at + row.len()].copy_from_slice(row),
        Order::Bgra => put_swapped(out, at, row),
    }
}
