//! Vectors of the bytes of a row, and of its end, where fewer are left than a vector holds.

ghost use Rattle.std.specs.Prelude.{◌≡◌, ◌≤◌, ◌+◌, ◌++◌, length, drop, replicate};
ghost use Rattle.std.specs.Simd.Lanes.{chunk};
ghost use Rattle.wf_row.specs.Bytes.{AreBytes};

use std::simd::prelude::*;

/// The 32 bytes from a place on.
#[inline(always)]
pub(crate) fn load(bytes: &[u8], at: usize) -> u8x32
    requires { at + 32 ≤ length bytes.now }
    ensures value { result ≡ chunk at 32 bytes.now }
    ensures bytes { AreBytes 32 result }
{
    u8x32::from_slice(&bytes[at..])
}

/// Bytes, followed by zeros.
pub(crate) fn padded(bytes: &[u8]) -> u8x32
    requires { length bytes.now ≤ 32 }
    ensures value { result ≡ bytes.now ++ drop (length bytes.now) (replicate 32 0) }
    ensures bytes { AreBytes 32 result }
{
    let mut all = [0; 32];
    all[..bytes.len()].copy_from_slice(bytes);
    u8x32::from_array(all)
}

/// The 16 bytes from a place on.
#[inline(always)]
pub(crate) fn load_four(bytes: &[u8], at: usize) -> u8x16
    requires { at + 16 ≤ length bytes.now }
    ensures value { result ≡ chunk at 16 bytes.now }
    ensures bytes { AreBytes 16 result }
{
    u8x16::from_slice(&bytes[at..])
}

/// Bytes, followed by zeros.
pub(crate) fn padded_four(bytes: &[u8]) -> u8x16
    requires { length bytes.now ≤ 16 }
    ensures value { result ≡ bytes.now ++ drop (length bytes.now) (replicate 16 0) }
    ensures bytes { AreBytes 16 result }
{
    let mut all = [0; 16];
    all[..bytes.len()].copy_from_slice(bytes);
    u8x16::from_array(all)
}

/// The four bytes from a place on.
#[inline(always)]
pub(crate) fn load_pixel(bytes: &[u8], at: usize) -> u8x4
    requires { at + 4 ≤ length bytes.now }
    ensures value { result ≡ chunk at 4 bytes.now }
    ensures bytes { AreBytes 4 result }
{
    u8x4::from_slice(&bytes[at..])
}

/// The eight bytes from a place on.
#[inline(always)]
pub(crate) fn load_mask(bytes: &[u8], at: usize) -> u8x8
    requires { at + 8 ≤ length bytes.now }
    ensures value { result ≡ chunk at 8 bytes.now }
    ensures bytes { AreBytes 8 result }
{
    u8x8::from_slice(&bytes[at..])
}

/// Bytes of a mask, followed by zeros.
pub(crate) fn padded_mask(bytes: &[u8]) -> u8x8
    requires { length bytes.now ≤ 8 }
    ensures value { result ≡ bytes.now ++ drop (length bytes.now) (replicate 8 0) }
    ensures bytes { AreBytes 8 result }
{
    let mut all = [0; 8];
    all[..bytes.len()].copy_from_slice(bytes);
    u8x8::from_array(all)
}
