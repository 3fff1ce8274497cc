//! A sink that counts the bytes, and keeps none of them.

ghost use Rattle.std.specs.Prelude.{◌≡◌, [], ◌+◌, ◌<◌, ◌%◌, ◌^◌, length, sum, take, IfOk, IsOk, OnErr};
ghost use Rattle.std.specs.Io.{WritesAtMost};
ghost use Rattle.wf_io.specs.Causes.{HasCause};
ghost use Rattle.wf_io.specs.Bytes.{Puts, PutsNothing};
ghost use Rattle.wf_io.specs.Tally.{count_of};

use crate::lanes::sum_of_blocks;
use crate::sink::Sink;
use crate::source::Failed;
use std::marker::Model;

/// Takes each piece whole, never fails, and keeps two numbers alone: how many bytes were put, modulo 2^64, and their sum,
/// modulo 2^32.
#[derive(Drop)]
pub struct Tally {
    bytes: u64,
    total: u32,
}

impl Model for Tally {
    ghost use Rattle.wf_io.specs.Tally.{Count};

    ghost Value = { Count };

    ghost view = { λ t. record { bytes = t.bytes; total = t.total } };
}

impl Tally {
    /// Begins to count: nothing was put yet.
    pub fn new() -> Tally
        ensures { result ≡ count_of [] }
    {
        Tally { bytes: 0, total: 0 }
    }

    /// Returns how many bytes were put, modulo 2^64.
    pub fn bytes(&self) -> u64
        ensures { result ≡ self.now.bytes }
    {
        self.bytes
    }

    /// Returns the sum of the bytes that were put, modulo 2^32.
    pub fn sum(&self) -> u32
        ensures { result ≡ self.now.total }
    {
        self.total
    }
}

/// A sum with these bytes added one by one, modulo 2^32.
fn sum_with_each(total: u32, bytes: &[u8]) -> u32
    ensures { result ≡ (total + sum bytes.now) % 2 ^ 32 }
{
    let mut sum = total;
    for byte in bytes {
        sum = sum.wrapping_add(u32::from(*byte));
    }
    sum
}

/// A sum with these bytes added, modulo 2^32.
fn sum_with(total: u32, bytes: &[u8]) -> u32
    ensures { result ≡ (total + sum bytes.now) % 2 ^ 32 }
{
    let blocks = bytes.len() / 32;
    let sum = total.wrapping_add(sum_of_blocks(bytes, blocks));
    sum_with_each(sum, &bytes[32 * blocks..])
}

impl Sink for Tally {
    ghost took = { λ t bytes. t ≡ count_of bytes };

    ghost faults = { λ _. 0 };

    fn put(&mut self, bytes: &[u8]) -> Result<usize, Failed>
        ensures bound { WritesAtMost result bytes.now }
        ensures progress { IfOk result (λ n. 0 < length bytes.now → 0 < n) }
        ensures taken { IfOk result (λ n. Puts (λ t bytes. t ≡ count_of bytes) self.old self.new (take n bytes.now)) }
        ensures kept { OnErr result (PutsNothing (λ t bytes. t ≡ count_of bytes) self.old self.new) }
        ensures cause { HasCause 0 0 result }
        ensures whole { IfOk result (λ n. n ≡ length bytes.now) }
        ensures never { IsOk result }
    {
        self.bytes = self.bytes.wrapping_add(bytes.len() as u64);
        self.total = sum_with(self.total, bytes);
        Ok(bytes.len())
    }
}
