//! Adapters over std's readers and writers. A source tells the bytes that its reader tells: those of a slice, and
//! none of a file. What a writer has taken where it fails is outside of every proof, so a sink tells no bytes.

ghost use Rattle.std.specs.Prelude.{◌≡◌, ◌<◌, ◌≤◌, length, IfSome, ⊤};

use crate::sink::Sink;
use crate::source::{Failed, Source};
use std::io::{Read, Write};
use std::marker::Model;

/// A source over any reader.
#[derive(Drop)]
pub struct StdSource<R: Read> {
    reader: R,
    faults: u64,
}

impl<R: Read> Model for StdSource<R> {
    ghost use Rattle.wf_io.specs.Standard.{Reading};

    ghost Value = { Reading };

    ghost view = { λ s. record { left = R.remaining s.reader; faults = s.faults } };
}

impl<R: Read> StdSource<R> {
    /// Makes a source of what `reader` has left.
    pub fn new(reader: R) -> StdSource<R>
        ensures { result ≡ record { left = R.remaining reader; faults = 0 } }
    {
        StdSource { reader, faults: 0 }
    }

    /// Returns how many calls failed.
    pub fn faults(&self) -> u64
        ensures { result ≡ self.now.faults }
    {
        self.faults
    }
}

impl<R: Read> Source for StdSource<R> {
    ghost left = { λ s. s.left };

    ghost faults = { λ s. s.faults };

    fn take(&mut self, into: &mut [u8]) -> Result<usize, Failed> {
        match self.reader.read(into) {
            Ok(n) => Ok(n),
            Err(_) => {
                self.faults = self.faults.saturating_add(1);
                Err(Failed)
            }
        }
    }
}

/// A sink over any writer. The code flushes each piece before its call answers, which no clause says. Contracts see how often it failed.
#[derive(Drop)]
pub struct StdSink<W: Write> {
    writer: W,
    faults: u64,
}

impl<W: Write> Model for StdSink<W> {
    ghost use Rattle.std.specs.Prelude.{ℕ};

    ghost Value = { ℕ };

    ghost view = { λ s. s.faults };
}

impl<W: Write> StdSink<W> {
    /// Makes a sink over `writer`.
    pub fn new(writer: W) -> StdSink<W>
        ensures { result ≡ 0 }
    {
        StdSink { writer, faults: 0 }
    }

    /// Returns how many calls failed.
    pub fn faults(&self) -> u64
        ensures { result ≡ self.now }
    {
        self.faults
    }

    /// Writes a front of the bytes and flushes it; none where that fails, or where the writer takes no byte of
    /// a piece that has some.
    fn write_front(&mut self, bytes: &[u8]) -> Option<usize>
        ensures bound { IfSome result (λ n. n ≤ length bytes.now) }
        ensures progress { IfSome result (λ n. 0 < length bytes.now → 0 < n) }
        ensures faults { self.new ≡ self.old }
    {
        let n = self.writer.write(bytes).ok()?;
        if n == 0 && !bytes.is_empty() {
            return None;
        }
        self.writer.flush().ok()?;
        Some(n)
    }
}

impl<W: Write> Sink for StdSink<W> {
    ghost took = { λ _ _. ⊤ };

    ghost faults = { λ s. s };

    fn put(&mut self, bytes: &[u8]) -> Result<usize, Failed> {
        match self.write_front(bytes) {
            Some(n) => Ok(n),
            None => {
                self.faults = self.faults.saturating_add(1);
                Err(Failed)
            }
        }
    }
}
