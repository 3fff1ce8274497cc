//! A source and sinks that count their calls, and a writer that fails.

ghost use Rattle.std.specs.Prelude.{◌≡◌, Some};

use std::io;
use std::io::Write;
use wf_io::{Failed, MemorySink, MemorySource, Sink, Source};

/// A source that counts its calls. Behind a call that failed it gives on.
#[derive(Drop)]
pub(crate) struct Counted {
    pub(crate) source: MemorySource,
    pub(crate) calls: u64,
}

impl Source for Counted {
    ghost left = { λ s. Some s.source.left };

    ghost faults = { λ s. s.source.faults };

    fn take(&mut self, into: &mut [u8]) -> Result<usize, Failed> {
        self.calls = self.calls.saturating_add(1);
        self.source.take(into)
    }
}

/// A sink that counts its calls, and takes at most two bytes in a call where it is narrow. Behind a call that failed it takes on.
#[derive(Drop)]
pub(crate) struct Narrow {
    pub(crate) sink: MemorySink,
    pub(crate) is_narrow: bool,
    pub(crate) calls: u64,
}

impl Sink for Narrow {
    ghost took = { λ s bytes. s.sink.held ≡ bytes };

    ghost faults = { λ s. s.sink.faults };

    fn put(&mut self, bytes: &[u8]) -> Result<usize, Failed> {
        self.calls = self.calls.saturating_add(1);
        let most = if self.is_narrow { 2 } else { bytes.len() };
        self.sink.put(&bytes[..bytes.len().min(most)])
    }
}

/// A writer that takes no bytes, or whose flush fails.
#[derive(Drop)]
pub(crate) struct Broken {
    pub(crate) takes: bool,
}

impl Write for Broken {
    fn write(&mut self, bytes: &[u8]) -> io::Result<usize> {
        Ok(if self.takes { bytes.len() } else { 0 })
    }

    fn flush(&mut self) -> io::Result<()> {
        if self.takes {
            return Err(io::Error::from(io::ErrorKind::WouldBlock));
        }
        Ok(())
    }
}
