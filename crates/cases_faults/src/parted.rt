//! A sink that takes a piece in parts.

ghost use Rattle.std.specs.Prelude.{◌≡◌};

use wf_io::{Failed, MemorySink, Sink};

/// A sink that takes at most so many bytes in a call, and one at least.
#[derive(Drop)]
pub(crate) struct Parted {
    pub(crate) sink: MemorySink,
    pub(crate) most: usize,
}

impl Sink for Parted {
    ghost took = { λ s bytes. s.sink.held ≡ bytes };

    ghost faults = { λ s. s.sink.faults };

    fn put(&mut self, bytes: &[u8]) -> Result<usize, Failed> {
        self.sink.put(&bytes[..bytes.len().min(self.most.max(1))])
    }
}
