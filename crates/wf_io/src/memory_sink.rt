//! A sink that keeps its bytes in memory, which fails where it is told to.

ghost use Rattle.std.specs.Prelude.{◌≡◌, [], ◌+◌, ◌<◌, ◌++◌, ◌↔◌, length, take, ◌≤◌, ◌⊎◌, vec_capacity, IsErr, IfOk, OnOk, OnErr, Contains};
ghost use Rattle.std.specs.Io.{WritesAtMost};
ghost use Rattle.wf_io.specs.Causes.{HasCause};
ghost use Rattle.wf_io.specs.Bytes.{Puts, PutsNothing};
ghost use Rattle.wf_io.specs.Doubles.{next_count};

use crate::NoMemory;
use crate::memory_source::is_listed;
use crate::sink::Sink;
use crate::source::Failed;
use std::alloc::Global;
use std::marker::Model;

/// Keeps what is put into it, each piece whole. The calls of `put` are counted from 1: those whose numbers
/// are in `failing` fail, and so does one whose piece would pass `room` bytes in all. A call that fails
/// takes nothing.
#[derive(Drop)]
pub struct MemorySink {
    held: Vec<u8>,
    room: usize,
    failing: Vec<u32>,
    calls: u64,
    faults: u64,
}

impl Model for MemorySink {
    ghost use Rattle.std.specs.Prelude.{◌≤◌, length, vec_capacity};
    ghost use Rattle.wf_io.specs.Doubles.{Store};

    ghost Value = { Store };

    ghost view = { λ s. record { held = s.held.items; room = s.room; failing = s.failing.items; calls = s.calls; faults = s.faults } };

    ghost invariant = { λ s. (length s.held.items ≤ s.room) × (s.room ≤ vec_capacity s.held) };
}

impl MemorySink {
    /// Makes an empty sink with room for `room` bytes, which it takes at once. Its calls of the numbers in `failing` fail.
    pub fn new(alloc: Global, room: usize, failing: Vec<u32>) -> Result<MemorySink, NoMemory>
        ensures { IfOk result (λ sink. sink ≡ record { held = []; room = room; failing = failing.items; calls = 0; faults = 0 }) }
    {
        let held = Vec::with_capacity(alloc, room)?;
        Ok(MemorySink {
            held,
            room,
            failing,
            calls: 0,
            faults: 0,
        })
    }

    /// Returns the bytes that were put.
    pub fn bytes(&self) -> &[u8]
        ensures { result.now ≡ self.now.held }
    {
        &self.held
    }

    /// Returns how many calls failed.
    pub fn faults(&self) -> u64
        ensures { result ≡ self.now.faults }
    {
        self.faults
    }
}

impl Sink for MemorySink {
    ghost took = { λ s bytes. s.held ≡ bytes };

    ghost faults = { λ s. s.faults };

    fn put(&mut self, bytes: &[u8]) -> Result<usize, Failed>
        ensures bound { WritesAtMost result bytes.now }
        ensures progress { IfOk result (λ n. 0 < length bytes.now → 0 < n) }
        ensures taken { IfOk result (λ n. Puts (λ s bytes. s.held ≡ bytes) self.old self.new (take n bytes.now)) }
        ensures kept { OnErr result (PutsNothing (λ s bytes. s.held ≡ bytes) self.old self.new) }
        ensures cause { HasCause self.old.faults self.new.faults result }
        ensures fails { IsErr result ↔ (Contains self.old.failing (next_count self.old.calls) ⊎
            (self.old.room < length self.old.held + length bytes.now)) }
        ensures whole { IfOk result (λ n. n ≡ length bytes.now) }
        ensures put { OnOk result (self.new ≡ record self.old { held = self.old.held ++ bytes.now; calls = next_count self.old.calls }) }
        ensures failed { OnErr result (self.new ≡ record self.old {
          calls = next_count self.old.calls;
          faults = next_count self.old.faults;
        }) }
    {
        self.calls = self.calls.saturating_add(1);
        if is_listed(&self.failing, self.calls) || bytes.len() > self.room - self.held.len() {
            self.faults = self.faults.saturating_add(1);
            return Err(Failed);
        }
        push_reserved_all(&mut self.held, bytes);
        Ok(bytes.len())
    }
}

/// Appends bytes for which there is room.
fn push_reserved_all(held: &mut Vec<u8>, bytes: &[u8])
    requires { length held.old.items + length bytes.now ≤ vec_capacity held.old }
    ensures items { held.new.items ≡ held.old.items ++ bytes.now }
    ensures room { vec_capacity held.old ≤ vec_capacity held.new }
{
    let _ = held.extend_from_slice(bytes);
}
