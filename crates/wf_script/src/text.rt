//! The text that is printed, on its way into a sink.

ghost use Rattle.std.specs.Prelude.{◌≡◌, ◌+◌, ◌≤◌, [], ◌++◌, false, length};
ghost use Rattle.wf_script.specs.Text.{Adds, Ends, extent};

use arrayvec::ArrayVec;
use wf_io::{Sink, WriteStop, write_all};

/// The most bytes that are put as one piece.
const PIECE: usize = 4096;

/// The most bytes that are added in one call.
const MOST: usize = 64;

/// A text on its way into a sink: the bytes that wait to be put as one piece, how many were put, and whether the sink failed.
/// What is added after that is let go. The count stops at its greatest number, and each clause `most` helps to show that it never
/// comes there.
#[derive(Drop)]
pub(crate) struct Text {
    waiting: ArrayVec<u8, 4096>,
    written: usize,
    stopped: bool,
}

impl Text {
    /// The empty text.
    pub(crate) fn new() -> Text
        ensures waiting { result.waiting.items ≡ [] }
        ensures written { result.written ≡ 0 }
        ensures going { result.stopped ≡ false }
    {
        Text {
            waiting: ArrayVec::new(),
            written: 0,
            stopped: false,
        }
    }

    /// Adds bytes.
    pub(crate) fn add<K: Sink>(&mut self, k: &mut K, bytes: &[u8])
        requires { length bytes.now ≤ MOST }
        ensures adds { Adds K.took K.faults self.old k.old self.new k.new bytes.now }
        ensures most { extent self.new ≤ extent self.old + length bytes.now }
    {
        self.make_room(k, bytes.len());
        self.gather(bytes);
    }

    /// Makes room for so many bytes: puts those that wait, where they are too many.
    #[tactic(auto, using(crate::proofs::Additions::adds_none))]
    fn make_room<K: Sink>(&mut self, k: &mut K, count: usize)
        requires { count ≤ MOST }
        ensures adds { Adds K.took K.faults self.old k.old self.new k.new [] }
        ensures room { length self.new.waiting.items + count ≤ PIECE }
        ensures most { extent self.new ≤ extent self.old }
    {
        if self.waiting.len() + count > PIECE {
            self.put(k);
        }
    }

    /// Lets bytes wait.
    fn gather(&mut self, bytes: &[u8])
        requires { length self.old.waiting.items + length bytes.now ≤ PIECE }
        ensures waiting { self.new.waiting.items ≡ self.old.waiting.items ++ bytes.now }
        ensures written { self.new.written ≡ self.old.written }
        ensures stopped { self.new.stopped ≡ self.old.stopped }
    {
        for byte in bytes {
            self.waiting.push(*byte);
        }
    }

    /// Puts the bytes that wait.
    fn put<K: Sink>(&mut self, k: &mut K)
        ensures adds { Adds K.took K.faults self.old k.old self.new k.new [] }
        ensures none { self.new.waiting.items ≡ [] }
        ensures most { extent self.new ≤ extent self.old }
    {
        if !self.stopped {
            match write_all(k, self.waiting.as_slice()) {
                Ok(()) => self.written = self.written.saturating_add(self.waiting.len()),
                Err(stop) => {
                    self.written = self.written.saturating_add(stop.written);
                    self.stopped = true;
                }
            }
        }
        self.waiting.clear();
    }

    #[tactic(auto, using(crate::proofs::Additions::ends_stopped, crate::proofs::Additions::ends_whole))]
    /// Ends the text: puts what waits, and tells whether all was put.
    pub(crate) fn finish<K: Sink>(mut self, k: &mut K) -> Result<(), WriteStop>
        ensures { Ends K.took K.faults self k.old k.new result }
    {
        self.put(k);
        if self.stopped {
            return Err(WriteStop {
                written: self.written,
            });
        }
        Ok(())
    }
}
