//! The streams by number.

ghost use Rattle.std.specs.Prelude.{◌≡◌, ◌≢◌, ◌-◌, ◌*◌, ◌<◌, ◌≤◌, [], ◌∷◌, ◌++◌, length, option_copied, OnOk, OnErr};
ghost use Rattle.std.specs.Prelude.{IfOk, IfSome, IsErrOf, IsSome, IsSomeAnd, IsTrue, Some, true, false};
ghost use Rattle.std.specs.Option.{option_and_then};
ghost use Rattle.wf_image.specs.Bitmap.{blank};
ghost use Rattle.wf_stream.specs.Buffers.{HasShape, acquired, away, discarded, is_blocked, latched, next_image, posted, returned};
ghost use Rattle.wf_stream.specs.Streams.{held, IsNumbered, KeptStream, buffers_at, change_stream, hand_over, less_streams, stream_at};
ghost use Rattle.wf_stream.specs.Counts.{counted, one_name_more, less_counts, without_count};

use crate::STREAM_BYTES;
use crate::stream::{Refused, Stream};
use std::alloc::Global;
use std::collections::BTreeMap;
use std::marker::Model;
use wf_image::{Canvas, Image, NoMemory};
use wf_life::Pool;

/// The pool's key of a stream, and its live handle or 0.
#[derive(Clone, Copy)]
struct Place {
    key: usize,
    handle: u32,
}

/// The streams that are kept, by rising number, and the bytes of all their buffers.
#[derive(Drop)]
pub(crate) struct Streams {
    pool: Pool<Stream>,
    places: BTreeMap<u32, Place>,
    bytes: u64,
}

impl Model for Streams {
    ghost use Rattle.wf_stream.specs.Streams.{StreamTable};

    ghost Value = { StreamTable };

    ghost use Rattle.wf_stream.specs.StreamTable.{stream_table, IsSound};

    ghost view = { stream_table };

    ghost invariant = { IsSound };
}

impl Streams {
    /// No streams. It cannot lack memory.
    pub(crate) fn new(alloc: Global) -> Streams
        ensures { result ≡ record { streams = []; counts = [] } }
    {
        Streams {
            pool: Pool::new(alloc),
            places: BTreeMap::new(alloc),
            bytes: 0,
        }
    }

    /// How many there are.
    pub(crate) fn len(&self) -> u32
        ensures { result ≡ length self.now.streams }
    {
        self.places.len() as u32
    }

    /// The bytes of all their buffers.
    pub(crate) fn bytes(&self) -> u64
        ensures bytes { result ≡ (held self.now.streams).bytes }
        ensures small { result ≤ STREAM_BYTES * 4294967295 }
    {
        self.bytes
    }

    /// Keeps a stream that has one name under a number above all others.
    pub(crate) fn push(&mut self, number: u32, handle: u32, stream: Stream) -> Result<(), NoMemory>
        requires counted { 0 < number }
        requires above { IsNumbered 0 self.old.streams (number - 1) }
        ensures pushed { OnOk result (self.new ≡ record self.old {
          streams = self.old.streams
              ++ record { number = number; handle = handle; buffers = stream } ∷ [];
          counts = self.old.counts ++ (number, 1) ∷ [];
        }) }
        ensures uncounted { OnOk result (without_count number self.old.counts ≡ self.old.counts) }
        ensures refused { OnErr result (self.new ≡ self.old) }
    {
        let bytes = stream.bytes();
        let Ok(key) = self.pool.put(stream) else {
            return Err(NoMemory);
        };
        let Ok(_) = self.places.insert(number, Place { key, handle }) else {
            drop(self.pool.release(key));
            return Err(NoMemory);
        };
        self.bytes += bytes;
        Ok(())
    }

    /// One name more of the stream of a number.
    pub(crate) fn retain(&mut self, number: u32)
        requires { counted number self.old.counts < 4294967295 }
        ensures { self.new ≡ record self.old { counts = one_name_more number self.old.counts } }
    {
        if let Some(place) = self.places.get(&number) {
            self.pool.retain(place.key);
        }
    }

    /// One name fewer of the stream of a number, which is dropped where that was its last.
    pub(crate) fn release(&mut self, number: u32)
        ensures { self.new ≡ record self.old {
          streams = less_streams number self.old.counts self.old.streams;
          counts = less_counts number self.old.counts;
        } }
    {
        let Some(place) = self.places.get(&number) else {
            return;
        };
        if let Some(stream) = self.pool.release(place.key) {
            self.bytes -= stream.bytes();
            self.places.remove(&number);
        }
    }

    /// How many names the stream of a number has; 0 where none is kept.
    pub(crate) fn count(&self, number: u32) -> u32
        ensures { result ≡ counted number self.now.counts }
    {
        match self.places.get(&number) {
            Some(place) => self.pool.count(place.key),
            None => 0,
        }
    }

    /// Puts the stream of a number under this handle, or under none by 0.
    pub(crate) fn hand_over(&mut self, number: u32, handle: u32)
        ensures { self.new ≡ record self.old { streams = hand_over number handle self.old.streams } }
    {
        set_handle(&mut self.places, number, handle);
    }

    /// Takes the handle of the stream of a number away, and the name that it is.
    pub(crate) fn take_handle(&mut self, number: u32)
        ensures { self.new ≡ record self.old {
          streams = less_streams number self.old.counts (hand_over number 0 self.old.streams);
          counts = less_counts number self.old.counts;
        } }
    {
        self.hand_over(number, 0);
        self.release(number);
    }

    /// The stream of a number.
    pub(crate) fn get(&self, number: u32) -> Option<&Stream>
        ensures { option_copied result ≡ buffers_at number self.now.streams }
    {
        match self.places.get(&number) {
            Some(place) => self.pool.get(place.key),
            None => None,
        }
    }

    /// Takes the write buffer of a stream that is kept.
    pub(crate) fn acquire(&mut self, number: u32) -> Result<Canvas, Refused>
        requires { IsSome (stream_at number self.old.streams) }
        ensures canvas { IfOk result (λ canvas. (s : KeptStream) → stream_at number self.old.streams ≡ Some s
            → canvas ≡ record { stream = number; image = blank s.buffers.size s.buffers.format }) }
        ensures free { OnOk result ((s : KeptStream) → stream_at number self.old.streams ≡ Some s → (s.buffers.out ≡ false)
            × (is_blocked s.buffers ≡ false)) }
        ensures acquired { OnOk result (self.new ≡ record self.old { streams = change_stream number acquired self.old.streams }) }
        ensures busy { IsErrOf result Refused.Busy → (s : KeptStream) → stream_at number self.old.streams ≡ Some s
            → s.buffers.out ≡ true }
        ensures no_buffer { IsErrOf result Refused.NoBuffer → (s : KeptStream) → stream_at number self.old.streams ≡ Some s
            → (s.buffers.out ≡ false) × (is_blocked s.buffers ≡ true) }
        ensures refused { OnErr result (self.new ≡ self.old) }
    {
        let Some(place) = self.places.get(&number) else {
            unreachable!()
        };
        match self.pool.get_mut(place.key) {
            Some(stream) => stream.acquire(number),
            None => unreachable!(),
        }
    }

    /// Posts a write buffer, which waits in its stream as a finished image, if that is kept.
    pub(crate) fn post(&mut self, canvas: Canvas)
        requires { IfSome (buffers_at canvas.stream self.old.streams) (λ b. IsTrue b.out × HasShape b.size b.format canvas.image) }
        ensures { self.new ≡ record self.old { streams = change_stream canvas.stream (posted canvas.image) self.old.streams } }
    {
        let Some(place) = self.places.get(&canvas.stream) else {
            return;
        };
        match self.pool.get_mut(place.key) {
            Some(stream) => stream.post(canvas),
            None => unreachable!(),
        }
    }

    /// Gives a write buffer back to its stream unseen, if that is kept.
    pub(crate) fn discard(&mut self, canvas: Canvas)
        requires { IfSome (buffers_at canvas.stream self.old.streams) (λ b. IsTrue b.out × HasShape b.size b.format canvas.image) }
        ensures { self.new ≡ record self.old { streams = change_stream canvas.stream discarded self.old.streams } }
    {
        let Some(place) = self.places.get(&canvas.stream) else {
            return;
        };
        match self.pool.get_mut(place.key) {
            Some(stream) => stream.discard(canvas),
            None => unreachable!(),
        }
    }

    /// Takes the next image of a stream, if that is kept and has one. It is away until it is given back.
    pub(crate) fn latch(&mut self, number: u32) -> Option<Image>
        requires { IfSome (buffers_at number self.old.streams) (λ b. b.read ≢ away) }
        ensures image { result ≡ option_and_then next_image (buffers_at number self.old.streams) }
        ensures shape { IfSome result (λ image. IsSomeAnd (buffers_at number self.old.streams) (λ b. HasShape b.size b.format image)) }
        ensures latched { self.new ≡ record self.old { streams = change_stream number latched self.old.streams } }
    {
        let place = self.places.get(&number)?;
        match self.pool.get_mut(place.key) {
            Some(stream) => stream.latch(),
            None => unreachable!(),
        }
    }

    /// Brings an image home to its stream, if that is kept.
    pub(crate) fn give_back(&mut self, number: u32, image: Image)
        requires { IfSome (buffers_at number self.old.streams) (λ b. (b.read ≡ away) × HasShape b.size b.format image) }
        ensures { self.new ≡ record self.old { streams = change_stream number (returned image) self.old.streams } }
    {
        let Some(place) = self.places.get(&number) else {
            return;
        };
        match self.pool.get_mut(place.key) {
            Some(stream) => stream.give_back(image),
            None => unreachable!(),
        }
    }
}

ghost use Rattle.wf_stream.specs.Placed.{placed, with_handle};

/// Puts the place of a number under this handle, where there is one.
fn set_handle(places: &mut BTreeMap<u32, Place>, number: u32, handle: u32)
    ensures { places.new.entries ≡ placed number (with_handle handle) places.old.entries }
{
    if let Some(place) = places.get_mut(&number) {
        place.handle = handle;
    }
}
