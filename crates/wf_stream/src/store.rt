//! The store: the handles of all objects, and the streams by number.

ghost use Rattle.std.specs.Prelude.{◌≡◌, ◌↔◌, ◌+◌, ◌<◌, ◌≤◌, ◌||◌, [], false, not, map, Some, option_copied};
ghost use Rattle.std.specs.Prelude.{IfOk, IfSome, OnOk, OnErr, IsErrOf, IsSome, IsTrue};
ghost use Rattle.std.specs.Result.{result_ok};
ghost use Rattle.wf_pixel.specs.Choice.{has_sides};
ghost use Rattle.wf_life.specs.Handles.{is_full, is_live, without};
ghost use Rattle.wf_stream.specs.Buffers.{fresh, fresh_queue};
ghost use Rattle.wf_stream.specs.Counts.{without_count};
ghost use Rattle.wf_stream.specs.Streams.{held, empty, with_screen, with_live_stream, with_other, has_no_room, number_of, key_in, is_alive};
ghost use Rattle.wf_stream.specs.Streams.{is_stream, count_in, killed, stream_at, unnamed, buffers_at, IsNumbered};
ghost use Rattle.wf_stream.specs.Streams.{count_of, hand_over, retained, released};
ghost use Rattle.wf_stream.specs.Names.{IsReleasable};

use crate::stream::{Stream, bytes_of};
use crate::streams::Streams;
use crate::{Held, MOST_BUFFERS, MOST_BYTES, MOST_DEPTH, MOST_STREAMS};
use std::alloc::Global;
use std::marker::Model;
use wf_image::NoMemory;
use wf_life::{BadHandle, Handles, Kind, MakeStop};
use wf_pixel::{Format, Size};

/// The handles of all objects, and the streams under numbers that count from 1 all that were ever made, screens
/// included. The handle table keeps a stream's number. A stream is kept as long as it has a name: its live handle, or its port where it
/// is a screen, and what else it is told of by `retain`.
///
/// No stream is lent for writing: each call on its buffers is a method of the store, and leaves its bytes as they are. So their sum
/// over all streams is kept, and changes where a stream is made or dropped.
#[derive(Drop)]
pub struct Store {
    alloc: Global,
    handles: Handles,
    pub(crate) streams: Streams,
    numbered: u32,
}

impl Model for Store {
    ghost use Rattle.wf_stream.specs.Streams.{StoreView};

    ghost Value = { StoreView };

    ghost use Rattle.wf_stream.specs.CrossReferences.{store_of, IsSound};

    ghost view = { store_of };

    ghost invariant = { IsSound };
}

impl Store {
    /// Makes a store without objects and streams. It cannot lack memory.
    pub fn new(alloc: Global) -> Store
        ensures { result ≡ empty }
    {
        Store {
            alloc,
            handles: Handles::new(alloc),
            streams: Streams::new(alloc),
            numbered: 0,
        }
    }

    /// Returns how many streams are kept, and their bytes.
    pub fn held(&self) -> Held
        ensures { result ≡ held self.now.streams }
    {
        Held {
            streams: self.streams.len(),
            bytes: self.streams.bytes(),
        }
    }

    /// Makes a screen's stream of `size`, which has three buffers and no handle, and returns its number. Fewer than four
    /// screens were made: then at most three more streams were numbered than handles were given.
    pub fn screen(&mut self, size: Size) -> Result<u32, NoMemory>
        requires sides { IsTrue (has_sides size) }
        requires few { self.old.numbered ≤ self.old.made + 3 }
        ensures number { IfOk result (λ number. number ≡ self.old.numbered + 1) }
        ensures screen { OnOk result (self.new ≡ with_screen size self.old) }
        ensures refused { OnErr result (self.new ≡ self.old) }
    {
        let number = self.numbered + 1;
        let stream = Stream::new(self.alloc, size, Format::Rgbx8, 3)?;
        self.streams.push(number, 0, stream)?;
        self.numbered = number;
        Ok(number)
    }

    /// Makes a plain stream of `size` and `format` with `buffers` buffers, and returns its handle.
    pub fn make(&mut self, size: Size, format: Format, buffers: u32) -> Result<u32, MakeStop>
        requires sides { IsTrue (has_sides size) }
        requires least { 2 ≤ buffers }
        requires most { buffers ≤ 4 }
        ensures handle { IfOk result (λ handle. handle ≡ self.old.made + 1) }
        ensures made { OnOk result (self.new ≡ with_live_stream (fresh size format buffers) self.old) }
        ensures uncounted { OnOk result (without_count (self.old.numbered + 1) self.old.counts ≡ self.old.counts) }
        ensures limit { IsErrOf result MakeStop.Limit ↔ IsTrue (has_no_room (fresh size format buffers) self.old.streams
            || is_full self.old.made) }
        ensures refused { OnErr result (self.new ≡ self.old) }
    {
        if self.at_limit(size, format, buffers) {
            return Err(MakeStop::Limit);
        }
        match Stream::new(self.alloc, size, format, buffers) {
            Ok(stream) => self.keep(stream),
            Err(_) => Err(MakeStop::NoMemory),
        }
    }

    /// Makes a queue stream of `size` and `format` in which at most `depth` images wait, and returns its handle.
    pub fn queue(&mut self, size: Size, format: Format, depth: u32) -> Result<u32, MakeStop>
        requires sides { IsTrue (has_sides size) }
        requires least { 1 ≤ depth }
        requires most { depth ≤ MOST_DEPTH }
        ensures handle { IfOk result (λ handle. handle ≡ self.old.made + 1) }
        ensures made { OnOk result (self.new ≡ with_live_stream (fresh_queue size format depth) self.old) }
        ensures uncounted { OnOk result (without_count (self.old.numbered + 1) self.old.counts ≡ self.old.counts) }
        ensures limit { IsErrOf result MakeStop.Limit ↔ IsTrue (has_no_room (fresh_queue size format depth) self.old.streams
            || is_full self.old.made) }
        ensures refused { OnErr result (self.new ≡ self.old) }
    {
        if self.at_limit(size, format, depth + 1) {
            return Err(MakeStop::Limit);
        }
        match Stream::queue(self.alloc, size, format, depth) {
            Ok(stream) => self.keep(stream),
            Err(_) => Err(MakeStop::NoMemory),
        }
    }

    /// Keeps `stream` under the next number, and returns the next handle, which it gives to it, while handles are left.
    fn keep(&mut self, stream: Stream) -> Result<u32, MakeStop>
        requires left { is_full self.old.made ≡ false }
        ensures handle { IfOk result (λ handle. handle ≡ self.old.made + 1) }
        ensures made { OnOk result (self.new ≡ with_live_stream stream self.old) }
        ensures uncounted { OnOk result (without_count (self.old.numbered + 1) self.old.counts ≡ self.old.counts) }
        ensures memory { OnErr result (IsErrOf result MakeStop.NoMemory) }
        ensures refused { OnErr result (self.new ≡ self.old) }
    {
        let number = self.numbered + 1;
        let Ok(_) = self.streams.push(number, 0, stream) else {
            return Err(MakeStop::NoMemory);
        };
        let Ok(handle) = self.handles.make(Kind::Stream, number) else {
            self.streams.release(number);
            return Err(MakeStop::NoMemory);
        };
        self.streams.hand_over(number, handle);
        self.numbered = number;
        Ok(handle)
    }

    /// Tells whether all 4,294,967,291 handles were given.
    pub fn full(&self) -> bool
        ensures { result ≡ is_full self.now.made }
    {
        self.handles.full()
    }

    /// Tells whether no further stream of `size` and `format` with `buffers` buffers is made: 64 are kept, there would be too
    /// many bytes, or all handles were given.
    pub fn at_limit(&self, size: Size, format: Format, buffers: u32) -> bool
        requires sides { IsTrue (has_sides size) }
        requires most { buffers ≤ MOST_BUFFERS }
        ensures { result ≡ (has_no_room (fresh size format buffers) self.now.streams || is_full self.now.made) }
    {
        has_no_room(&self.streams, size, format, buffers) || self.handles.full()
    }

    /// Gives a handle for an object of another `kind`, which keeps `key` for its owner.
    pub fn mint(&mut self, kind: Kind, key: u32) -> Result<u32, MakeStop>
        requires { IsTrue (not (is_stream kind)) }
        ensures handle { IfOk result (λ handle. handle ≡ self.old.made + 1) }
        ensures made { OnOk result (self.new ≡ with_other kind key self.old) }
        ensures limit { IsErrOf result MakeStop.Limit ↔ IsTrue (is_full self.old.made) }
        ensures refused { OnErr result (self.new ≡ self.old) }
    {
        self.handles.make(kind, key)
    }

    /// Returns the number of the live stream that has `handle`.
    pub fn number(&self, handle: u32) -> Result<u32, BadHandle>
        ensures number { result_ok result ≡ number_of handle self.now.streams }
        ensures numbered { IsNumbered 0 self.now.streams self.now.numbered }
    {
        self.handles.find(handle, Kind::Stream)
    }

    /// Returns the key of the live object of `kind` that has `handle`: a stream's is its number.
    pub fn find(&self, handle: u32, kind: Kind) -> Result<u32, BadHandle>
        ensures { result_ok result ≡ key_in handle kind self.now }
    {
        self.handles.find(handle, kind)
    }

    /// Ends the life of the object that has `handle`. A stream has one name fewer then, and is dropped where that was its last.
    pub fn kill(&mut self, handle: u32)
        requires { IsTrue (is_alive handle self.old) }
        ensures killed { self.new ≡ killed handle self.old }
        ensures other { IsTrue (is_live handle self.old.others) → self.new ≡ record self.old { others = without handle self.old.others } }
        ensures stream { IfSome (number_of handle self.old.streams)
            (λ n. self.new ≡ released n (record self.old { streams = map (unnamed handle) self.old.streams })) }
        ensures alone { IfSome (number_of handle self.old.streams)
            (λ n. map (unnamed handle) self.old.streams ≡ hand_over n 0 self.old.streams) }
    {
        let found = self.handles.find(handle, Kind::Stream);
        self.handles.kill(handle);
        if let Ok(number) = found {
            self.streams.take_handle(number);
        }
    }

    /// Counts one name more of the stream `number`, which is kept. Its count is below 4,294,967,295.
    pub fn retain(&mut self, number: u32)
        requires kept { IsSome (stream_at number self.old.streams) }
        requires room { count_of number self.old < 4294967295 }
        ensures { self.new ≡ retained number self.old }
    {
        self.streams.retain(number);
    }

    /// Counts one name fewer of the stream `number`, which is kept. Its count is 1 or more, and 2 or more while it has a live
    /// handle. The stream is dropped exactly where that was its last name.
    pub fn release(&mut self, number: u32)
        requires { IsReleasable number self.old }
        ensures { self.new ≡ released number self.old }
    {
        self.streams.release(number);
    }

    /// Returns how many names the stream `number` has; 0 where it is not kept.
    pub fn count(&self, number: u32) -> u32
        ensures { result ≡ count_of number self.now }
    {
        self.streams.count(number)
    }

    /// Returns how many objects of `kind` live.
    pub fn live(&self, kind: Kind) -> u32
        ensures { result ≡ count_in kind self.now }
    {
        self.handles.live(kind)
    }

    /// Returns the stream `number`, if it is kept.
    pub fn get(&self, number: u32) -> Option<&Stream>
        ensures value { option_copied result ≡ buffers_at number self.now.streams }
        ensures numbered { IsNumbered 0 self.now.streams self.now.numbered }
    {
        self.streams.get(number)
    }
}

/// Another stream is one too many, or its bytes are.
fn has_no_room(streams: &Streams, size: Size, format: Format, buffers: u32) -> bool
    requires sides { IsTrue (has_sides size) }
    requires most { buffers ≤ MOST_BUFFERS }
    ensures { result ≡ has_no_room (fresh size format buffers) streams.now.streams }
{
    streams.len() >= MOST_STREAMS || streams.bytes() + bytes_of(size, format, buffers) > MOST_BYTES
}
