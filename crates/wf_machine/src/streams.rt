//! The calls on streams.

ghost use Rattle.std.specs.Prelude.{◌≡◌, IfOk, IsErrOf, OnErr, OnOk, IsTrue, pos, length, ◌<◌, ◌+◌, ◌||◌, false};
ghost use Rattle.std.specs.Prelude.{true, Some};
ghost use Rattle.wf_model.specs.Names.{names};
ghost use Rattle.wf_words.specs.Whole.{count_of};
ghost use Rattle.wf_pixel.specs.Choice.{is_between};
ghost use Rattle.wf_life.specs.Handles.{is_full};
ghost use Rattle.wf_calls.specs.Codes.{is_out_of_memory};
ghost use Rattle.wf_stream.specs.Counts.{without_count};
ghost use Rattle.wf_stream.specs.Buffers.{discarded, posted};
ghost use Rattle.wf_stream.specs.Streams.{has_no_room, held, stream_at, with_live_stream};
ghost use Rattle.wf_model.specs.Streams.{acquirable, acquire_step, canvas_back, is_buffer_count, is_out_at_client, is_out_of};
ghost use Rattle.wf_model.specs.Streams.{may_make, new_buffers, stat, stream_destroy, stream_new, stream_step};
ghost use Rattle.wf_calls.specs.Replies.{bare, done, with_canvas};
ghost use Rattle.wf_machine.specs.Object.{IsSettled, settled_so};

use crate::frame::is_target;
use crate::parts::Parts;
use crate::replies::{giving_back_canvas, giving_canvas, refuse, refused, taking_canvas};
use wf_calls::{Answer, Code, StatWord};
use wf_image::Canvas;
use wf_life::MakeStop;
use wf_pixel::{Format, MOST_SIDE, Size};
use wf_stream::{MOST_DEPTH, Refused, Store, begin_name, end_name};

/// A number between two bounds, both included.
fn is_between(low: i64, high: i64, number: i64) -> bool
    ensures { result ≡ is_between low high number }
{
    low <= number && number <= high
}

/// Tells whether `number` is a count of buffers, from 2 to 4, or where a queue is made its depth, from 1 to `MOST_DEPTH`.
fn is_buffer_count(queue: bool, number: i64) -> bool
    ensures { result ≡ is_buffer_count queue number }
{
    if queue {
        is_between(1, i64::from(MOST_DEPTH), number)
    } else {
        is_between(2, 4, number)
    }
}

/// Tells whether the sides of a stream are from 1 to `MOST_SIDE`, and its count in its range.
fn may_make(queue: bool, width: i64, height: i64, number: i64) -> bool
    ensures { result ≡ may_make queue width height number }
{
    is_between(1, i64::from(MOST_SIDE), width)
        && is_between(1, i64::from(MOST_SIDE), height)
        && is_buffer_count(queue, number)
}

/// A number of a call that is a count of at most `MOST_SIDE`.
fn count(number: i64) -> u32
    requires { IsTrue (is_between (pos 1) (pos MOST_SIDE) number) }
    ensures { result ≡ count_of number }
{
    number as u32
}

/// Makes a stream whose numbers are in their ranges: a queue of depth `number` where `queue` is set, and else a plain one with
/// `number` buffers.
fn make(
    store: &mut Store,
    queue: bool,
    width: i64,
    height: i64,
    format: Format,
    number: i64,
) -> Result<u32, MakeStop>
    requires { IsTrue (may_make queue width height number) }
    ensures handle { IfOk result (λ handle. handle ≡ store.old.made + 1) }
    ensures made { OnOk result (store.new ≡ with_live_stream (new_buffers queue width height format number) store.old) }
    ensures uncounted { OnOk result (without_count (store.old.numbered + 1) store.old.counts ≡ store.old.counts) }
    ensures room { OnOk result (has_no_room (new_buffers queue width height format number) store.old.streams ≡ false) }
    ensures free { OnOk result (is_full store.old.made ≡ false) }
    ensures limit { IsErrOf result MakeStop.Limit
        → IsTrue (has_no_room (new_buffers queue width height format number) store.old.streams || is_full store.old.made) }
    ensures memory { IsErrOf result MakeStop.NoMemory
        → (has_no_room (new_buffers queue width height format number) store.old.streams || is_full store.old.made) ≡ false }
    ensures refused { OnErr result (store.new ≡ store.old) }
{
    let size = Size {
        w: count(width),
        h: count(height),
    };
    if queue {
        store.queue(size, format, count(number))
    } else {
        store.make(size, format, count(number))
    }
}

/// Tells whether no stream of these numbers, which are in their ranges, is made: too many are kept, or too many bytes, or all
/// handles were given.
fn at_limit(
    store: &Store,
    queue: bool,
    width: i64,
    height: i64,
    format: Format,
    number: i64,
) -> bool
    requires { IsTrue (may_make queue width height number) }
    ensures { result ≡ (has_no_room (new_buffers queue width height format number) store.now.streams || is_full store.now.made) }
{
    let size = Size {
        w: count(width),
        h: count(height),
    };
    if queue {
        store.at_limit(size, format, count(number) + 1)
    } else {
        store.at_limit(size, format, count(number))
    }
}

/// A canvas has the shape of a kept stream whose write buffer is out.
fn is_out_of(store: &Store, canvas: &Canvas) -> bool
    ensures { result ≡ is_out_of canvas.now (stream_at canvas.now.stream store.now.streams) }
{
    match store.get(canvas.stream) {
        Some(stream) => {
            stream.is_out()
                && stream.size() == canvas.image.size()
                && stream.format() == canvas.image.format()
        }
        None => false,
    }
}

impl Parts {
    /// Makes a stream: a queue of depth `number` where `queue` is set, and else a plain one with `number` buffers.
    pub(crate) fn stream_new(
        &mut self,
        queue: bool,
        width: i64,
        height: i64,
        format: Format,
        number: i64,
    ) -> Answer
        ensures made { stream_step self.old (stream_new queue width height format number (is_out_of_memory result.code) self.old)
            ≡ (self.new, bare result) }
        ensures settled { IsSettled self.new }
    {
        self.prove_all_named();
        if !may_make(queue, width, height, number) {
            return refuse(Code::IllegalArgument);
        }
        let handle = match make(&mut self.store, queue, width, height, format, number) {
            Ok(handle) => handle,
            Err(MakeStop::Limit) => return refuse(Code::Limit),
            Err(MakeStop::NoMemory) => return refuse(Code::OutOfMemory),
        };
        Answer::done(handle)
    }

    /// Refuses a stream for which there is no memory.
    pub(crate) fn deny_stream(
        &self,
        queue: bool,
        width: i64,
        height: i64,
        format: Format,
        number: i64,
    ) -> Answer
        ensures { stream_step self.now (stream_new queue width height format number true self.now) ≡ (self.now, bare result) }
    {
        if !may_make(queue, width, height, number) {
            return refuse(Code::IllegalArgument);
        }
        if at_limit(&self.store, queue, width, height, format, number) {
            return refuse(Code::Limit);
        }
        refuse(Code::OutOfMemory)
    }

    /// Ends the life of a stream's handle. The stream is kept while something else names it, and else dropped.
    pub(crate) fn stream_destroy(&mut self, stream: u32) -> Answer
        ensures { settled_so (stream_step self.old (stream_destroy stream self.old)) ≡ (self.new, bare result) }
    {
        let Ok(_) = self.store.number(stream) else {
            return refuse(Code::BadHandle);
        };
        self.store.kill(stream);
        Answer::done(0)
    }

    /// Shows the prover that each stream that is kept has a name. Does nothing at run time.
    pub(crate) fn prove_all_named(&self)
        ensures { IsSettled self.now }
    {
        let _store = &self.store;
    }

    /// How many names the stream of a number has.
    pub(crate) fn count(&self, stream: u32) -> u32
        requires { 0 < stream }
        ensures { result ≡ length (names self.now stream) }
    {
        self.store.count(stream)
    }

    /// What is kept.
    pub(crate) fn stat(&self, what: StatWord) -> Answer
        ensures { result ≡ done (stat what (held self.now.streams)) }
    {
        let held = self.store.held();
        match what {
            StatWord::Streams => Answer::done(held.streams),
            StatWord::Bytes => Answer::done(held.bytes as u32),
        }
    }

    /// Takes a stream's write buffer.
    pub(crate) fn acquire(&mut self, stream: u32) -> (Answer, Option<Canvas>)
        ensures acquired { acquire_step self.old (acquirable stream self.old) ≡ (self.new, with_canvas result) }
        ensures settled { IsSettled self.new }
    {
        let Ok(number) = self.store.number(stream) else {
            return refused(Code::BadHandle);
        };
        let canvas = match self.store.acquire(number) {
            Ok(canvas) => canvas,
            Err(Refused::Busy) => return refused(Code::Busy),
            Err(Refused::NoBuffer) => return refused(Code::NoBuffer),
        };
        self.core.prove_few_names();
        self.display.prove_few_names();
        begin_name(&mut self.store, number);
        giving_canvas(canvas)
    }

    /// A canvas is the write buffer of a kept stream, out at a client: not at the running frame.
    fn is_out_at_client(&self, canvas: &Canvas) -> bool
        ensures { result ≡ is_out_at_client canvas.now self.now }
    {
        !is_target(&self.frame, canvas.stream) && is_out_of(&self.store, canvas)
    }

    /// Posts a write buffer, which waits in its stream as a finished image.
    pub(crate) fn post(&mut self, canvas: Canvas) -> (Answer, Option<Canvas>)
        ensures { settled_so (canvas_back canvas (posted canvas.image) self.old) ≡ (self.new, with_canvas result) }
    {
        if !self.is_out_at_client(&canvas) {
            return giving_back_canvas(canvas);
        }
        let stream = canvas.stream;
        self.store.post(canvas);
        end_name(&mut self.store, stream);
        taking_canvas()
    }

    /// Gives a write buffer back unseen.
    pub(crate) fn discard(&mut self, canvas: Canvas) -> (Answer, Option<Canvas>)
        ensures { settled_so (canvas_back canvas discarded self.old) ≡ (self.new, with_canvas result) }
    {
        if !self.is_out_at_client(&canvas) {
            return giving_back_canvas(canvas);
        }
        let stream = canvas.stream;
        self.store.discard(canvas);
        end_name(&mut self.store, stream);
        taking_canvas()
    }
}
