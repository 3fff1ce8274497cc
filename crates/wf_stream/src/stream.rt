//! One stream: its buffers, which are free, out, waiting or read.

ghost use Rattle.std.specs.Prelude.{◌≡◌, ◌↔◌, ◌*◌, ◌<◌, ◌≤◌, ◌≢◌, not, ◌&&◌, IfOk, OnOk, OnErr, IfSome, IsErrOf, IsTrue};
ghost use Rattle.std.specs.List.{All};
ghost use Rattle.std.specs.Vec.{vec_len, vec_capacity};
ghost use Rattle.wf_pixel.specs.Choice.{has_sides};
ghost use Rattle.wf_image.specs.Bitmap.{blank, image_bytes};
ghost use Rattle.wf_stream.specs.Buffers.{fresh, fresh_queue, acquired, posted, discarded, next_image};
ghost use Rattle.wf_stream.specs.Buffers.{latched, latched_if, returned, is_blocked, away};
ghost use Rattle.wf_stream.specs.Buffers.{HasShape, buffer_bytes};

use crate::{MOST_BUFFERS, MOST_DEPTH, STREAM_BYTES};
use circular_buffer::HeapCircularBuffer;
use std::alloc::Global;
use std::marker::Model;
use std::mem;
use wf_image::{Canvas, Image, NoMemory, bytes_of_pixel};
use wf_pixel::{Format, Size};

/// Why no write buffer was given.
#[derive(Clone, Copy, Debug, PartialEq, Eq)]
pub enum Refused {
    /// The write buffer is out.
    Busy,
    /// None is out, and none may be taken.
    NoBuffer,
}

/// The read buffer: not there yet, away in the running frame, or home.
#[derive(Drop)]
enum Read {
    Never,
    Away,
    Home(Image),
}

/// A size, a format, and buffers of them. At most one is out for writing, and at most one is read. Finished images that no frame
/// took wait in order, and the others are free. In a plain stream, of depth 0, at most one waits, the newest; in a queue at most
/// as many as its depth. All buffers are taken when the stream is made, so no later call takes memory, and none copies an image.
#[derive(Drop)]
pub struct Stream {
    size: Size,
    format: Format,
    buffers: u32,
    depth: u32,
    out: bool,
    waiting: HeapCircularBuffer<Image>,
    read: Read,
    free: Vec<Image>,
}

impl Model for Stream {
    ghost use Rattle.wf_stream.specs.Buffers.{Buffers};

    ghost Value = { Buffers };

    ghost use Rattle.wf_stream.specs.Inside.{buffers_of, IsSound};

    ghost view = { buffers_of };

    ghost invariant = { IsSound };
}

impl Stream {
    /// Makes a plain stream of `size` and `format` without any post, with all its `buffers` buffers.
    pub fn new(alloc: Global, size: Size, format: Format, buffers: u32) -> Result<Stream, NoMemory>
        requires sides { IsTrue (has_sides size) }
        requires least { 2 ≤ buffers }
        requires most { buffers ≤ 4 }
        ensures { IfOk result (λ stream. stream ≡ fresh size format buffers) }
    {
        let free = images(alloc, size, format, buffers)?;
        let waiting = HeapCircularBuffer::with_capacity(alloc, 1)?;
        Ok(Stream {
            size,
            format,
            buffers,
            depth: 0,
            out: false,
            waiting,
            read: Read::Never,
            free,
        })
    }

    /// Makes a queue stream of `size` and `format` without any post, with all its buffers: one more than its `depth`.
    pub fn queue(alloc: Global, size: Size, format: Format, depth: u32) -> Result<Stream, NoMemory>
        requires sides { IsTrue (has_sides size) }
        requires least { 1 ≤ depth }
        requires most { depth ≤ MOST_DEPTH }
        ensures { IfOk result (λ stream. stream ≡ fresh_queue size format depth) }
    {
        let buffers = depth + 1;
        let free = images(alloc, size, format, buffers)?;
        let waiting = HeapCircularBuffer::with_capacity(alloc, depth as usize)?;
        Ok(Stream {
            size,
            format,
            buffers,
            depth,
            out: false,
            waiting,
            read: Read::Never,
            free,
        })
    }

    /// Returns width and height in pixels.
    pub fn size(&self) -> Size
        ensures size { result ≡ self.now.size }
        ensures sides { IsTrue (has_sides result) }
    {
        self.size
    }

    /// Returns how the bytes of its images are read.
    pub fn format(&self) -> Format
        ensures { result ≡ self.now.format }
    {
        self.format
    }

    /// Tells whether its write buffer is out.
    pub fn is_out(&self) -> bool
        ensures { result ≡ self.now.out }
    {
        self.out
    }

    /// The bytes of all its buffers.
    pub(crate) fn bytes(&self) -> u64
        ensures bytes { result ≡ buffer_bytes self.now }
        ensures most { result ≤ STREAM_BYTES }
    {
        bytes_of(self.size, self.format, self.buffers)
    }

    /// Tells whether no buffer may be taken for writing: none is free, or in a queue as many images wait as its depth.
    fn is_blocked(&self) -> bool
        ensures { result ≡ is_blocked self.now }
    {
        if self.depth == 0 {
            self.free.is_empty()
        } else {
            self.waiting.is_full()
        }
    }

    /// Tells the same of the stream after a `latch`, which makes room in a queue, and in a plain stream where it frees the read
    /// buffer.
    fn is_blocked_latched(&self) -> bool
        requires { self.now.read ≢ away }
        ensures { result ≡ is_blocked (latched self.now) }
    {
        let makes_room = self.depth > 0 || !self.waiting.is_empty() && self.read.is_home();
        self.is_blocked() && !makes_room
    }

    /// Tells whether a buffer may be taken for writing: now, or where `latched` is set after a `latch`.
    pub fn roomy(&self, latched: bool) -> bool
        requires { IsTrue latched → self.now.read ≢ away }
        ensures { result ≡ not (is_blocked (latched_if latched self.now)) }
    {
        if latched {
            !self.is_blocked_latched()
        } else {
            !self.is_blocked()
        }
    }

    /// Takes a free buffer, all zero, to be written for the stream `number`.
    pub fn acquire(&mut self, number: u32) -> Result<Canvas, Refused>
        ensures canvas { IfOk result (λ canvas. canvas ≡ record { stream = number; image = blank self.old.size self.old.format }) }
        ensures acquired { OnOk result (self.new ≡ acquired self.old) }

        ensures busy { IsErrOf result Refused.Busy ↔ IsTrue self.old.out }
        ensures no_buffer { IsErrOf result Refused.NoBuffer ↔ IsTrue (not self.old.out && is_blocked self.old) }
        ensures refused { OnErr result (self.new ≡ self.old) }
    {
        if self.out {
            return Err(Refused::Busy);
        }
        if self.is_blocked() {
            return Err(Refused::NoBuffer);
        }
        let Some(mut image) = self.free.pop() else {
            unreachable!()
        };
        clear(&mut image);
        self.out = true;
        Ok(Canvas {
            stream: number,
            image,
        })
    }

    /// Takes the write buffer `c` as finished. A finished one that no frame took is free again.
    /// Takes the write buffer `c` as finished. An image that waits in a plain stream is free again.
    pub fn post(&mut self, c: Canvas)
        requires out { IsTrue self.old.out }
        requires shape { HasShape self.old.size self.old.format c.image }
        ensures { self.new ≡ posted c.image self.old }
    {
        self.out = false;
        if let Some(image) = self.waiting.push_back(c.image) {
            self.free.push_reserved(image);
        }
    }

    /// Takes the write buffer `c` as free again, and drops what is on it.
    pub fn discard(&mut self, c: Canvas)
        requires out { IsTrue self.old.out }
        requires shape { HasShape self.old.size self.old.format c.image }
        ensures { self.new ≡ discarded self.old }
    {
        self.free.push_reserved(c.image);
        self.out = false;
    }

    /// Takes the oldest image that waits, or else the one that was taken last, for a frame. It is away until the frame gives it
    /// back.
    pub fn latch(&mut self) -> Option<Image>
        requires { self.old.read ≢ away }
        ensures image { result ≡ next_image self.old }
        ensures shape { IfSome result (HasShape self.old.size self.old.format) }
        ensures latched { self.new ≡ latched self.old }
    {
        let before = self.read.leave();
        let Some(image) = self.waiting.pop_front() else {
            return before;
        };
        self.read = Read::Away;
        if let Some(old) = before {
            self.free.push_reserved(old);
        }
        Some(image)
    }

    /// Takes the image `i` of a frame home again.
    pub fn give_back(&mut self, i: Image)
        requires away { self.old.read ≡ away }
        requires shape { HasShape self.old.size self.old.format i }
        ensures { self.new ≡ returned i self.old }
    {
        self.read = Read::Home(i);
    }
}

impl Read {
    ghost use Rattle.wf_stream.specs.Inside.{read_of, left_of};
    ghost use Rattle.wf_stream.specs.Buffers.{home_image, read_count};
    ghost use Rattle.std.specs.Prelude.{is_some};

    /// The read buffer is there and home.
    fn is_home(&self) -> bool
        ensures { result ≡ is_some (home_image (read_of self.now)) }
    {
        match self {
            Read::Home(_) => true,
            _ => false,
        }
    }

    /// The image that is home goes away.
    fn leave(&mut self) -> Option<Image>
        ensures image { result ≡ home_image (read_of self.old) }
        ensures count { IfSome result (λ _. read_count (read_of self.old) ≡ 1) }
        ensures left { self.new ≡ left_of self.old }
    {
        match mem::replace(self, Read::Away) {
            Read::Home(image) => Some(image),
            Read::Away => None,
            Read::Never => {
                *self = Read::Never;
                None
            }
        }
    }
}

/// Images of one size and format.
fn images(alloc: Global, size: Size, format: Format, count: u32) -> Result<Vec<Image>, NoMemory>
    requires { IsTrue (has_sides size) }
    ensures count { IfOk result (λ images. vec_len images ≡ count) }
    ensures room { IfOk result (λ images. vec_capacity images ≡ count) }
    ensures shapes { IfOk result (λ images. All (HasShape size format) images.items) }
{
    let count = count as usize;
    let mut images = Vec::with_capacity(alloc, count)?;
    while images.len() < count {
        images.push_reserved(Image::new(alloc, size, format)?);
    }
    Ok(images)
}

/// Every byte of an image becomes 0.
fn clear(image: &mut Image)
    ensures { image.new ≡ blank image.old.size image.old.format }
{
    image.bytes_mut().fill(0);
}

/// The bytes of buffers of one size and format.
pub(crate) fn bytes_of(size: Size, format: Format, buffers: u32) -> u64
    requires sides { IsTrue (has_sides size) }
    requires most { buffers ≤ MOST_BUFFERS }
    ensures bytes { result ≡ image_bytes size format * buffers }
    ensures most { result ≤ STREAM_BYTES }
{
    size.w as u64 * size.h as u64 * bytes_of_pixel(format) as u64 * buffers as u64
}
