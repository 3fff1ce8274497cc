//! Streams of images, and the store that keeps them.
#![tactic(auto)]

mod buffering;
mod laws;
mod naming;
mod store;
mod stream;
mod streams;

pub use laws::queues_keep_the_order;
pub use naming::{begin_name, end_name};
pub use store::Store;
pub use stream::{Refused, Stream};
pub use wf_life::{BadHandle, Kind, MakeStop};
use wf_pixel::MOST_SIDE;

/// How many streams are kept at most, with the screens.
pub const MOST_STREAMS: u32 = 64;

/// How many bytes their buffers have at most: those of 32 images of the highest sides, 4 bytes a pixel.
pub const MOST_BYTES: u64 = 128 * MOST_SIDE as u64 * MOST_SIDE as u64;

/// How many images wait in a queue stream at most.
pub const MOST_DEPTH: u32 = 8;

/// How many buffers a stream has at most: one more than a queue's greatest depth.
pub const MOST_BUFFERS: u32 = MOST_DEPTH + 1;

/// The most bytes of one stream: all its buffers of the highest sides, 4 bytes a pixel.
pub const STREAM_BYTES: u64 = MOST_BUFFERS as u64 * 4 * MOST_SIDE as u64 * MOST_SIDE as u64;

/// The most bytes of a screen: three buffers.
pub const SCREEN_BYTES: u64 = 3 * 4 * MOST_SIDE as u64 * MOST_SIDE as u64;

/// How many streams are kept, and the bytes of all their buffers.
#[derive(Clone, Copy, Debug, PartialEq, Eq)]
pub struct Held {
    pub streams: u32,
    pub bytes: u64,
}
