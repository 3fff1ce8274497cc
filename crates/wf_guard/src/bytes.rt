//! How many bytes a request for a new stream asks for.

ghost use Rattle.std.specs.Prelude.{◌≡◌, ◌≤◌, IsTrue, pos};
ghost use Rattle.wf_words.specs.Whole.{count_of};
ghost use Rattle.wf_pixel.specs.Choice.{is_between};
ghost use Rattle.wf_pixel.specs.declared.TheConstants.{MOST_SIDE};
ghost use Rattle.wf_model.specs.Streams.{is_buffer_count, may_make};
ghost use Rattle.wf_guard.specs.Requests.{asked_bytes, stream_bytes};

use wf_calls::Request;
use wf_image::bytes_of_pixel;
use wf_pixel::{Format, MOST_SIDE};
use wf_stream::MOST_DEPTH;

/// Tells whether `number` is between `low` and `high`, both included.
fn is_between(low: i64, high: i64, number: i64) -> bool
    ensures { result ≡ is_between low high number }
{
    low <= number && number <= high
}

/// Tells whether `number` is a count of buffers, or where `queue` is set the depth of a queue.
fn is_buffer_count(queue: bool, number: i64) -> bool
    ensures { result ≡ is_buffer_count queue number }
{
    if queue {
        is_between(1, i64::from(MOST_DEPTH), number)
    } else {
        is_between(2, 4, number)
    }
}

/// Tells whether `width`, `height` and `count` are in their ranges, those of a queue where `queue` is set.
fn may_make(queue: bool, width: i64, height: i64, count: i64) -> bool
    ensures { result ≡ may_make queue width height count }
{
    is_between(1, i64::from(MOST_SIDE), width)
        && is_between(1, i64::from(MOST_SIDE), height)
        && is_buffer_count(queue, count)
}

/// Returns a `number` of a request that is a count of at most `MOST_SIDE`.
fn count(number: i64) -> u32
    requires { IsTrue (is_between (pos 1) (pos MOST_SIDE) number) }
    ensures value { result ≡ count_of number }
    ensures most { result ≤ MOST_SIDE }
{
    number as u32
}

/// Returns how many bytes the buffers of a stream of these numbers take, a queue where `queue` is set; 0 where a number is out of its
/// range.
fn stream_bytes(queue: bool, width: i64, height: i64, format: Format, number: i64) -> u64
    ensures { result ≡ stream_bytes queue width height format number }
{
    if !may_make(queue, width, height, number) {
        return 0;
    }
    let buffers = if queue {
        count(number) + 1
    } else {
        count(number)
    };
    count(width) as u64 * count(height) as u64 * bytes_of_pixel(format) as u64 * buffers as u64
}

/// Returns how many bytes the buffers take that a `request` asks for.
pub(crate) fn asked_bytes(request: &Request) -> u64
    ensures { result ≡ asked_bytes request.now }
{
    match request {
        Request::StreamNew {
            width,
            height,
            format,
            buffers,
        } => stream_bytes(false, *width, *height, *format, *buffers),
        Request::StreamQueue {
            width,
            height,
            format,
            depth,
        } => stream_bytes(true, *width, *height, *format, *depth),
        _ => 0,
    }
}
