//! What streams show.

ghost use Rattle.std.specs.Prelude.{◌≡◌, Some, IfSome};
ghost use Rattle.wf_stream.specs.Streams.{stream_at, stream_of};
ghost use Rattle.wf_model.specs.Composition.{seen_stream};

use wf_scene::Seen;
use wf_stream::Store;

/// What the stream of a number shows, where it is kept.
pub(crate) fn seen_by_number(store: &Store, number: u32) -> Option<Seen>
    ensures { result ≡ seen_stream (stream_at number store.now.streams) }
{
    match store.get(number) {
        Some(stream) => Some(Seen {
            stream: number,
            size: stream.size(),
            format: stream.format(),
        }),
        None => None,
    }
}

/// What the stream of a live handle shows.
pub(crate) fn seen_by_handle(store: &Store, handle: u32) -> Option<Seen>
    ensures seen { result ≡ seen_stream (stream_of handle store.now.streams) }
    ensures kept { IfSome result (λ seen. seen_stream (stream_at seen.stream store.now.streams) ≡ Some seen) }
{
    match store.number(handle) {
        Ok(number) => seen_by_number(store, number),
        Err(_) => None,
    }
}
