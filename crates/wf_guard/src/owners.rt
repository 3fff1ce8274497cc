//! Who made which live stream, and what that lets a client ask for.

ghost use Rattle.std.specs.Prelude.{◌≡◌, ◌+◌, ◌≤◌, ◌||◌, [], IfOk, None, Some, if◌then◌else◌, length, nat_le, nat_lt, vec_capacity};
ghost use Rattle.wf_calls.specs.Parts.{is_begin};
ghost use Rattle.wf_calls.specs.Requests.{call_of};
ghost use Rattle.wf_guard.specs.Policy.{forgotten, lacks_share, left_by, may_name, owned_after, owned_bytes, owned_streams, owns};
ghost use Rattle.wf_guard.specs.Policy.{refusal_of, share, share_bytes};
ghost use Rattle.wf_guard.specs.Requests.{asked_bytes, is_for_apps, makes_stream, named_stream};
ghost use Rattle.wf_stream.specs.declared.TheConstants.{MOST_STREAMS};

use crate::bytes::asked_bytes;
use crate::clients::{APP_BYTES, APP_STREAMS, MANAGER, MANAGER_BYTES, MANAGER_STREAMS};
use std::alloc::Global;
use std::marker::Model;
use wf_calls::{Code, Request};
use wf_stream::MOST_STREAMS;
use wf_words::NoMemory;

/// A live stream, by its handle, with the client that made it, and the size and the bytes of all buffers that this one asked for.
#[derive(Drop)]
pub struct Owned {
    pub stream: u32,
    pub client: u8,
    pub width: i64,
    pub height: i64,
    pub bytes: u64,
}

/// The live streams with their makers, in the order in which they were made.
#[derive(Drop)]
pub struct Owners {
    list: Vec<Owned>,
}

impl Model for Owners {
    ghost use Rattle.std.specs.Prelude.{List, length, ◌≤◌, vec_capacity};
    ghost use Rattle.wf_guard.specs.declared.owners.Owned.{Owned};
    ghost use Rattle.wf_stream.specs.declared.TheConstants.{MOST_STREAMS};

    ghost Value = { List Owned };

    ghost view = { λ o. o.list.items };

    ghost invariant = { λ o. (length o.list.items ≤ MOST_STREAMS) × (MOST_STREAMS ≤ vec_capacity o.list) };
}

/// Returns how many live streams `client` may have.
fn share(client: u8) -> usize
    ensures { result ≡ share client }
{
    if client == MANAGER {
        MANAGER_STREAMS
    } else {
        APP_STREAMS
    }
}

/// Returns how many bytes the buffers of the live streams of `client` may take.
fn share_bytes(client: u8) -> u64
    ensures { result ≡ share_bytes client }
{
    if client == MANAGER {
        MANAGER_BYTES
    } else {
        APP_BYTES
    }
}

/// Tells whether the buffers of the live streams of `client` in `list` take more than `most` bytes.
fn takes_more(list: &[Owned], client: u8, most: u64) -> bool
    ensures { result ≡ nat_lt most (owned_bytes client list.now) }
{
    let mut left = most;
    for one in list {
        if one.client == client {
            if one.bytes > left {
                return true;
            }
            left -= one.bytes;
        }
    }
    false
}

/// Tells whether a `request` is of the kinds that an app may ask for.
fn is_for_apps(request: &Request) -> bool
    ensures { result ≡ is_for_apps request.now }
{
    matches!(
        request,
        Request::StreamNew { .. }
            | Request::StreamQueue { .. }
            | Request::StreamDestroy { .. }
            | Request::Acquire { .. }
    )
}

/// Tells whether a `request` is for a new stream.
fn makes_stream(request: &Request) -> bool
    ensures { result ≡ makes_stream request.now }
{
    matches!(
        request,
        Request::StreamNew { .. } | Request::StreamQueue { .. }
    )
}

/// Returns the stream that a `request` names which an app may ask for only of its own, or `None` where it is another request.
fn named_stream(request: &Request) -> Option<u32>
    ensures { result ≡ named_stream request.now }
{
    match request {
        Request::StreamDestroy { stream } | Request::Acquire { stream } => Some(*stream),
        _ => None,
    }
}

/// Leaves out `stream`.
fn forget_stream(list: &mut Vec<Owned>, stream: u32)
    ensures left { list.new.items ≡ forgotten stream list.old.items }
    ensures few { length list.new.items ≤ length list.old.items }
    ensures capacity { vec_capacity list.new ≡ vec_capacity list.old }
{
    list.retain(|one| one.stream != stream);
}

/// Leaves out what `client` made.
fn forget_client(list: &mut Vec<Owned>, client: u8)
    ensures left { list.new.items ≡ left_by client list.old.items }
    ensures few { length list.new.items ≤ length list.old.items }
    ensures capacity { vec_capacity list.new ≡ vec_capacity list.old }
{
    list.retain(|one| one.client != client);
}

impl Owners {
    /// Makes room for all streams, and begins with none.
    pub fn new(alloc: Global) -> Result<Owners, NoMemory>
        ensures { IfOk result (λ owners. owners ≡ []) }
    {
        Ok(Owners {
            list: Vec::with_capacity(alloc, MOST_STREAMS as usize)?,
        })
    }

    /// Returns the live streams with their makers.
    pub fn list(&self) -> &[Owned]
        ensures { result.now ≡ self.now }
    {
        &self.list
    }

    /// Tells whether `client` made `stream`.
    pub fn owns(&self, client: u8, stream: u32) -> bool
        ensures { result ≡ owns client stream self.now }
    {
        self.list
            .iter()
            .any(|one| one.client == client && one.stream == stream)
    }

    /// Tells whether `client` may name `stream`: the window manager any, an app its own.
    fn may_name(&self, client: u8, stream: u32) -> bool
        ensures { result ≡ may_name client stream self.now }
    {
        client == MANAGER || self.owns(client, stream)
    }

    /// Tells whether `client` has as many live streams as it may, or all clients together as many as there may be.
    fn lacks_streams(&self, client: u8) -> bool
        ensures { result ≡ (nat_le MOST_STREAMS (length self.now) || nat_le (share client) (owned_streams client self.now)) }
    {
        if self.list.len() >= MOST_STREAMS as usize {
            return true;
        }
        self.list.iter().filter(|one| one.client == client).count() >= share(client)
    }

    /// Tells whether the live streams of `client` and `bytes` more take more bytes than it may have.
    fn lacks_bytes(&self, client: u8, bytes: u64) -> bool
        ensures { result ≡ nat_lt (share_bytes client) (owned_bytes client self.now + bytes) }
    {
        let most = share_bytes(client);
        bytes > most || takes_more(&self.list, client, most - bytes)
    }

    /// Tells whether a new stream of these `bytes` would pass the share of `client`, or what there may be for all.
    fn lacks_share(&self, client: u8, bytes: u64) -> bool
        ensures { result ≡ lacks_share client bytes self.now }
    {
        self.lacks_streams(client) || self.lacks_bytes(client, bytes)
    }

    /// Tells why a `request` for a new stream by `client` is refused, if it is.
    fn share_refusal(&self, client: u8, request: &Request) -> Option<Code>
        ensures { result ≡ (if lacks_share client (asked_bytes request.now) self.now then Some Code.Limit else None) }
    {
        if self.lacks_share(client, asked_bytes(request)) {
            Some(Code::Limit)
        } else {
            None
        }
    }

    /// Tells why a `request` of `client` is refused before the machine sees it, or `None` where it is not.
    pub fn refusal(&self, client: u8, request: &Request) -> Option<Code>
        ensures { result ≡ refusal_of client request.now self.now }
    {
        if request.is_begin() || !(client == MANAGER || is_for_apps(request)) {
            return Some(Code::Unsupported);
        }
        if makes_stream(request) {
            return self.share_refusal(client, request);
        }
        match named_stream(request) {
            Some(stream) => {
                if self.may_name(client, stream) {
                    None
                } else {
                    Some(Code::BadHandle)
                }
            }
            None => None,
        }
    }

    /// Keeps what a `request` of `client` changed that was carried out and answered with `value`: a stream that it made, or that it
    /// destroyed.
    pub fn keep(&mut self, client: u8, request: &Request, value: u32)
        requires { refusal_of client request.now self.old ≡ None }
        ensures { self.new ≡ owned_after client request.now value self.old }
    {
        match request {
            Request::StreamNew { width, height, .. } | Request::StreamQueue { width, height, .. } =>
                {
                    self.list.push_reserved(Owned {
                        stream: value,
                        client,
                        width: *width,
                        height: *height,
                        bytes: asked_bytes(request),
                    });
                }
            Request::StreamDestroy { stream } => self.forget(*stream),
            _ => {}
        }
    }

    /// Forgets who made `stream`.
    fn forget(&mut self, stream: u32)
        ensures { self.new ≡ forgotten stream self.old }
    {
        forget_stream(&mut self.list, stream);
    }

    /// Forgets all that `client` made.
    pub fn leave(&mut self, client: u8)
        ensures { self.new ≡ left_by client self.old }
    {
        forget_client(&mut self.list, client);
    }
}
