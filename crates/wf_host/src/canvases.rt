//! Write buffers that are held, each under a number.

ghost use Rattle.std.specs.List.{position};
ghost use Rattle.std.specs.Option.{IfNone};
ghost use Rattle.std.specs.Prelude.{◌≡◌, ◌==◌, [], ◌<◌, IfOk, IfSome, length, nat_le};
ghost use Rattle.wf_host.specs.Held.{adding, canvas_of, holds, without};

use std::alloc::Global;
use std::marker::Model;
use wf_image::Canvas;
use wf_stream::MOST_STREAMS;
use wf_words::NoMemory;

/// A write buffer, with the number under which it is held.
#[derive(Drop)]
pub struct Held {
    pub key: u32,
    pub canvas: Canvas,
}

/// Write buffers that are held, each under a number, with room for one of each stream: an embedder holds them under the handles of their
/// streams, and a core for several clients under the numbers of these.
#[derive(Drop)]
pub struct Canvases {
    held: Vec<Held>,
}

impl Model for Canvases {
    ghost use Rattle.std.specs.Prelude.{List, length, ◌≤◌, vec_capacity};
    ghost use Rattle.wf_host.specs.declared.canvases.Held.{Held};
    ghost use Rattle.wf_stream.specs.declared.TheConstants.{MOST_STREAMS};

    ghost Value = { List Held };

    ghost view = { λ c. c.held.items };

    ghost invariant = { λ c. (length c.held.items ≤ MOST_STREAMS) × (MOST_STREAMS ≤ vec_capacity c.held) };
}

/// The place of the canvas under `key`, or `None` where none is held.
fn place_of(held: &[Held], key: u32) -> Option<usize>
    ensures place { result ≡ position (λ h. h.key == key) held.now }
    ensures within { IfSome result (λ place. place < length held.now) }
{
    held.iter().position(|one| one.key == key)
}

impl Canvases {
    /// Makes room for the canvases of all streams.
    pub fn new(alloc: Global) -> Result<Canvases, NoMemory>
        ensures { IfOk result (λ canvases. canvases ≡ []) }
    {
        Ok(Canvases {
            held: Vec::with_capacity(alloc, MOST_STREAMS as usize)?,
        })
    }

    /// Tells whether there is no room for one canvas more.
    pub fn is_full(&self) -> bool
        ensures { result ≡ nat_le MOST_STREAMS (length self.now) }
    {
        self.held.len() >= MOST_STREAMS as usize
    }

    /// Tells whether a canvas is held under `key`.
    pub fn is_held(&self, key: u32) -> bool
        ensures { result ≡ holds key self.now }
    {
        self.held.iter().any(|one| one.key == key)
    }

    /// Takes out the canvas under `key`, or returns `None` where none is held.
    pub fn take(&mut self, key: u32) -> Option<Canvas>
        ensures canvas { result ≡ canvas_of key self.old }
        ensures rest { self.new ≡ without key self.old }
        ensures room { IfSome result (λ _. length self.new < MOST_STREAMS) }
        ensures none { IfNone result (self.new ≡ self.old) }
    {
        match place_of(&self.held, key) {
            Some(at) => Some(self.held.remove(at).canvas),
            None => None,
        }
    }

    /// Keeps a canvas that is `given` with an answer, under `key`. There is room for it.
    pub fn put(&mut self, key: u32, given: Option<Canvas>)
        requires { length self.old < MOST_STREAMS }
        ensures { self.new ≡ adding key given self.old }
    {
        if let Some(canvas) = given {
            self.held.push_reserved(Held { key, canvas });
        }
    }
}
