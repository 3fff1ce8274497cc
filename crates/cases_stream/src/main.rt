//! The program `cases_stream`: plays cases of the store of streams and of the handles of objects.
#![tactic(auto)]

use std::alloc::{AllocError, Global};
use std::io;
use std::process::ExitCode;
use wf_cases::{Stage, format, number, size, word, words_of};
use wf_pixel::Size;
use wf_stream::{Held, Kind, Store};

/// A store with a screen of one pixel, whose number is 1.
#[derive(Drop)]
struct Streams {
    store: Store,
}

fn main(rt: HostRuntime) -> io::Result<ExitCode> {
    wf_cases::play::<Streams, HostRuntime>(&rt)
}

impl<R: AllocGlobal> Stage<R> for Streams {
    fn opened(alloc: Global) -> Streams {
        let mut store = Store::new(alloc);
        let _ = store.screen(Size { w: 1, h: 1 });
        Streams { store }
    }

    fn answer(&mut self, rt: &R, call: &str) -> Result<String, AllocError> {
        let alloc = rt.alloc();
        let words = words_of(alloc, call)?;
        let words = words.as_slice();
        match word(words, 0) {
            "make" | "queue" | "mint" => self.make(alloc, words),
            "number" => told(alloc, self.store.number(number(words, 1)).ok()),
            "find" => told(
                alloc,
                self.store.find(number(words, 1), kind(words, 2)).ok(),
            ),
            "live" => told(alloc, Some(self.store.live(kind(words, 1)))),
            "held" => self.held(alloc),
            "out" => self.out(alloc, number(words, 1)),
            "count" => told(alloc, Some(self.store.count(number(words, 1)))),
            _ => {
                let changed = self.change(words);
                format!(in alloc; "{}", if changed { "done" } else { "not done" })
            }
        }
    }
}

/// A number, where there is one.
fn told(alloc: Global, number: Option<u32>) -> Result<String, AllocError> {
    match number {
        Some(number) => format!(in alloc; "{number}"),
        None => format!(in alloc; "none"),
    }
}

/// A kind of objects, from its word.
fn kind(words: &[&str], at: usize) -> Kind {
    match word(words, at) {
        "stream" => Kind::Stream,
        "device" => Kind::Device,
        "context" => Kind::Context,
        "element" => Kind::Element,
        "source" => Kind::Source,
        _ => Kind::Mask,
    }
}

impl Streams {
    /// Makes a stream, `make W H FORMAT BUFFERS` or `queue W H FORMAT DEPTH`, or a handle of another kind, `mint KIND KEY`, and
    /// tells the handle.
    fn make(&mut self, alloc: Global, words: &[&str]) -> Result<String, AllocError> {
        let buffers: u32 = number(words, 4);
        let (kind, key) = (kind(words, 1), number(words, 2));
        let made = match size(words, 1) {
            Some(size) if word(words, 0) == "make" && 2 <= buffers && buffers <= 4 => {
                self.store.make(size, format(words, 3), buffers)
            }
            Some(size) if word(words, 0) == "queue" && 1 <= buffers && buffers <= 8 => {
                self.store.queue(size, format(words, 3), buffers)
            }
            _ if kind != Kind::Stream => self.store.mint(kind, key),
            _ => return format!(in alloc; "not done"),
        };
        format!(in alloc; "{made:?}")
    }

    /// How many streams are kept, and their bytes.
    fn held(&self, alloc: Global) -> Result<String, AllocError> {
        let Held { streams, bytes } = self.store.held();
        format!(in alloc; "{streams} {bytes}")
    }

    /// Whether the write buffer of a stream is out, where it is kept.
    fn out(&self, alloc: Global, number: u32) -> Result<String, AllocError> {
        let out = self.store.get(number).map(|stream| stream.is_out());
        match out {
            Some(out) => format!(in alloc; "{out}"),
            None => format!(in alloc; "not kept"),
        }
    }

    /// Carries out a call that answers nothing, if it is one whose condition holds.
    fn change(&mut self, words: &[&str]) -> bool {
        let at: u32 = number(words, 1);
        match word(words, 0) {
            "acquire" => self.acquire(at),
            "kill" => self.kill(at),
            "retain" => self.retain(at),
            "release" => self.release(at),
            _ => false,
        }
    }

    /// Takes the write buffer of a stream, and lets the canvas go.
    fn acquire(&mut self, number: u32) -> bool {
        self.store.get(number).is_some() && self.store.acquire(number).is_ok()
    }

    /// Ends the life of a stream's handle.
    fn kill(&mut self, handle: u32) -> bool {
        let found = self.store.number(handle).is_ok();
        if found {
            self.store.kill(handle);
        }
        found
    }

    /// Gives a stream that is kept one name more, while there is room.
    fn retain(&mut self, number: u32) -> bool {
        let retained = self.store.get(number).is_some() && self.store.count(number) < u32::MAX;
        if retained {
            self.store.retain(number);
        }
        retained
    }

    /// Takes one name of a stream away, the last one only while no stream has a live handle.
    #[tactic(auto, using(wf_stream::specs::Streams::none_live))]
    fn release(&mut self, number: u32) -> bool {
        let count = self.store.count(number);
        let last = count == 1 && self.store.live(Kind::Stream) == 0;
        let released = self.store.get(number).is_some() && (count > 1 || last);
        if released {
            self.store.release(number);
        }
        released
    }
}
