//! The program `cases_image`: plays cases of paints on an image, and of the images of a frame.
#![tactic(auto)]

mod paints;

use paints::paint_of;
use std::alloc::{AllocError, Global};
use std::io;
use std::process::ExitCode;
use wf_cases::{Stage, format, number, size, told_bytes, word, words_of};
use wf_image::{Canvas, Contents, Image};

/// A canvas that is painted on, and images by stream.
#[derive(Drop)]
struct Images {
    canvas: Option<Canvas>,
    contents: Contents,
}

fn main(rt: HostRuntime) -> io::Result<ExitCode> {
    wf_cases::play::<Images, HostRuntime>(&rt)
}

impl<R: AllocGlobal> Stage<R> for Images {
    fn opened(_alloc: Global) -> Images {
        Images {
            canvas: None,
            contents: Contents::new(),
        }
    }

    fn answer(&mut self, rt: &R, call: &str) -> Result<String, AllocError> {
        let alloc = rt.alloc();
        let words = words_of(alloc, call)?;
        let words = words.as_slice();
        match word(words, 0) {
            "image" => self.clear(alloc, words),
            "bytes" => self.bytes(alloc),
            "put" => self.put(alloc, number(words, 1)),
            "find" => self.find(alloc, number(words, 1)),
            "pop" => self.pop(alloc),
            _ => self.paint(alloc, words),
        }
    }
}

impl Images {
    /// Begins a new image, `image W H FORMAT`.
    fn clear(&mut self, alloc: Global, words: &[&str]) -> Result<String, AllocError> {
        let Some(size) = size(words, 1) else {
            return format!(in alloc; "no size");
        };
        let Ok(image) = Image::new(alloc, size, format(words, 3)) else {
            return Err(AllocError);
        };
        self.canvas = Some(Canvas { stream: 1, image });
        format!(in alloc; "done")
    }

    /// Paints on the image.
    fn paint(&mut self, alloc: Global, words: &[&str]) -> Result<String, AllocError> {
        let Some(canvas) = &mut self.canvas else {
            return format!(in alloc; "no image");
        };
        let Some(paint) = paint_of(alloc, words)? else {
            return format!(in alloc; "no such paint");
        };
        canvas.paint(&paint);
        format!(in alloc; "done")
    }

    /// The bytes of the image.
    fn bytes(&self, alloc: Global) -> Result<String, AllocError> {
        match &self.canvas {
            Some(canvas) => told_bytes(alloc, canvas.image.bytes()),
            None => format!(in alloc; "no image"),
        }
    }

    /// Puts the image under a stream, and tells how many there are.
    fn put(&mut self, alloc: Global, stream: u32) -> Result<String, AllocError> {
        if self.contents.len() < 64 && self.contents.find(stream).is_none() {
            if let Some(canvas) = self.canvas.take() {
                self.contents.put(stream, canvas.image);
            }
        }
        format!(in alloc; "{}", self.contents.len())
    }

    /// The first byte of a stream's image.
    fn find(&self, alloc: Global, stream: u32) -> Result<String, AllocError> {
        match self.contents.find(stream) {
            Some(image) => format!(in alloc; "{:?}", image.bytes().first()),
            None => format!(in alloc; "none"),
        }
    }

    /// Takes the image that was put last, and tells its stream and its first byte.
    fn pop(&mut self, alloc: Global) -> Result<String, AllocError> {
        match self.contents.pop() {
            Some((stream, image)) => format!(in alloc; "{stream} {:?}", image.bytes().first()),
            None => format!(in alloc; "none"),
        }
    }
}
