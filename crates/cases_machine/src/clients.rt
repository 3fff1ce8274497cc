//! What the clients of a machine hold: a canvas, the Job of the running frame, and a spare image. Cases may change them by hand.

use crate::calls::call_of;
use std::alloc::{AllocError, Global};
use wf_calls::{Call, Job, JobKind, Payload, Reply};
use wf_cases::{format, number, size, told_layer, told_scene, word};
use wf_image::{Canvas, Image};
use wf_pixel::Size;

/// What is held.
#[derive(Drop)]
pub(crate) struct Client {
    canvas: Option<Canvas>,
    job: Option<Job>,
    spare: Option<Image>,
}

impl Client {
    /// Nothing is held.
    pub(crate) fn new() -> Client {
        Client {
            canvas: None,
            job: None,
            spare: None,
        }
    }

    /// Keeps what comes with an answer.
    pub(crate) fn take(&mut self, reply: Reply) {
        match reply.payload {
            Payload::Canvas(canvas) => self.canvas = Some(canvas),
            Payload::Job(job) => self.job = Some(job),
            Payload::Nothing => {}
        }
    }

    /// The call of a line, if it is one, with what it gives back.
    pub(crate) fn call(&mut self, words: &[&str]) -> Option<Call> {
        match word(words, 0) {
            "post" => Some(Call::Post(self.canvas.take()?)),
            "discard" => Some(Call::Discard(self.canvas.take()?)),
            "end" => Some(Call::End(self.job.take()?)),
            _ => call_of(words),
        }
    }

    /// Writes a byte all over the canvas.
    pub(crate) fn fill(&mut self, byte: u8) -> bool {
        match &mut self.canvas {
            Some(canvas) => {
                canvas.image.bytes_mut().fill(byte);
                true
            }
            None => false,
        }
    }

    /// What a line tells of what is held, or whether it was changed by hand.
    pub(crate) fn answer(&mut self, alloc: Global, words: &[&str]) -> Result<String, AllocError> {
        match word(words, 0) {
            "canvas" => self.told_canvas(alloc),
            "job" | "scene" | "layer" | "content" => self.told_job(alloc, words),
            "forge" | "fill" | "spare" => {
                let done = self.change(alloc, words);
                format!(in alloc; "{}", if done { "done" } else { "not done" })
            }
            _ => {
                let done = self.change_job(words);
                format!(in alloc; "{}", if done { "done" } else { "not done" })
            }
        }
    }

    /// The canvas: its stream, size, format and first byte.
    fn told_canvas(&self, alloc: Global) -> Result<String, AllocError> {
        let Some(canvas) = &self.canvas else {
            return format!(in alloc; "none");
        };
        let Size { w, h } = canvas.image.size();
        let format = canvas.image.format();
        let first = canvas.image.bytes().first().copied().unwrap_or(0);
        format!(in alloc; "{} {w}x{h} {format:?} {first}", canvas.stream)
    }

    /// The Job: its number, kind, size and how many images come with it; its scene or a layer of it; or the first byte of a
    /// stream's image.
    fn told_job(&self, alloc: Global, words: &[&str]) -> Result<String, AllocError> {
        let Some(job) = &self.job else {
            return format!(in alloc; "none");
        };
        match word(words, 0) {
            "scene" => told_scene(alloc, &job.scene),
            "layer" => told_layer(alloc, &job.scene, number(words, 1)),
            "content" => {
                let image = job.contents.find(number(words, 1));
                let first = image.and_then(|image| image.bytes().first().copied());
                match first {
                    Some(first) => format!(in alloc; "{first}"),
                    None => format!(in alloc; "none"),
                }
            }
            _ => {
                let Size { w, h } = job.image.size();
                let shown = job.contents.len();
                format!(in alloc; "{} {:?} {w}x{h} with {shown}", job.number, job.kind)
            }
        }
    }

    /// Makes a canvas by hand, `forge STREAM FORMAT W H`, writes on it, or makes a spare image, `spare FORMAT W H`.
    fn change(&mut self, alloc: Global, words: &[&str]) -> bool {
        match word(words, 0) {
            "forge" => {
                let stream = number(words, 1);
                self.canvas = image_by_hand(alloc, words, 2).map(|image| Canvas { stream, image });
                self.canvas.is_some()
            }
            "fill" => self.fill(number(words, 1)),
            _ => {
                self.spare = image_by_hand(alloc, words, 1);
                self.spare.is_some()
            }
        }
    }

    /// Changes the Job: its number, its port, or the context and the target that it is of; changes its image and the spare
    /// one; puts the spare image among its contents, or takes the last one out.
    fn change_job(&mut self, words: &[&str]) -> bool {
        let Some(job) = &mut self.job else {
            return false;
        };
        let (first, second): (u32, u32) = (number(words, 1), number(words, 2));
        match word(words, 0) {
            "number" => job.number = first.into(),
            "port" => job.kind = JobKind::Port { port: first },
            "context" => {
                job.kind = JobKind::Context {
                    handle: first,
                    target: second,
                };
            }
            "paint" => job.image.bytes_mut().fill(number(words, 1)),
            "swap" => {
                if let Some(spare) = &mut self.spare {
                    std::mem::swap(spare, &mut job.image);
                }
            }
            "put" => {
                if job.contents.len() < 64 && job.contents.find(first).is_none() {
                    if let Some(image) = self.spare.take() {
                        job.contents.put(first, image);
                    }
                }
            }
            "pop" => {
                let _ = job.contents.pop();
            }
            _ => return false,
        }
        true
    }
}

/// A new image, of a format and a size.
fn image_by_hand(alloc: Global, words: &[&str], at: usize) -> Option<Image> {
    let at = at.min(10_000);
    Image::new(alloc, size(words, at + 1)?, format(words, at)).ok()
}
