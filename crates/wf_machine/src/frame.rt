//! The running frame.

ghost use Rattle.std.specs.Prelude.{◌≡◌, None, is_some, option_map};
ghost use Rattle.std.specs.List.{list_all};
ghost use Rattle.std.specs.Option.{option_copied};
ghost use Rattle.wf_model.specs.Frames.{has_shape, is_of_frame, is_target, same_kind};
ghost use Rattle.wf_image.specs.Contents.{image_of};
ghost use Rattle.wf_machine.specs.Ports.{running_of};

use arrayvec::ArrayVec;
use std::marker::Model;
use wf_calls::{Job, JobKind};
use wf_image::{Contents, MOST_CONTENTS};
use wf_model::Content;
use wf_pixel::{Format, Size};

/// A frame that runs: its number and kind, the mode of its port whose image it draws into, counted from 1, or 0 for a
/// context's; the size and format of its image, and what it holds of each stream.
#[derive(Drop)]
pub(crate) struct Frame {
    pub number: u64,
    pub kind: JobKind,
    pub mode: u32,
    pub size: Size,
    pub format: Format,
    pub contents: ArrayVec<Content, MOST_CONTENTS>,
}

impl Frame {
    /// Whether a Job has the number and the shape of this frame.
    pub(crate) fn is_of(&self, job: &Job) -> bool
        ensures { result ≡ is_of_frame job.now (running_of self.now) }
    {
        job.number == self.number
            && is_same_kind(job.kind, self.kind)
            && job.image.size() == self.size
            && job.image.format() == self.format
            && job.contents.len() == self.contents.len()
            && has_all(&job.contents, self.contents.as_slice())
    }
}

/// A place for the running frame, which holds one or none. A frame has 1 KB: each is written where it stands, and none is moved.
#[derive(Drop)]
pub(crate) struct FramePlace {
    /// The running frame, or what the last one left.
    pub frame: Frame,
    pub runs: bool,
}

impl Model for FramePlace {
    ghost use Rattle.std.specs.Prelude.{None, Option, Some, if◌then◌else◌};
    ghost use Rattle.wf_machine.specs.declared.frame.Frame.{Frame};

    ghost Value = { Option Frame };

    ghost view = { λ p. if p.runs then Some p.frame else None };
}

impl FramePlace {
    /// A place where no frame runs.
    pub(crate) fn new() -> FramePlace
        ensures { result ≡ None }
    {
        FramePlace {
            frame: Frame {
                number: 0,
                kind: JobKind::Port { port: 0 },
                mode: 0,
                size: Size { w: 1, h: 1 },
                format: Format::A8,
                contents: ArrayVec::new(),
            },
            runs: false,
        }
    }

    /// Whether a frame runs.
    pub(crate) fn is_running(&self) -> bool
        ensures { result ≡ is_some self.now }
    {
        self.runs
    }

    /// The frame that runs.
    pub(crate) fn running(&self) -> Option<&Frame>
        ensures { option_copied result ≡ self.now }
    {
        if self.runs { Some(&self.frame) } else { None }
    }

    /// Leaves no frame that runs.
    pub(crate) fn clear(&mut self)
        ensures { self.new ≡ None }
    {
        self.runs = false;
    }
}

/// Whether two frames are of one port, or of one context with one target.
fn is_same_kind(first: JobKind, second: JobKind) -> bool
    ensures { result ≡ same_kind first second }
{
    match (first, second) {
        (
            JobKind::Context { handle, target },
            JobKind::Context {
                handle: other,
                target: into,
            },
        ) => handle == other && target == into,
        (JobKind::Port { port }, JobKind::Port { port: other }) => port == other,
        _ => false,
    }
}

/// Whether a stream is the target of the running frame.
pub(crate) fn is_target(place: &FramePlace, stream: u32) -> bool
    ensures { result ≡ is_target stream (option_map running_of place.now) }
{
    match place.running() {
        Some(frame) => match frame.kind {
            JobKind::Context { target, .. } => target == stream,
            JobKind::Port { .. } => false,
        },
        None => false,
    }
}

/// Whether there is an image of each of these sizes and formats.
fn has_all(contents: &Contents, shapes: &[Content]) -> bool
    ensures { result ≡ list_all (λ c. has_shape (image_of c.stream contents.now) c) shapes.now }
{
    for shape in shapes {
        if !has(contents, *shape) {
            return false;
        }
    }
    true
}

/// Whether the image of a stream has this size and format.
fn has(contents: &Contents, shape: Content) -> bool
    ensures { result ≡ has_shape (image_of shape.stream contents.now) shape }
{
    match contents.find(shape.stream) {
        Some(image) => image.size() == shape.size && image.format() == shape.format,
        None => false,
    }
}
