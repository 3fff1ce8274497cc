//! Ports and pipelines, as the code and the definitions share them.

use arrayvec::ArrayVec;
use wf_calls::Transition;
use wf_pixel::{Rgba, Size};
use wf_scene::Style;

/// What a commit takes of a port: its mode, counted from 1; its background, which is opaque; and whether it is on.
#[derive(Clone, Copy, Debug, PartialEq, Eq)]
pub struct PortStyle {
    pub mode: u32,
    pub background: Rgba,
    pub power: bool,
}

/// A port: the sizes of its modes, what is cached and what is committed, and whether a display is attached. Its screen is
/// the stream of its own number.
#[derive(Drop)]
pub struct Port {
    pub modes: ArrayVec<Size, 4>,
    pub cached: PortStyle,
    pub committed: PortStyle,
    pub attached: bool,
}

/// A source that a pipeline is asked to show, or none by 0, and when.
#[derive(Clone, Copy, Debug, PartialEq, Eq)]
pub struct Request {
    pub source: u32,
    pub transition: Transition,
}

/// A pipeline: how it shows, and by which port, counted from 1, or by none by 0, both as cached and as committed; the
/// request that the next commit takes; the number of the stream that it shows, or 0; and the number of the stream that
/// waits for the port's next frame, or 0, where one waits.
#[derive(Clone, Copy, Debug, PartialEq, Eq)]
pub struct Pipeline {
    pub cached: Style,
    pub committed: Style,
    pub cached_port: u32,
    pub committed_port: u32,
    pub request: Option<Request>,
    pub current: u32,
    pub pending: Option<u32>,
}

/// A source of a pipeline, counted from 1, and the number of the stream that it shows.
#[derive(Clone, Copy, Debug, PartialEq, Eq)]
pub struct DisplaySource {
    pub handle: u32,
    pub pipeline: u32,
    pub stream: u32,
}

/// What a commit takes: all ports and pipelines, a port with its pipelines, or one pipeline, each counted from 1.
#[derive(Clone, Copy, Debug, PartialEq, Eq)]
pub enum Extent {
    Device,
    Port(u32),
    Pipeline(u32),
}
