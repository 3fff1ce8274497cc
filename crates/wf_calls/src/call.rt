//! Calls, replies, and the running frame that goes with them.

use crate::display::{PipeAttr, PortAttr, Transition};
use wf_image::{Canvas, Contents, Image};
use wf_pixel::Format;
use wf_scene::{ContextAttr, ElementAttr, Scene};

/// What a `Stat` counts.
#[derive(Clone, Copy, Debug, PartialEq, Eq)]
pub enum StatWord {
    /// The streams that are kept.
    Streams,
    /// The bytes of their buffers.
    Bytes,
}

/// What a frame is of.
#[derive(Clone, Copy, Debug, PartialEq, Eq)]
pub enum JobKind {
    /// A context, by its handle and the number of the stream that it draws into.
    Context { handle: u32, target: u32 },
    /// A port, counted from 1.
    Port { port: u32 },
}

/// A running frame: what it shows, the images of the streams that it shows, and the image to paint it into. Begin
/// calls give it, and End takes it back. A Job that was built by hand is taken at its word.
#[derive(Drop)]
pub struct Job {
    /// 1 plus the number of frames begun before.
    pub number: u64,
    pub kind: JobKind,
    pub scene: Scene,
    pub contents: Contents,
    pub image: Image,
}

/// A call of the machine. Numbers are wide, so that a value out of its range reaches the call and is refused there.
/// Handles are those that the creations answered; 0 is none.
#[derive(Drop)]
pub enum Call {
    // tools/calls writes what stands from here on, from crates/calls.table
    /// Makes a stream of 2 to 4 buffers, each an image of this size and format with sides from 1 to `MOST_SIDE`.
    StreamNew {
        width: i64,
        height: i64,
        format: Format,
        buffers: i64,
    },
    /// Makes a queue stream, in which up to `depth` posted images wait, from 1 to 8, and of which each frame shows the
    /// next.
    StreamQueue {
        width: i64,
        height: i64,
        format: Format,
        depth: i64,
    },
    /// Destroys a stream. What names it otherwise keeps it.
    StreamDestroy {
        stream: u32,
    },
    /// Takes a stream's write buffer.
    Acquire {
        stream: u32,
    },
    /// Posts a write buffer, which waits in its stream as a finished image.
    Post(Canvas),
    /// Gives a write buffer back unseen.
    Discard(Canvas),
    /// Counts what is kept.
    Stat {
        what: StatWord,
    },
    /// Makes a device.
    DeviceNew,
    /// Destroys a device, its contexts and all that is theirs.
    DeviceDestroy {
        device: u32,
    },
    /// Reads and clears a device's error register.
    GetError {
        device: u32,
    },
    /// Makes a context of a port's screen; ports count from 1.
    ScreenContext {
        device: u32,
        port: i64,
    },
    /// Makes an off-screen context, which draws into a stream.
    StreamContext {
        device: u32,
        stream: u32,
    },
    /// Destroys a context with its elements, sources and masks.
    ContextDestroy {
        device: u32,
        context: u32,
    },
    /// Makes an element.
    ElementNew {
        device: u32,
        context: u32,
    },
    /// Destroys an element, which leaves the cached scene too.
    ElementDestroy {
        device: u32,
        element: u32,
    },
    /// Makes a source, which shows a stream of pixels.
    SourceNew {
        device: u32,
        context: u32,
        stream: u32,
    },
    /// Destroys a source.
    SourceDestroy {
        device: u32,
        source: u32,
    },
    /// Makes a mask, which shows a stream of alphas.
    MaskNew {
        device: u32,
        context: u32,
        stream: u32,
    },
    /// Destroys a mask.
    MaskDestroy {
        device: u32,
        mask: u32,
    },
    /// Sets an attribute of an element. Numbers that the attribute does not have are not read.
    ElementSet {
        device: u32,
        element: u32,
        attr: ElementAttr,
        value: [i64; 4],
    },
    /// Reads one number of an attribute of an element, by its index from 0.
    ElementGet {
        device: u32,
        element: u32,
        attr: ElementAttr,
        index: i64,
    },
    /// Inserts an element directly above another one, or at the bottom by 0; one that is inserted already is moved.
    ElementInsert {
        device: u32,
        element: u32,
        below: u32,
    },
    /// Takes an element out of the cached scene.
    ElementRemove {
        device: u32,
        element: u32,
    },
    /// Asks for the element directly above one.
    ElementAbove {
        device: u32,
        element: u32,
    },
    /// Asks for the element directly below one.
    ElementBelow {
        device: u32,
        element: u32,
    },
    /// Sets an attribute of a context. Numbers that the attribute does not have are not read.
    ContextSet {
        device: u32,
        context: u32,
        attr: ContextAttr,
        value: [i64; 4],
    },
    /// Reads one number of an attribute of a context, by its index from 0.
    ContextGet {
        device: u32,
        context: u32,
        attr: ContextAttr,
        index: i64,
    },
    /// Makes the cached scene of a context its committed one, as a whole or not at all.
    Commit {
        device: u32,
        context: u32,
    },
    /// Makes a context active: each tick begins a frame of it.
    Activate {
        device: u32,
        context: u32,
    },
    /// Makes a context inactive.
    Deactivate {
        device: u32,
        context: u32,
    },
    /// Sets an attribute of a port, counted from 1. Numbers that the attribute does not have are not read.
    PortSet {
        port: i64,
        attr: PortAttr,
        value: [i64; 4],
    },
    /// Reads one number of an attribute of a port, by its index from 0.
    PortGet {
        port: i64,
        attr: PortAttr,
        index: i64,
    },
    /// Attaches a display to a port by 1, or detaches it by 0, at once.
    Attach {
        port: i64,
        on: i64,
    },
    /// Sets an attribute of a pipeline, counted from 1. Numbers that the attribute does not have are not read.
    PipeSet {
        pipe: i64,
        attr: PipeAttr,
        value: [i64; 4],
    },
    /// Reads one number of an attribute of a pipeline, by its index from 0.
    PipeGet {
        pipe: i64,
        attr: PipeAttr,
        index: i64,
    },
    /// Asks for a pipeline to be shown by a port, or by none by 0.
    PipeBindPort {
        pipe: i64,
        port: i64,
    },
    /// Makes a source of a pipeline, which shows a stream of pixels.
    DisplaySource {
        pipe: i64,
        stream: u32,
    },
    /// Destroys a source of a pipeline.
    DisplaySourceDestroy {
        source: u32,
    },
    /// Asks for a pipeline to show a source of its own, or none by 0. It replaces an earlier request.
    PipeBindSource {
        pipe: i64,
        source: u32,
        transition: Transition,
    },
    /// Makes what is cached of every port and pipeline committed, as a whole or not at all.
    CommitDevice,
    /// Makes what is cached of a port and of its pipelines committed, as a whole or not at all.
    CommitPort {
        port: i64,
    },
    /// Makes what is cached of a pipeline committed, as a whole or not at all.
    CommitPipe {
        pipe: i64,
    },
    /// Reads and clears the display's error register.
    DisplayError,
    /// Begins a frame of the active context with the least handle above `after`.
    BeginNext {
        after: u32,
    },
    /// Begins a frame of a port, counted from 1.
    BeginPort {
        port: i64,
    },
    /// Begins a frame of a context that is not active.
    BeginContext {
        device: u32,
        context: u32,
    },
    /// Ends the running frame.
    End(Job),
    // tools/calls writes what stands up to here
}
