//! Event lines.

ghost use Rattle.std.specs.Prelude.{◌≡◌};
ghost use Rattle.wf_script.specs.Verbs.{creates};

use crate::name::Name;
use wf_calls::{PipeAttr, PortAttr, StatWord, Transition};
use wf_image::Paint;
use wf_pixel::Format;
use wf_scene::{ContextAttr, ElementAttr};

/// What an attribute is set to.
#[derive(Drop)]
pub enum Value {
    /// What a name stands for, of an element's source or mask.
    Handle(Option<Name>),
    /// The numbers of any other attribute; those that it does not have are 0.
    Numbers([i64; 4]),
}

/// What an event line asks for. A handle that is `None` was written `none` and stands for no object. Numbers are wide,
/// so that one out of its range reaches the machine, which refuses it.
#[derive(Drop)]
pub enum Verb {
    /// A new stream, whose handle the line's name stands for.
    StreamNew {
        width: i64,
        height: i64,
        format: Format,
        buffers: i64,
    },
    /// A new stream that shows each posted image in order, of which up to `depth` wait. The line's name stands for its handle.
    StreamQueue {
        width: i64,
        height: i64,
        format: Format,
        depth: i64,
    },
    /// Takes a stream's write buffer, which `Paint` then paints into.
    Acquire {
        stream: Option<Name>,
    },
    /// Shows the write buffer that was taken last.
    Post,
    /// Gives the write buffer that was taken last back unseen.
    Discard,
    Stat {
        what: StatWord,
    },
    /// Paints into the write buffer that was taken last.
    Paint(Paint),
    /// Takes a stream's write buffer, paints into it and shows it.
    Frame {
        stream: Option<Name>,
        paint: Paint,
    },
    /// One tick of the clock: every port shows a frame.
    Tick,
    /// A new device.
    DeviceNew,
    /// Tells the code of the device's first refusal since it was asked last.
    GetError {
        device: Option<Name>,
    },
    /// A new context, whose target is the screen of a port, counted from 1.
    ScreenContext {
        device: Option<Name>,
        port: i64,
    },
    /// A new off-screen context, whose target is a stream.
    StreamContext {
        device: Option<Name>,
        stream: Option<Name>,
    },
    /// A new element of a context.
    ElementNew {
        device: Option<Name>,
        context: Option<Name>,
    },
    /// A new source of a context, that shows a stream.
    SourceNew {
        device: Option<Name>,
        context: Option<Name>,
        stream: Option<Name>,
    },
    /// A new mask of a context, of a stream of coverage.
    MaskNew {
        device: Option<Name>,
        context: Option<Name>,
        stream: Option<Name>,
    },
    /// Sets an attribute of an element.
    ElementSet {
        device: Option<Name>,
        element: Option<Name>,
        attr: ElementAttr,
        value: Value,
    },
    /// Asks for a number of an attribute of an element, counted from 0.
    ElementGet {
        device: Option<Name>,
        element: Option<Name>,
        attr: ElementAttr,
        index: i64,
    },
    /// Puts an element into its context's scene, above another or, above none, to the bottom.
    ElementInsert {
        device: Option<Name>,
        element: Option<Name>,
        below: Option<Name>,
    },
    /// Takes an element out of its context's scene.
    ElementRemove {
        device: Option<Name>,
        element: Option<Name>,
    },
    /// Asks which element is next above.
    ElementAbove {
        device: Option<Name>,
        element: Option<Name>,
    },
    /// Asks which element is next below.
    ElementBelow {
        device: Option<Name>,
        element: Option<Name>,
    },
    /// Sets an attribute of a context.
    ContextSet {
        device: Option<Name>,
        context: Option<Name>,
        attr: ContextAttr,
        value: Value,
    },
    /// Asks for a number of an attribute of a context, counted from 0.
    ContextGet {
        device: Option<Name>,
        context: Option<Name>,
        attr: ContextAttr,
        index: i64,
    },
    /// Makes the cached scene of a context the one that is shown.
    Commit {
        device: Option<Name>,
        context: Option<Name>,
    },
    /// Lets a context compose a frame at each tick.
    Activate {
        device: Option<Name>,
        context: Option<Name>,
    },
    /// Stops that.
    Deactivate {
        device: Option<Name>,
        context: Option<Name>,
    },
    /// Composes a frame of a context that is not active, once no frame runs.
    Compose {
        device: Option<Name>,
        context: Option<Name>,
    },
    /// Composes a frame of a context that is not active, unless a frame runs.
    TryCompose {
        device: Option<Name>,
        context: Option<Name>,
    },
    /// Sets an attribute of a port, counted from 1.
    PortSet {
        port: i64,
        attr: PortAttr,
        value: Value,
    },
    /// Asks for a number of an attribute of a port, counted from 0.
    PortGet {
        port: i64,
        attr: PortAttr,
        index: i64,
    },
    /// Attaches a display to a port by 1, or detaches it by 0.
    Attach {
        port: i64,
        on: i64,
    },
    /// Sets an attribute of a pipeline, counted from 1.
    PipeSet {
        pipe: i64,
        attr: PipeAttr,
        value: Value,
    },
    /// Asks for a number of an attribute of a pipeline, counted from 0.
    PipeGet {
        pipe: i64,
        attr: PipeAttr,
        index: i64,
    },
    /// Asks that a port shows a pipeline, or none by 0.
    PipeBindPort {
        pipe: i64,
        port: i64,
    },
    /// A new source of a pipeline, that shows a stream.
    DisplaySource {
        pipe: i64,
        stream: Option<Name>,
    },
    /// Destroys a source of a pipeline.
    DisplaySourceDestroy {
        source: Option<Name>,
    },
    /// Asks that a pipeline shows a source, or none.
    PipeBindSource {
        pipe: i64,
        source: Option<Name>,
        transition: Transition,
    },
    /// Commits what is cached of all ports and pipelines.
    CommitDevice,
    /// Commits what is cached of a port and its pipelines.
    CommitPort {
        port: i64,
    },
    /// Commits what is cached of a pipeline.
    CommitPipe {
        pipe: i64,
    },
    /// Tells the code of the display's first refusal since it was asked last.
    DisplayError,
    /// Destroys a stream. What shows it goes on showing it.
    StreamDestroy {
        stream: Option<Name>,
    },
    /// Destroys a device with all that is its.
    DeviceDestroy {
        device: Option<Name>,
    },
    /// Destroys a context with its elements, sources and masks.
    ContextDestroy {
        device: Option<Name>,
        context: Option<Name>,
    },
    /// Destroys an element.
    ElementDestroy {
        device: Option<Name>,
        element: Option<Name>,
    },
    /// Destroys a source.
    SourceDestroy {
        device: Option<Name>,
        source: Option<Name>,
    },
    /// Destroys a mask.
    MaskDestroy {
        device: Option<Name>,
        mask: Option<Name>,
    },
}

impl Verb {
    /// Tells whether the verb makes something: its line has a name, under which the answer's value is kept.
    pub fn creates(&self) -> bool
        ensures { result ≡ creates self.now }
    {
        match self {
            Verb::StreamNew { .. }
            | Verb::StreamQueue { .. }
            | Verb::DeviceNew
            | Verb::ScreenContext { .. }
            | Verb::StreamContext { .. }
            | Verb::ElementNew { .. }
            | Verb::SourceNew { .. }
            | Verb::MaskNew { .. }
            | Verb::DisplaySource { .. } => true,
            Verb::Acquire { .. }
            | Verb::Post
            | Verb::Discard
            | Verb::Stat { .. }
            | Verb::Paint(_)
            | Verb::Frame { .. }
            | Verb::Tick
            | Verb::GetError { .. }
            | Verb::ElementSet { .. }
            | Verb::ElementGet { .. }
            | Verb::ElementInsert { .. }
            | Verb::ElementRemove { .. }
            | Verb::ElementAbove { .. }
            | Verb::ElementBelow { .. }
            | Verb::ContextSet { .. }
            | Verb::ContextGet { .. }
            | Verb::Commit { .. }
            | Verb::Activate { .. }
            | Verb::Deactivate { .. }
            | Verb::Compose { .. }
            | Verb::TryCompose { .. }
            | Verb::PortSet { .. }
            | Verb::PortGet { .. }
            | Verb::Attach { .. }
            | Verb::PipeSet { .. }
            | Verb::PipeGet { .. }
            | Verb::PipeBindPort { .. }
            | Verb::DisplaySourceDestroy { .. }
            | Verb::PipeBindSource { .. }
            | Verb::CommitDevice
            | Verb::CommitPort { .. }
            | Verb::CommitPipe { .. }
            | Verb::DisplayError
            | Verb::StreamDestroy { .. }
            | Verb::DeviceDestroy { .. }
            | Verb::ContextDestroy { .. }
            | Verb::ElementDestroy { .. }
            | Verb::SourceDestroy { .. }
            | Verb::MaskDestroy { .. } => false,
        }
    }
}

/// An event line: a client, what it asks for, and the name under which the answer's value is kept.
#[derive(Drop)]
pub struct Line {
    pub client: u8,
    pub name: Option<Name>,
    pub verb: Verb,
}
