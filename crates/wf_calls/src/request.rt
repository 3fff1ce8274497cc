//! Calls that bring nothing. tools/calls writes this file.

ghost use Rattle.std.specs.Prelude.{◌≡◌, MatchOption, true};
ghost use Rattle.wf_calls.specs.Requests.{brings, call_of};

use crate::call::{Call, StatWord};
use crate::display::{PipeAttr, PortAttr, Transition};
use wf_pixel::Format;
use wf_scene::{ContextAttr, ElementAttr};

/// A call that brings neither a canvas nor a Job: the call of its name. It is as small as what it says, where each `Call` has the
/// room of a Job.
#[derive(Clone, Copy)]
pub enum Request {
    StreamNew {
        width: i64,
        height: i64,
        format: Format,
        buffers: i64,
    },
    StreamQueue {
        width: i64,
        height: i64,
        format: Format,
        depth: i64,
    },
    StreamDestroy {
        stream: u32,
    },
    Acquire {
        stream: u32,
    },
    Stat {
        what: StatWord,
    },
    DeviceNew,
    DeviceDestroy {
        device: u32,
    },
    GetError {
        device: u32,
    },
    ScreenContext {
        device: u32,
        port: i64,
    },
    StreamContext {
        device: u32,
        stream: u32,
    },
    ContextDestroy {
        device: u32,
        context: u32,
    },
    ElementNew {
        device: u32,
        context: u32,
    },
    ElementDestroy {
        device: u32,
        element: u32,
    },
    SourceNew {
        device: u32,
        context: u32,
        stream: u32,
    },
    SourceDestroy {
        device: u32,
        source: u32,
    },
    MaskNew {
        device: u32,
        context: u32,
        stream: u32,
    },
    MaskDestroy {
        device: u32,
        mask: u32,
    },
    ElementSet {
        device: u32,
        element: u32,
        attr: ElementAttr,
        value: [i64; 4],
    },
    ElementGet {
        device: u32,
        element: u32,
        attr: ElementAttr,
        index: i64,
    },
    ElementInsert {
        device: u32,
        element: u32,
        below: u32,
    },
    ElementRemove {
        device: u32,
        element: u32,
    },
    ElementAbove {
        device: u32,
        element: u32,
    },
    ElementBelow {
        device: u32,
        element: u32,
    },
    ContextSet {
        device: u32,
        context: u32,
        attr: ContextAttr,
        value: [i64; 4],
    },
    ContextGet {
        device: u32,
        context: u32,
        attr: ContextAttr,
        index: i64,
    },
    Commit {
        device: u32,
        context: u32,
    },
    Activate {
        device: u32,
        context: u32,
    },
    Deactivate {
        device: u32,
        context: u32,
    },
    PortSet {
        port: i64,
        attr: PortAttr,
        value: [i64; 4],
    },
    PortGet {
        port: i64,
        attr: PortAttr,
        index: i64,
    },
    Attach {
        port: i64,
        on: i64,
    },
    PipeSet {
        pipe: i64,
        attr: PipeAttr,
        value: [i64; 4],
    },
    PipeGet {
        pipe: i64,
        attr: PipeAttr,
        index: i64,
    },
    PipeBindPort {
        pipe: i64,
        port: i64,
    },
    DisplaySource {
        pipe: i64,
        stream: u32,
    },
    DisplaySourceDestroy {
        source: u32,
    },
    PipeBindSource {
        pipe: i64,
        source: u32,
        transition: Transition,
    },
    CommitDevice,
    CommitPort {
        port: i64,
    },
    CommitPipe {
        pipe: i64,
    },
    DisplayError,
    BeginNext {
        after: u32,
    },
    BeginPort {
        port: i64,
    },
    BeginContext {
        device: u32,
        context: u32,
    },
}

impl Request {
    /// Returns the call that it is.
    pub fn call(self) -> Call
        ensures { result ≡ call_of self }
    {
        match self {
            Request::StreamNew {
                width,
                height,
                format,
                buffers,
            } => Call::StreamNew {
                width,
                height,
                format,
                buffers,
            },
            Request::StreamQueue {
                width,
                height,
                format,
                depth,
            } => Call::StreamQueue {
                width,
                height,
                format,
                depth,
            },
            Request::StreamDestroy { stream } => Call::StreamDestroy { stream },
            Request::Acquire { stream } => Call::Acquire { stream },
            Request::Stat { what } => Call::Stat { what },
            Request::DeviceNew => Call::DeviceNew,
            Request::DeviceDestroy { device } => Call::DeviceDestroy { device },
            Request::GetError { device } => Call::GetError { device },
            Request::ScreenContext { device, port } => Call::ScreenContext { device, port },
            Request::StreamContext { device, stream } => Call::StreamContext { device, stream },
            Request::ContextDestroy { device, context } => Call::ContextDestroy { device, context },
            Request::ElementNew { device, context } => Call::ElementNew { device, context },
            Request::ElementDestroy { device, element } => Call::ElementDestroy { device, element },
            Request::SourceNew {
                device,
                context,
                stream,
            } => Call::SourceNew {
                device,
                context,
                stream,
            },
            Request::SourceDestroy { device, source } => Call::SourceDestroy { device, source },
            Request::MaskNew {
                device,
                context,
                stream,
            } => Call::MaskNew {
                device,
                context,
                stream,
            },
            Request::MaskDestroy { device, mask } => Call::MaskDestroy { device, mask },
            Request::ElementSet {
                device,
                element,
                attr,
                value,
            } => Call::ElementSet {
                device,
                element,
                attr,
                value,
            },
            Request::ElementGet {
                device,
                element,
                attr,
                index,
            } => Call::ElementGet {
                device,
                element,
                attr,
                index,
            },
            Request::ElementInsert {
                device,
                element,
                below,
            } => Call::ElementInsert {
                device,
                element,
                below,
            },
            Request::ElementRemove { device, element } => Call::ElementRemove { device, element },
            Request::ElementAbove { device, element } => Call::ElementAbove { device, element },
            Request::ElementBelow { device, element } => Call::ElementBelow { device, element },
            Request::ContextSet {
                device,
                context,
                attr,
                value,
            } => Call::ContextSet {
                device,
                context,
                attr,
                value,
            },
            Request::ContextGet {
                device,
                context,
                attr,
                index,
            } => Call::ContextGet {
                device,
                context,
                attr,
                index,
            },
            Request::Commit { device, context } => Call::Commit { device, context },
            Request::Activate { device, context } => Call::Activate { device, context },
            Request::Deactivate { device, context } => Call::Deactivate { device, context },
            Request::PortSet { port, attr, value } => Call::PortSet { port, attr, value },
            Request::PortGet { port, attr, index } => Call::PortGet { port, attr, index },
            Request::Attach { port, on } => Call::Attach { port, on },
            Request::PipeSet { pipe, attr, value } => Call::PipeSet { pipe, attr, value },
            Request::PipeGet { pipe, attr, index } => Call::PipeGet { pipe, attr, index },
            Request::PipeBindPort { pipe, port } => Call::PipeBindPort { pipe, port },
            Request::DisplaySource { pipe, stream } => Call::DisplaySource { pipe, stream },
            Request::DisplaySourceDestroy { source } => Call::DisplaySourceDestroy { source },
            Request::PipeBindSource {
                pipe,
                source,
                transition,
            } => Call::PipeBindSource {
                pipe,
                source,
                transition,
            },
            Request::CommitDevice => Call::CommitDevice,
            Request::CommitPort { port } => Call::CommitPort { port },
            Request::CommitPipe { pipe } => Call::CommitPipe { pipe },
            Request::DisplayError => Call::DisplayError,
            Request::BeginNext { after } => Call::BeginNext { after },
            Request::BeginPort { port } => Call::BeginPort { port },
            Request::BeginContext { device, context } => Call::BeginContext { device, context },
        }
    }
}

impl Call {
    /// Returns what this call asks for, or `None` where it brings a canvas or a Job.
    pub fn request(&self) -> Option<Request>
        ensures { MatchOption result (brings self.now ≡ true) (λ request. call_of request ≡ self.now) }
    {
        let request = match self {
            Call::Post(_) | Call::Discard(_) | Call::End(_) => return None,
            Call::StreamNew {
                width,
                height,
                format,
                buffers,
            } => Request::StreamNew {
                width: *width,
                height: *height,
                format: *format,
                buffers: *buffers,
            },
            Call::StreamQueue {
                width,
                height,
                format,
                depth,
            } => Request::StreamQueue {
                width: *width,
                height: *height,
                format: *format,
                depth: *depth,
            },
            Call::StreamDestroy { stream } => Request::StreamDestroy { stream: *stream },
            Call::Acquire { stream } => Request::Acquire { stream: *stream },
            Call::Stat { what } => Request::Stat { what: *what },
            Call::DeviceNew => Request::DeviceNew,
            Call::DeviceDestroy { device } => Request::DeviceDestroy { device: *device },
            Call::GetError { device } => Request::GetError { device: *device },
            Call::ScreenContext { device, port } => Request::ScreenContext {
                device: *device,
                port: *port,
            },
            Call::StreamContext { device, stream } => Request::StreamContext {
                device: *device,
                stream: *stream,
            },
            Call::ContextDestroy { device, context } => Request::ContextDestroy {
                device: *device,
                context: *context,
            },
            Call::ElementNew { device, context } => Request::ElementNew {
                device: *device,
                context: *context,
            },
            Call::ElementDestroy { device, element } => Request::ElementDestroy {
                device: *device,
                element: *element,
            },
            Call::SourceNew {
                device,
                context,
                stream,
            } => Request::SourceNew {
                device: *device,
                context: *context,
                stream: *stream,
            },
            Call::SourceDestroy { device, source } => Request::SourceDestroy {
                device: *device,
                source: *source,
            },
            Call::MaskNew {
                device,
                context,
                stream,
            } => Request::MaskNew {
                device: *device,
                context: *context,
                stream: *stream,
            },
            Call::MaskDestroy { device, mask } => Request::MaskDestroy {
                device: *device,
                mask: *mask,
            },
            Call::ElementSet {
                device,
                element,
                attr,
                value,
            } => Request::ElementSet {
                device: *device,
                element: *element,
                attr: *attr,
                value: *value,
            },
            Call::ElementGet {
                device,
                element,
                attr,
                index,
            } => Request::ElementGet {
                device: *device,
                element: *element,
                attr: *attr,
                index: *index,
            },
            Call::ElementInsert {
                device,
                element,
                below,
            } => Request::ElementInsert {
                device: *device,
                element: *element,
                below: *below,
            },
            Call::ElementRemove { device, element } => Request::ElementRemove {
                device: *device,
                element: *element,
            },
            Call::ElementAbove { device, element } => Request::ElementAbove {
                device: *device,
                element: *element,
            },
            Call::ElementBelow { device, element } => Request::ElementBelow {
                device: *device,
                element: *element,
            },
            Call::ContextSet {
                device,
                context,
                attr,
                value,
            } => Request::ContextSet {
                device: *device,
                context: *context,
                attr: *attr,
                value: *value,
            },
            Call::ContextGet {
                device,
                context,
                attr,
                index,
            } => Request::ContextGet {
                device: *device,
                context: *context,
                attr: *attr,
                index: *index,
            },
            Call::Commit { device, context } => Request::Commit {
                device: *device,
                context: *context,
            },
            Call::Activate { device, context } => Request::Activate {
                device: *device,
                context: *context,
            },
            Call::Deactivate { device, context } => Request::Deactivate {
                device: *device,
                context: *context,
            },
            Call::PortSet { port, attr, value } => Request::PortSet {
                port: *port,
                attr: *attr,
                value: *value,
            },
            Call::PortGet { port, attr, index } => Request::PortGet {
                port: *port,
                attr: *attr,
                index: *index,
            },
            Call::Attach { port, on } => Request::Attach {
                port: *port,
                on: *on,
            },
            Call::PipeSet { pipe, attr, value } => Request::PipeSet {
                pipe: *pipe,
                attr: *attr,
                value: *value,
            },
            Call::PipeGet { pipe, attr, index } => Request::PipeGet {
                pipe: *pipe,
                attr: *attr,
                index: *index,
            },
            Call::PipeBindPort { pipe, port } => Request::PipeBindPort {
                pipe: *pipe,
                port: *port,
            },
            Call::DisplaySource { pipe, stream } => Request::DisplaySource {
                pipe: *pipe,
                stream: *stream,
            },
            Call::DisplaySourceDestroy { source } => Request::DisplaySourceDestroy {
                source: *source,
            },
            Call::PipeBindSource {
                pipe,
                source,
                transition,
            } => Request::PipeBindSource {
                pipe: *pipe,
                source: *source,
                transition: *transition,
            },
            Call::CommitDevice => Request::CommitDevice,
            Call::CommitPort { port } => Request::CommitPort { port: *port },
            Call::CommitPipe { pipe } => Request::CommitPipe { pipe: *pipe },
            Call::DisplayError => Request::DisplayError,
            Call::BeginNext { after } => Request::BeginNext { after: *after },
            Call::BeginPort { port } => Request::BeginPort { port: *port },
            Call::BeginContext { device, context } => Request::BeginContext {
                device: *device,
                context: *context,
            },
        };
        Some(request)
    }
}
