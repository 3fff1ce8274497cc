//! The calls of lines that are one call and wait for nothing, by subjects. tools/calls writes this file.

ghost use Rattle.wf_calls.specs.Requests.{call_of};
ghost use Rattle.wf_turn.specs.Calls.{context_call, display_call, element_call, plain_call, source_call};
ghost use Rattle.wf_turn.specs.Program.{handle};
ghost use Rattle.wf_turn.specs.Puts.{IsPut};

use crate::program::Program;
use crate::puts::put;
use wf_calls::Request;
use wf_script::Verb;

impl<'a> Program<'a> {
    /// The call of a line of the subject display, if it is such a line: it is put where a call stood.
    fn display_call(&self, verb: &'a Verb, call: &mut Request) -> bool
        ensures { IsPut (display_call (handle self.now) verb.now) (call_of call.new) result }
    {
        match verb {
            Verb::PortSet { port, attr, value } => put(
                call,
                Request::PortSet {
                    port: *port,
                    attr: *attr,
                    value: self.set_to(value),
                },
            ),
            Verb::PortGet { port, attr, index } => put(
                call,
                Request::PortGet {
                    port: *port,
                    attr: *attr,
                    index: *index,
                },
            ),
            Verb::Attach { port, on } => put(
                call,
                Request::Attach {
                    port: *port,
                    on: *on,
                },
            ),
            Verb::PipeSet { pipe, attr, value } => put(
                call,
                Request::PipeSet {
                    pipe: *pipe,
                    attr: *attr,
                    value: self.set_to(value),
                },
            ),
            Verb::PipeGet { pipe, attr, index } => put(
                call,
                Request::PipeGet {
                    pipe: *pipe,
                    attr: *attr,
                    index: *index,
                },
            ),
            Verb::PipeBindPort { pipe, port } => put(
                call,
                Request::PipeBindPort {
                    pipe: *pipe,
                    port: *port,
                },
            ),
            Verb::DisplaySource { pipe, stream } => put(
                call,
                Request::DisplaySource {
                    pipe: *pipe,
                    stream: self.handle(stream),
                },
            ),
            Verb::DisplaySourceDestroy { source } => put(
                call,
                Request::DisplaySourceDestroy {
                    source: self.handle(source),
                },
            ),
            Verb::PipeBindSource {
                pipe,
                source,
                transition,
            } => put(
                call,
                Request::PipeBindSource {
                    pipe: *pipe,
                    source: self.handle(source),
                    transition: *transition,
                },
            ),
            Verb::CommitDevice => put(call, Request::CommitDevice),
            Verb::CommitPort { port } => put(call, Request::CommitPort { port: *port }),
            Verb::CommitPipe { pipe } => put(call, Request::CommitPipe { pipe: *pipe }),
            Verb::DisplayError => put(call, Request::DisplayError),
            _ => false,
        }
    }

    /// The call of a line of the subject sources or of a later one, if it is such a line: it is put where a call stood.
    fn source_call(&self, verb: &'a Verb, call: &mut Request) -> bool
        ensures { IsPut (source_call (handle self.now) verb.now) (call_of call.new) result }
    {
        match verb {
            Verb::SourceNew {
                device,
                context,
                stream,
            } => put(
                call,
                Request::SourceNew {
                    device: self.handle(device),
                    context: self.handle(context),
                    stream: self.handle(stream),
                },
            ),
            Verb::SourceDestroy { device, source } => put(
                call,
                Request::SourceDestroy {
                    device: self.handle(device),
                    source: self.handle(source),
                },
            ),
            Verb::MaskNew {
                device,
                context,
                stream,
            } => put(
                call,
                Request::MaskNew {
                    device: self.handle(device),
                    context: self.handle(context),
                    stream: self.handle(stream),
                },
            ),
            Verb::MaskDestroy { device, mask } => put(
                call,
                Request::MaskDestroy {
                    device: self.handle(device),
                    mask: self.handle(mask),
                },
            ),
            _ => self.display_call(verb, call),
        }
    }

    /// The call of a line of the subject elements or of a later one, if it is such a line: it is put where a call stood.
    fn element_call(&self, verb: &'a Verb, call: &mut Request) -> bool
        ensures { IsPut (element_call (handle self.now) verb.now) (call_of call.new) result }
    {
        match verb {
            Verb::ElementNew { device, context } => put(
                call,
                Request::ElementNew {
                    device: self.handle(device),
                    context: self.handle(context),
                },
            ),
            Verb::ElementDestroy { device, element } => put(
                call,
                Request::ElementDestroy {
                    device: self.handle(device),
                    element: self.handle(element),
                },
            ),
            Verb::ElementSet {
                device,
                element,
                attr,
                value,
            } => put(
                call,
                Request::ElementSet {
                    device: self.handle(device),
                    element: self.handle(element),
                    attr: *attr,
                    value: self.set_to(value),
                },
            ),
            Verb::ElementGet {
                device,
                element,
                attr,
                index,
            } => put(
                call,
                Request::ElementGet {
                    device: self.handle(device),
                    element: self.handle(element),
                    attr: *attr,
                    index: *index,
                },
            ),
            Verb::ElementInsert {
                device,
                element,
                below,
            } => put(
                call,
                Request::ElementInsert {
                    device: self.handle(device),
                    element: self.handle(element),
                    below: self.handle(below),
                },
            ),
            Verb::ElementRemove { device, element } => put(
                call,
                Request::ElementRemove {
                    device: self.handle(device),
                    element: self.handle(element),
                },
            ),
            Verb::ElementAbove { device, element } => put(
                call,
                Request::ElementAbove {
                    device: self.handle(device),
                    element: self.handle(element),
                },
            ),
            Verb::ElementBelow { device, element } => put(
                call,
                Request::ElementBelow {
                    device: self.handle(device),
                    element: self.handle(element),
                },
            ),
            _ => self.source_call(verb, call),
        }
    }

    /// The call of a line of the subject contexts or of a later one, if it is such a line: it is put where a call stood.
    fn context_call(&self, verb: &'a Verb, call: &mut Request) -> bool
        ensures { IsPut (context_call (handle self.now) verb.now) (call_of call.new) result }
    {
        match verb {
            Verb::ScreenContext { device, port } => put(
                call,
                Request::ScreenContext {
                    device: self.handle(device),
                    port: *port,
                },
            ),
            Verb::StreamContext { device, stream } => put(
                call,
                Request::StreamContext {
                    device: self.handle(device),
                    stream: self.handle(stream),
                },
            ),
            Verb::ContextDestroy { device, context } => put(
                call,
                Request::ContextDestroy {
                    device: self.handle(device),
                    context: self.handle(context),
                },
            ),
            Verb::ContextSet {
                device,
                context,
                attr,
                value,
            } => put(
                call,
                Request::ContextSet {
                    device: self.handle(device),
                    context: self.handle(context),
                    attr: *attr,
                    value: self.set_to(value),
                },
            ),
            Verb::ContextGet {
                device,
                context,
                attr,
                index,
            } => put(
                call,
                Request::ContextGet {
                    device: self.handle(device),
                    context: self.handle(context),
                    attr: *attr,
                    index: *index,
                },
            ),
            Verb::Commit { device, context } => put(
                call,
                Request::Commit {
                    device: self.handle(device),
                    context: self.handle(context),
                },
            ),
            Verb::Activate { device, context } => put(
                call,
                Request::Activate {
                    device: self.handle(device),
                    context: self.handle(context),
                },
            ),
            Verb::Deactivate { device, context } => put(
                call,
                Request::Deactivate {
                    device: self.handle(device),
                    context: self.handle(context),
                },
            ),
            _ => self.element_call(verb, call),
        }
    }

    /// The call of a line that is one call and waits for nothing, if it is such a line: it is put where a call stood.
    pub(crate) fn plain_call(&self, verb: &'a Verb, call: &mut Request) -> bool
        ensures { IsPut (plain_call (handle self.now) verb.now) (call_of call.new) result }
    {
        match verb {
            Verb::StreamNew {
                width,
                height,
                format,
                buffers,
            } => put(
                call,
                Request::StreamNew {
                    width: *width,
                    height: *height,
                    format: *format,
                    buffers: *buffers,
                },
            ),
            Verb::StreamQueue {
                width,
                height,
                format,
                depth,
            } => put(
                call,
                Request::StreamQueue {
                    width: *width,
                    height: *height,
                    format: *format,
                    depth: *depth,
                },
            ),
            Verb::StreamDestroy { stream } => put(
                call,
                Request::StreamDestroy {
                    stream: self.handle(stream),
                },
            ),
            Verb::Stat { what } => put(call, Request::Stat { what: *what }),
            Verb::DeviceNew => put(call, Request::DeviceNew),
            Verb::DeviceDestroy { device } => put(
                call,
                Request::DeviceDestroy {
                    device: self.handle(device),
                },
            ),
            Verb::GetError { device } => put(
                call,
                Request::GetError {
                    device: self.handle(device),
                },
            ),
            _ => self.context_call(verb, call),
        }
    }
}
