//! The calls on streams and those that begin frames, by one table. tools/calls writes this file.

ghost use Rattle.std.specs.Prelude.{◌≡◌, IsTrue, None, true};
ghost use Rattle.wf_calls.specs.Creations.{is_creation};
ghost use Rattle.wf_calls.specs.Parts.{is_begin, part_of};
ghost use Rattle.wf_calls.specs.Places.{job_in};
ghost use Rattle.wf_calls.specs.Replies.{bare, with_job};
ghost use Rattle.wf_calls.specs.Requests.{call_of};
ghost use Rattle.wf_machine.specs.Object.{IsAct, IsMarkedAct};

use crate::parts::Parts;
use wf_calls::{Answer, JobPlace, Part, Request};

impl Parts {
    /// Does what a call on streams asks for.
    pub(crate) fn act_on_streams(&mut self, call: &Request) -> Answer
        requires { part_of (call_of call.now) ≡ Part.Streams }
        ensures { IsAct self.old (call_of call.now) self.new (bare result) }
    {
        self.prove_all_named();
        match call {
            Request::StreamNew {
                width,
                height,
                format,
                buffers,
            } => self.stream_new(false, *width, *height, *format, *buffers),
            Request::StreamQueue {
                width,
                height,
                format,
                depth,
            } => self.stream_new(true, *width, *height, *format, *depth),
            Request::StreamDestroy { stream } => self.stream_destroy(*stream),
            Request::Stat { what } => self.stat(*what),
            Request::Acquire { .. }
            | Request::DeviceNew
            | Request::DeviceDestroy { .. }
            | Request::GetError { .. }
            | Request::ScreenContext { .. }
            | Request::StreamContext { .. }
            | Request::ContextDestroy { .. }
            | Request::ElementNew { .. }
            | Request::ElementDestroy { .. }
            | Request::SourceNew { .. }
            | Request::SourceDestroy { .. }
            | Request::MaskNew { .. }
            | Request::MaskDestroy { .. }
            | Request::ElementSet { .. }
            | Request::ElementGet { .. }
            | Request::ElementInsert { .. }
            | Request::ElementRemove { .. }
            | Request::ElementAbove { .. }
            | Request::ElementBelow { .. }
            | Request::ContextSet { .. }
            | Request::ContextGet { .. }
            | Request::Commit { .. }
            | Request::Activate { .. }
            | Request::Deactivate { .. }
            | Request::PortSet { .. }
            | Request::PortGet { .. }
            | Request::Attach { .. }
            | Request::PipeSet { .. }
            | Request::PipeGet { .. }
            | Request::PipeBindPort { .. }
            | Request::DisplaySource { .. }
            | Request::DisplaySourceDestroy { .. }
            | Request::PipeBindSource { .. }
            | Request::CommitDevice
            | Request::CommitPort { .. }
            | Request::CommitPipe { .. }
            | Request::DisplayError
            | Request::BeginNext { .. }
            | Request::BeginPort { .. }
            | Request::BeginContext { .. } => unreachable!(),
        }
    }

    /// Refuses the creation of a stream.
    pub(crate) fn deny_on_streams(&self, call: &Request) -> Answer
        requires creation { IsTrue (is_creation (call_of call.now)) }
        requires ours { part_of (call_of call.now) ≡ Part.Streams }
        ensures { IsMarkedAct true self.now (call_of call.now) self.now (bare result) }
    {
        self.prove_all_named();
        match call {
            Request::StreamNew {
                width,
                height,
                format,
                buffers,
            } => self.deny_stream(false, *width, *height, *format, *buffers),
            Request::StreamQueue {
                width,
                height,
                format,
                depth,
            } => self.deny_stream(true, *width, *height, *format, *depth),
            Request::StreamDestroy { .. }
            | Request::Acquire { .. }
            | Request::Stat { .. }
            | Request::DeviceNew
            | Request::DeviceDestroy { .. }
            | Request::GetError { .. }
            | Request::ScreenContext { .. }
            | Request::StreamContext { .. }
            | Request::ContextDestroy { .. }
            | Request::ElementNew { .. }
            | Request::ElementDestroy { .. }
            | Request::SourceNew { .. }
            | Request::SourceDestroy { .. }
            | Request::MaskNew { .. }
            | Request::MaskDestroy { .. }
            | Request::ElementSet { .. }
            | Request::ElementGet { .. }
            | Request::ElementInsert { .. }
            | Request::ElementRemove { .. }
            | Request::ElementAbove { .. }
            | Request::ElementBelow { .. }
            | Request::ContextSet { .. }
            | Request::ContextGet { .. }
            | Request::Commit { .. }
            | Request::Activate { .. }
            | Request::Deactivate { .. }
            | Request::PortSet { .. }
            | Request::PortGet { .. }
            | Request::Attach { .. }
            | Request::PipeSet { .. }
            | Request::PipeGet { .. }
            | Request::PipeBindPort { .. }
            | Request::DisplaySource { .. }
            | Request::DisplaySourceDestroy { .. }
            | Request::PipeBindSource { .. }
            | Request::CommitDevice
            | Request::CommitPort { .. }
            | Request::CommitPipe { .. }
            | Request::DisplayError
            | Request::BeginNext { .. }
            | Request::BeginPort { .. }
            | Request::BeginContext { .. } => unreachable!(),
        }
    }

    /// Begins the frame that a call asks for. Its Job is put in a place that holds none.
    pub(crate) fn act_begin(&mut self, call: &Request, place: &mut JobPlace) -> Answer
        requires begins { IsTrue (is_begin (call_of call.now)) }
        requires empty { job_in place.old ≡ None }
        ensures { IsAct self.old (call_of call.now) self.new (with_job result (job_in place.new)) }
    {
        match call {
            Request::BeginNext { after } => self.begin_next(*after, place),
            Request::BeginPort { port } => self.begin_port(*port, place),
            Request::BeginContext { device, context } => self.begin_composed(
                *device, *context, place,
            ),
            Request::StreamNew { .. }
            | Request::StreamQueue { .. }
            | Request::StreamDestroy { .. }
            | Request::Acquire { .. }
            | Request::Stat { .. }
            | Request::DeviceNew
            | Request::DeviceDestroy { .. }
            | Request::GetError { .. }
            | Request::ScreenContext { .. }
            | Request::StreamContext { .. }
            | Request::ContextDestroy { .. }
            | Request::ElementNew { .. }
            | Request::ElementDestroy { .. }
            | Request::SourceNew { .. }
            | Request::SourceDestroy { .. }
            | Request::MaskNew { .. }
            | Request::MaskDestroy { .. }
            | Request::ElementSet { .. }
            | Request::ElementGet { .. }
            | Request::ElementInsert { .. }
            | Request::ElementRemove { .. }
            | Request::ElementAbove { .. }
            | Request::ElementBelow { .. }
            | Request::ContextSet { .. }
            | Request::ContextGet { .. }
            | Request::Commit { .. }
            | Request::Activate { .. }
            | Request::Deactivate { .. }
            | Request::PortSet { .. }
            | Request::PortGet { .. }
            | Request::Attach { .. }
            | Request::PipeSet { .. }
            | Request::PipeGet { .. }
            | Request::PipeBindPort { .. }
            | Request::DisplaySource { .. }
            | Request::DisplaySourceDestroy { .. }
            | Request::PipeBindSource { .. }
            | Request::CommitDevice
            | Request::CommitPort { .. }
            | Request::CommitPipe { .. }
            | Request::DisplayError => unreachable!(),
        }
    }
}
