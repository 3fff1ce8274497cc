//! The calls of the display, by one table. tools/calls writes this file.

ghost use Rattle.std.specs.Prelude.{◌≡◌, IsTrue, true};
ghost use Rattle.wf_calls.specs.Creations.{is_creation};
ghost use Rattle.wf_calls.specs.Parts.{part_of};
ghost use Rattle.wf_calls.specs.Requests.{call_of};
ghost use Rattle.wf_display.specs.Does.{Does};
ghost use Rattle.wf_display.specs.Fits.{Fits};
ghost use Rattle.wf_model.specs.Calls.{display_call};
ghost use Rattle.wf_model.specs.Names.{display_names};
ghost use Rattle.wf_stream.specs.Names.{HasRoom, NamesFit};

use crate::display::Display;
use wf_calls::{Part, Refusal, Request};
use wf_model::Extent;
use wf_stream::Store;

impl Display {
    /// Carries a call of the display out, or refuses it.
    pub(crate) fn carry_out(&mut self, store: &mut Store, call: &Request) -> Result<u32, Refusal>
        requires fits { Fits self.old store.old }
        requires names { NamesFit (display_names self.old) store.old }
        requires room { HasRoom store.old }
        requires ours { part_of (call_of call.now) ≡ Part.Display }
        ensures { Does (λ m. display_call m (call_of call.now)) self.old self.new store.old store.new result }
    {
        match call {
            Request::PortSet { port, attr, value } => self.try_port_set(
                store, *port, *attr, *value,
            ),
            Request::PortGet { port, attr, index } => self.try_port_get(
                store, *port, *attr, *index,
            ),
            Request::Attach { port, on } => self.try_attach(store, *port, *on),
            Request::PipeSet { pipe, attr, value } => self.try_pipe_set(
                store, *pipe, *attr, *value,
            ),
            Request::PipeGet { pipe, attr, index } => self.try_pipe_get(
                store, *pipe, *attr, *index,
            ),
            Request::PipeBindPort { pipe, port } => self.try_pipe_bind_port(store, *pipe, *port),
            Request::DisplaySource { pipe, stream } => self.try_display_source(
                store, *pipe, *stream,
            ),
            Request::DisplaySourceDestroy { source } => self.try_display_source_destroy(
                store, *source,
            ),
            Request::PipeBindSource {
                pipe,
                source,
                transition,
            } => self.try_pipe_bind_source(store, *pipe, *source, *transition),
            Request::CommitDevice => self.try_commit(store, Extent::Device),
            Request::CommitPort { port } => self.try_commit_port(store, *port),
            Request::CommitPipe { pipe } => self.try_commit_pipe(store, *pipe),
            Request::DisplayError => self.try_display_error(store),
            Request::StreamNew { .. }
            | Request::StreamQueue { .. }
            | Request::StreamDestroy { .. }
            | Request::Acquire { .. }
            | Request::Stat { .. }
            | Request::DeviceNew
            | Request::DeviceDestroy { .. }
            | Request::GetError { .. }
            | Request::ScreenContext { .. }
            | Request::StreamContext { .. }
            | Request::ContextDestroy { .. }
            | Request::ElementNew { .. }
            | Request::ElementDestroy { .. }
            | Request::SourceNew { .. }
            | Request::SourceDestroy { .. }
            | Request::MaskNew { .. }
            | Request::MaskDestroy { .. }
            | Request::ElementSet { .. }
            | Request::ElementGet { .. }
            | Request::ElementInsert { .. }
            | Request::ElementRemove { .. }
            | Request::ElementAbove { .. }
            | Request::ElementBelow { .. }
            | Request::ContextSet { .. }
            | Request::ContextGet { .. }
            | Request::Commit { .. }
            | Request::Activate { .. }
            | Request::Deactivate { .. }
            | Request::BeginNext { .. }
            | Request::BeginPort { .. }
            | Request::BeginContext { .. } => unreachable!(),
        }
    }

    /// The refusal of a creation for which there is no memory.
    pub(crate) fn denied(&self, store: &Store, call: &Request) -> Result<u32, Refusal>
        requires fits { Fits self.now store.now }
        requires creation { IsTrue (is_creation (call_of call.now)) }
        requires ours { part_of (call_of call.now) ≡ Part.Display }
        ensures { Does (λ _. display_call true (call_of call.now)) self.now self.now store.now store.now result }
    {
        match call {
            Request::DisplaySource { pipe, stream } => self.deny_display_source(
                store, *pipe, *stream,
            ),
            Request::StreamNew { .. }
            | Request::StreamQueue { .. }
            | Request::StreamDestroy { .. }
            | Request::Acquire { .. }
            | Request::Stat { .. }
            | Request::DeviceNew
            | Request::DeviceDestroy { .. }
            | Request::GetError { .. }
            | Request::ScreenContext { .. }
            | Request::StreamContext { .. }
            | Request::ContextDestroy { .. }
            | Request::ElementNew { .. }
            | Request::ElementDestroy { .. }
            | Request::SourceNew { .. }
            | Request::SourceDestroy { .. }
            | Request::MaskNew { .. }
            | Request::MaskDestroy { .. }
            | Request::ElementSet { .. }
            | Request::ElementGet { .. }
            | Request::ElementInsert { .. }
            | Request::ElementRemove { .. }
            | Request::ElementAbove { .. }
            | Request::ElementBelow { .. }
            | Request::ContextSet { .. }
            | Request::ContextGet { .. }
            | Request::Commit { .. }
            | Request::Activate { .. }
            | Request::Deactivate { .. }
            | Request::PortSet { .. }
            | Request::PortGet { .. }
            | Request::Attach { .. }
            | Request::PipeSet { .. }
            | Request::PipeGet { .. }
            | Request::PipeBindPort { .. }
            | Request::DisplaySourceDestroy { .. }
            | Request::PipeBindSource { .. }
            | Request::CommitDevice
            | Request::CommitPort { .. }
            | Request::CommitPipe { .. }
            | Request::DisplayError
            | Request::BeginNext { .. }
            | Request::BeginPort { .. }
            | Request::BeginContext { .. } => unreachable!(),
        }
    }
}
