//! What each message asks for, by the bits of its arguments. tools/calls writes this file.

ghost use Rattle.std.specs.Prelude.{◌≡◌, IsTrue};
ghost use Rattle.wf_wire.specs.Meaning.{message_of};
ghost use Rattle.wf_wire.specs.Messages.{may_paint};

use crate::bits::{handle_at, number_at, values_at};
use crate::form::Form;
use crate::message::Message;
use crate::paints::{checker, fill, ramp, rectangle};
use crate::words::{context_at, element_at, format_at, pipe_at, port_at, stat_at, transition_at};
use wf_calls::Request;

/// Returns what a message of `form` asks for, whose arguments have these bits.
pub(crate) fn message_of(form: Form, bits: &[u64]) -> Message
    ensures message { result ≡ message_of form bits.now }
    ensures paint { IsTrue (may_paint result) }
{
    match form {
        Form::StreamNew => Message::Ask(Request::StreamNew {
            width: number_at(bits, 0),
            height: number_at(bits, 1),
            format: format_at(bits, 2),
            buffers: number_at(bits, 3),
        }),
        Form::StreamQueue => Message::Ask(Request::StreamQueue {
            width: number_at(bits, 0),
            height: number_at(bits, 1),
            format: format_at(bits, 2),
            depth: number_at(bits, 3),
        }),
        Form::StreamDestroy => Message::Ask(Request::StreamDestroy {
            stream: handle_at(bits, 0),
        }),
        Form::Acquire => Message::Ask(Request::Acquire {
            stream: handle_at(bits, 0),
        }),
        Form::Post => Message::Post,
        Form::Discard => Message::Discard,
        Form::Stat => Message::Ask(Request::Stat {
            what: stat_at(bits, 0),
        }),
        Form::DeviceNew => Message::Ask(Request::DeviceNew),
        Form::DeviceDestroy => Message::Ask(Request::DeviceDestroy {
            device: handle_at(bits, 0),
        }),
        Form::GetError => Message::Ask(Request::GetError {
            device: handle_at(bits, 0),
        }),
        Form::ScreenContext => Message::Ask(Request::ScreenContext {
            device: handle_at(bits, 0),
            port: number_at(bits, 1),
        }),
        Form::StreamContext => Message::Ask(Request::StreamContext {
            device: handle_at(bits, 0),
            stream: handle_at(bits, 1),
        }),
        Form::ContextDestroy => Message::Ask(Request::ContextDestroy {
            device: handle_at(bits, 0),
            context: handle_at(bits, 1),
        }),
        Form::ElementNew => Message::Ask(Request::ElementNew {
            device: handle_at(bits, 0),
            context: handle_at(bits, 1),
        }),
        Form::ElementDestroy => Message::Ask(Request::ElementDestroy {
            device: handle_at(bits, 0),
            element: handle_at(bits, 1),
        }),
        Form::SourceNew => Message::Ask(Request::SourceNew {
            device: handle_at(bits, 0),
            context: handle_at(bits, 1),
            stream: handle_at(bits, 2),
        }),
        Form::SourceDestroy => Message::Ask(Request::SourceDestroy {
            device: handle_at(bits, 0),
            source: handle_at(bits, 1),
        }),
        Form::MaskNew => Message::Ask(Request::MaskNew {
            device: handle_at(bits, 0),
            context: handle_at(bits, 1),
            stream: handle_at(bits, 2),
        }),
        Form::MaskDestroy => Message::Ask(Request::MaskDestroy {
            device: handle_at(bits, 0),
            mask: handle_at(bits, 1),
        }),
        Form::ElementSet => Message::Ask(Request::ElementSet {
            device: handle_at(bits, 0),
            element: handle_at(bits, 1),
            attr: element_at(bits, 2),
            value: values_at(bits, 3),
        }),
        Form::ElementGet => Message::Ask(Request::ElementGet {
            device: handle_at(bits, 0),
            element: handle_at(bits, 1),
            attr: element_at(bits, 2),
            index: number_at(bits, 3),
        }),
        Form::ElementInsert => Message::Ask(Request::ElementInsert {
            device: handle_at(bits, 0),
            element: handle_at(bits, 1),
            below: handle_at(bits, 2),
        }),
        Form::ElementRemove => Message::Ask(Request::ElementRemove {
            device: handle_at(bits, 0),
            element: handle_at(bits, 1),
        }),
        Form::ElementAbove => Message::Ask(Request::ElementAbove {
            device: handle_at(bits, 0),
            element: handle_at(bits, 1),
        }),
        Form::ElementBelow => Message::Ask(Request::ElementBelow {
            device: handle_at(bits, 0),
            element: handle_at(bits, 1),
        }),
        Form::ContextSet => Message::Ask(Request::ContextSet {
            device: handle_at(bits, 0),
            context: handle_at(bits, 1),
            attr: context_at(bits, 2),
            value: values_at(bits, 3),
        }),
        Form::ContextGet => Message::Ask(Request::ContextGet {
            device: handle_at(bits, 0),
            context: handle_at(bits, 1),
            attr: context_at(bits, 2),
            index: number_at(bits, 3),
        }),
        Form::Commit => Message::Ask(Request::Commit {
            device: handle_at(bits, 0),
            context: handle_at(bits, 1),
        }),
        Form::Activate => Message::Ask(Request::Activate {
            device: handle_at(bits, 0),
            context: handle_at(bits, 1),
        }),
        Form::Deactivate => Message::Ask(Request::Deactivate {
            device: handle_at(bits, 0),
            context: handle_at(bits, 1),
        }),
        Form::BeginContext => Message::Ask(Request::BeginContext {
            device: handle_at(bits, 0),
            context: handle_at(bits, 1),
        }),
        Form::PortSet => Message::Ask(Request::PortSet {
            port: number_at(bits, 0),
            attr: port_at(bits, 1),
            value: values_at(bits, 2),
        }),
        Form::PortGet => Message::Ask(Request::PortGet {
            port: number_at(bits, 0),
            attr: port_at(bits, 1),
            index: number_at(bits, 2),
        }),
        Form::Attach => Message::Ask(Request::Attach {
            port: number_at(bits, 0),
            on: number_at(bits, 1),
        }),
        Form::PipeSet => Message::Ask(Request::PipeSet {
            pipe: number_at(bits, 0),
            attr: pipe_at(bits, 1),
            value: values_at(bits, 2),
        }),
        Form::PipeGet => Message::Ask(Request::PipeGet {
            pipe: number_at(bits, 0),
            attr: pipe_at(bits, 1),
            index: number_at(bits, 2),
        }),
        Form::PipeBindPort => Message::Ask(Request::PipeBindPort {
            pipe: number_at(bits, 0),
            port: number_at(bits, 1),
        }),
        Form::DisplaySource => Message::Ask(Request::DisplaySource {
            pipe: number_at(bits, 0),
            stream: handle_at(bits, 1),
        }),
        Form::DisplaySourceDestroy => Message::Ask(Request::DisplaySourceDestroy {
            source: handle_at(bits, 0),
        }),
        Form::PipeBindSource => Message::Ask(Request::PipeBindSource {
            pipe: number_at(bits, 0),
            source: handle_at(bits, 1),
            transition: transition_at(bits, 2),
        }),
        Form::CommitDevice => Message::Ask(Request::CommitDevice),
        Form::CommitPort => Message::Ask(Request::CommitPort {
            port: number_at(bits, 0),
        }),
        Form::CommitPipe => Message::Ask(Request::CommitPipe {
            pipe: number_at(bits, 0),
        }),
        Form::DisplayError => Message::Ask(Request::DisplayError),
        Form::BeginPort => Message::Ask(Request::BeginPort {
            port: number_at(bits, 0),
        }),
        Form::Fill => Message::Paint(fill(bits)),
        Form::Rectangle => Message::Paint(rectangle(bits)),
        Form::Checker => Message::Paint(checker(bits)),
        Form::Ramp => Message::Paint(ramp(bits)),
    }
}
