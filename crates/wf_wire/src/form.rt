//! The messages by their numbers, and the kinds of the arguments of each. tools/calls writes this file.

ghost use Rattle.std.specs.Prelude.{◌≡◌, ◌≤◌, length};
ghost use Rattle.wf_wire.specs.Forms.{kinds_of};

use crate::kind::Kind;

/// Which message it is.
#[derive(Clone, Copy)]
pub(crate) enum Form {
    StreamNew,
    StreamQueue,
    StreamDestroy,
    Acquire,
    Post,
    Discard,
    Stat,
    DeviceNew,
    DeviceDestroy,
    GetError,
    ScreenContext,
    StreamContext,
    ContextDestroy,
    ElementNew,
    ElementDestroy,
    SourceNew,
    SourceDestroy,
    MaskNew,
    MaskDestroy,
    ElementSet,
    ElementGet,
    ElementInsert,
    ElementRemove,
    ElementAbove,
    ElementBelow,
    ContextSet,
    ContextGet,
    Commit,
    Activate,
    Deactivate,
    BeginContext,
    PortSet,
    PortGet,
    Attach,
    PipeSet,
    PipeGet,
    PipeBindPort,
    DisplaySource,
    DisplaySourceDestroy,
    PipeBindSource,
    CommitDevice,
    CommitPort,
    CommitPipe,
    DisplayError,
    BeginPort,
    Fill,
    Rectangle,
    Checker,
    Ramp,
}

/// All messages, in the order of their numbers, which count from 1.
pub(crate) const FORMS: [Form; 49] = [
    Form::StreamNew,
    Form::StreamQueue,
    Form::StreamDestroy,
    Form::Acquire,
    Form::Post,
    Form::Discard,
    Form::Stat,
    Form::DeviceNew,
    Form::DeviceDestroy,
    Form::GetError,
    Form::ScreenContext,
    Form::StreamContext,
    Form::ContextDestroy,
    Form::ElementNew,
    Form::ElementDestroy,
    Form::SourceNew,
    Form::SourceDestroy,
    Form::MaskNew,
    Form::MaskDestroy,
    Form::ElementSet,
    Form::ElementGet,
    Form::ElementInsert,
    Form::ElementRemove,
    Form::ElementAbove,
    Form::ElementBelow,
    Form::ContextSet,
    Form::ContextGet,
    Form::Commit,
    Form::Activate,
    Form::Deactivate,
    Form::BeginContext,
    Form::PortSet,
    Form::PortGet,
    Form::Attach,
    Form::PipeSet,
    Form::PipeGet,
    Form::PipeBindPort,
    Form::DisplaySource,
    Form::DisplaySourceDestroy,
    Form::PipeBindSource,
    Form::CommitDevice,
    Form::CommitPort,
    Form::CommitPipe,
    Form::DisplayError,
    Form::BeginPort,
    Form::Fill,
    Form::Rectangle,
    Form::Checker,
    Form::Ramp,
];

/// The most arguments of a message.
pub(crate) const MOST_ARGUMENTS: usize = 9;

/// Returns the kinds of the arguments of a message of `form`, in order.
pub(crate) fn kinds_of(form: Form) -> &'static [Kind]
    ensures kinds { result.now ≡ kinds_of form }
    ensures few { length result.now ≤ MOST_ARGUMENTS }
{
    match form {
        Form::StreamNew | Form::StreamQueue => &[
            Kind::Number,
            Kind::Number,
            Kind::Format,
            Kind::Number,
        ],
        Form::StreamDestroy
        | Form::Acquire
        | Form::DeviceDestroy
        | Form::GetError
        | Form::DisplaySourceDestroy => &[Kind::Handle],
        Form::Post | Form::Discard | Form::DeviceNew | Form::CommitDevice | Form::DisplayError =>
            &[],
        Form::Stat => &[Kind::Stat],
        Form::ScreenContext => &[Kind::Handle, Kind::Number],
        Form::StreamContext
        | Form::ContextDestroy
        | Form::ElementNew
        | Form::ElementDestroy
        | Form::SourceDestroy
        | Form::MaskDestroy
        | Form::ElementRemove
        | Form::ElementAbove
        | Form::ElementBelow
        | Form::Commit
        | Form::Activate
        | Form::Deactivate
        | Form::BeginContext => &[Kind::Handle, Kind::Handle],
        Form::SourceNew | Form::MaskNew | Form::ElementInsert => &[
            Kind::Handle,
            Kind::Handle,
            Kind::Handle,
        ],
        Form::ElementSet => &[
            Kind::Handle,
            Kind::Handle,
            Kind::Element,
            Kind::Number,
            Kind::Number,
            Kind::Number,
            Kind::Number,
        ],
        Form::ElementGet => &[Kind::Handle, Kind::Handle, Kind::Element, Kind::Number],
        Form::ContextSet => &[
            Kind::Handle,
            Kind::Handle,
            Kind::Context,
            Kind::Number,
            Kind::Number,
            Kind::Number,
            Kind::Number,
        ],
        Form::ContextGet => &[Kind::Handle, Kind::Handle, Kind::Context, Kind::Number],
        Form::PortSet => &[
            Kind::Number,
            Kind::Port,
            Kind::Number,
            Kind::Number,
            Kind::Number,
            Kind::Number,
        ],
        Form::PortGet => &[Kind::Number, Kind::Port, Kind::Number],
        Form::Attach | Form::PipeBindPort => &[Kind::Number, Kind::Number],
        Form::PipeSet => &[
            Kind::Number,
            Kind::Pipe,
            Kind::Number,
            Kind::Number,
            Kind::Number,
            Kind::Number,
        ],
        Form::PipeGet => &[Kind::Number, Kind::Pipe, Kind::Number],
        Form::DisplaySource => &[Kind::Number, Kind::Handle],
        Form::PipeBindSource => &[Kind::Number, Kind::Handle, Kind::Transition],
        Form::CommitPort | Form::CommitPipe | Form::BeginPort => &[Kind::Number],
        Form::Fill => &[Kind::Channel, Kind::Channel, Kind::Channel, Kind::Channel],
        Form::Rectangle => &[
            Kind::Coordinate,
            Kind::Coordinate,
            Kind::Extent,
            Kind::Extent,
            Kind::Channel,
            Kind::Channel,
            Kind::Channel,
            Kind::Channel,
        ],
        Form::Checker => &[
            Kind::Square,
            Kind::Channel,
            Kind::Channel,
            Kind::Channel,
            Kind::Channel,
            Kind::Channel,
            Kind::Channel,
            Kind::Channel,
            Kind::Channel,
        ],
        Form::Ramp => &[
            Kind::Channel,
            Kind::Channel,
            Kind::Channel,
            Kind::Channel,
            Kind::Channel,
            Kind::Channel,
            Kind::Channel,
            Kind::Channel,
        ],
    }
}
