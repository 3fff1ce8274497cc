//! The forms of event lines.

ghost use Rattle.std.specs.Prelude.{◌≡◌, ◌≤◌, length};
ghost use Rattle.wf_script.specs.Forms.{binds, fields, forms};
ghost use Rattle.wf_script.specs.Words.{look_up};

use crate::field::Field;
use crate::table::look_up;

/// The verbs but for those that paint, each with the name of the verb that it makes.
#[derive(Clone, Copy)]
pub(crate) enum Plain {
    StreamNew,
    StreamQueue,
    Acquire,
    Post,
    Discard,
    Stat,
    Tick,
    DeviceNew,
    GetError,
    ScreenContext,
    StreamContext,
    ElementNew,
    SourceNew,
    MaskNew,
    ElementSet,
    ElementGet,
    ElementInsert,
    ElementRemove,
    ElementAbove,
    ElementBelow,
    ContextSet,
    ContextGet,
    Commit,
    Activate,
    Deactivate,
    Compose,
    TryCompose,
    StreamDestroy,
    DeviceDestroy,
    ContextDestroy,
    ElementDestroy,
    SourceDestroy,
    MaskDestroy,
    PortSet,
    PortGet,
    Attach,
    PipeSet,
    PipeGet,
    PipeBindPort,
    DisplaySource,
    DisplaySourceDestroy,
    PipeBindSource,
    CommitDevice,
    CommitPort,
    CommitPipe,
    DisplayError,
}

/// The forms of event lines: those that paint, and each other verb.
#[derive(Clone, Copy)]
pub(crate) enum Form {
    Paint,
    Frame,
    Plain(Plain),
}

/// The verbs.
const FORMS: [(&[u8], Form); 48] = [
    (b"stream", Form::Plain(Plain::StreamNew)),
    (b"queue", Form::Plain(Plain::StreamQueue)),
    (b"acquire", Form::Plain(Plain::Acquire)),
    (b"post", Form::Plain(Plain::Post)),
    (b"discard", Form::Plain(Plain::Discard)),
    (b"stat", Form::Plain(Plain::Stat)),
    (b"paint", Form::Paint),
    (b"frame", Form::Frame),
    (b"tick", Form::Plain(Plain::Tick)),
    (b"device", Form::Plain(Plain::DeviceNew)),
    (b"error", Form::Plain(Plain::GetError)),
    (b"screen", Form::Plain(Plain::ScreenContext)),
    (b"offscreen", Form::Plain(Plain::StreamContext)),
    (b"element", Form::Plain(Plain::ElementNew)),
    (b"source", Form::Plain(Plain::SourceNew)),
    (b"mask", Form::Plain(Plain::MaskNew)),
    (b"set", Form::Plain(Plain::ElementSet)),
    (b"get", Form::Plain(Plain::ElementGet)),
    (b"insert", Form::Plain(Plain::ElementInsert)),
    (b"remove", Form::Plain(Plain::ElementRemove)),
    (b"above", Form::Plain(Plain::ElementAbove)),
    (b"below", Form::Plain(Plain::ElementBelow)),
    (b"cset", Form::Plain(Plain::ContextSet)),
    (b"cget", Form::Plain(Plain::ContextGet)),
    (b"commit", Form::Plain(Plain::Commit)),
    (b"activate", Form::Plain(Plain::Activate)),
    (b"deactivate", Form::Plain(Plain::Deactivate)),
    (b"compose", Form::Plain(Plain::Compose)),
    (b"trycompose", Form::Plain(Plain::TryCompose)),
    (b"del_stream", Form::Plain(Plain::StreamDestroy)),
    (b"del_device", Form::Plain(Plain::DeviceDestroy)),
    (b"del_context", Form::Plain(Plain::ContextDestroy)),
    (b"del_element", Form::Plain(Plain::ElementDestroy)),
    (b"del_source", Form::Plain(Plain::SourceDestroy)),
    (b"del_mask", Form::Plain(Plain::MaskDestroy)),
    (b"pset", Form::Plain(Plain::PortSet)),
    (b"pget", Form::Plain(Plain::PortGet)),
    (b"attach", Form::Plain(Plain::Attach)),
    (b"lset", Form::Plain(Plain::PipeSet)),
    (b"lget", Form::Plain(Plain::PipeGet)),
    (b"lport", Form::Plain(Plain::PipeBindPort)),
    (b"wsource", Form::Plain(Plain::DisplaySource)),
    (b"del_wsource", Form::Plain(Plain::DisplaySourceDestroy)),
    (b"lsource", Form::Plain(Plain::PipeBindSource)),
    (b"commit_device", Form::Plain(Plain::CommitDevice)),
    (b"commit_port", Form::Plain(Plain::CommitPort)),
    (b"commit_pipe", Form::Plain(Plain::CommitPipe)),
    (b"derror", Form::Plain(Plain::DisplayError)),
];

impl Form {
    /// The form of a verb's word.
    pub(crate) fn of_verb(verb: &[u8]) -> Option<Form>
        ensures { result ≡ look_up forms verb.now }
    {
        look_up(&FORMS, verb)
    }

    /// Whether its line makes something that a name then stands for.
    pub(crate) fn binds(self) -> bool
        ensures { result ≡ binds self }
    {
        match self {
            Form::Plain(plain) => plain.creates(),
            Form::Paint | Form::Frame => false,
        }
    }
}

impl Plain {
    /// Whether its verb makes something. It says what `Verb::creates` says, and makes no verb for it.
    fn creates(self) -> bool
        ensures { result ≡ binds (Form.Plain self) }
    {
        match self {
            Plain::StreamNew
            | Plain::StreamQueue
            | Plain::DeviceNew
            | Plain::ScreenContext
            | Plain::StreamContext
            | Plain::ElementNew
            | Plain::SourceNew
            | Plain::MaskNew
            | Plain::DisplaySource => true,
            _ => false,
        }
    }

    /// The kinds of the words behind the verb; where the last one decides what follows it, up to that.
    pub(crate) fn fields(self) -> &'static [Field]
        ensures fields { result.now ≡ fields self }
        ensures few { length result.now ≤ 4 }
    {
        match self {
            Plain::StreamNew | Plain::StreamQueue => &[
                Field::Number,
                Field::Number,
                Field::Format,
                Field::Number,
            ],
            Plain::Acquire
            | Plain::GetError
            | Plain::StreamDestroy
            | Plain::DeviceDestroy
            | Plain::DisplaySourceDestroy => &[Field::Handle],
            Plain::Post
            | Plain::Discard
            | Plain::Tick
            | Plain::DeviceNew
            | Plain::CommitDevice
            | Plain::DisplayError => &[],
            Plain::Stat => &[Field::Stat],
            Plain::ScreenContext => &[Field::Handle, Field::Number],
            Plain::StreamContext
            | Plain::ElementNew
            | Plain::ElementRemove
            | Plain::ElementAbove
            | Plain::ElementBelow
            | Plain::Commit
            | Plain::Activate
            | Plain::Deactivate
            | Plain::Compose
            | Plain::TryCompose
            | Plain::ContextDestroy
            | Plain::ElementDestroy
            | Plain::SourceDestroy
            | Plain::MaskDestroy => &[Field::Handle, Field::Handle],
            Plain::SourceNew | Plain::MaskNew | Plain::ElementInsert => &[
                Field::Handle,
                Field::Handle,
                Field::Handle,
            ],
            Plain::ElementSet => &[Field::Handle, Field::Handle, Field::ElementAttr],
            Plain::ElementGet => &[
                Field::Handle,
                Field::Handle,
                Field::ElementAttr,
                Field::Number,
            ],
            Plain::ContextSet => &[Field::Handle, Field::Handle, Field::ContextAttr],
            Plain::ContextGet => &[
                Field::Handle,
                Field::Handle,
                Field::ContextAttr,
                Field::Number,
            ],
            Plain::PortSet => &[Field::Number, Field::PortAttr],
            Plain::PortGet => &[Field::Number, Field::PortAttr, Field::Number],
            Plain::Attach | Plain::PipeBindPort => &[Field::Number, Field::Number],
            Plain::PipeSet => &[Field::Number, Field::PipeAttr],
            Plain::PipeGet => &[Field::Number, Field::PipeAttr, Field::Number],
            Plain::DisplaySource => &[Field::Number, Field::Handle],
            Plain::PipeBindSource => &[Field::Number, Field::Handle, Field::Transition],
            Plain::CommitPort | Plain::CommitPipe => &[Field::Number],
        }
    }
}
