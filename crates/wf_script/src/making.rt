//! The verb that a form makes of what its words stand for.

ghost use Rattle.std.specs.Prelude.{◌≡◌};
ghost use Rattle.wf_script.specs.Items.{items_of};
ghost use Rattle.wf_script.specs.Verbs.{verb_of};

use crate::field::Item;
use crate::form::Plain;
use crate::items::{
    context_attr_at, element_attr_at, format_at, handle_at, number_at, pipe_attr_at, port_attr_at,
    stat_at, transition_at, value_at,
};
use crate::line::Verb;

/// The verb of a form, by the items of its words.
pub(crate) fn verb_of(plain: Plain, items: &[Item<'_>]) -> Verb
    ensures { result ≡ verb_of plain (items_of items.now) }
{
    match plain {
        Plain::StreamNew => Verb::StreamNew {
            width: number_at(items, 0),
            height: number_at(items, 1),
            format: format_at(items, 2),
            buffers: number_at(items, 3),
        },
        Plain::StreamQueue => Verb::StreamQueue {
            width: number_at(items, 0),
            height: number_at(items, 1),
            format: format_at(items, 2),
            depth: number_at(items, 3),
        },
        Plain::Acquire => Verb::Acquire {
            stream: handle_at(items, 0),
        },
        Plain::Post => Verb::Post,
        Plain::Discard => Verb::Discard,
        Plain::Stat => Verb::Stat {
            what: stat_at(items, 0),
        },
        Plain::Tick => Verb::Tick,
        Plain::DeviceNew => Verb::DeviceNew,
        Plain::GetError => Verb::GetError {
            device: handle_at(items, 0),
        },
        Plain::ScreenContext => Verb::ScreenContext {
            device: handle_at(items, 0),
            port: number_at(items, 1),
        },
        Plain::StreamContext => Verb::StreamContext {
            device: handle_at(items, 0),
            stream: handle_at(items, 1),
        },
        Plain::ElementNew => Verb::ElementNew {
            device: handle_at(items, 0),
            context: handle_at(items, 1),
        },
        Plain::SourceNew => Verb::SourceNew {
            device: handle_at(items, 0),
            context: handle_at(items, 1),
            stream: handle_at(items, 2),
        },
        Plain::MaskNew => Verb::MaskNew {
            device: handle_at(items, 0),
            context: handle_at(items, 1),
            stream: handle_at(items, 2),
        },
        Plain::ElementSet => Verb::ElementSet {
            device: handle_at(items, 0),
            element: handle_at(items, 1),
            attr: element_attr_at(items, 2),
            value: value_at(items, 3),
        },
        Plain::ElementGet => Verb::ElementGet {
            device: handle_at(items, 0),
            element: handle_at(items, 1),
            attr: element_attr_at(items, 2),
            index: number_at(items, 3),
        },
        Plain::ElementInsert => Verb::ElementInsert {
            device: handle_at(items, 0),
            element: handle_at(items, 1),
            below: handle_at(items, 2),
        },
        Plain::ElementRemove => Verb::ElementRemove {
            device: handle_at(items, 0),
            element: handle_at(items, 1),
        },
        Plain::ElementAbove => Verb::ElementAbove {
            device: handle_at(items, 0),
            element: handle_at(items, 1),
        },
        Plain::ElementBelow => Verb::ElementBelow {
            device: handle_at(items, 0),
            element: handle_at(items, 1),
        },
        Plain::ContextSet => Verb::ContextSet {
            device: handle_at(items, 0),
            context: handle_at(items, 1),
            attr: context_attr_at(items, 2),
            value: value_at(items, 3),
        },
        Plain::ContextGet => Verb::ContextGet {
            device: handle_at(items, 0),
            context: handle_at(items, 1),
            attr: context_attr_at(items, 2),
            index: number_at(items, 3),
        },
        Plain::Commit => Verb::Commit {
            device: handle_at(items, 0),
            context: handle_at(items, 1),
        },
        Plain::Activate => Verb::Activate {
            device: handle_at(items, 0),
            context: handle_at(items, 1),
        },
        Plain::Deactivate => Verb::Deactivate {
            device: handle_at(items, 0),
            context: handle_at(items, 1),
        },
        Plain::Compose => Verb::Compose {
            device: handle_at(items, 0),
            context: handle_at(items, 1),
        },
        Plain::TryCompose => Verb::TryCompose {
            device: handle_at(items, 0),
            context: handle_at(items, 1),
        },
        Plain::StreamDestroy => Verb::StreamDestroy {
            stream: handle_at(items, 0),
        },
        Plain::DeviceDestroy => Verb::DeviceDestroy {
            device: handle_at(items, 0),
        },
        Plain::ContextDestroy => Verb::ContextDestroy {
            device: handle_at(items, 0),
            context: handle_at(items, 1),
        },
        Plain::ElementDestroy => Verb::ElementDestroy {
            device: handle_at(items, 0),
            element: handle_at(items, 1),
        },
        Plain::SourceDestroy => Verb::SourceDestroy {
            device: handle_at(items, 0),
            source: handle_at(items, 1),
        },
        Plain::MaskDestroy => Verb::MaskDestroy {
            device: handle_at(items, 0),
            mask: handle_at(items, 1),
        },
        Plain::PortSet => Verb::PortSet {
            port: number_at(items, 0),
            attr: port_attr_at(items, 1),
            value: value_at(items, 2),
        },
        Plain::PortGet => Verb::PortGet {
            port: number_at(items, 0),
            attr: port_attr_at(items, 1),
            index: number_at(items, 2),
        },
        Plain::Attach => Verb::Attach {
            port: number_at(items, 0),
            on: number_at(items, 1),
        },
        Plain::PipeSet => Verb::PipeSet {
            pipe: number_at(items, 0),
            attr: pipe_attr_at(items, 1),
            value: value_at(items, 2),
        },
        Plain::PipeGet => Verb::PipeGet {
            pipe: number_at(items, 0),
            attr: pipe_attr_at(items, 1),
            index: number_at(items, 2),
        },
        Plain::PipeBindPort => Verb::PipeBindPort {
            pipe: number_at(items, 0),
            port: number_at(items, 1),
        },
        Plain::DisplaySource => Verb::DisplaySource {
            pipe: number_at(items, 0),
            stream: handle_at(items, 1),
        },
        Plain::DisplaySourceDestroy => Verb::DisplaySourceDestroy {
            source: handle_at(items, 0),
        },
        Plain::PipeBindSource => Verb::PipeBindSource {
            pipe: number_at(items, 0),
            source: handle_at(items, 1),
            transition: transition_at(items, 2),
        },
        Plain::CommitDevice => Verb::CommitDevice,
        Plain::CommitPort => Verb::CommitPort {
            port: number_at(items, 0),
        },
        Plain::CommitPipe => Verb::CommitPipe {
            pipe: number_at(items, 0),
        },
        Plain::DisplayError => Verb::DisplayError,
    }
}
