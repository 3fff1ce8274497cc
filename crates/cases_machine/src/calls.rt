//! The calls that lines of cases stand for, with a number for each handle. tools/calls writes this file.

use crate::words::{pipe_attr, port_attr, stat_word, transition_word};
use wf_calls::Call;
use wf_cases::{context_attr, element_attr, format, number, value, word};

/// The call of a line that gives nothing back.
pub(crate) fn call_of(words: &[&str]) -> Option<Call> {
    of_streams(words)
        .or(of_contexts(words))
        .or(of_elements(words))
        .or(of_sources(words))
        .or(of_display(words))
        .or(of_frames(words))
}

/// A call of the subject streams.
fn of_streams(words: &[&str]) -> Option<Call> {
    let width = number(words, 1);
    let height = number(words, 2);
    let stream = number(words, 1);
    let device = number(words, 1);
    let call = match word(words, 0) {
        "stream" => Call::StreamNew {
            width,
            height,
            format: format(words, 3),
            buffers: number(words, 4),
        },
        "queue" => Call::StreamQueue {
            width,
            height,
            format: format(words, 3),
            depth: number(words, 4),
        },
        "del_stream" => Call::StreamDestroy { stream },
        "acquire" => Call::Acquire { stream },
        "stat" => Call::Stat {
            what: stat_word(words, 1),
        },
        "device" => Call::DeviceNew,
        "del_device" => Call::DeviceDestroy { device },
        "error" => Call::GetError { device },
        _ => return None,
    };
    Some(call)
}

/// A call of the subject contexts.
fn of_contexts(words: &[&str]) -> Option<Call> {
    let device = number(words, 1);
    let context = number(words, 2);
    let call = match word(words, 0) {
        "screen" => Call::ScreenContext {
            device,
            port: number(words, 2),
        },
        "offscreen" => Call::StreamContext {
            device,
            stream: number(words, 2),
        },
        "del_context" => Call::ContextDestroy { device, context },
        "cset" => Call::ContextSet {
            device,
            context,
            attr: context_attr(words, 3),
            value: value(words, 4),
        },
        "cget" => Call::ContextGet {
            device,
            context,
            attr: context_attr(words, 3),
            index: number(words, 4),
        },
        "commit" => Call::Commit { device, context },
        "activate" => Call::Activate { device, context },
        "deactivate" => Call::Deactivate { device, context },
        _ => return None,
    };
    Some(call)
}

/// A call of the subject elements.
fn of_elements(words: &[&str]) -> Option<Call> {
    let device = number(words, 1);
    let element = number(words, 2);
    let call = match word(words, 0) {
        "element" => Call::ElementNew {
            device,
            context: number(words, 2),
        },
        "del_element" => Call::ElementDestroy { device, element },
        "set" => Call::ElementSet {
            device,
            element,
            attr: element_attr(words, 3),
            value: value(words, 4),
        },
        "get" => Call::ElementGet {
            device,
            element,
            attr: element_attr(words, 3),
            index: number(words, 4),
        },
        "insert" => Call::ElementInsert {
            device,
            element,
            below: number(words, 3),
        },
        "remove" => Call::ElementRemove { device, element },
        "above" => Call::ElementAbove { device, element },
        "below" => Call::ElementBelow { device, element },
        _ => return None,
    };
    Some(call)
}

/// A call of the subject sources.
fn of_sources(words: &[&str]) -> Option<Call> {
    let device = number(words, 1);
    let context = number(words, 2);
    let stream = number(words, 3);
    let call = match word(words, 0) {
        "source" => Call::SourceNew {
            device,
            context,
            stream,
        },
        "del_source" => Call::SourceDestroy {
            device,
            source: number(words, 2),
        },
        "mask" => Call::MaskNew {
            device,
            context,
            stream,
        },
        "del_mask" => Call::MaskDestroy {
            device,
            mask: number(words, 2),
        },
        _ => return None,
    };
    Some(call)
}

/// A call of the subject display.
fn of_display(words: &[&str]) -> Option<Call> {
    let port = number(words, 1);
    let index = number(words, 3);
    let pipe = number(words, 1);
    let source = number(words, 1);
    let call = match word(words, 0) {
        "pset" => Call::PortSet {
            port,
            attr: port_attr(words, 2),
            value: value(words, 3),
        },
        "pget" => Call::PortGet {
            port,
            attr: port_attr(words, 2),
            index,
        },
        "attach" => Call::Attach {
            port,
            on: number(words, 2),
        },
        "lset" => Call::PipeSet {
            pipe,
            attr: pipe_attr(words, 2),
            value: value(words, 3),
        },
        "lget" => Call::PipeGet {
            pipe,
            attr: pipe_attr(words, 2),
            index,
        },
        "lport" => Call::PipeBindPort {
            pipe,
            port: number(words, 2),
        },
        "wsource" => Call::DisplaySource {
            pipe,
            stream: number(words, 2),
        },
        "del_wsource" => Call::DisplaySourceDestroy { source },
        "lsource" => Call::PipeBindSource {
            pipe,
            source: number(words, 2),
            transition: transition_word(words, 3),
        },
        "commit_device" => Call::CommitDevice,
        "commit_port" => Call::CommitPort { port },
        "commit_pipe" => Call::CommitPipe { pipe },
        "derror" => Call::DisplayError,
        _ => return None,
    };
    Some(call)
}

/// A call of the subject frames.
fn of_frames(words: &[&str]) -> Option<Call> {
    let call = match word(words, 0) {
        "begin_next" => Call::BeginNext {
            after: number(words, 1),
        },
        "begin_port" => Call::BeginPort {
            port: number(words, 1),
        },
        "begin_context" => Call::BeginContext {
            device: number(words, 1),
            context: number(words, 2),
        },
        _ => return None,
    };
    Some(call)
}
