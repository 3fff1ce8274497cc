//! How a verb is printed.

ghost use Rattle.std.specs.Prelude.{◌≡◌, ◌+◌, ◌*◌, ◌≤◌, [], ◌∷◌, ◌++◌, length, map, IsTrue};
ghost use Rattle.wf_script.specs.Canonical.{verb_words};
ghost use Rattle.wf_script.specs.Script.{may_paint};
ghost use Rattle.wf_script.specs.Text.{Adds, extent};
ghost use Rattle.wf_script.specs.Told.{end_words, told_words};
ghost use Rattle.wf_script.specs.Token.{shown_word, spaced};

use crate::WORD_ROOM;
use crate::line::Verb;
use crate::paint_text::add_paint;
use crate::shapes::{context_fields, element_fields, pipe_fields, port_fields};
use crate::text::Text;
use crate::token::Shown::{
    ContextAttr, ElementAttr, Format, Handle, Number, PipeAttr, PortAttr, Stat, Transition,
};
use crate::token::{Shown, Token, add_all_shown, add_words};
use crate::told::{End, Painted, Told};
use crate::value_text::add_value;
use wf_io::Sink;

/// A verb's word with no word behind it, and the end.
fn alone<'a>(word: &'static [u8], end: End<'a>) -> Told<'a>
    requires { length word.now ≤ 64 }
    ensures { told_words result ≡ word.now ∷ end_words end.entry }
{
    Told {
        word,
        shown: [
            Shown::Filter(0),
            Shown::Filter(0),
            Shown::Filter(0),
            Shown::Filter(0),
        ],
        count: 0,
        end,
    }
}

/// A verb's word with one word behind it, and the end.
fn one<'a>(word: &'static [u8], a: Shown<'a>, end: End<'a>) -> Told<'a>
    requires { length word.now ≤ 64 }
    ensures { told_words result ≡ word.now ∷ shown_word a.entry ∷ end_words end.entry }
{
    Told {
        word,
        shown: [a, a, a, a],
        count: 1,
        end,
    }
}

/// A verb's word with two words behind it, and the end.
fn two<'a>(word: &'static [u8], a: Shown<'a>, b: Shown<'a>, end: End<'a>) -> Told<'a>
    requires { length word.now ≤ 64 }
    ensures { told_words result ≡ word.now ∷ shown_word a.entry ∷ shown_word b.entry ∷ end_words end.entry }
{
    Told {
        word,
        shown: [a, b, b, b],
        count: 2,
        end,
    }
}

/// A verb's word with three words behind it, and the end.
fn three<'a>(
    word: &'static [u8],
    a: Shown<'a>,
    b: Shown<'a>,
    c: Shown<'a>,
    end: End<'a>,
) -> Told<'a>
    requires { length word.now ≤ 64 }
    ensures { told_words result ≡ word.now ∷ shown_word a.entry ∷ shown_word b.entry ∷ shown_word c.entry ∷ end_words end.entry }
{
    Told {
        word,
        shown: [a, b, c, c],
        count: 3,
        end,
    }
}

/// A verb's word with four words behind it, and the end.
fn four<'a>(
    word: &'static [u8],
    a: Shown<'a>,
    b: Shown<'a>,
    c: Shown<'a>,
    d: Shown<'a>,
    end: End<'a>,
) -> Told<'a>
    requires { length word.now ≤ 64 }
    ensures { told_words result
        ≡ word.now ∷ map shown_word (a.entry ∷ b.entry ∷ c.entry ∷ d.entry ∷ []) ++ end_words end.entry }
{
    Told {
        word,
        shown: [a, b, c, d],
        count: 4,
        end,
    }
}

/// What is printed of a verb.
fn told(verb: &Verb) -> Told<'_>
    requires { IsTrue (may_paint verb.now) }
    ensures { told_words result ≡ verb_words verb.now }
{
    match verb {
        Verb::StreamNew {
            width,
            height,
            format,
            buffers,
        } => four(
            b"stream",
            Number(width),
            Number(height),
            Format(*format),
            Number(buffers),
            End::Nothing,
        ),
        Verb::StreamQueue {
            width,
            height,
            format,
            depth,
        } => four(
            b"queue",
            Number(width),
            Number(height),
            Format(*format),
            Number(depth),
            End::Nothing,
        ),
        Verb::Acquire { stream } => one(b"acquire", Handle(stream), End::Nothing),
        Verb::Post => alone(b"post", End::Nothing),
        Verb::Discard => alone(b"discard", End::Nothing),
        Verb::Stat { what } => one(b"stat", Stat(*what), End::Nothing),
        Verb::Paint(paint) => alone(b"paint", End::Paint(Painted { paint })),
        Verb::Frame { stream, paint } => one(
            b"frame",
            Handle(stream),
            End::Paint(Painted { paint }),
        ),
        Verb::Tick => alone(b"tick", End::Nothing),
        Verb::DeviceNew => alone(b"device", End::Nothing),
        Verb::GetError { device } => one(b"error", Handle(device), End::Nothing),
        Verb::ScreenContext { device, port } => two(
            b"screen",
            Handle(device),
            Number(port),
            End::Nothing,
        ),
        Verb::StreamContext { device, stream } => two(
            b"offscreen",
            Handle(device),
            Handle(stream),
            End::Nothing,
        ),
        Verb::ElementNew { device, context } => two(
            b"element",
            Handle(device),
            Handle(context),
            End::Nothing,
        ),
        Verb::SourceNew {
            device,
            context,
            stream,
        } => three(
            b"source",
            Handle(device),
            Handle(context),
            Handle(stream),
            End::Nothing,
        ),
        Verb::MaskNew {
            device,
            context,
            stream,
        } => three(
            b"mask",
            Handle(device),
            Handle(context),
            Handle(stream),
            End::Nothing,
        ),
        Verb::ElementSet {
            device,
            element,
            attr,
            value,
        } => three(
            b"set",
            Handle(device),
            Handle(element),
            ElementAttr(*attr),
            End::Element(*attr, value),
        ),
        Verb::ElementGet {
            device,
            element,
            attr,
            index,
        } => four(
            b"get",
            Handle(device),
            Handle(element),
            ElementAttr(*attr),
            Number(index),
            End::Nothing,
        ),
        Verb::ElementInsert {
            device,
            element,
            below,
        } => three(
            b"insert",
            Handle(device),
            Handle(element),
            Handle(below),
            End::Nothing,
        ),
        Verb::ElementRemove { device, element } => two(
            b"remove",
            Handle(device),
            Handle(element),
            End::Nothing,
        ),
        Verb::ElementAbove { device, element } => two(
            b"above",
            Handle(device),
            Handle(element),
            End::Nothing,
        ),
        Verb::ElementBelow { device, element } => two(
            b"below",
            Handle(device),
            Handle(element),
            End::Nothing,
        ),
        Verb::ContextSet {
            device,
            context,
            attr,
            value,
        } => three(
            b"cset",
            Handle(device),
            Handle(context),
            ContextAttr(*attr),
            End::Context(*attr, value),
        ),
        Verb::ContextGet {
            device,
            context,
            attr,
            index,
        } => four(
            b"cget",
            Handle(device),
            Handle(context),
            ContextAttr(*attr),
            Number(index),
            End::Nothing,
        ),
        Verb::Commit { device, context } => two(
            b"commit",
            Handle(device),
            Handle(context),
            End::Nothing,
        ),
        Verb::Activate { device, context } => two(
            b"activate",
            Handle(device),
            Handle(context),
            End::Nothing,
        ),
        Verb::Deactivate { device, context } => two(
            b"deactivate",
            Handle(device),
            Handle(context),
            End::Nothing,
        ),
        Verb::Compose { device, context } => two(
            b"compose",
            Handle(device),
            Handle(context),
            End::Nothing,
        ),
        Verb::TryCompose { device, context } => two(
            b"trycompose",
            Handle(device),
            Handle(context),
            End::Nothing,
        ),
        Verb::StreamDestroy { stream } => one(b"del_stream", Handle(stream), End::Nothing),
        Verb::DeviceDestroy { device } => one(b"del_device", Handle(device), End::Nothing),
        Verb::ContextDestroy { device, context } => two(
            b"del_context",
            Handle(device),
            Handle(context),
            End::Nothing,
        ),
        Verb::ElementDestroy { device, element } => two(
            b"del_element",
            Handle(device),
            Handle(element),
            End::Nothing,
        ),
        Verb::SourceDestroy { device, source } => two(
            b"del_source",
            Handle(device),
            Handle(source),
            End::Nothing,
        ),
        Verb::MaskDestroy { device, mask } => two(
            b"del_mask",
            Handle(device),
            Handle(mask),
            End::Nothing,
        ),
        Verb::PortSet { port, attr, value } => two(
            b"pset",
            Number(port),
            PortAttr(*attr),
            End::Port(*attr, value),
        ),
        Verb::PortGet { port, attr, index } => three(
            b"pget",
            Number(port),
            PortAttr(*attr),
            Number(index),
            End::Nothing,
        ),
        Verb::Attach { port, on } => two(b"attach", Number(port), Number(on), End::Nothing),
        Verb::PipeSet { pipe, attr, value } => two(
            b"lset",
            Number(pipe),
            PipeAttr(*attr),
            End::Pipe(*attr, value),
        ),
        Verb::PipeGet { pipe, attr, index } => three(
            b"lget",
            Number(pipe),
            PipeAttr(*attr),
            Number(index),
            End::Nothing,
        ),
        Verb::PipeBindPort { pipe, port } => two(
            b"lport",
            Number(pipe),
            Number(port),
            End::Nothing,
        ),
        Verb::DisplaySource { pipe, stream } => two(
            b"wsource",
            Number(pipe),
            Handle(stream),
            End::Nothing,
        ),
        Verb::DisplaySourceDestroy { source } => one(b"del_wsource", Handle(source), End::Nothing),
        Verb::PipeBindSource {
            pipe,
            source,
            transition,
        } => three(
            b"lsource",
            Number(pipe),
            Handle(source),
            Transition(*transition),
            End::Nothing,
        ),
        Verb::CommitDevice => alone(b"commit_device", End::Nothing),
        Verb::CommitPort { port } => one(b"commit_port", Number(port), End::Nothing),
        Verb::CommitPipe { pipe } => one(b"commit_pipe", Number(pipe), End::Nothing),
        Verb::DisplayError => alone(b"derror", End::Nothing),
    }
}

/// Adds the end of a verb's words.
#[tactic(auto, using(crate::proofs::Additions::adds_none), unfolding(crate::specs::Token::spaced))]
fn add_end<K: Sink>(text: &mut Text, k: &mut K, end: End<'_>)
    ensures adds { Adds K.took K.faults text.old k.old text.new k.new (spaced (end_words end.entry)) }
    ensures most { extent text.new ≤ extent text.old + 10 * WORD_ROOM }
{
    match end {
        End::Nothing => {}
        End::Element(attr, value) => add_value(text, k, element_fields(attr), value),
        End::Context(attr, value) => add_value(text, k, context_fields(attr), value),
        End::Port(attr, value) => add_value(text, k, port_fields(attr), value),
        End::Pipe(attr, value) => add_value(text, k, pipe_fields(attr), value),
        End::Paint(painted) => add_paint(text, k, painted.paint),
    }
}

/// Adds the words of a verb.
pub(crate) fn add_verb<K: Sink>(text: &mut Text, k: &mut K, verb: &Verb)
    requires { IsTrue (may_paint verb.now) }
    ensures adds { Adds K.took K.faults text.old k.old text.new k.new (spaced (verb_words verb.now)) }
    ensures most { extent text.new ≤ extent text.old + 16 * WORD_ROOM }
{
    let told = told(verb);
    add_words(text, k, &[Token::Letters(told.word)]);
    add_all_shown(text, k, &told.shown[..told.count]);
    add_end(text, k, told.end);
}
