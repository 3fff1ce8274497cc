//! The words of the tables.

ghost use Rattle.std.specs.Prelude.{◌≡◌};
ghost use Rattle.wf_script.specs.Words.{context_attrs, element_attrs, filters, formats, look_up, pipe_attrs, port_attrs, stat_words};
ghost use Rattle.wf_script.specs.Words.{transitions, transparencies};

use crate::table::look_up;
use wf_calls::{PipeAttr, PortAttr, StatWord, Transition};
use wf_pixel::Format;
use wf_scene::{ContextAttr, ElementAttr};

/// The formats.
const FORMATS: [(&[u8], Format); 4] = [
    (b"rgba", Format::Rgba8),
    (b"pre", Format::Rgba8Pre),
    (b"rgbx", Format::Rgbx8),
    (b"a8", Format::A8),
];

/// A format.
pub(crate) fn format_of(word: &[u8]) -> Option<Format>
    ensures { result ≡ look_up formats word.now }
{
    look_up(&FORMATS, word)
}

/// What may be counted.
const STAT_WORDS: [(&[u8], StatWord); 2] = [
    (b"streams", StatWord::Streams),
    (b"bytes", StatWord::Bytes),
];

/// What is counted.
pub(crate) fn stat_of(word: &[u8]) -> Option<StatWord>
    ensures { result ≡ look_up stat_words word.now }
{
    look_up(&STAT_WORDS, word)
}

/// The attributes of an element.
const ELEMENT_ATTRS: [(&[u8], ElementAttr); 9] = [
    (b"dest", ElementAttr::Dest),
    (b"source", ElementAttr::Source),
    (b"srcrect", ElementAttr::SrcRect),
    (b"flip", ElementAttr::Flip),
    (b"rotation", ElementAttr::Rotation),
    (b"filter", ElementAttr::Filter),
    (b"transparency", ElementAttr::Transparency),
    (b"alpha", ElementAttr::Alpha),
    (b"mask", ElementAttr::Mask),
];

/// An attribute of an element.
pub(crate) fn element_attr_of(word: &[u8]) -> Option<ElementAttr>
    ensures { result ≡ look_up element_attrs word.now }
{
    look_up(&ELEMENT_ATTRS, word)
}

/// The attributes of a context.
const CONTEXT_ATTRS: [(&[u8], ContextAttr); 5] = [
    (b"rotation", ContextAttr::Rotation),
    (b"background", ContextAttr::Background),
    (b"width", ContextAttr::Width),
    (b"height", ContextAttr::Height),
    (b"lowest", ContextAttr::Lowest),
];

/// An attribute of a context.
pub(crate) fn context_attr_of(word: &[u8]) -> Option<ContextAttr>
    ensures { result ≡ look_up context_attrs word.now }
{
    look_up(&CONTEXT_ATTRS, word)
}

/// The attributes of a port.
const PORT_ATTRS: [(&[u8], PortAttr); 6] = [
    (b"mode", PortAttr::Mode),
    (b"background", PortAttr::Background),
    (b"power", PortAttr::Power),
    (b"width", PortAttr::Width),
    (b"height", PortAttr::Height),
    (b"attached", PortAttr::Attached),
];

/// An attribute of a port.
pub(crate) fn port_attr_of(word: &[u8]) -> Option<PortAttr>
    ensures { result ≡ look_up port_attrs word.now }
{
    look_up(&PORT_ATTRS, word)
}

/// The attributes of a pipeline.
const PIPE_ATTRS: [(&[u8], PipeAttr); 10] = [
    (b"dest", PipeAttr::Dest),
    (b"srcrect", PipeAttr::SrcRect),
    (b"flip", PipeAttr::Flip),
    (b"rotation", PipeAttr::Rotation),
    (b"filter", PipeAttr::Filter),
    (b"transparency", PipeAttr::Transparency),
    (b"alpha", PipeAttr::Alpha),
    (b"port", PipeAttr::Port),
    (b"pending", PipeAttr::Pending),
    (b"showing", PipeAttr::Showing),
];

/// An attribute of a pipeline.
pub(crate) fn pipe_attr_of(word: &[u8]) -> Option<PipeAttr>
    ensures { result ≡ look_up pipe_attrs word.now }
{
    look_up(&PIPE_ATTRS, word)
}

/// When a source shows.
const TRANSITIONS: [(&[u8], Transition); 2] = [
    (b"now", Transition::Now),
    (b"vsync", Transition::Vsync),
];

/// When a requested source shows.
pub(crate) fn transition_of(word: &[u8]) -> Option<Transition>
    ensures { result ≡ look_up transitions word.now }
{
    look_up(&TRANSITIONS, word)
}

/// The ways to scale a source.
const FILTERS: [(&[u8], i64); 3] = [(b"none", 0), (b"faster", 1), (b"better", 2)];

/// The number of a way to scale a source.
pub(crate) fn filter_of(word: &[u8]) -> Option<i64>
    ensures { result ≡ look_up filters word.now }
{
    look_up(&FILTERS, word)
}

/// What makes an element transparent: the sums of 1 for its own alpha, 2 for the source's and 4 for a mask.
const TRANSPARENCIES: [(&[u8], i64); 8] = [
    (b"none", 0),
    (b"alpha", 1),
    (b"source", 2),
    (b"alpha+source", 3),
    (b"mask", 4),
    (b"alpha+mask", 5),
    (b"source+mask", 6),
    (b"alpha+source+mask", 7),
];

/// The number of what makes an element transparent.
pub(crate) fn transparency_of(word: &[u8]) -> Option<i64>
    ensures { result ≡ look_up transparencies word.now }
{
    look_up(&TRANSPARENCIES, word)
}
