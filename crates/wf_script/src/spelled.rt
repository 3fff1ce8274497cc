//! How the words of the tables are spelled.

ghost use Rattle.std.specs.Prelude.{◌≡◌, ◌≤◌, length};
ghost use Rattle.wf_script.specs.Spelled.{context_attr_word, element_attr_word, format_word, pipe_attr_word, port_attr_word, stat_word};
ghost use Rattle.wf_script.specs.Spelled.{transition_word, word_of};
ghost use Rattle.wf_script.specs.Words.{filters, transparencies};

use wf_calls::{PipeAttr, PortAttr, StatWord, Transition};
use wf_pixel::Format;
use wf_scene::{ContextAttr, ElementAttr};

/// How the pixels of a stream are stored.
pub(crate) fn format_word(format: Format) -> &'static [u8]
    ensures word { result.now ≡ format_word format }
    ensures short { length result.now ≤ 12 }
{
    match format {
        Format::Rgba8 => b"rgba",
        Format::Rgba8Pre => b"pre",
        Format::Rgbx8 => b"rgbx",
        Format::A8 => b"a8",
    }
}

/// What a client asks for by `stat`.
pub(crate) fn stat_word(what: StatWord) -> &'static [u8]
    ensures word { result.now ≡ stat_word what }
    ensures short { length result.now ≤ 12 }
{
    match what {
        StatWord::Streams => b"streams",
        StatWord::Bytes => b"bytes",
    }
}

/// An attribute of an element.
pub(crate) fn element_attr_word(attr: ElementAttr) -> &'static [u8]
    ensures word { result.now ≡ element_attr_word attr }
    ensures short { length result.now ≤ 12 }
{
    match attr {
        ElementAttr::Dest => b"dest",
        ElementAttr::Source => b"source",
        ElementAttr::SrcRect => b"srcrect",
        ElementAttr::Flip => b"flip",
        ElementAttr::Rotation => b"rotation",
        ElementAttr::Filter => b"filter",
        ElementAttr::Transparency => b"transparency",
        ElementAttr::Alpha => b"alpha",
        ElementAttr::Mask => b"mask",
    }
}

/// An attribute of a context.
pub(crate) fn context_attr_word(attr: ContextAttr) -> &'static [u8]
    ensures word { result.now ≡ context_attr_word attr }
    ensures short { length result.now ≤ 12 }
{
    match attr {
        ContextAttr::Rotation => b"rotation",
        ContextAttr::Background => b"background",
        ContextAttr::Width => b"width",
        ContextAttr::Height => b"height",
        ContextAttr::Lowest => b"lowest",
    }
}

/// An attribute of a port.
pub(crate) fn port_attr_word(attr: PortAttr) -> &'static [u8]
    ensures word { result.now ≡ port_attr_word attr }
    ensures short { length result.now ≤ 12 }
{
    match attr {
        PortAttr::Mode => b"mode",
        PortAttr::Background => b"background",
        PortAttr::Power => b"power",
        PortAttr::Width => b"width",
        PortAttr::Height => b"height",
        PortAttr::Attached => b"attached",
    }
}

/// An attribute of a pipeline.
pub(crate) fn pipe_attr_word(attr: PipeAttr) -> &'static [u8]
    ensures word { result.now ≡ pipe_attr_word attr }
    ensures short { length result.now ≤ 12 }
{
    match attr {
        PipeAttr::Dest => b"dest",
        PipeAttr::SrcRect => b"srcrect",
        PipeAttr::Flip => b"flip",
        PipeAttr::Rotation => b"rotation",
        PipeAttr::Filter => b"filter",
        PipeAttr::Transparency => b"transparency",
        PipeAttr::Alpha => b"alpha",
        PipeAttr::Port => b"port",
        PipeAttr::Pending => b"pending",
        PipeAttr::Showing => b"showing",
    }
}

/// When a requested source shows.
pub(crate) fn transition_word(transition: Transition) -> &'static [u8]
    ensures word { result.now ≡ transition_word transition }
    ensures short { length result.now ≤ 12 }
{
    match transition {
        Transition::Now => b"now",
        Transition::Vsync => b"vsync",
    }
}

/// The word for how a source is scaled. A number that has none is printed as no letters.
pub(crate) fn filter_word(number: i64) -> &'static [u8]
    ensures word { result.now ≡ word_of filters number }
    ensures short { length result.now ≤ 12 }
{
    match number {
        0 => b"none",
        1 => b"faster",
        2 => b"better",
        _ => b"",
    }
}

/// The word for what makes an element transparent. A number that has none is printed as no letters.
pub(crate) fn transparency_word(number: i64) -> &'static [u8]
    ensures word { result.now ≡ word_of transparencies number }
    ensures short { length result.now ≤ 17 }
{
    match number {
        0 => b"none",
        1 => b"alpha",
        2 => b"source",
        3 => b"alpha+source",
        4 => b"mask",
        5 => b"alpha+mask",
        6 => b"source+mask",
        7 => b"alpha+source+mask",
        _ => b"",
    }
}
