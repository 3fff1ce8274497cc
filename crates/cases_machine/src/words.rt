//! Arguments that have words of their own, from these words in scripts. tools/calls writes this file.

use wf_calls::{PipeAttr, PortAttr, StatWord, Transition};
use wf_cases::word;

/// Returns the `PortAttr` of the word at a place, or the last one where it is none of its words.
pub(crate) fn port_attr(words: &[&str], at: usize) -> PortAttr {
    match word(words, at) {
        "mode" => PortAttr::Mode,
        "background" => PortAttr::Background,
        "power" => PortAttr::Power,
        "width" => PortAttr::Width,
        "height" => PortAttr::Height,
        _ => PortAttr::Attached,
    }
}

/// Returns the `PipeAttr` of the word at a place, or the last one where it is none of its words.
pub(crate) fn pipe_attr(words: &[&str], at: usize) -> PipeAttr {
    match word(words, at) {
        "dest" => PipeAttr::Dest,
        "srcrect" => PipeAttr::SrcRect,
        "flip" => PipeAttr::Flip,
        "rotation" => PipeAttr::Rotation,
        "filter" => PipeAttr::Filter,
        "alpha" => PipeAttr::Alpha,
        "transparency" => PipeAttr::Transparency,
        "port" => PipeAttr::Port,
        "pending" => PipeAttr::Pending,
        _ => PipeAttr::Showing,
    }
}

/// Returns the `StatWord` of the word at a place, or the last one where it is none of its words.
pub(crate) fn stat_word(words: &[&str], at: usize) -> StatWord {
    match word(words, at) {
        "streams" => StatWord::Streams,
        _ => StatWord::Bytes,
    }
}

/// Returns the `Transition` of the word at a place, or the last one where it is none of its words.
pub(crate) fn transition_word(words: &[&str], at: usize) -> Transition {
    match word(words, at) {
        "now" => Transition::Now,
        _ => Transition::Vsync,
    }
}
