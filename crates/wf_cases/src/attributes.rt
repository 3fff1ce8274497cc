//! Attributes, from their words in scripts. tools/calls writes this file.

use crate::words::word;
use wf_scene::{ContextAttr, ElementAttr};

/// Returns the `ElementAttr` of the word at a place, or the last one where it is none of its words.
pub fn element_attr(words: &[&str], at: usize) -> ElementAttr {
    match word(words, at) {
        "dest" => ElementAttr::Dest,
        "source" => ElementAttr::Source,
        "srcrect" => ElementAttr::SrcRect,
        "flip" => ElementAttr::Flip,
        "rotation" => ElementAttr::Rotation,
        "filter" => ElementAttr::Filter,
        "transparency" => ElementAttr::Transparency,
        "alpha" => ElementAttr::Alpha,
        _ => ElementAttr::Mask,
    }
}

/// Returns the `ContextAttr` of the word at a place, or the last one where it is none of its words.
pub fn context_attr(words: &[&str], at: usize) -> ContextAttr {
    match word(words, at) {
        "rotation" => ContextAttr::Rotation,
        "background" => ContextAttr::Background,
        "width" => ContextAttr::Width,
        "height" => ContextAttr::Height,
        _ => ContextAttr::Lowest,
    }
}
