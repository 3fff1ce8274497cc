//! What an argument stands for that is the number of a word or of an attribute. tools/calls writes this file.

ghost use Rattle.std.specs.Prelude.{◌≡◌};
ghost use Rattle.wf_wire.specs.Words.{format_at, stat_at, transition_at, element_at, context_at, port_at, pipe_at};

use crate::bits::bit_at;
use wf_calls::{PipeAttr, PortAttr, StatWord, Transition};
use wf_pixel::Format;
use wf_scene::{ContextAttr, ElementAttr};

/// Returns the Format of the number at a place of `bits`.
pub(crate) fn format_at(bits: &[u64], place: usize) -> Format
    ensures { result ≡ format_at bits.now place }
{
    let all = [Format::Rgba8, Format::Rgba8Pre, Format::Rgbx8, Format::A8];
    match all.get(bit_at(bits, place) as usize) {
        Some(found) => *found,
        None => Format::Rgba8,
    }
}

/// Returns the StatWord of the number at a place of `bits`.
pub(crate) fn stat_at(bits: &[u64], place: usize) -> StatWord
    ensures { result ≡ stat_at bits.now place }
{
    let all = [StatWord::Streams, StatWord::Bytes];
    match all.get(bit_at(bits, place) as usize) {
        Some(found) => *found,
        None => StatWord::Streams,
    }
}

/// Returns the Transition of the number at a place of `bits`.
pub(crate) fn transition_at(bits: &[u64], place: usize) -> Transition
    ensures { result ≡ transition_at bits.now place }
{
    let all = [Transition::Now, Transition::Vsync];
    match all.get(bit_at(bits, place) as usize) {
        Some(found) => *found,
        None => Transition::Now,
    }
}

/// Returns the ElementAttr of the number at a place of `bits`.
pub(crate) fn element_at(bits: &[u64], place: usize) -> ElementAttr
    ensures { result ≡ element_at bits.now place }
{
    let all = [
        ElementAttr::Dest,
        ElementAttr::Source,
        ElementAttr::SrcRect,
        ElementAttr::Flip,
        ElementAttr::Rotation,
        ElementAttr::Filter,
        ElementAttr::Transparency,
        ElementAttr::Alpha,
        ElementAttr::Mask,
    ];
    match all.get(bit_at(bits, place) as usize) {
        Some(found) => *found,
        None => ElementAttr::Dest,
    }
}

/// Returns the ContextAttr of the number at a place of `bits`.
pub(crate) fn context_at(bits: &[u64], place: usize) -> ContextAttr
    ensures { result ≡ context_at bits.now place }
{
    let all = [
        ContextAttr::Rotation,
        ContextAttr::Background,
        ContextAttr::Width,
        ContextAttr::Height,
        ContextAttr::Lowest,
    ];
    match all.get(bit_at(bits, place) as usize) {
        Some(found) => *found,
        None => ContextAttr::Rotation,
    }
}

/// Returns the PortAttr of the number at a place of `bits`.
pub(crate) fn port_at(bits: &[u64], place: usize) -> PortAttr
    ensures { result ≡ port_at bits.now place }
{
    let all = [
        PortAttr::Mode,
        PortAttr::Background,
        PortAttr::Power,
        PortAttr::Width,
        PortAttr::Height,
        PortAttr::Attached,
    ];
    match all.get(bit_at(bits, place) as usize) {
        Some(found) => *found,
        None => PortAttr::Mode,
    }
}

/// Returns the PipeAttr of the number at a place of `bits`.
pub(crate) fn pipe_at(bits: &[u64], place: usize) -> PipeAttr
    ensures { result ≡ pipe_at bits.now place }
{
    let all = [
        PipeAttr::Dest,
        PipeAttr::SrcRect,
        PipeAttr::Flip,
        PipeAttr::Rotation,
        PipeAttr::Filter,
        PipeAttr::Alpha,
        PipeAttr::Transparency,
        PipeAttr::Port,
        PipeAttr::Pending,
        PipeAttr::Showing,
    ];
    match all.get(bit_at(bits, place) as usize) {
        Some(found) => *found,
        None => PipeAttr::Dest,
    }
}
