//! The rules of a commit: which pipeline breaks one first, and which.

ghost use Rattle.std.specs.Prelude.{◌≡◌, ◌≤◌, IfSome};
ghost use Rattle.wf_model.specs.DisplayCommits.{bound_stream, broken_rule, fault_at, fault_from, has_destination, has_source};
ghost use Rattle.wf_model.specs.DisplayCommits.{is_inside, keeps_port, requested_stream, wanted_stream};

use crate::commits::takes_pipeline;
use crate::display::Display;
use crate::finding::source_at;
use wf_calls::MOST_PIPELINES;
use wf_model::{DisplaySource, Extent, Pipeline};
use wf_scene::{Fault, Style, has_sides, holds_rect};
use wf_stream::Store;

/// The stream of a requested source, or 0.
pub(crate) fn requested_stream(sources: &[DisplaySource], handle: u32) -> u32
    ensures { result ≡ requested_stream handle sources.now }
{
    match source_at(sources, handle) {
        Some(source) => source.stream,
        None => 0,
    }
}

/// The stream that a pipeline shows at the next frame, or 0.
pub(crate) fn bound_stream(pipeline: Pipeline) -> u32
    ensures { result ≡ bound_stream pipeline }
{
    match pipeline.pending {
        Some(stream) => stream,
        None => pipeline.current,
    }
}

/// The stream that a pipeline would show at the next frame after a commit, or 0.
fn wanted_stream(sources: &[DisplaySource], pipeline: Pipeline) -> u32
    ensures { result ≡ wanted_stream pipeline sources.now }
{
    match pipeline.request {
        Some(request) => requested_stream(sources, request.source),
        None => bound_stream(pipeline),
    }
}

/// Whether a requested source is none, or live.
fn has_source(sources: &[DisplaySource], pipeline: Pipeline) -> bool
    ensures { result ≡ has_source pipeline sources.now }
{
    match pipeline.request {
        Some(request) => request.source == 0 || source_at(sources, request.source).is_some(),
        None => true,
    }
}

/// Whether a source rectangle lies inside the stream that is shown, if one is.
fn is_inside(store: &Store, stream: u32, style: Style) -> bool
    ensures { result ≡ is_inside stream style store.now.streams }
{
    if stream == 0 {
        return true;
    }
    match store.get(stream) {
        Some(found) => holds_rect(found.size(), style.src),
        None => false,
    }
}

/// Whether a destination has sides from 1 to `MOST_SIDE`, where a stream is shown.
fn has_destination(stream: u32, style: Style) -> bool
    ensures { result ≡ has_destination stream style }
{
    stream == 0 || has_sides(style.dest)
}

/// Whether a pipeline stays with its port as the commit asks for.
fn keeps_port(extent: Extent, pipeline: Pipeline) -> bool
    ensures { result ≡ keeps_port extent pipeline }
{
    let cached = pipeline.cached_port;
    let committed = pipeline.committed_port;
    match extent {
        Extent::Device => true,
        Extent::Port(port) => {
            (cached == port || cached == 0) && (committed == port || committed == 0)
        }
        Extent::Pipeline(_) => cached == committed,
    }
}

/// The first rule that a pipeline breaks, from 1.
fn broken_rule(
    store: &Store,
    sources: &[DisplaySource],
    extent: Extent,
    pipeline: Pipeline,
) -> Option<u32>
    ensures rule { result ≡ broken_rule extent store.now.streams sources.now pipeline }
    ensures most { IfSome result (λ rule. rule ≤ 4) }
{
    let stream = wanted_stream(sources, pipeline);
    if !has_source(sources, pipeline) {
        Some(1)
    } else if !is_inside(store, stream, pipeline.cached) {
        Some(2)
    } else if !has_destination(stream, pipeline.cached) {
        Some(3)
    } else if !keeps_port(extent, pipeline) {
        Some(4)
    } else {
        None
    }
}

/// The fault of the pipeline of a number, where it is taken and breaks a rule.
fn fault_at(
    store: &Store,
    sources: &[DisplaySource],
    extent: Extent,
    number: u32,
    pipeline: Pipeline,
) -> Option<Fault>
    ensures fault { result ≡ fault_at extent store.now.streams sources.now number pipeline }
    ensures most { IfSome result (λ fault. (fault.place ≤ number) × (fault.rule ≤ 4)) }
{
    if !takes_pipeline(extent, number, pipeline) {
        return None;
    }
    match broken_rule(store, sources, extent, pipeline) {
        Some(rule) => Some(Fault {
            place: number,
            rule,
        }),
        None => None,
    }
}

impl Display {
    /// The first fault of the pipelines that a commit takes.
    pub(crate) fn first_fault(&self, store: &Store, extent: Extent) -> Option<Fault>
        ensures fault { result ≡ fault_from extent store.now.streams self.now.sources 1 self.now.pipelines }
        ensures most { IfSome result (λ fault. (fault.place ≤ MOST_PIPELINES) × (fault.rule ≤ 4)) }
    {
        for place in 0..self.pipelines.len() {
            let found = fault_at(
                store,
                &self.sources,
                extent,
                place as u32 + 1,
                self.pipelines[place],
            );
            if found.is_some() {
                return found;
            }
        }
        None
    }
}
