//! Commits: what is cached of all that they take becomes committed, or nothing changes.

ghost use Rattle.std.specs.Prelude.{◌≡◌, ◌≤◌, ◌++◌, None, flat_map, length, map, if◌then◌else◌};
ghost use Rattle.wf_stream.specs.Names.{HasRoom, NamesFit, Recounts, but_names};
ghost use Rattle.wf_stream.specs.Streams.{count_of};
ghost use Rattle.wf_model.specs.Names.{display_names, pipeline_names};
ghost use Rattle.wf_model.specs.Numbered.{each_from};
ghost use Rattle.wf_model.specs.DisplayCommits.{bound, commit_device, commit_display, commit_pipe, commit_port, committed};
ghost use Rattle.wf_model.specs.DisplayCommits.{committed_pipeline, committed_port, fault_from, takes_pipeline, takes_port};
ghost use Rattle.wf_display.specs.Does.{Does, Steps};
ghost use Rattle.wf_display.specs.Fits.{Fits};
ghost use Rattle.wf_display.specs.Sides.{KeepsRest};

use crate::checking::requested_stream;
use crate::display::Display;
use crate::naming::rename;
use wf_calls::{Code, MOST_PIPELINES, Refusal, Reply, Transition};
use wf_model::{DisplaySource, Extent, Pipeline, Port, PortStyle};
use wf_stream::Store;

/// Whether a commit takes a port.
fn takes_port(extent: Extent, number: u32) -> bool
    ensures { result ≡ takes_port extent number }
{
    match extent {
        Extent::Device => true,
        Extent::Port(port) => number == port,
        Extent::Pipeline(_) => false,
    }
}

/// Whether a commit takes a pipeline.
pub(crate) fn takes_pipeline(extent: Extent, number: u32, pipeline: Pipeline) -> bool
    ensures { result ≡ takes_pipeline extent number pipeline }
{
    match extent {
        Extent::Device => true,
        Extent::Port(port) => pipeline.cached_port == port || pipeline.committed_port == port,
        Extent::Pipeline(pipe) => number == pipe,
    }
}

/// A pipeline whose request for a stream is taken: the stream shows, or waits.
fn bound(transition: Transition, stream: u32, pipeline: Pipeline) -> Pipeline
    ensures { result ≡ bound transition stream pipeline }
{
    match transition {
        Transition::Now => Pipeline {
            request: None,
            current: stream,
            pending: None,
            ..pipeline
        },
        Transition::Vsync => Pipeline {
            request: None,
            pending: Some(stream),
            ..pipeline
        },
    }
}

/// A pipeline after its commit.
fn committed_pipeline(sources: &[DisplaySource], pipeline: Pipeline) -> Pipeline
    ensures { result ≡ committed_pipeline sources.now pipeline }
{
    let taken = Pipeline {
        committed: pipeline.cached,
        committed_port: pipeline.cached_port,
        ..pipeline
    };
    match pipeline.request {
        Some(request) => bound(
            request.transition,
            requested_stream(sources, request.source),
            taken,
        ),
        None => taken,
    }
}

/// What is committed of a port after a commit, which takes it or not.
fn taken_style(extent: Extent, number: u32, port: &Port) -> PortStyle
    ensures { record port.now { committed = result } ≡ (if takes_port extent number then committed_port port.now else port.now) }
{
    if takes_port(extent, number) {
        port.cached
    } else {
        port.committed
    }
}

/// A pipeline after a commit, which takes it or not.
fn taken_pipeline(
    extent: Extent,
    number: u32,
    sources: &[DisplaySource],
    pipeline: &Pipeline,
) -> Pipeline
    ensures { result ≡ (if takes_pipeline extent number pipeline.now then committed_pipeline sources.now pipeline.now
        else pipeline.now) }
{
    if takes_pipeline(extent, number, *pipeline) {
        committed_pipeline(sources, *pipeline)
    } else {
        *pipeline
    }
}

/// Commits the ports that are taken.
fn commit_ports(ports: &mut [Port], extent: Extent)
    requires { length ports.old ≤ 4 }
    ensures { ports.new ≡ each_from (λ p x. if takes_port extent p then committed_port x else x) 1 ports.old }
{
    for place in 0..ports.len() {
        let style = taken_style(extent, place as u32 + 1, &ports[place]);
        ports[place].committed = style;
    }
}

/// Commits the pipelines that are taken, and counts their names.
fn commit_pipelines(
    store: &mut Store,
    pipelines: &mut [Pipeline],
    sources: &[DisplaySource],
    extent: Extent,
)
    requires few { length pipelines.old ≤ MOST_PIPELINES }
    requires names { NamesFit (map (λ s. s.stream) sources.now ++ flat_map pipeline_names pipelines.old) store.old }
    requires room { HasRoom store.old }
    ensures names { Recounts (flat_map pipeline_names pipelines.old) (flat_map pipeline_names pipelines.new) store.old store.new }
    ensures none { count_of 0 store.new ≡ count_of 0 store.old }
    ensures rest { but_names store.new ≡ but_names store.old }
    ensures pipelines { pipelines.new ≡ each_from (λ l x. if takes_pipeline extent l x then committed_pipeline sources.now x else x) 1
        pipelines.old }
{
    for place in 0..pipelines.len() {
        let old = pipelines[place];
        let new = taken_pipeline(extent, place as u32 + 1, sources, &old);
        rename(store, old, new);
        pipelines[place] = new;
    }
}

impl Display {
    /// Commits all that is taken, which keeps the rules.
    fn take(&mut self, store: &mut Store, extent: Extent)
        requires fits { Fits self.old store.old }
        requires names { NamesFit (display_names self.old) store.old }
        requires room { HasRoom store.old }
        requires sound { fault_from extent store.old.streams self.old.sources 1 self.old.pipelines ≡ None }
        ensures taken { self.new ≡ committed extent self.old }
        ensures names { Recounts (display_names self.old) (display_names self.new) store.old store.new }
        ensures rest { but_names store.new ≡ but_names store.old }
        ensures fits { Fits self.new store.new }
    {
        commit_ports(&mut self.ports, extent);
        commit_pipelines(store, &mut self.pipelines, &self.sources, extent);
    }

    pub(crate) fn try_commit(&mut self, store: &mut Store, extent: Extent) -> Result<u32, Refusal>
        requires fits { Fits self.old store.old }
        requires names { NamesFit (display_names self.old) store.old }
        requires room { HasRoom store.old }
        ensures { Does (λ _. commit_display extent) self.old self.new store.old store.new result }
    {
        if let Some(fault) = self.first_fault(store, extent) {
            return Err(Refusal {
                code: Code::Inconsistency,
                value: fault.place * 16 + fault.rule,
            });
        }
        self.take(store, extent);
        Ok(0)
    }

    pub(crate) fn try_commit_port(&mut self, store: &mut Store, port: i64) -> Result<u32, Refusal>
        requires fits { Fits self.old store.old }
        requires names { NamesFit (display_names self.old) store.old }
        requires room { HasRoom store.old }
        ensures { Does (λ _. commit_port port) self.old self.new store.old store.new result }
    {
        let place = self.port_place(port)?;
        self.try_commit(store, Extent::Port(place as u32 + 1))
    }

    pub(crate) fn try_commit_pipe(&mut self, store: &mut Store, pipe: i64) -> Result<u32, Refusal>
        requires fits { Fits self.old store.old }
        requires names { NamesFit (display_names self.old) store.old }
        requires room { HasRoom store.old }
        ensures { Does (λ _. commit_pipe pipe) self.old self.new store.old store.new result }
    {
        let place = self.pipeline_place(pipe)?;
        self.try_commit(store, Extent::Pipeline(place as u32 + 1))
    }

    /// Commits every port and every pipeline, as a whole or not at all. Inconsistency has the value pipeline * 16 + rule: the
    /// first pipeline that breaks a rule, and the first rule that it breaks. It cannot lack memory.
    pub fn commit_device(&mut self, store: &mut Store) -> Reply
        requires fits { Fits self.old store.old }
        requires names { NamesFit (display_names self.old) store.old }
        requires room { HasRoom store.old }
        ensures { Steps (λ _. commit_device) KeepsRest self.old self.new store.old store.new result }
    {
        let done = self.try_commit(store, Extent::Device);
        Reply::bare(self.answer(store, done))
    }

    /// Commits a port, which is counted from 1, and each pipeline whose cached or committed port it is, as a whole or not at
    /// all. BadHandle is no port; Inconsistency as for the entire device.
    pub fn commit_port(&mut self, store: &mut Store, port: i64) -> Reply
        requires fits { Fits self.old store.old }
        requires names { NamesFit (display_names self.old) store.old }
        requires room { HasRoom store.old }
        ensures { Steps (λ _. commit_port port) KeepsRest self.old self.new store.old store.new result }
    {
        let done = self.try_commit_port(store, port);
        Reply::bare(self.answer(store, done))
    }

    /// Commits a pipeline, which is counted from 1, and no attribute of a port, as a whole or not at all. BadHandle is no
    /// pipeline; Inconsistency as for the entire device.
    pub fn commit_pipe(&mut self, store: &mut Store, pipe: i64) -> Reply
        requires fits { Fits self.old store.old }
        requires names { NamesFit (display_names self.old) store.old }
        requires room { HasRoom store.old }
        ensures { Steps (λ _. commit_pipe pipe) KeepsRest self.old self.new store.old store.new result }
    {
        let done = self.try_commit_pipe(store, pipe);
        Reply::bare(self.answer(store, done))
    }
}
