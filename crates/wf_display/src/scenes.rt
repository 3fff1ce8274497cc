//! What a port shows.

ghost use Rattle.std.specs.Prelude.{◌≡◌, ◌≤◌, ◌<◌, ◌+◌, ◌∷◌, ◌++◌, filter_map, flat_map, is_some, length, map};
ghost use Rattle.std.specs.Prelude.{option_map, option_to_list, IfSome};
ghost use Rattle.std.specs.Option.{option_copied};
ghost use Rattle.wf_words.specs.Keyed.{nth};
ghost use Rattle.wf_stream.specs.Names.{HasRoom, NamesFit, Recounts, but_names};
ghost use Rattle.wf_stream.specs.Streams.{count_of};
ghost use Rattle.wf_model.specs.Names.{display_names, pipeline_names};
ghost use Rattle.wf_model.specs.Display.{begun_display, begun_pipeline, is_lit, pipeline_layer, port_scene, scene_of_port};
ghost use Rattle.wf_model.specs.Display.{screen_layer, whole_of};
ghost use Rattle.wf_display.specs.Display.{IsDisplay};
ghost use Rattle.wf_display.specs.Fits.{Fits};

use crate::checking::bound_stream;
use crate::display::Display;
use crate::naming::rename;
use crate::ports::{mode_size, shown_size};
use arrayvec::ArrayVec;
use wf_calls::MOST_PIPELINES;
use wf_model::{Pipeline, Port};
use wf_pixel::{Rect, Rotation, Size};
use wf_scene::{Layer, MOST_INSERTED, Scene, Style};
use wf_stream::Store;

/// All of a size.
fn whole_of(size: Size) -> Rect
    ensures { result ≡ whole_of size }
{
    Rect {
        x: 0,
        y: 0,
        w: size.w,
        h: size.h,
    }
}

/// The layer of a port's screen, whole, scaled to a mode.
fn screen_layer(number: u32, screen: Size, mode: Size) -> Layer
    ensures { result ≡ screen_layer number screen mode }
{
    let style = Style {
        src: whole_of(screen),
        dest: whole_of(mode),
        ..Style::default()
    };
    style.layer(number, 0)
}

/// The layer of a pipeline that is committed to a port and shows a stream.
fn pipeline_layer(number: u32, pipeline: Pipeline) -> Option<Layer>
    ensures { result ≡ pipeline_layer number pipeline }
{
    if pipeline.committed_port == number && pipeline.current != 0 {
        Some(pipeline.committed.layer(pipeline.current, 0))
    } else {
        None
    }
}

/// One more layer, if there is one.
fn push_layer(layers: &mut ArrayVec<Layer, MOST_INSERTED>, layer: Option<Layer>)
    requires { length layers.old.items < MOST_INSERTED }
    ensures layers { layers.new.items ≡ layers.old.items ++ option_to_list layer }
    ensures most { length layers.new.items ≤ length layers.old.items + 1 }
{
    if let Some(layer) = layer {
        layers.push(layer);
    }
}

/// Writes a layer, and those of the pipelines of a port over it, by rising number.
fn write_layers(
    layers: &mut ArrayVec<Layer, MOST_INSERTED>,
    number: u32,
    lowest: Layer,
    pipelines: &[Pipeline],
)
    requires { length pipelines.now ≤ MOST_PIPELINES }
    ensures { layers.new.items ≡ lowest ∷ filter_map (pipeline_layer number) pipelines.now }
{
    layers.clear();
    layers.push(lowest);
    for pipeline in pipelines {
        push_layer(layers, pipeline_layer(number, *pipeline));
    }
}

/// Whether a port gives frames.
fn is_lit(port: &Port) -> bool
    ensures { result ≡ is_lit port.now }
{
    port.attached && port.committed.power
}

/// A pipeline at a frame of a port: what waits there becomes current, where it is the pipeline's port.
fn begun_pipeline(number: u32, pipeline: &Pipeline) -> Pipeline
    ensures { result ≡ begun_pipeline number pipeline.now }
{
    if pipeline.committed_port == number {
        Pipeline {
            current: bound_stream(*pipeline),
            pending: None,
            ..*pipeline
        }
    } else {
        *pipeline
    }
}

/// Pipelines at a frame of a port, whose names are counted.
fn begin_pipelines(store: &mut Store, number: u32, pipelines: &mut [Pipeline])
    requires few { length pipelines.old ≤ MOST_PIPELINES }
    requires names { NamesFit (flat_map pipeline_names pipelines.old) store.old }
    requires room { HasRoom store.old }
    ensures names { Recounts (flat_map pipeline_names pipelines.old) (flat_map pipeline_names pipelines.new) store.old store.new }
    ensures none { count_of 0 store.new ≡ count_of 0 store.old }
    ensures rest { but_names store.new ≡ but_names store.old }
    ensures pipelines { pipelines.new ≡ map (begun_pipeline number) pipelines.old }
{
    for place in 0..pipelines.len() {
        let old = pipelines[place];
        let new = begun_pipeline(number, &old);
        rename(store, old, new);
        pipelines[place] = new;
    }
}

/// Writes the scene of a port: its background, its screen, and its pipelines by rising number.
fn write_scene_of(scene: &mut Scene, number: u32, pipelines: &[Pipeline], port: &Port)
    requires { length pipelines.now ≤ MOST_PIPELINES }
    ensures { scene.new ≡ scene_of_port number pipelines.now port.now }
{
    let size = shown_size(port);
    let screen = mode_size(port.modes.as_slice(), 1);
    scene.size = size;
    scene.turn = Rotation::R0;
    scene.background = port.committed.background;
    write_layers(
        &mut scene.layers,
        number,
        screen_layer(number, screen, size),
        pipelines,
    );
}

/// The port of a number, which is counted from 1.
fn port_of(ports: &[Port], number: u32) -> Option<&Port>
    ensures { option_copied result ≡ nth number ports.now }
{
    if number == 0 {
        return None;
    }
    ports.get(number as usize - 1)
}

impl Display {
    /// Tells whether a port, which is counted from 1, gives frames: it was declared, it is on, and it has a display attached.
    pub fn gives_frames(&self, port: u32) -> bool
        ensures { result ≡ is_some (port_scene port (begun_display port self.now)) }
    {
        match port_of(&self.ports, port) {
            Some(found) => is_lit(found),
            None => false,
        }
    }

    /// Writes into `scene` what a `port`, which is counted from 1, shows: its background, its screen, scaled to the committed mode, and
    /// each pipeline that is committed to it and shows a stream, by rising number. Returns whether it shows anything: a port that was not
    /// declared, is off, or has no display attached shows nothing, and `scene` stays as it was.
    pub fn write_scene(&self, port: u32, scene: &mut Scene) -> bool
        ensures shows { result ≡ is_some (port_scene port self.now) }
        ensures scene { IfSome (port_scene port self.now) (λ shown. scene.new ≡ shown) }
        ensures stays { port_scene port self.now ≡ None → scene.new ≡ scene.old }
    {
        match port_of(&self.ports, port) {
            Some(found) if is_lit(found) => {
                write_scene_of(scene, port, &self.pipelines, found);
                true
            }
            _ => false,
        }
    }

    /// Returns the committed mode of a port, both counted from 1, or `None` for a port that was not declared.
    pub fn mode(&self, port: u32) -> Option<u32>
        ensures mode { result ≡ option_map (λ p. p.committed.mode) (nth port self.now.ports) }
        ensures display { IsDisplay self.now }
    {
        match port_of(&self.ports, port) {
            Some(found) => Some(found.committed.mode),
            None => None,
        }
    }

    /// Makes the streams that wait at a port's pipelines current, as the beginning of its frame does.
    pub fn begin(&mut self, store: &mut Store, port: u32)
        requires fits { Fits self.old store.old }
        requires names { NamesFit (display_names self.old) store.old }
        requires room { HasRoom store.old }
        ensures begun { self.new ≡ begun_display port self.old }
        ensures names { Recounts (display_names self.old) (display_names self.new) store.old store.new }
        ensures rest { but_names store.new ≡ but_names store.old }
        ensures fits { Fits self.new store.new }
    {
        begin_pipelines(store, port, &mut self.pipelines);
    }
}
