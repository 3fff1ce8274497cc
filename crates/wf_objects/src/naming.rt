//! Names of streams that begin and end with the objects. The number 0 names none.

ghost use Rattle.std.specs.Prelude.{◌≡◌, ℕ, ◌<◌, ◌≤◌, [], flat_map, length};
ghost use Rattle.std.specs.List.{AllByRecursion};
ghost use Rattle.wf_stream.specs.Streams.{count_of};
ghost use Rattle.wf_stream.specs.Names.{AreCounted, HasRoom, NamesFit};
ghost use Rattle.wf_model.specs.Fitting.{LayerFits};
ghost use Rattle.wf_model.specs.Names.{context_names, layer_names};
ghost use Rattle.wf_stream.specs.Renames.{Renames};

use crate::rows::Context;
use wf_scene::{Layer, MOST_INSERTED};
use wf_stream::{Store, begin_name, end_name};

/// The names of a layer begin.
fn begin_layer(store: &mut Store, layer: Layer)
    requires counted { AreCounted store.old }
    requires fit { LayerFits store.old.streams layer }
    requires room { (n : ℕ) → count_of n store.old < 4294967294 }
    ensures begins { Renames [] (layer_names layer) store.old store.new }
    ensures streams { store.new.streams ≡ store.old.streams }
{
    begin_name(store, layer.stream);
    begin_name(store, layer.mask);
}

/// The names of layers begin.
pub(crate) fn begin_layers(store: &mut Store, layers: &[Layer])
    requires counted { AreCounted store.old }
    requires fit { AllByRecursion (LayerFits store.old.streams) layers.now }
    requires few { length layers.now ≤ MOST_INSERTED }
    requires room { HasRoom store.old }
    ensures begins { Renames [] (flat_map layer_names layers.now) store.old store.new }
    ensures streams { store.new.streams ≡ store.old.streams }
{
    for layer in layers {
        begin_layer(store, *layer);
    }
}

/// The names of a layer end.
fn end_layer(store: &mut Store, layer: Layer)
    requires { NamesFit (layer_names layer) store.old }
    ensures { Renames (layer_names layer) [] store.old store.new }
{
    end_name(store, layer.stream);
    end_name(store, layer.mask);
}

/// The names of layers end.
pub(crate) fn end_layers(store: &mut Store, layers: &[Layer])
    requires { NamesFit (flat_map layer_names layers.now) store.old }
    ensures { Renames (flat_map layer_names layers.now) [] store.old store.new }
{
    for layer in layers {
        end_layer(store, *layer);
    }
}

/// The names of a context end: its target, and those of the layers of its committed scene.
pub(crate) fn end_context(store: &mut Store, context: &Context)
    requires { NamesFit (context_names context.now) store.old }
    ensures { Renames (context_names context.now) [] store.old store.new }
{
    end_name(store, context.target);
    end_layers(store, context.committed.layers.as_slice());
}
