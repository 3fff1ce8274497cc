//! The images that a frame takes from the streams of its scene, and their way home.

ghost use Rattle.std.specs.Prelude.{◌≡◌, ◌==◌, ◌||◌, ◌<◌, ◌≤◌, ◌+◌, ◌++◌, ◌∷◌, [], length, map, None};
ghost use Rattle.std.specs.List.{list_any};
ghost use Rattle.wf_words.specs.Keyed.{is_in};
ghost use Rattle.wf_image.specs.Contents.{image_of};
ghost use Rattle.wf_stream.specs.Streams.{IsNumbered};
ghost use Rattle.wf_model.specs.Frames.{brought_home, content_shape, latch, next_images, scene_streams};
ghost use Rattle.wf_machine.specs.Latching.{AreAtHome, AreAwaited, AreShapedAs, IsAtHome, with_next_image, without_next_image};

use arrayvec::ArrayVec;
use wf_image::{Contents, Image, MOST_CONTENTS};
use wf_model::Content;
use wf_scene::{Layer, Scene};
use wf_stream::Store;

/// Takes out what is left in the place of a frame's contents.
pub(crate) fn empty(contents: &mut Contents)
    ensures { contents.new ≡ [] }
{
    while contents.pop().is_some() {}
}

/// Puts the image of a stream, which has none here yet, behind the others, and its size and format behind theirs.
fn put(
    contents: &mut Contents,
    shapes: &mut ArrayVec<Content, MOST_CONTENTS>,
    stream: u32,
    image: Image,
)
    requires room { length contents.old < MOST_CONTENTS }
    requires apart { image_of stream contents.old ≡ None }
    requires shapes { shapes.old.items ≡ map content_shape contents.old }
    ensures contents { contents.new ≡ contents.old ++ (stream, image) ∷ [] }
    ensures shapes { shapes.new.items ≡ map content_shape contents.new }
{
    shapes.push(Content {
        stream,
        size: image.size(),
        format: image.format(),
    });
    contents.put(stream, image);
}

/// Takes the next image of a stream, unless it is there already or the stream has none.
fn take(
    store: &mut Store,
    contents: &mut Contents,
    shapes: &mut ArrayVec<Content, MOST_CONTENTS>,
    number: u32,
)
    requires home { image_of number contents.old ≡ None → IsAtHome number store.old.streams }
    requires room { length contents.old < MOST_CONTENTS }
    requires shapes { shapes.old.items ≡ map content_shape contents.old }
    ensures contents { contents.new ≡ with_next_image number store.old.streams contents.old }
    ensures store { store.new ≡ record store.old { streams = without_next_image number contents.old store.old.streams } }
    ensures shaped { AreShapedAs store.old.streams contents.old → AreShapedAs store.new.streams contents.new }
    ensures shapes { shapes.new.items ≡ map content_shape contents.new }
{
    if contents.find(number).is_none() {
        if let Some(image) = store.latch(number) {
            put(contents, shapes, number, image);
        }
    }
}

/// Takes the next images of the streams that a scene names, and the size and format of each, in the same order: of each layer,
/// from the bottom up, its stream and then its mask, where it has one: most have none. Nothing was taken before.
pub(crate) fn latch_scene(
    store: &mut Store,
    scene: &Scene,
    contents: &mut Contents,
    shapes: &mut ArrayVec<Content, MOST_CONTENTS>,
)
    requires none { contents.old ≡ [] }
    requires no_shapes { shapes.old.items ≡ [] }
    requires numbered { IsNumbered 0 store.old.streams store.old.numbered }
    requires home { AreAtHome store.old.streams }
    ensures contents { contents.new ≡ next_images (scene_streams scene.now) store.old.streams }
    ensures store { store.new ≡ record store.old { streams = latch (scene_streams scene.now) store.old.streams } }
    ensures shaped { AreShapedAs store.new.streams contents.new }
    ensures shapes { shapes.new.items ≡ map content_shape contents.new }
{
    for layer in scene.layers.as_slice() {
        take(store, contents, shapes, layer.stream);
        if layer.mask != 0 {
            take(store, contents, shapes, layer.mask);
        }
    }
}

/// Whether a layer shows a stream, or has it as its mask.
fn any_names(layers: &[Layer], number: u32) -> bool
    ensures { result ≡ list_any (λ l. (l.stream == number) || (l.mask == number)) layers.now }
{
    layers
        .iter()
        .any(|layer| layer.stream == number || layer.mask == number)
}

/// Whether a scene names a stream.
pub(crate) fn names(scene: &Scene, number: u32) -> bool
    ensures { result ≡ is_in number (scene_streams scene.now) }
{
    any_names(scene.layers.as_slice(), number)
}

/// Brings the images of a frame home to their streams, and leaves none in its contents.
pub(crate) fn bring_home(store: &mut Store, contents: &mut Contents)
    requires numbered { IsNumbered 0 store.old.streams store.old.numbered }
    requires awaited { AreAwaited store.old.streams contents.old }
    ensures { store.new ≡ record store.old { streams = brought_home contents.old store.old.streams } }
{
    while let Some((number, image)) = contents.pop() {
        store.give_back(number, image);
    }
}
