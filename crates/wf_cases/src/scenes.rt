//! Scenes and layers, as answers.

use std::alloc::{AllocError, Global};
use wf_pixel::Rect;
use wf_scene::Scene;

/// A rectangle, as four numbers.
fn told_rect(alloc: Global, rect: Rect) -> Result<String, AllocError> {
    let Rect { x, y, w, h } = rect;
    format!(in alloc; "{x} {y} {w} {h}")
}

/// Tells a scene: its size, its turn, its background and how many layers it has.
pub fn told_scene(alloc: Global, scene: &Scene) -> Result<String, AllocError> {
    let (size, color) = (scene.size, scene.background);
    let background = format!(in alloc; "{} {} {} {}", color.r, color.g, color.b, color.a)?;
    let count = scene.layers.len();
    format!(in alloc;
        "{}x{} {:?} {background} with {count}",
        size.w, size.h, scene.turn
    )
}

/// Tells a layer by its place from the bottom, counted from 1: its stream and its mask, the part of the stream and where it
/// shows, whether it is flipped, how it is turned, whether its own alpha, that of its source and its mask apply, and its alpha.
pub fn told_layer(alloc: Global, scene: &Scene, place: usize) -> Result<String, AllocError> {
    let Some(layer) = scene.layers.get(place.wrapping_sub(1)) else {
        return format!(in alloc; "no layer");
    };
    let (src, dest) = (told_rect(alloc, layer.src)?, told_rect(alloc, layer.dest)?);
    let applies = layer.transparency;
    let applies = format!(in alloc; "{} {} {}", applies.alpha, applies.source, applies.mask)?;
    format!(in alloc;
        "{} {}, {src}, {dest}, {} {:?}, {applies}, {}",
        layer.stream, layer.mask, layer.flip, layer.turn, layer.alpha
    )
}
