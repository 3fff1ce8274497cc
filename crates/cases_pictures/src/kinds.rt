//! Which kinds of layers were painted.

ghost use Rattle.std.specs.Prelude.{◌<◌};

use wf_image::Contents;
use wf_pixel::{Format, Rotation, Size, turned};
use wf_scene::{Layer, Scene};

/// By turn of the target, turn and flip of the layer, transparencies, format, and whether it is scaled.
pub(crate) const KINDS: usize = 4 * 4 * 2 * 8 * 3 * 2;

/// Marks the kinds of a scene's layers that have their images.
pub(crate) fn mark(seen: &mut [bool; KINDS], scene: &Scene, contents: &Contents) {
    for layer in scene.layers.as_slice() {
        if let Some(kind) = kind_of(scene.turn, layer, contents) {
            if let Some(place) = seen.get_mut(kind) {
                *place = true;
            }
        }
    }
}

/// How many kinds are marked.
pub(crate) fn count(seen: &[bool; KINDS]) -> usize {
    seen.iter().filter(|kind| **kind).count()
}

fn kind_of(turn: Rotation, layer: &Layer, contents: &Contents) -> Option<usize> {
    let image = contents.find(layer.stream)?;
    if layer.transparency.mask {
        contents.find(layer.mask)?;
    }
    let format = match image.format() {
        Format::Rgba8 => 0,
        Format::Rgba8Pre => 1,
        _ => 2,
    };
    let t = layer.transparency;
    let bits = [layer.flip, t.alpha, t.source, t.mask, is_scaled(layer)];
    let mut kind = 4 * number_of(turn) + number_of(layer.turn);
    kind = 3 * kind + format;
    for bit in bits {
        kind = kind.wrapping_mul(2).wrapping_add(bit as usize);
    }
    Some(kind)
}

fn number_of(turn: Rotation) -> usize
    ensures { result < 4 }
{
    match turn {
        Rotation::R0 => 0,
        Rotation::R90 => 1,
        Rotation::R180 => 2,
        Rotation::R270 => 3,
    }
}

fn is_scaled(layer: &Layer) -> bool {
    let (src, dest) = (layer.src, layer.dest);
    let shown = turned(layer.turn, Size { w: src.w, h: src.h });
    dest.w != shown.w || dest.h != shown.h
}
