//! Whether it pays to keep a picture. Only speed rests on it: what is painted is the same, and a place that is empty is asked for as
//! a whole.

use wf_image::Contents;
use wf_pixel::{Rotation, turned};
use wf_scene::{Layer, Scene};

/// The most pixels of a picture that is always worth keeping.
const SMALL: u64 = 4096;

/// What a pixel costs that is not only copied, in pixels that are.
const BLENDED: u64 = 4;

/// How many paints a place rests for once it did not pay, the first time and at most.
const FIRST_REST: u32 = 8;

const MOST_REST: u32 = 1024;

/// When a place that was lost is used again.
#[derive(Clone, Copy, Debug, PartialEq, Eq)]
pub(crate) struct Rest {
    /// How many paints are left to wait.
    left: u32,
    /// How many there were the last time.
    last: u32,
}

impl Rest {
    /// Makes a place that is used at once.
    pub(crate) fn none() -> Rest {
        Rest { left: 0, last: 0 }
    }

    /// Returns what is left after one more paint, or `None` where nothing is.
    pub(crate) fn waited(self) -> Option<Rest> {
        if self.left == 0 {
            return None;
        }
        Some(Rest {
            left: self.left - 1,
            last: self.last,
        })
    }

    /// Returns the rest of a place that was lost: twice as long as the last time.
    pub(crate) fn lost(self) -> Rest {
        let next = if self.last == 0 {
            FIRST_REST
        } else {
            self.last.saturating_mul(2).min(MOST_REST)
        };
        Rest {
            left: next,
            last: next,
        }
    }
}

/// Returns whether the picture of `scene` costs more than to compare the images of `contents` with copies and to copy the picture, or is
/// so small that this tells nothing.
pub(crate) fn pays(scene: &Scene, contents: &Contents) -> bool {
    let whole = u64::from(scene.size.w) * u64::from(scene.size.h);
    if whole <= SMALL {
        return true;
    }
    let keeping = (contents.bytes() as u64 / 4).saturating_add(whole.saturating_mul(2));
    painting(scene, whole) > keeping
}

/// Returns what the picture of `scene` costs, in pixels that are copied: `whole` for what is below, and each layer's.
fn painting(scene: &Scene, whole: u64) -> u64 {
    let mut cost = whole;
    for layer in scene.layers.as_slice() {
        cost = cost.saturating_add(cost_of(scene, layer));
    }
    cost
}

/// Returns what `layer` costs, without what is outside of the space.
fn cost_of(scene: &Scene, layer: &Layer) -> u64 {
    let space = turned(scene.turn, scene.size);
    let pixels = u64::from(layer.dest.w.min(space.w)) * u64::from(layer.dest.h.min(space.h));
    if scene.turn == Rotation::R0 && is_copied(layer) {
        pixels
    } else {
        BLENDED.saturating_mul(pixels)
    }
}

/// Returns whether the pixels of `layer` are only copied.
fn is_copied(layer: &Layer) -> bool {
    let blends = layer.transparency.alpha || layer.transparency.source || layer.transparency.mask;
    let stands = layer.turn == Rotation::R0 && !layer.flip;
    !blends && stands && layer.src.w == layer.dest.w && layer.src.h == layer.dest.h
}
