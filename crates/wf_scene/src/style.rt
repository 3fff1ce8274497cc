//! How something is shown.

ghost use Rattle.std.specs.Prelude.{◌≡◌};
ghost use Rattle.wf_scene.specs.Elements.{layer_in, plain};

use crate::Layer;
use wf_pixel::{Rect, Rotation, Transparency};

/// How a source is scaled. Every filter takes the nearest pixel.
#[derive(Clone, Copy, Debug, PartialEq, Eq)]
pub enum Filter {
    None,
    Faster,
    Better,
}

/// How an element or a pipeline is shown: where, and which part of its source; flipped from top to bottom, and then
/// turned; by which filter; and how transparent. Rectangles are in pixels.
#[derive(Clone, Copy, Debug, PartialEq, Eq)]
pub struct Style {
    pub dest: Rect,
    pub src: Rect,
    pub flip: bool,
    pub turn: Rotation,
    pub filter: Filter,
    pub transparency: Transparency,
    pub alpha: u8,
}

impl Default for Style {
    ghost is_default = { λ style. style ≡ plain };

    fn default() -> Style {
        let nowhere = Rect {
            x: 0,
            y: 0,
            w: 0,
            h: 0,
        };
        Style {
            dest: nowhere,
            src: nowhere,
            flip: false,
            turn: Rotation::R0,
            filter: Filter::None,
            transparency: Transparency {
                alpha: false,
                source: false,
                mask: false,
            },
            alpha: 255,
        }
    }
}

impl Style {
    /// Returns the layer that shows `stream` in this style, through the mask of the stream `mask`, or of none where that is 0.
    pub fn layer(self, stream: u32, mask: u32) -> Layer
        ensures { result ≡ layer_in self stream mask }
    {
        Layer {
            stream,
            mask,
            src: self.src,
            dest: self.dest,
            flip: self.flip,
            turn: self.turn,
            transparency: self.transparency,
            alpha: self.alpha,
        }
    }
}
