//! Scenes: what a frame shows, and the cached scene of a context, from which a commit takes one.
#![tactic(auto)]

mod attributes;
mod cached;
mod consistency;
mod element;
mod laws;
mod linked;
mod look;
mod slots;
mod style;
pub mod values;

ghost use Rattle.std.specs.Prelude.{◌≡◌};
ghost use Rattle.wf_scene.specs.Layers.{no_layer};

use arrayvec::ArrayVec;
pub use attributes::{ContextAttr, ElementAttr, Refused};
pub use cached::Cached;
pub use consistency::{has_sides, holds_rect};
pub use element::Element;
pub use laws::{consistent_by_rules, each_stands_once, inserted_above, set_is_told};
pub use look::{Fault, Look, Seen};
pub use style::{Filter, Style};
use wf_pixel::{Rect, Rgba, Rotation, Size, Transparency};
pub use wf_words::NoMemory;

/// The most elements of a context.
pub const MOST_ELEMENTS: u32 = 64;

/// The most of them that are inserted, and so the most layers of a scene.
pub const MOST_INSERTED: usize = 32;

/// One layer of a scene: which stream it shows and through which mask, by their numbers (0 is no mask); which part of
/// the stream's image, and where; flipped from top to bottom, and then turned; and how transparent.
#[derive(Clone, Copy, Debug, PartialEq, Eq)]
pub struct Layer {
    pub stream: u32,
    pub mask: u32,
    pub src: Rect,
    pub dest: Rect,
    pub flip: bool,
    pub turn: Rotation,
    pub transparency: Transparency,
    pub alpha: u8,
}

impl Default for Layer {
    ghost is_default = { λ layer. layer ≡ no_layer };

    fn default() -> Layer {
        Style::default().layer(0, 0)
    }
}

/// What a frame shows: the target's size, how the composed picture is turned into it, the colour behind everything,
/// and the layers from the bottom up.
#[derive(Drop)]
pub struct Scene {
    pub size: Size,
    pub turn: Rotation,
    pub background: Rgba,
    pub layers: ArrayVec<Layer, MOST_INSERTED>,
}

impl Scene {
    /// Returns the same scene once more. It cannot lack memory.
    pub fn copy(&self) -> Scene
        ensures { result ≡ self.now }
    {
        let mut layers = ArrayVec::new();
        for layer in self.layers.as_slice() {
            layers.push(*layer);
        }
        Scene {
            size: self.size,
            turn: self.turn,
            background: self.background,
            layers,
        }
    }

    /// Becomes the same as `other`. Only what that one has of layers is written.
    pub fn copy_from(&mut self, other: &Scene)
        ensures { self.new ≡ other.now }
    {
        self.size = other.size;
        self.turn = other.turn;
        self.background = other.background;
        self.layers.clear();
        for layer in other.layers.as_slice() {
            self.layers.push(*layer);
        }
    }
}
