//! The ports and the pipelines that a script declares.

ghost use Rattle.std.specs.Prelude.{◌≡◌, []};

use arrayvec::ArrayVec;
use wf_pixel::Size;

/// The modes of a port: 1 to 4 sizes, of which the first is the one that it opens in.
#[derive(Drop)]
pub struct Modes {
    pub sizes: ArrayVec<Size, 4>,
}

impl Default for Modes {
    ghost is_default = { λ modes. modes.sizes.items ≡ [] };

    fn default() -> Modes {
        Modes {
            sizes: ArrayVec::new(),
        }
    }
}

/// The 1 to 4 ports, each with its modes, and how many pipelines there are.
#[derive(Drop)]
pub struct Ports {
    pub modes: ArrayVec<Modes, 4>,
    pub pipes: u32,
}
