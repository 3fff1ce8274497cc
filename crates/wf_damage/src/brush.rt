//! Paints parts of pictures, and counts the pixels.

ghost use Rattle.std.specs.Prelude.{◌≡◌, ℕ, ◌*◌};
ghost use Rattle.wf_image.specs.Bitmap.{pixel_bytes};
ghost use Rattle.wf_model.specs.Picture.{Fits};
ghost use Rattle.wf_kernel.specs.Parts.{part_picture};
ghost use Rattle.wf_damage.specs.Bench.{IsRise};

use wf_image::{Contents, Image};
use wf_kernel::picture_part;
use wf_pixel::Rect;
use wf_scene::Scene;

/// What paints a part of a picture, and counts the pixels that it was asked for.
pub trait Brush {
    /// How many pixels it was asked for.
    ghost count: { Self → ℕ };

    /// Writes the picture of `scene`, with the images of `contents` by stream, into `target` inside `area`, a rectangle of the space where
    /// the scene is composed, under the conditions of `picture_part`.
    fn part(&mut self, scene: &Scene, contents: &Contents, area: Rect, target: &mut Image)
        requires size { target.old.size ≡ scene.now.size }
        requires pixels { pixel_bytes target.old.format ≡ 4 }
        requires fits { Fits scene.now contents.now }
        ensures picture { target.new ≡ part_picture scene.now contents.now area target.old }
        ensures painted { IsRise (count self.old) (count self.new) (area.w * area.h) };

    /// Returns how many pixels it was asked for, modulo 2^64: width times height of each area, also where it is partly outside.
    fn painted(&self) -> u64
        ensures { result ≡ count self.now };
}

/// Paints parts by `picture_part`.
#[derive(Clone, Copy, Debug, PartialEq, Eq)]
pub struct Parts {
    count: u64,
}

impl Parts {
    /// Makes a brush that was asked for nothing yet.
    pub fn new() -> Parts
        ensures { result.count ≡ 0 }
    {
        Parts { count: 0 }
    }
}

impl Brush for Parts {
    ghost count = { λ brush. brush.count };

    fn part(&mut self, scene: &Scene, contents: &Contents, area: Rect, target: &mut Image) {
        picture_part(scene, contents, area, target);
        self.count = self
            .count
            .wrapping_add(u64::from(area.w) * u64::from(area.h));
    }

    fn painted(&self) -> u64 {
        self.count
    }
}
