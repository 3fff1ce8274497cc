//! What paints the frames of a show.

ghost use Rattle.std.specs.Prelude.{◌≡◌, ◌≤◌};
ghost use Rattle.std.specs.Thread.{IsSync};
ghost use Rattle.wf_image.specs.Bitmap.{pixel_bytes};
ghost use Rattle.wf_model.specs.Picture.{picture, Fits};

use crate::bands::picture_rows;
use crate::painting::picture;
use std::thread::Threads;
use wf_calls::JobKind;
use wf_image::{Contents, Image};
use wf_scene::Scene;

/// What paints the frames of a show. It may keep what it painted before; the picture is the same.
pub trait Painter {
    /// What has to be known of the painter's type beside its bounds, before it paints.
    ghost ready: { Type 0 };

    /// Writes the picture of a scene with these images by stream, under the conditions of `picture`. The kind tells which
    /// context's or which port's frame it is.
    fn paint(&mut self, kind: &JobKind, scene: &Scene, contents: &Contents, target: &mut Image)
        requires ready { ready }
        requires size { target.old.size ≡ scene.now.size }
        requires pixels { pixel_bytes target.old.format ≡ 4 }
        requires fits { Fits scene.now contents.now }
        ensures picture { target.new ≡ picture scene.now contents.now target.old.format };
}

/// Paints each frame anew, in one thread.
#[derive(Clone, Copy, Debug, PartialEq, Eq)]
pub struct Plain;

impl Painter for Plain {
    ghost ready = { Unit {0} };

    fn paint(&mut self, _kind: &JobKind, scene: &Scene, contents: &Contents, target: &mut Image) {
        picture(scene, contents, target);
    }
}

/// Paints each frame anew, by bands of rows, each in a thread of its own where one can be made.
#[derive(Drop)]
pub struct Rows<'a, R> {
    rt: &'a R,
    workers: u32,
    ghost some: { 1 ≤ workers },
    ghost few: { workers ≤ 16 },
}

impl<'a, R: Threads + Sync> Rows<'a, R> {
    /// Makes a painter that paints in at most `workers` threads of `rt`, from 1 to 16.
    pub fn new(rt: &'a R, workers: u32) -> Rows<'a, R>
        requires some { 1 ≤ workers }
        requires few { workers ≤ 16 }
    {
        Rows { rt, workers }
    }
}

impl<'a, R: Threads + Sync> Painter for Rows<'a, R> {
    ghost ready = { IsSync R.row };

    fn paint(&mut self, _kind: &JobKind, scene: &Scene, contents: &Contents, target: &mut Image) {
        picture_rows(self.rt, self.workers, scene, contents, target);
    }
}
