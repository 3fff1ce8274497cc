//! The images of a frame by the numbers of their streams.

ghost use Rattle.std.specs.Prelude.{◌≡◌, ◌++◌, ◌∷◌, [], ◌<◌, ◌≤◌, All, length, None, Some, IfSome, IfNone, OnOk, OnErr, option_to_list};
ghost use Rattle.wf_image.specs.Contents.{AreApart, bytes_of, image_of, somes};

use crate::copying::{copy_places, set_len};
use crate::image::Image;
use crate::{MOST_CONTENTS, NoMemory};
use arrayvec::ArrayVec;
use std::marker::Model;

/// Images, each with the number of its stream, and no number twice. No call can lack memory.
#[derive(Drop)]
pub struct Contents {
    // No pair is None: it is an Option because what stands in an ArrayVec has a Default.
    pairs: ArrayVec<Option<(u32, Image)>, MOST_CONTENTS>,
}

impl Model for Contents {
    ghost use Rattle.std.specs.Prelude.{ℕ, List};
    ghost use Rattle.wf_image.specs.Bitmap.{Bitmap};
    ghost use Rattle.wf_image.specs.Contents.{somes, ArePlaces};

    ghost Value = { List (ℕ × Bitmap) };

    ghost view = { λ c. somes c.pairs.items };

    ghost invariant = { λ c. ArePlaces c.pairs.items };
}

impl Contents {
    /// Makes contents without images.
    pub fn new() -> Contents
        ensures { result ≡ [] }
    {
        Contents {
            pairs: ArrayVec::new(),
        }
    }

    /// Adds the `image` of `stream`, which has none here yet. There is a place for it.
    pub fn put(&mut self, stream: u32, image: Image)
        requires room { length self.old < MOST_CONTENTS }
        requires apart { image_of stream self.old ≡ None }
        ensures { self.new ≡ self.old ++ (stream, image) ∷ [] }
    {
        self.pairs.push(Some((stream, image)));
    }

    /// Finds the image of `stream`, or `None` where it has none here.
    pub fn find(&self, stream: u32) -> Option<&Image>
        ensures some { IfSome result (λ image. image_of stream self.now ≡ Some image.now) }
        ensures none { IfNone result (image_of stream self.now ≡ None) }
    {
        find_in(self.pairs.as_slice(), stream)
    }

    /// Makes these the images of `other`, by the same streams. The images of the streams that `same` names are left as they are:
    /// they are equal in both already, or missing in both. It takes memory for an image where none of its size and format stands in its
    /// place. Where that is refused, no image is left.
    pub fn copy_from(&mut self, other: &Contents, same: &[u32]) -> Result<(), NoMemory>
        requires same { All (λ stream. image_of stream self.old ≡ image_of stream other.now) same.now }
        ensures same { OnOk result (self.new ≡ other.now) }
        ensures refused { OnErr result (self.new ≡ []) }
    {
        let from = other.pairs.as_slice();
        set_len(&mut self.pairs, from.len());
        let copied = copy_places(self.pairs.as_mut_slice(), from, same);
        if copied.is_err() {
            self.pairs.clear();
        }
        copied
    }

    /// Returns the number of bytes of all images.
    pub fn bytes(&self) -> usize
        ensures { result ≡ bytes_of self.now }
    {
        let mut bytes = 0;
        for place in self.pairs.as_slice() {
            if let Some((_, image)) = place {
                bytes += image.len();
            }
        }
        bytes
    }

    /// Returns the number of images.
    pub fn len(&self) -> usize
        ensures count { result ≡ length self.now }
        ensures most { result ≤ MOST_CONTENTS }
        ensures apart { AreApart self.now }
    {
        self.pairs.len()
    }

    /// Takes out the image that was put last, with the number of its stream, or returns `None` where there is none.
    pub fn pop(&mut self) -> Option<(u32, Image)>
        ensures last { self.old ≡ self.new ++ option_to_list result }
        ensures none { IfNone result (self.old ≡ []) }
    {
        self.pairs.pop()?
    }
}

/// Finds the image of the first of `pairs` whose number is `stream`.
fn find_in(pairs: &[Option<(u32, Image)>], stream: u32) -> Option<&Image>
    ensures some { IfSome result (λ image. image_of stream (somes pairs.now) ≡ Some image.now) }
    ensures none { IfNone result (image_of stream (somes pairs.now) ≡ None) }
{
    for at in 0..pairs.len() {
        if let Some((number, image)) = &pairs[at] {
            if *number == stream {
                return Some(image);
            }
        }
    }
    None
}
