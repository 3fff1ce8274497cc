//! Compares the images of streams, each stream once.

ghost use Rattle.std.specs.Prelude.{◌≡◌, [], None};
ghost use Rattle.wf_damage.specs.Areas.{same_content};
ghost use Rattle.wf_damage.specs.Compared.{AreCompared};

use crate::changes::MOST_AREAS;
use crate::equal::same_image;
use arrayvec::ArrayVec;
use wf_image::Contents;

/// Which streams were compared: those whose images are equal before and now, or missing in both, and the others.
#[derive(Drop)]
pub(crate) struct Compared {
    pub(crate) same: ArrayVec<u32, MOST_AREAS>,
    pub(crate) other: ArrayVec<u32, MOST_AREAS>,
}

impl Compared {
    /// Makes the lists of no streams.
    pub(crate) fn new() -> Compared
        ensures same { result.same.items ≡ [] }
        ensures other { result.other.items ≡ [] }
    {
        Compared {
            same: ArrayVec::new(),
            other: ArrayVec::new(),
        }
    }
}

/// Returns whether `stream` has one image `before` and `now`, or none in both: as it was found, or anew.
pub(crate) fn is_same(
    compared: &mut Compared,
    before: &Contents,
    now: &Contents,
    stream: u32,
) -> bool
    requires compared { AreCompared before.now now.now compared.old }
    ensures same { result ≡ same_content before.now now.now stream }
    ensures compared { AreCompared before.now now.now compared.new }
{
    if compared.same.as_slice().contains(&stream) {
        return true;
    }
    if compared.other.as_slice().contains(&stream) {
        return false;
    }
    let same = same_content(before, now, stream);
    note(compared, before, now, stream, same);
    same
}

/// Notes whether the images of `stream` are the `same`, where there is a place for it.
fn note(compared: &mut Compared, before: &Contents, now: &Contents, stream: u32, same: bool)
    requires same { same ≡ same_content before.now now.now stream }
    requires compared { AreCompared before.now now.now compared.old }
    ensures { AreCompared before.now now.now compared.new }
{
    if same {
        if compared.same.len() < MOST_AREAS {
            compared.same.push(stream);
        }
    } else if compared.other.len() < MOST_AREAS {
        compared.other.push(stream);
    }
}

/// Returns whether `stream` has one image `before` and `now`, or none in both.
fn same_content(before: &Contents, now: &Contents, stream: u32) -> bool
    ensures { result ≡ same_content before.now now.now stream }
{
    match before.find(stream) {
        Some(a) => match now.find(stream) {
            Some(b) => same_image(a, b),
            None => false,
        },
        None => now.find(stream).is_none(),
    }
}
