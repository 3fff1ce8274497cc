//! What stands behind handles of sources and masks, and where a scene is not consistent.

ghost use Rattle.std.specs.Prelude.{◌≡◌};

use wf_pixel::{Format, Size};

/// What a live source or mask shows: a stream by its number, with the stream's size and format.
#[derive(Clone, Copy, Debug, PartialEq, Eq)]
pub struct Seen {
    pub stream: u32,
    pub size: Size,
    pub format: Format,
}

/// The first rule that a cached scene breaks: the place of the element, from 1 at the bottom, and the rule. Rule 1: its
/// source is live. Rule 2: its source rectangle has sides of at least 1 and lies inside the source. Rule 3: its
/// destination has sides from 1 to `MOST_SIDE`. Rule 4: where a mask applies, its mask is live and has the destination's size.
#[derive(Clone, Copy, Debug, PartialEq, Eq)]
pub struct Fault {
    pub place: u32,
    pub rule: u32,
}

/// Who knows what stands behind handles.
pub trait Look {
    ghost use Rattle.wf_scene.specs.Sight.{Sight};

    ghost sight: { Self → Sight };

    /// What a source shows, or None where the handle is no live source.
    fn source(&self, handle: u32) -> Option<Seen>
        ensures { result ≡ (sight self.now).source handle };

    /// What a mask shows, or None where the handle is no live mask.
    fn mask(&self, handle: u32) -> Option<Seen>
        ensures { result ≡ (sight self.now).mask handle };
}
