//! What elements can show.

ghost use Rattle.std.specs.Prelude.{◌==◌, None, if◌then◌else◌};

use wf_pixel::{Format, Size};
use wf_scene::{Look, Seen};

/// What source 1 and mask 2 show. No other handle is live.
#[derive(Drop)]
pub(crate) struct Shown {
    source: Option<Seen>,
    mask: Option<Seen>,
}

impl Look for Shown {
    ghost sight = { λ s. record {
      source = λ handle. if handle == 1 then s.source else None;
      mask = λ handle. if handle == 2 then s.mask else None;
    } };

    fn source(&self, handle: u32) -> Option<Seen> {
        if handle == 1 { self.source } else { None }
    }

    fn mask(&self, handle: u32) -> Option<Seen> {
        if handle == 2 { self.mask } else { None }
    }
}

impl Shown {
    /// A source of stream 10, 8 by 6, and a mask of stream 20, 3 by 2.
    pub(crate) fn new() -> Shown {
        Shown {
            source: Some(Seen {
                stream: 10,
                size: Size { w: 8, h: 6 },
                format: Format::Rgba8,
            }),
            mask: Some(Seen {
                stream: 20,
                size: Size { w: 3, h: 2 },
                format: Format::A8,
            }),
        }
    }
}
