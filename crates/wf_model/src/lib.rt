//! The machine in plain lists and numbers: its state, the picture of a scene, and the step of each call.
//! But for plain types that the code shares with these definitions, nothing here runs: the crates above are proved
//! against them.
#![tactic(auto)]

mod display;
mod laws;

pub use display::{DisplaySource, Extent, Pipeline, Port, PortStyle, Request};
pub use laws::ports_stay_at_a_pipelines_commit;
use wf_calls::MOST_PIPELINES;
use wf_pixel::{Format, Size};
use wf_scene::MOST_INSERTED;

/// The most devices.
pub const MOST_DEVICES: usize = 8;

/// The most contexts, of all devices together.
pub const MOST_CONTEXTS: usize = 16;

/// The most sources and masks together, those of the display included.
pub const MOST_SOURCES: usize = 256;

/// The most names of streams that composition has: one of each source and of each mask, and of each context one of its target
/// and two of each layer.
pub const MOST_CORE_NAMES: usize = 2 * MOST_SOURCES + MOST_CONTEXTS * (1 + 2 * MOST_INSERTED);

/// The most names of streams that the display has: those of four screens, one of each source, and two of each pipeline.
pub const MOST_DISPLAY_NAMES: usize = 4 + MOST_SOURCES + 2 * MOST_PIPELINES as usize;

/// What a running frame holds of a stream: an image of this size and format.
#[derive(Clone, Copy, Debug, PartialEq, Eq)]
pub struct Content {
    pub stream: u32,
    pub size: Size,
    pub format: Format,
}

impl Default for Content {
    fn default() -> Content {
        Content {
            stream: 0,
            size: Size { w: 0, h: 0 },
            format: Format::Rgba8,
        }
    }
}
