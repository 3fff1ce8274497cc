//! Paints a frame over the last picture of its port or context, only where something changed.
#![tactic(auto)]

mod bench;
mod brush;
mod changes;
mod comparing;
mod equal;
mod paying;

pub use bench::{Bench, Kept};
pub use brush::{Brush, Parts};
pub use changes::{MOST_AREAS, areas};
pub use wf_words::NoMemory;
