//! The machine with what its embedder holds: write buffers by the handles of their streams, and frames in places of their own.
#![tactic(auto)]

mod canvases;
mod declaring;
mod frame;
mod host;
mod order;
mod rows;
mod told;

pub use canvases::{Canvases, Held};
pub use declaring::{Mode, ports_of};
pub use frame::{Frame, paint_held};
pub use host::Host;
pub use order::{Order, put_row};
pub use rows::{copy_rows, stands};
pub use told::{NOT_MADE, Told};
pub use wf_words::NoMemory;
