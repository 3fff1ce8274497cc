//! The painter: writes the picture of a scene, row by row, in one thread or in several.
#![tactic(auto)]

mod bands;
mod bound;
mod hiding;
mod keeping;
mod laying;
mod lines;
mod masks;
mod painter;
mod painting;
mod parts;
mod placing;
mod runs;
mod spans;
mod splitting;
mod stretch;
mod strips;
mod tables;

pub use bands::picture_rows;
pub use painter::{Painter, Plain, Rows};
pub use painting::picture;
pub use parts::picture_part;
use wf_pixel::{MOST_COORDINATE, MOST_SIDE, SIDE_LEN};
use wf_scene::MOST_INSERTED;

/// The farthest that a rectangle on a target may begin from 0, to either side, however the target is turned.
const FARTHEST: u32 = MOST_COORDINATE + MOST_SIDE;

/// The bytes of a row of pixels.
const ROW_BYTES: usize = 4 * SIDE_LEN;

/// The bytes of eight columns.
const BLOCK_BYTES: usize = 8 * ROW_BYTES;

/// The layers of most scenes: where there are no more of them, a picture makes less room on the stack.
const FEW_LAYERS: usize = 4;

/// The pieces of a row that one layer makes.
const ONE_STRIPS: usize = 3;

/// The pieces of a row that few layers make: `n` layers have `2n` edges, which cut a row into `2n + 1` pieces at most.
const FEW_STRIPS: usize = 2 * FEW_LAYERS + 1;

/// The pieces of a row that any layers make.
const MOST_STRIPS: usize = 2 * MOST_INSERTED + 1;
