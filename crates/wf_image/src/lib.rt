//! Images, what is painted on them, and the images of a frame by stream.
#![tactic(auto)]

pub use wf_words::NoMemory;

mod canvas;
mod contents;
mod copying;
mod filling;
mod image;
mod paint;
mod painting;

pub use canvas::Canvas;
pub use contents::Contents;
pub use image::{Image, bytes_of_pixel};
pub use paint::{Paint, Pixels};

/// The most images of a frame. Each layer shows one, and may have another as its mask.
pub const MOST_CONTENTS: usize = 64;
