//! Films as bytes: the writer of frames and of the journal, and the reader of films of both forms.
#![tactic(auto)]

mod fault;
mod fields;
mod film;
mod form;
mod frames;
mod journal;
mod laws;
mod pieces;
mod reading;
mod rule;
mod writer;

pub use fault::FilmStop;
pub use film::Film;
pub use form::FilmForm;
pub use laws::{
    cut_films_end_early, faults_lie_in_the_film, no_film_begins_another, nothing_follows_a_film,
    one_film_at_most, written_films_are_read,
};
pub use reading::read;
pub use wf_io::WriteStop;
use wf_pixel::MOST_SIDE;
pub use writer::Writer;

/// The most bytes of a frame: a head of 14 bytes, and 4 bytes a pixel.
pub const FRAME_BYTES: u64 = 14 + 4 * MOST_SIDE as u64 * MOST_SIDE as u64;
