//! The serving core: one machine for several clients, whose messages come as one stream of bytes.
#![tactic(auto)]

mod answers;
mod bands;
mod body;
mod calls;
mod changes;
mod hearing;
mod input;
mod kind;
mod laws;
mod live;
mod pictures;
mod pixels;
mod screen;
mod serving;
mod showing;
mod tick;

pub use answers::Answers;
pub use bands::Band;
pub use hearing::MOST_TOLD;
pub use input::MOST_FRAME;
pub use kind::{GONE, Kind, LEFT, PUT, SIZE, TELL, TICK, TOLD, WAIT, kind_of};
pub use laws::{
    a_band_completes_the_last_picture, a_run_is_played_again, turns_lead_to_what_a_run_leaves,
};
pub use live::Core;
pub use pictures::Pictures;
pub use pixels::Rectangle;
pub use serving::{ServeStop, serve};
