//! The clients of a script: their programs, their turns, and the film of an order.
#![tactic(auto)]

mod asking;
mod bringing;
mod calls;
mod cast;
mod index;
mod laws;
mod names;
mod player;
mod program;
mod puts;
mod quotas;
mod replaying;
mod setup;
mod show;
mod skipping;
mod stage;
mod taking;
mod turning;

pub use laws::{
    each_frame_is_of_a_moment, each_frame_shows_what_ended_last, each_frame_tells_its_place,
    each_screen_is_of_the_last_frame, each_screen_keeps_an_image,
    made_scripts_play_three_events_and_eighteen_a_round, the_last_frame_is_one,
};
pub use player::{PlayStop, serial, serial_by};
pub use program::Program;
pub use quotas::quota;
pub use replaying::{ReplayStop, replay, replay_by};
pub use show::{Show, put_job};
pub use stage::{Asks, Phase, Stage, Wanted};
