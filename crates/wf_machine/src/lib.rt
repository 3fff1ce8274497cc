//! The machine: it answers every call in one place, one after another.
#![tactic(auto)]

mod calls;
mod composing;
mod denying;
mod frame;
mod frames;
mod latching;
mod laws;
mod machine;
mod naming;
mod object;
mod parts;
mod port;
mod replies;
mod screens;
mod small_call;
mod streams;
mod table;

pub use laws::{frames_are_left_alone, frames_take_each_image_once};
pub use machine::Machine;
pub use small_call::SmallCall;
pub use wf_words::NoMemory;
