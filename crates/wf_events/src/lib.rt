//! The log of what happens at the display: which pipelines got their source, which ports were attached or detached, and how many
//! streams were dropped.
#![tactic(auto)]

mod happening;
mod log;
mod order;
mod watch;

pub use log::Log;
pub use order::events;
pub use wf_words::NoMemory;
