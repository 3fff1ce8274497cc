//! The calls of the display: ports with their modes, pipelines with their sources, three commits and the error register.
#![tactic(auto)]

mod answers;
mod checking;
mod commits;
mod denying;
mod display;
mod finding;
mod naming;
mod opening;
mod pipelines;
mod ports;
mod running;
mod scenes;
mod sources;
mod table;

pub use display::Display;
pub use wf_words::NoMemory;
