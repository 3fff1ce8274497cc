//! The calls of composition: devices, their contexts with elements, sources and masks, commits and error registers.
#![tactic(auto)]

mod activation;
mod answers;
mod commits;
mod composition;
mod contexts;
mod denying;
mod devices;
mod elements;
mod running;
mod sources;
mod streams;
mod table;

pub use composition::Core;
pub use wf_objects::Shown;
pub use wf_words::NoMemory;
