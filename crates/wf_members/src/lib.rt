//! Which members each owner has: owners and members are told by handles.
#![tactic(auto)]

mod members;

pub use members::Members;
pub use wf_words::NoMemory;
