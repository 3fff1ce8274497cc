//! Ordered lists over one set of nodes, which are linked by their numbers.
#![tactic(auto)]

mod laws;
mod links;

pub use links::Links;
pub use wf_words::NoMemory;
