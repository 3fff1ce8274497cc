//! The command line of `wfplay`: which words are accepted, and what they ask for.
#![tactic(auto)]

mod asked;
mod command;

pub use asked::{Asked, Mode, WordsStop};
pub use command::asked_by;
