//! Checks a film: whether it is the film of a script and of the order that its own journal tells.
#![tactic(auto)]

mod checking;
mod comparing;
mod laws;
mod verdict;

pub use checking::{check, check_film};
pub use laws::one_verdict_at_most;
pub use verdict::Verdict;
pub use wf_words::NoMemory;
