//! A desk: one object that many threads call, where each call is one event of one legal history.
#![tactic(auto)]

mod board;
mod calls;
mod dealing;
mod desk;
mod ending;
mod event;
mod journal;
mod object;
mod operation;
mod pass;
mod plays;
mod rule;
mod view;

pub use desk::Desk;
pub use event::Event;
pub use journal::Journal;
pub use object::Object;
pub use operation::Operation;
pub use pass::Pass;
pub use wf_words::NoMemory;
