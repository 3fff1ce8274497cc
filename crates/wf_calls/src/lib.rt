//! The calls of the machine and its answers, the journal's entries, and the ports that a script declares.
#![tactic(auto)]

mod call;
mod code;
mod creation;
mod display;
mod order;
mod part;
mod place;
mod ports;
mod reply;
mod request;

pub use call::{Call, Job, JobKind, StatWord};
pub use code::Code;
pub use display::{PipeAttr, PortAttr, Transition};
pub use order::{Order, Turn};
pub use part::Part;
pub use place::JobPlace;
pub use ports::{Modes, Ports};
pub use reply::{Answer, Payload, Refusal, Reply};
pub use request::Request;

/// The most pipelines.
pub const MOST_PIPELINES: u32 = 8;
