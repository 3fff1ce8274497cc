//! Call sessions as bytes: reads the header and the messages by which one client drives a pass of a desk.
#![tactic(auto)]

mod answering;
mod asking;
mod bits;
mod fields;
mod form;
mod header;
mod hearing;
mod kind;
mod laws;
mod meaning;
mod message;
mod messages;
mod paints;
mod serving;
mod session;
mod stop;
mod telling;
mod words;

pub use fields::fill;
pub use laws::{all_messages_are_told, answered_messages_are_told, faults_lie_in_the_input};
pub use message::Message;
pub use session::Session;
pub use stop::ServeStop;

/// No message begins at this byte of the input or a later one.
pub const MESSAGES_END: u64 = 1_073_741_824;
