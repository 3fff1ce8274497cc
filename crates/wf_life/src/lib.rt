//! What lives how long: the handles of objects, and values that are counted.
#![tactic(auto)]

mod handles;
mod pool;

pub use handles::{BadHandle, Handles, MakeStop};
pub use pool::{Kept, Pool};
pub use wf_words::NoMemory;

/// The kinds of objects.
#[derive(Clone, Copy, Debug, PartialEq, Eq)]
pub enum Kind {
    Stream,
    Device,
    Context,
    Element,
    Source,
    Mask,
    DisplaySource,
}
