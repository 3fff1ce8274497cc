//! Clients on threads, which share one machine by a desk.
#![tactic(auto)]

mod client;
mod clock;
mod closing;
mod gate;
mod laws;
mod player;
mod players;
mod playing;
mod teaching;
mod together;

pub use client::run_client;
pub use gate::{Gate, Open};
pub use laws::clients_make_an_order;
pub use playing::{threaded, threaded_by};
