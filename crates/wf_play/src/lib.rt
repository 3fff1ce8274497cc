//! The top call: plays a scene script and writes its film, or prints it, or checks a film.
#![tactic(auto)]

mod big;
mod checked;
mod laws;
mod logged;
mod notes;
mod parts;
mod report;
mod served;
mod top;

pub use laws::one_film;
pub use notes::put_note;
pub use report::{Report, Status};
pub use top::play;
pub use wf_command::{Asked, Mode};
pub use wf_show::{Gate, Open};

#[cfg(test)]
mod row;
#[cfg(test)]
mod tests;
