//! The tables of the objects of composition: devices, their contexts with elements, and their links to streams. The
//! calls of composition find, make, change and drop objects here.
#![tactic(auto)]

mod denying;
mod dropping;
mod editing;
mod emptying;
mod finding;
mod links;
mod making;
mod naming;
mod objects;
mod registers;
mod rows;
mod shown;

pub use editing::by_scene;
pub use objects::Objects;
pub use shown::Shown;
