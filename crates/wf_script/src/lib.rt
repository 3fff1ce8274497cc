//! Scripts: what one is, and how it is read, printed and made.
#![tactic(auto)]

mod fault;
mod field;
mod form;
mod generator;
mod given;
mod hex;
mod items;
mod laws;
mod line;
mod making;
mod name;
mod names;
mod numbers;
mod paint_form;
mod paint_text;
mod paints;
mod parts;
mod pick;
mod printing;
mod reader;
mod reading;
mod rule;
mod script;
mod seen;
mod shapes;
mod spelled;
mod streams;
mod table;
mod text;
mod token;
mod told;
mod value_text;
mod verb_text;
mod word_tables;
mod words;

pub use fault::ScriptFault;
pub use generator::make;
pub use laws::{
    canonical_texts_stand, canonical_texts_tell_scripts_apart,
    lines_are_refused_by_their_least_rule, scripts_are_refused_at_their_first_fault,
};
pub use line::{Line, Value, Verb};
pub use name::Name;
pub use printing::print;
pub use reading::parse;
pub use script::Script;
use wf_pixel::SIDE_LEN;

/// The most lines of a script.
pub const MOST_LINES: u32 = 16_384;

/// The most hexadecimal digits of a row: 8 for each pixel.
const ROW_DIGITS: usize = 8 * SIDE_LEN;

/// The most bytes that a word takes where it is printed, with the space before it. Rooms for texts are counted in such words.
const WORD_ROOM: usize = ROW_DIGITS + 1;
