//! What is printed of a verb.

ghost use Rattle.std.specs.Prelude.{◌≡◌, ◌≤◌, true, length};
ghost use Rattle.wf_image.specs.Paints.{is_paint};

use crate::line::Value;
use crate::token::Shown;
use wf_calls::{PipeAttr, PortAttr};
use wf_image::Paint;
use wf_scene::{ContextAttr, ElementAttr};

/// A paint whose numbers are in their ranges.
#[derive(Clone, Copy)]
pub(crate) struct Painted<'a> {
    pub paint: &'a Paint,
    ghost sound: { is_paint paint.now ≡ true },
}

/// What stands at the end of a verb's words: what an attribute is set to, or a paint.
#[derive(Clone, Copy)]
pub(crate) enum End<'a> {
    Nothing,
    Element(ElementAttr, &'a Value),
    Context(ContextAttr, &'a Value),
    Port(PortAttr, &'a Value),
    Pipe(PipeAttr, &'a Value),
    Paint(Painted<'a>),
}

/// What is printed of a verb: its word, the first `count` of some words behind it, and the end.
#[derive(Clone, Copy)]
pub(crate) struct Told<'a> {
    pub word: &'static [u8],
    pub shown: [Shown<'a>; 4],
    pub count: usize,
    pub end: End<'a>,
    ghost short: { length word.now ≤ 64 },
    ghost few: { count ≤ 4 },
}
