//! Lines that make no event.

ghost use Rattle.std.specs.Prelude.{◌≡◌, ◌≤◌, is_some, length, take, slice_get, IfSome, IsTrue};
ghost use Rattle.std.specs.List.{list_all};
ghost use Rattle.wf_script.specs.Script.{is_line, may_paint};
ghost use Rattle.wf_turn.specs.Passing.{IsPlace, is_event_of, passed};
ghost use Rattle.wf_turn.specs.Names.{bound_names};
ghost use Rattle.wf_turn.specs.Program.{is_event, lines_from, silent, skipped};

use wf_image::Canvas;
use wf_script::{Line, Verb};

/// Whether a line makes an event, by whether a canvas is held.
fn is_event(held: bool, verb: &Verb) -> bool
    ensures { result ≡ is_event held verb.now }
{
    match verb {
        Verb::Acquire { .. } | Verb::Frame { .. } => !held,
        Verb::Post | Verb::Discard => held,
        Verb::Paint(_) => false,
        _ => true,
    }
}

/// Does what a line does that makes no event.
fn do_silent(verb: &Verb, canvas: &mut Option<Canvas>)
    requires { IsTrue (may_paint verb.now) }
    ensures { canvas.new ≡ silent verb.now canvas.old }
{
    if let (Verb::Paint(paint), Some(canvas)) = (verb, canvas) {
        canvas.paint(paint);
    }
}

/// Whether a line makes an event of a client.
fn is_event_of(client: u8, held: bool, line: &Line) -> bool
    ensures { result ≡ is_event_of client held line.now }
{
    line.client == client && is_event(held, &line.verb)
}

/// Passes a line that makes no event of a client: does what it does, if it is the client's.
fn pass(client: u8, line: &Line, canvas: &mut Option<Canvas>)
    requires { IsTrue (is_line line.now) }
    ensures { canvas.new ≡ passed client line.now canvas.old }
{
    if line.client == client {
        do_silent(&line.verb, canvas);
    }
}

/// Goes on from a place to the client's next line that makes an event, or to the end, and does what the lines between
/// do.
pub(crate) fn skip(lines: &[Line], client: u8, mut at: usize, canvas: &mut Option<Canvas>) -> usize
    requires within { at ≤ length lines.now }
    requires sound { IsTrue (list_all is_line lines.now) }
    ensures skipped { skipped canvas.old (lines_from client at lines.now) ≡ (canvas.new, lines_from client result lines.now) }
    ensures place { IsPlace client result lines.now }
    ensures later { at ≤ result }
    ensures names { bound_names client (take result lines.now) ≡ bound_names client (take at lines.now) }
{
    while at < lines.len() {
        let line = &lines[at];
        if is_event_of(client, canvas.is_some(), line) {
            return at;
        }
        pass(client, line, canvas);
        at += 1;
    }
    at
}
