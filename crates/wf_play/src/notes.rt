//! The line that a play puts into the notes.

ghost use Rattle.std.specs.Prelude.{◌≡◌, ◌≤◌, ◌++◌, codes, decimal, length};
ghost use Rattle.wf_play.specs.Notes.{PutsOrFront, note_in, note_of};

use crate::report::Status;
use wf_command::Mode;
use wf_io::{Sink, write_all};
use wf_text::{MOST, Text, add, add_number};

/// The line of a script that was refused.
fn refusal(line: u32, rule: u32) -> Text
    ensures { result.items ≡ codes "line " ++ decimal line ++ codes ": rule " ++ decimal rule ++ codes "\n" }
{
    let mut note = Text::new();
    add(&mut note, b"line ");
    add_number(&mut note, line.into());
    add(&mut note, b": rule ");
    add_number(&mut note, rule.into());
    add(&mut note, b"\n");
    note
}

/// The line of a film that was cut.
fn cut(written: u64) -> Text
    ensures { result.items ≡ codes "write fault after " ++ decimal written ++ codes " bytes\n" }
{
    let mut note = Text::new();
    add(&mut note, b"write fault after ");
    add_number(&mut note, written);
    add(&mut note, b" bytes\n");
    note
}

/// The line of a film that differs.
fn difference(at: u64) -> Text
    ensures { result.items ≡ codes "differs at " ++ decimal at ++ codes "\n" }
{
    let mut note = Text::new();
    add(&mut note, b"differs at ");
    add_number(&mut note, at);
    add(&mut note, b"\n");
    note
}

/// The line of a film whose order is bad.
fn bad_order(entry: u32) -> Text
    ensures { result.items ≡ codes "bad order at entry " ++ decimal entry ++ codes "\n" }
{
    let mut note = Text::new();
    add(&mut note, b"bad order at entry ");
    add_number(&mut note, entry.into());
    add(&mut note, b"\n");
    note
}

/// The line of bytes that are no film.
fn bad_film(at: u64, rule: u32) -> Text
    ensures { result.items ≡ codes "bad film at " ++ decimal at ++ codes ": rule " ++ decimal rule ++ codes "\n" }
{
    let mut note = Text::new();
    add(&mut note, b"bad film at ");
    add_number(&mut note, at);
    add(&mut note, b": rule ");
    add_number(&mut note, rule.into());
    add(&mut note, b"\n");
    note
}

/// The line of a session that breaks a rule.
fn bad_message(at: u64, rule: u32) -> Text
    ensures { result.items ≡ codes "bad message at " ++ decimal at ++ codes ": rule " ++ decimal rule ++ codes "\n" }
{
    let mut note = Text::new();
    add(&mut note, b"bad message at ");
    add_number(&mut note, at);
    add(&mut note, b": rule ");
    add_number(&mut note, rule.into());
    add(&mut note, b"\n");
    note
}

/// The line of a session whose client has made its calls.
fn too_many(at: u64) -> Text
    ensures { result.items ≡ codes "too many messages at " ++ decimal at ++ codes "\n" }
{
    let mut note = Text::new();
    add(&mut note, b"too many messages at ");
    add_number(&mut note, at);
    add(&mut note, b"\n");
    note
}

/// A line of a text.
fn line_of(text: &[u8]) -> Text
    requires { length text.now ≤ MOST }
    ensures { result.items ≡ text.now }
{
    let mut note = Text::new();
    add(&mut note, text);
    note
}

/// The line of a status: nothing where the film is whole.
fn note_of(status: Status) -> Text
    ensures { result.items ≡ note_of status }
{
    match status {
        Status::Done => Text::new(),
        Status::Usage => {
            line_of(
                b"usage: wfplay <film|check|print|big|events|session> [--threads] [--rows N] [--size N] [--film N] [--depth N] \
                [--repaint]\n",
            )
        }
        Status::ReadFault => line_of(b"read fault\n"),
        Status::TooLong => line_of(b"input too long\n"),
        Status::Refused { line, rule } => refusal(line, rule),
        Status::WriteFault { written } => cut(written),
        Status::Differs { at } => difference(at),
        Status::BadOrder { entry } => bad_order(entry),
        Status::BadFilm { at, rule } => bad_film(at, rule),
        Status::BadMessage { at, rule } => bad_message(at, rule),
        Status::Quota { at } => too_many(at),
        Status::NoMemory => line_of(b"no memory\n"),
    }
}

/// The line of a mode's status: `same` where a check found no fault, and else that of the status.
fn note_in(mode: Mode, status: Status) -> Text
    ensures { result.items ≡ note_in mode status }
{
    match (mode, status) {
        (Mode::Check, Status::Done) => line_of(b"same\n"),
        _ => note_of(status),
    }
}

/// Puts the line of a status into the notes. A fault of the notes changes nothing.
pub fn put_note<N: Sink>(notes: &mut N, status: Status)
    ensures line { PutsOrFront N.took notes.old notes.new (N.faults notes.old) (N.faults notes.new) (note_of status) }
    ensures count { N.faults notes.old ≤ N.faults notes.new }
{
    let _ = write_all(notes, note_of(status).as_slice());
}

/// Puts the line of a mode's status into the notes.
pub(crate) fn put_line<N: Sink>(notes: &mut N, mode: Mode, status: Status)
    ensures line { PutsOrFront N.took notes.old notes.new (N.faults notes.old) (N.faults notes.new) (note_in mode status) }
    ensures count { N.faults notes.old ≤ N.faults notes.new }
{
    let _ = write_all(notes, note_in(mode, status).as_slice());
}
