//! The mode `big`: a script that is made is played, and its film is counted.

ghost use Rattle.std.specs.Prelude.{◌≡◌, ◌≤◌};
ghost use Rattle.wf_play.specs.Big.{IsMadeOrder, SaysOfBig, line_of_count};
ghost use Rattle.wf_play.specs.Report.{IsCaused, SaysOfFilm};
ghost use Rattle.wf_io.specs.Tally.{count_of};
ghost use Rattle.wf_script.specs.Generator.{made};
ghost use Rattle.wf_turn.specs.Play.{film};

use crate::report::{Report, Status, without_order};
use std::alloc::Global;
use wf_calls::Order;
use wf_film::FilmForm;
use wf_io::{Sink, Tally, write_all};
use wf_script::make;
use wf_text::{Text, add, add_number};
use wf_turn::{PlayStop, serial};

/// Returns the line that `wfplay big` prints: rounds, events, and the film's size and sum.
fn line_of(size: u16, events: u64, tally: &Tally) -> Text
    requires most { size ≤ 1000 }
    ensures { result.items ≡ line_of_count size events tally.now }
{
    let mut line = Text::new();
    add(&mut line, b"big ");
    add_number(&mut line, size.into());
    add(&mut line, b": lines ");
    add_number(&mut line, 7 + 13 * u64::from(size));
    add(&mut line, b" events ");
    add_number(&mut line, events);
    add(&mut line, b" frames ");
    add_number(&mut line, size.into());
    add(&mut line, b" bytes ");
    add_number(&mut line, tally.bytes());
    add(&mut line, b" sum ");
    add_number(&mut line, tally.sum().into());
    add(&mut line, b"\n");
    line
}

/// Puts the line of a film that was counted.
fn tell<O: Sink>(sink: &mut O, form: FilmForm, size: u16, order: Order, tally: &Tally) -> Report
    requires most { size ≤ 1000 }
    requires counted { tally.now ≡ count_of (film form (made size) order) }
    requires played { IsMadeOrder size order }
    ensures says { SaysOfBig O.took sink.old sink.new form size result.order result.status }
    ensures film { SaysOfFilm O.took sink.old sink.new result.order result.status }
    ensures caused { IsCaused 0 0 (O.faults sink.old) (O.faults sink.new) result.status }
    ensures count { O.faults sink.old ≤ O.faults sink.new }
{
    let line = line_of(size, order.turns().len() as u64, tally);
    match write_all(sink, line.as_slice()) {
        Ok(()) => Report {
            status: Status::Done,
            order,
        },
        Err(stop) => Report {
            status: Status::WriteFault {
                written: stop.written as u64,
            },
            order,
        },
    }
}

/// Makes the script of so many rounds, 1 to 1000, plays it, counts its film in a form, and puts a line that tells what it counted.
#[inline(never)]
pub(crate) fn play_big<O: Sink>(alloc: Global, form: FilmForm, size: u16, sink: &mut O) -> Report
    requires some { 1 ≤ size }
    requires most { size ≤ 1000 }
    ensures says { SaysOfBig O.took sink.old sink.new form size result.order result.status }
    ensures film { SaysOfFilm O.took sink.old sink.new result.order result.status }
    ensures caused { IsCaused 0 0 (O.faults sink.old) (O.faults sink.new) result.status }
    ensures count { O.faults sink.old ≤ O.faults sink.new }
{
    let Ok(script) = make(alloc, size.into()) else {
        return without_order(alloc, Status::NoMemory);
    };
    let mut tally = Tally::new();
    match serial(alloc, &script, form, &mut tally) {
        Ok(order) => tell(sink, form, size, order, &tally),
        // The tally never fails.
        Err(PlayStop::WriteFault { .. }) => unreachable!(),
        Err(PlayStop::NoMemory) => without_order(alloc, Status::NoMemory),
    }
}
