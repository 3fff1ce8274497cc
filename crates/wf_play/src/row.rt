//! The rows of the tests of a play: what goes in, which calls fail, and what is wanted.

use crate::{Open, Status, play};
use std::sync::Wait;
use std::test::Fail;
use std::thread::Threads;
use wf_io::{MemorySink, MemorySource};

/// One tick on a port of 4 by 2.
pub(crate) const ONE_TICK: &str = "WFS1\nport 4x2\n0 tick\nend\n";

/// The bytes of the same script.
const PLAIN_TICK: &[u8] = b"WFS1\nport 4x2\n0 tick\nend\n";

/// The same script, as a person may write it.
const UNTIDY: &str = "WFS1\r\n# one\n port 04x2 \n\n0   tick\nend\n";

/// The film of both scripts in form 1.
pub(crate) const FILM: [u8; 70] = *b"WFF1\
    F\x01\0\0\0\x01\0\x04\0\x02\
    \0\0\0\xff\0\0\0\xff\0\0\0\xff\0\0\0\xff\
    \0\0\0\xff\0\0\0\xff\0\0\0\xff\0\0\0\xff\
    J\0\0\0\x03\
    \0\0\0\0\0\0\
    \0\0\0\0\0\x01\
    \0\0\0\0\0\0\
    E";

/// The film of both scripts in form 2: entry 1 begins the frame of the port.
pub(crate) const FILM_OF_TWO: [u8; 74] = *b"WFF2\
    F\x01\0\0\0\x01\0\0\0\x01\0\x04\0\x02\
    \0\0\0\xff\0\0\0\xff\0\0\0\xff\0\0\0\xff\
    \0\0\0\xff\0\0\0\xff\0\0\0\xff\0\0\0\xff\
    J\0\0\0\x03\
    \0\0\0\0\0\0\
    \0\0\0\0\0\x01\
    \0\0\0\0\0\0\
    E";

const USAGE: &str =
    "usage: wfplay <film|check|print|big|events|session> [--threads] [--rows N] [--size N] [--film N] [--depth N] [--repaint]\n";

/// A play: its words, its script with a number of spaces and then a film after it, and which calls of the source and of the film's sink
/// fail, 0 for none. And what is wanted: the status with its exit, what is put in whole and how many bytes of it are put, how many turns
/// are played, and the line in the notes.
#[derive(Clone, Copy)]
pub(crate) struct Row {
    pub(crate) words: &'static str,
    pub(crate) script: &'static str,
    pub(crate) spaces: usize,
    pub(crate) film: &'static [u8],
    pub(crate) take: u32,
    pub(crate) put: u32,
    pub(crate) status: Status,
    pub(crate) exit: u8,
    pub(crate) whole: &'static [u8],
    pub(crate) written: usize,
    pub(crate) turns: usize,
    pub(crate) note: &'static str,
}

/// The play that is done.
pub(crate) const DONE: Row = Row {
    words: "film",
    script: ONE_TICK,
    spaces: 0,
    film: b"",
    take: 0,
    put: 0,
    status: Status::Done,
    exit: 0,
    whole: &FILM_OF_TWO,
    written: 74,
    turns: 3,
    note: "",
};

/// A play that does not begin.
const NO_PLAY: Row = Row {
    written: 0,
    turns: 0,
    ..DONE
};

/// Words that are no command. The source fails at once, and is not asked.
pub(crate) fn usage(words: &'static str) -> Row {
    Row {
        words,
        take: 1,
        status: Status::Usage,
        exit: 2,
        note: USAGE,
        ..NO_PLAY
    }
}

/// A source that fails.
pub(crate) fn read_fault(take: u32) -> Row {
    Row {
        take,
        status: Status::ReadFault,
        exit: 3,
        note: "read fault\n",
        ..NO_PLAY
    }
}

/// A script that breaks a rule.
pub(crate) fn refused(script: &'static str, line: u32, rule: u32, note: &'static str) -> Row {
    Row {
        script,
        status: Status::Refused { line, rule },
        exit: 5,
        note,
        ..NO_PLAY
    }
}

/// A sink whose call of a number fails.
pub(crate) fn write_fault(put: u32, written: usize, turns: usize, note: &'static str) -> Row {
    Row {
        put,
        status: Status::WriteFault {
            written: written as u64,
        },
        exit: 6,
        written,
        turns,
        note,
        ..DONE
    }
}

/// A play with words that ask for form 1, whose film is four bytes shorter for each frame.
pub(crate) fn of_one(words: &'static str, row: Row) -> Row {
    let written = if row.written == 74 { 70 } else { row.written };
    Row {
        words,
        whole: &FILM,
        written,
        ..row
    }
}

/// A script that is printed.
pub(crate) const PRINTED: Row = Row {
    words: "print",
    script: UNTIDY,
    whole: PLAIN_TICK,
    written: 25,
    turns: 0,
    ..DONE
};

/// A film that is checked, and is the same.
pub(crate) const SAME: Row = Row {
    words: "check",
    film: &FILM_OF_TWO,
    note: "same\n",
    ..NO_PLAY
};

/// The log of a film whose only event detaches the display.
const LOG: &[u8] = b"0 attach 1 0\n";

/// A film whose only event detaches the display, of which the log is made.
pub(crate) const LOGGED: Row = Row {
    words: "events",
    script: "WFS1\nport 4x2\n0 attach 1 0\nend\n",
    film: b"WFF2J\0\0\0\x01\0\0\0\0\0\0E",
    whole: LOG,
    written: LOG.len(),
    turns: 0,
    ..DONE
};

/// The answer to a session that asks for the frame of a port of 4 by 2.
const SHOWN: [u8; 41] = *b"\0\0\0\0\x01\0\x04\0\x02\
    \0\0\0\xff\0\0\0\xff\0\0\0\xff\0\0\0\xff\
    \0\0\0\xff\0\0\0\xff\0\0\0\xff\0\0\0\xff";

/// A session that is answered: its header, and one message.
pub(crate) const SERVED: Row = Row {
    words: "session",
    script: "",
    film: b"WFW1\x01\0\x04\0\x02\0\x2d\0\0\0\0\0\0\0\x01",
    whole: &SHOWN,
    written: 41,
    turns: 0,
    ..DONE
};

/// A film of another script.
pub(crate) fn judged(script: &'static str, status: Status, exit: u8, note: &'static str) -> Row {
    Row {
        script,
        status,
        exit,
        note,
        ..SAME
    }
}

/// The line of a script of one round.
const COUNTED: &[u8] = b"big 1: lines 20 events 21 frames 1 bytes 12438 sum 784032\n";

/// The line of the same script, of its film in form 1.
pub(crate) const COUNTED_OF_ONE: &[u8] =
    b"big 1: lines 20 events 21 frames 1 bytes 12434 sum 784015\n";

/// The line of a hundred rounds.
pub(crate) const HUNDRED: &[u8] =
    b"big 100: lines 1307 events 1803 frames 100 bytes 1241028 sum 80296972\n";

/// A script that is made, played and counted. The source fails at once, and is not asked.
pub(crate) const MADE: Row = Row {
    words: "big",
    take: 1,
    whole: COUNTED,
    written: 58,
    turns: 21,
    ..DONE
};

/// Plays a row, and tells whether all is as wanted.
fn plays<R: Threads + Wait + Sync + AllocGlobal>(rt: &R, row: &Row) -> Result<bool, Fail> {
    let alloc = rt.alloc();
    let mut words = Vec::new(alloc);
    for word in row.words.split_whitespace() {
        words.push(String::from_str(alloc, word)?)?;
    }
    let mut bytes = Vec::from_slice(alloc, row.script.as_bytes())?;
    bytes.extend_from_slice(&vec![in alloc; b' '; row.spaces]?)?;
    bytes.extend_from_slice(row.film)?;
    let mut input = MemorySource::new(bytes, 7, [row.take].to_vec(alloc)?);
    let (Ok(mut film), Ok(mut notes)) = (
        MemorySink::new(alloc, 4096, [row.put].to_vec(alloc)?),
        MemorySink::new(alloc, 4096, Vec::new(alloc)),
    ) else {
        return Err("memory".into());
    };
    let report = play(rt, alloc, &words, &mut input, &mut film, &mut notes, &Open);
    Ok(
        report.status == row.status
            && report.status.exit() == row.exit
            && Some(film.bytes()) == row.whole.get(..row.written)
            && report.order.turns().len() == row.turns
            && notes.bytes() == row.note.as_bytes(),
    )
}

/// An input that is longer than a script may be.
pub(crate) const TOO_LONG: Row = Row {
    spaces: 1_048_577,
    status: Status::TooLong,
    exit: 4,
    note: "input too long\n",
    ..NO_PLAY
};

/// The place of the first row that ends otherwise than it should.
pub(crate) fn first_wrong<R: Threads + Wait + Sync + AllocGlobal>(
    rt: &R,
    rows: &[Row],
) -> Result<Option<usize>, Fail> {
    for (place, row) in rows.iter().enumerate() {
        if !plays(rt, row)? {
            return Ok(Some(place));
        }
    }
    Ok(None)
}
