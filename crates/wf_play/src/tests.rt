//! Plays with sources and sinks that fail at the calls that they are told, and that a play has memory where it is at hand.

use crate::Status;
use crate::row::{
    COUNTED_OF_ONE, DONE, FILM, FILM_OF_TWO, HUNDRED, LOGGED, MADE, ONE_TICK, PRINTED, Row, SAME,
    SERVED, TOO_LONG, first_wrong, judged, of_one, read_fault, refused, usage, write_fault,
};
use std::process::Abort;
use std::sync::Wait;
use std::test::Fail;
use std::thread::Threads;

/// Films, line by line and with clients on threads.
fn films() -> [Row; 18] {
    [
        DONE,
        Row {
            words: "film --film 2",
            ..DONE
        },
        Row {
            words: "--film=2 film",
            ..DONE
        },
        of_one("film --film 1", DONE),
        of_one("--film 1 film", DONE),
        of_one("--film=1 film", DONE),
        of_one("--film=01 film --", DONE),
        of_one(
            "film --film 1",
            write_fault(3, 14, 3, "write fault after 14 bytes\n"),
        ),
        of_one(
            "film --film 1",
            write_fault(8, 69, 3, "write fault after 69 bytes\n"),
        ),
        TOO_LONG,
        Row { take: 6, ..DONE },
        Row { put: 9, ..DONE },
        Row {
            words: "film --size 7",
            ..DONE
        },
        Row {
            words: "film --threads",
            ..DONE
        },
        Row {
            words: "--rows 7 film --threads",
            ..DONE
        },
        of_one("film --threads --film=1 --rows=2", DONE),
        Row {
            words: "film --threads",
            ..write_fault(3, 18, 3, "write fault after 18 bytes\n")
        },
        Row {
            words: "film --rows 3",
            ..DONE
        },
    ]
}

/// Words that are no command.
fn words_refused() -> [Row; 33] {
    [
        usage(""),
        usage("film film"),
        usage("check film"),
        usage("checks"),
        usage("films"),
        usage("fil"),
        usage("--film"),
        usage("--film 1"),
        usage("film --film"),
        usage("film --film 0"),
        usage("film --film 3"),
        usage("film --film one"),
        usage("film --film 1 --film 2"),
        usage("film --film= 1"),
        usage("film --help"),
        usage("-h"),
        usage("help"),
        usage("film --form 1"),
        usage("Film"),
        usage("big --size 0"),
        usage("big --size 1001"),
        usage("big 1"),
        usage("print print"),
        usage("print film"),
        usage("prints"),
        usage("film --threads --threads"),
        usage("film --threads=true"),
        usage("film --rows 0"),
        usage("film --rows 17"),
        usage("event"),
        usage("sessions"),
        usage("events --depth 0"),
        usage("events --depth 65"),
    ]
}

/// Sources and sinks that fail, and scripts that are refused.
fn stops() -> [Row; 18] {
    [
        // 25 bytes, seven at a time: the sixth take is not asked for.
        read_fault(1),
        read_fault(4),
        read_fault(5),
        refused("", 1, 0, "line 1: rule 0\n"),
        refused("WFS1\nport 4x2\n0 tick\n", 4, 8, "line 4: rule 8\n"),
        refused("WFS1\nport 4x2\n0 tock\nend\n", 3, 3, "line 3: rule 3\n"),
        refused("WFS1\nport 4x2\n0 device\nend\n", 3, 3, "line 3: rule 3\n"),
        refused("WFS1\nport 0x2\nend\n", 2, 6, "line 2: rule 6\n"),
        refused("WFS1\nport 4x2\n1 tick\nend\n", 3, 4, "line 3: rule 4\n"),
        refused(
            "WFS1\nport 4x2\n0 acquire s\nend\n",
            3,
            7,
            "line 3: rule 7\n",
        ),
        write_fault(1, 0, 0, "write fault after 0 bytes\n"),
        write_fault(2, 4, 3, "write fault after 4 bytes\n"),
        write_fault(3, 18, 3, "write fault after 18 bytes\n"),
        write_fault(4, 50, 3, "write fault after 50 bytes\n"),
        write_fault(5, 55, 3, "write fault after 55 bytes\n"),
        write_fault(6, 61, 3, "write fault after 61 bytes\n"),
        write_fault(7, 67, 3, "write fault after 67 bytes\n"),
        write_fault(8, 73, 3, "write fault after 73 bytes\n"),
    ]
}

/// Scripts that are printed.
fn prints() -> [Row; 6] {
    [
        PRINTED,
        Row {
            script: ONE_TICK,
            ..PRINTED
        },
        Row {
            put: 1,
            status: Status::WriteFault { written: 0 },
            exit: 6,
            written: 0,
            note: "write fault after 0 bytes\n",
            ..PRINTED
        },
        Row { put: 2, ..PRINTED },
        Row {
            words: "print",
            ..refused("WFS1\nport 4x2\n0 tock\nend\n", 3, 3, "line 3: rule 3\n")
        },
        Row {
            words: "print --film 1",
            ..PRINTED
        },
    ]
}

/// Films that are checked.
fn checks() -> [Row; 12] {
    [
        SAME,
        Row {
            film: &FILM,
            ..SAME
        },
        Row {
            words: "check --film 1",
            ..SAME
        },
        Row {
            script: "WFS1\nport 4x2 # end\n0 tick\n \tend # the end\r\n",
            ..SAME
        },
        judged(
            "WFS1\nport 4x3\n0 tick\nend\n",
            Status::Differs { at: 17 },
            7,
            "differs at 17\n",
        ),
        judged(
            "WFS1\nport 4x2\n0 tick\n0 tick\nend\n",
            Status::BadOrder { entry: 3 },
            8,
            "bad order at entry 3\n",
        ),
        judged(
            "WFS1\nport 4x2\n0 tick\nend\nend\n",
            Status::BadFilm { at: 0, rule: 1 },
            9,
            "bad film at 0: rule 1\n",
        ),
        Row {
            film: b"",
            ..judged(
                "WFS1\nport 4x2\n0 tick\nend",
                Status::BadFilm { at: 0, rule: 3 },
                9,
                "bad film at 0: rule 3\n",
            )
        },
        judged(
            "WFS1\nport 4x2\n0 tock\nend\n",
            Status::Refused { line: 3, rule: 3 },
            5,
            "line 3: rule 3\n",
        ),
        Row {
            film: b"",
            ..judged(
                "WFS1\nport 4x2\n0 tick\n",
                Status::Refused { line: 4, rule: 8 },
                5,
                "line 4: rule 8\n",
            )
        },
        Row {
            words: "check",
            ..read_fault(4)
        },
        Row {
            words: "check",
            script: "WFS1\n",
            ..TOO_LONG
        },
    ]
}

/// Films of which the log is made.
fn logs() -> [Row; 8] {
    [
        LOGGED,
        Row {
            words: "events --depth 1",
            ..LOGGED
        },
        Row {
            script: ONE_TICK,
            film: &FILM_OF_TWO,
            written: 0,
            ..LOGGED
        },
        Row {
            put: 1,
            status: Status::WriteFault { written: 0 },
            exit: 6,
            written: 0,
            note: "write fault after 0 bytes\n",
            ..LOGGED
        },
        Row {
            words: "events",
            ..judged(
                "WFS1\nport 4x3\n0 tick\nend\n",
                Status::Differs { at: 17 },
                7,
                "differs at 17\n",
            )
        },
        Row {
            words: "events",
            ..judged(
                "WFS1\nport 4x2\n0 tick\n0 tick\nend\n",
                Status::BadOrder { entry: 3 },
                8,
                "bad order at entry 3\n",
            )
        },
        Row {
            words: "events",
            ..judged(
                "WFS1\nport 4x2\n0 tick\nend\nend\n",
                Status::BadFilm { at: 0, rule: 1 },
                9,
                "bad film at 0: rule 1\n",
            )
        },
        Row {
            words: "events",
            ..read_fault(4)
        },
    ]
}

/// Sessions that are answered.
fn sessions() -> [Row; 5] {
    [
        SERVED,
        Row {
            words: "session --threads --depth 1",
            ..SERVED
        },
        Row {
            put: 2,
            status: Status::WriteFault { written: 9 },
            exit: 6,
            written: 9,
            note: "write fault after 9 bytes\n",
            ..SERVED
        },
        Row {
            film: b"WFW1\x01\0\x04\0\x02\0\x2d\0\0\0\0\0\0\0\x01\x63",
            status: Status::BadMessage { at: 19, rule: 2 },
            exit: 11,
            note: "bad message at 19: rule 2\n",
            ..SERVED
        },
        Row {
            take: 3,
            status: Status::ReadFault,
            exit: 3,
            written: 0,
            note: "read fault\n",
            ..SERVED
        },
    ]
}

/// Scripts that are made.
fn made() -> [Row; 5] {
    [
        MADE,
        Row {
            words: "big --size 1",
            ..MADE
        },
        Row {
            words: "big --film 1",
            whole: COUNTED_OF_ONE,
            ..MADE
        },
        Row {
            words: "big --size=100",
            whole: HUNDRED,
            written: HUNDRED.len(),
            turns: 1803,
            ..MADE
        },
        Row {
            put: 1,
            status: Status::WriteFault { written: 0 },
            exit: 6,
            written: 0,
            note: "write fault after 0 bytes\n",
            ..MADE
        },
    ]
}

/// Plays each of the rows, and stops at the first that ends otherwise.
fn judge<R: Threads + Wait + Sync + AllocGlobal + Abort>(rt: &R, rows: &[Row]) -> Result<(), Fail> {
    let wrong = first_wrong(rt, rows)?;
    assert!(rt; wrong.is_none(), "row {:?}", wrong);
    Ok(())
}

#[test]
fn films_are_played(rt: HostRuntime) -> Result<(), Fail> {
    judge(&rt, &films())
}

#[test]
fn words_that_are_no_command_are_usage(rt: HostRuntime) -> Result<(), Fail> {
    judge(&rt, &words_refused())
}

#[test]
fn stops_are_told(rt: HostRuntime) -> Result<(), Fail> {
    judge(&rt, &stops())
}

#[test]
fn scripts_are_printed(rt: HostRuntime) -> Result<(), Fail> {
    judge(&rt, &prints())
}

#[test]
fn films_are_checked(rt: HostRuntime) -> Result<(), Fail> {
    judge(&rt, &checks())
}

#[test]
fn films_are_logged(rt: HostRuntime) -> Result<(), Fail> {
    judge(&rt, &logs())
}

#[test]
fn sessions_are_answered(rt: HostRuntime) -> Result<(), Fail> {
    judge(&rt, &sessions())
}

#[test]
fn scripts_are_made(rt: HostRuntime) -> Result<(), Fail> {
    judge(&rt, &made())
}
