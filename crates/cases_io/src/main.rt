//! The program `cases_io`: plays cases of reading and writing all bytes, through parts in memory and through adapters.
#![tactic(auto)]

mod doubles;

use doubles::{Broken, Counted, Narrow};
use std::alloc::{AllocError, Global};
use std::io;
use std::process::ExitCode;
use wf_cases::{Stage, number, word, words_of};
use wf_io::{
    MemorySink, MemorySource, ReadStop, Sink, StdSink, StdSource, Tally, WriteStop, read_all,
    write_all,
};

/// Each case has parts of its own.
#[derive(Drop)]
struct Parts;

fn main(rt: HostRuntime) -> io::Result<ExitCode> {
    wf_cases::play::<Parts, HostRuntime>(&rt)
}

impl<R: AllocGlobal> Stage<R> for Parts {
    fn opened(_alloc: Global) -> Parts {
        Parts
    }

    fn answer(&mut self, rt: &R, call: &str) -> Result<String, AllocError> {
        let alloc = rt.alloc();
        let words = words_of(alloc, call)?;
        let words = words.as_slice();
        match word(words, 0) {
            "read" => read(alloc, words),
            "write" => write(alloc, words, false),
            "narrow" => write(alloc, words, true),
            "tally" => tally(alloc, words),
            "adapted" => adapted(alloc),
            "broken" => broken(alloc, word(words, 1) == "flush"),
            _ => format!(in alloc; "no such call"),
        }
    }
}

/// The bytes 0, 1, 2 and so on, this many.
fn numbers(alloc: Global, count: u8) -> Result<Vec<u8>, AllocError> {
    (0..count).collect(alloc)
}

/// Reads all of a source, `read COUNT STEP FAILING LIMIT`: how many bytes it has and gives in a call, which call fails, and the
/// limit. Tells what came, in how many calls.
fn read(alloc: Global, words: &[&str]) -> Result<String, AllocError> {
    let step: usize = number(words, 2);
    if step == 0 {
        return format!(in alloc; "no step");
    }
    let bytes = numbers(alloc, number(words, 1))?;
    let failing = Vec::from_slice(alloc, &[number(words, 3)])?;
    let mut counted = Counted {
        source: MemorySource::new(bytes.clone()?, step, failing),
        calls: 0,
    };
    let got = read_all(alloc, &mut counted, number(words, 4));
    let (calls, faults) = (counted.calls, counted.source.faults());
    match got {
        Ok(read) if read.as_slice() == bytes.as_slice() => format!(in alloc;
            "all in {calls} calls, {faults} faults"
        ),
        Ok(_) => format!(in alloc; "other bytes"),
        Err(ReadStop::TooLong) => format!(in alloc; "too long in {calls} calls, {faults} faults"),
        Err(ReadStop::Fault) => format!(in alloc; "fault in {calls} calls, {faults} faults"),
        Err(ReadStop::NoMemory) => Err(AllocError),
    }
}

/// What writing came to, in how many calls, and whether the sink holds just what was written.
fn told(
    alloc: Global,
    written: Result<(), WriteStop>,
    narrow: &Narrow,
    bytes: &[u8],
) -> Result<String, AllocError> {
    let (held, calls, faults) = (narrow.sink.bytes(), narrow.calls, narrow.sink.faults());
    if bytes.get(..held.len()) != Some(held) {
        return format!(in alloc; "other bytes");
    }
    let count = held.len();
    match written {
        Ok(()) => format!(in alloc; "all in {calls} calls, holds {count}, {faults} faults"),
        Err(stop) => format!(in alloc;
            "stop after {} in {calls} calls, holds {count}, {faults} faults",
            stop.written
        ),
    }
}

/// Writes all bytes, `write COUNT ROOM FAILING`: how many, the room of the sink, and which call fails; or `narrow ..`, into a sink
/// that takes at most two bytes in a call.
fn write(alloc: Global, words: &[&str], is_narrow: bool) -> Result<String, AllocError> {
    let bytes = numbers(alloc, number(words, 1))?;
    let failing = Vec::from_slice(alloc, &[number(words, 3)])?;
    let Ok(sink) = MemorySink::new(alloc, number(words, 2), failing) else {
        return Err(AllocError);
    };
    let mut narrow = Narrow {
        sink,
        is_narrow,
        calls: 0,
    };
    let written = write_all(&mut narrow, &bytes);
    told(alloc, written, &narrow, &bytes)
}

/// Counts bytes, `tally BYTE COUNT TIMES`: which byte a piece has, how often, and how often the piece is put.
fn tally(alloc: Global, words: &[&str]) -> Result<String, AllocError> {
    let byte: u8 = number(words, 1);
    let count: u16 = number(words, 2);
    let times: u16 = number(words, 3);
    let mut piece = Vec::new(alloc);
    for _ in 0..count {
        piece.push(byte)?;
    }
    let mut tally = Tally::new();
    for _ in 0..times {
        let _ = write_all(&mut tally, &piece);
    }
    format!(in alloc; "{} bytes, sum {}", tally.bytes(), tally.sum())
}

/// Reads 25 bytes from a slice and writes them into a vector, by the adapters.
fn adapted(alloc: Global) -> Result<String, AllocError> {
    let bytes = numbers(alloc, 25)?;
    let mut source = StdSource::new(bytes.as_slice());
    let Ok(read) = read_all(alloc, &mut source, 25) else {
        return format!(in alloc; "not read");
    };
    let mut written = Vec::new(alloc);
    let mut sink = StdSink::new(&mut written);
    let done = write_all(&mut sink, &read).is_ok();
    let same = written.as_slice() == bytes.as_slice();
    format!(in alloc; "{done} {same}")
}

/// Puts bytes into a writer that takes none, or whose flush fails.
fn broken(alloc: Global, takes: bool) -> Result<String, AllocError> {
    let mut sink = StdSink::new(Broken { takes });
    let put = sink.put(&[1, 2, 3]).is_ok();
    format!(in alloc; "{put}, {} faults", sink.faults())
}
