//! The calls on printing.

use std::alloc::{AllocError, Global};
use wf_io::MemorySink;
use wf_script::{Script, print};

/// The most bytes that are printed here.
pub(crate) const ROOM: usize = 262_144;

/// Bytes on one line: `\n` for a line feed, and `\x3d` for `=`, which in a case stands before the answer.
pub(crate) fn told(alloc: Global, bytes: &[u8]) -> Result<String, AllocError> {
    let mut told = String::new(alloc);
    for byte in bytes {
        match byte {
            b'\n' => told.push_str("\\n")?,
            b'=' => told.push_str("\\x3d")?,
            _ => told.push(char::from(*byte))?,
        }
    }
    Ok(told)
}

/// The canonical text of a script on one line.
pub(crate) fn printed(alloc: Global, script: &Script) -> Result<String, AllocError> {
    let Ok(mut sink) = MemorySink::new(alloc, ROOM, Vec::new(alloc)) else {
        return Err(AllocError);
    };
    if print(script, &mut sink).is_err() {
        return format!(in alloc; "too long");
    }
    told(alloc, sink.bytes())
}

/// Prints into a sink whose call of this number fails, 0 for none, and tells what it holds then.
pub(crate) fn failing(alloc: Global, failing: u32, script: &Script) -> Result<String, AllocError> {
    let failing = Vec::from_slice(alloc, &[failing])?;
    let Ok(mut sink) = MemorySink::new(alloc, ROOM, failing) else {
        return Err(AllocError);
    };
    let printed = print(script, &mut sink);
    let held = sink.bytes().len();
    match printed {
        Ok(()) => format!(in alloc; "{held} bytes"),
        Err(stop) => format!(in alloc; "stop after {}, {held} bytes", stop.written),
    }
}
