//! The program `cases_script`: plays cases of the reader of scripts.
#![tactic(auto)]

mod making;
mod printing;

use making::{made, made_again, made_line};
use printing::{failing, printed};
use std::alloc::{AllocError, Global};
use std::io;
use std::process::ExitCode;
use wf_cases::{Stage, bytes_of};
use wf_script::{ScriptFault, parse};

/// The bytes that stand before a line.
#[derive(Drop)]
struct Reader {
    before: Vec<u8>,
}

fn main(rt: HostRuntime) -> io::Result<ExitCode> {
    wf_cases::play::<Reader, HostRuntime>(&rt)
}

impl<R: AllocGlobal> Stage<R> for Reader {
    fn opened(alloc: Global) -> Reader {
        Reader {
            before: Vec::new(alloc),
        }
    }

    fn answer(&mut self, rt: &R, call: &str) -> Result<String, AllocError> {
        let alloc = rt.alloc();
        let (call, text) = call.split_once(' ').unwrap_or((call, ""));
        match call {
            "script" => {
                let bytes = bytes_of(alloc, text)?;
                read(alloc, &bytes)
            }
            "before" => {
                self.before = bytes_of(alloc, text)?;
                format!(in alloc; "{} bytes", self.before.len())
            }
            "line" => self.line(alloc, text),
            "cut" => {
                let length = text.parse::<usize>().unwrap_or(0);
                read(alloc, self.before.get(..length).unwrap_or(&[]))
            }
            "long" => long(alloc, text),
            "print" => {
                let bytes = bytes_of(alloc, text)?;
                print_text(alloc, &bytes)
            }
            "printed" => self.printed(alloc, text),
            "failing" => failing_at(alloc, text),
            "made" => made(alloc, text),
            "made_line" => made_line(alloc, text),
            "made_again" => made_again(alloc, text),
            _ => format!(in alloc; "no such call"),
        }
    }
}

/// Whether bytes are a script, or the first line that breaks a rule and the least rule that it breaks.
fn read(alloc: Global, bytes: &[u8]) -> Result<String, AllocError> {
    match parse(alloc, bytes) {
        Ok(script) => format!(in alloc; "{} lines", script.lines().len()),
        Err(fault) => refusal(alloc, fault),
    }
}

/// The first line that breaks a rule, and the least rule that it breaks.
fn refusal(alloc: Global, fault: ScriptFault) -> Result<String, AllocError> {
    let (line, rule) = match fault {
        ScriptFault::Header => (1, 0),
        ScriptFault::Line { line, rule } => (line, rule),
        ScriptFault::NoEnd { line } => (line, 8),
        ScriptFault::TooManyLines => (16_385, 9),
        ScriptFault::NoMemory => return Err(AllocError),
    };
    format!(in alloc; "line {line}: rule {rule}")
}

/// The canonical text of the script that bytes stand for.
fn print_text(alloc: Global, bytes: &[u8]) -> Result<String, AllocError> {
    match parse(alloc, bytes) {
        Ok(script) => printed(alloc, &script),
        Err(fault) => refusal(alloc, fault),
    }
}

/// The line before `end` in a text with `\n` for each line feed, or all of another text.
fn last_line(alloc: Global, text: &str) -> Result<String, AllocError> {
    let text = text.strip_suffix("\\nend\\n").unwrap_or(text);
    let (_, last) = text.rsplit_once("\\n").unwrap_or(("", text));
    String::from_str(alloc, last)
}

/// A script of so many ticks.
fn ticks(alloc: Global, count: u32) -> Result<Vec<u8>, AllocError> {
    let mut bytes = Vec::from_slice(alloc, b"WFS1\nport 4x2\n")?;
    for _ in 0..count {
        bytes.extend_from_slice(b"0 tick\n")?;
    }
    Ok(bytes)
}

/// Prints a script of ticks into a sink that fails: which of its calls fails, and how many ticks there are.
fn failing_at(alloc: Global, text: &str) -> Result<String, AllocError> {
    let (call, count) = text.split_once(' ').unwrap_or((text, ""));
    let mut bytes = ticks(alloc, count.parse::<u32>().unwrap_or(0))?;
    bytes.extend_from_slice(b"end\n")?;
    match parse(alloc, &bytes) {
        Ok(script) => failing(alloc, call.parse::<u32>().unwrap_or(0), &script),
        Err(fault) => refusal(alloc, fault),
    }
}

impl Reader {
    /// A line behind what stands before it, and `end` behind the line.
    fn with_line(&self, alloc: Global, text: &str) -> Result<Vec<u8>, AllocError> {
        let mut bytes = Vec::from_slice(alloc, &self.before)?;
        bytes.extend_from_slice(&bytes_of(alloc, text)?)?;
        bytes.extend_from_slice(b"\nend\n")?;
        Ok(bytes)
    }

    /// Reads a line behind what stands before it.
    fn line(&self, alloc: Global, text: &str) -> Result<String, AllocError> {
        let bytes = self.with_line(alloc, text)?;
        read(alloc, &bytes)
    }

    /// How a line behind what stands before it is printed.
    fn printed(&self, alloc: Global, text: &str) -> Result<String, AllocError> {
        let bytes = self.with_line(alloc, text)?;
        let text = print_text(alloc, &bytes)?;
        last_line(alloc, text.as_str())
    }
}

/// Reads a script of ticks with a line of its own behind them: how many lines stand before it, and the line.
fn long(alloc: Global, text: &str) -> Result<String, AllocError> {
    let (before, last) = text.split_once(' ').unwrap_or((text, ""));
    let before = before.parse::<u32>().unwrap_or(0);
    let mut bytes = ticks(alloc, before.saturating_sub(2))?;
    bytes.extend_from_slice(&bytes_of(alloc, last)?)?;
    read(alloc, &bytes)
}
