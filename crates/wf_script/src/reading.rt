//! Reads a script.

ghost use Rattle.std.specs.Prelude.{◌≡◌};
ghost use Rattle.wf_script.specs.Grammar.{Answers, is_header, nothing_read, read_lines, read_script};
ghost use Rattle.wf_script.specs.Reader.{fault_at, reading};
ghost use Rattle.wf_script.specs.Script.{PlainScript};
ghost use Rattle.wf_script.specs.Words.{lines_of};

use crate::MOST_LINES;
use crate::fault::ScriptFault;
use crate::reader::Reader;
use crate::rule::LineFault;
use crate::script::Script;
use crate::words::{are_allowed, next_line, next_word, without_comment, without_return};
use std::alloc::Global;

/// Reads the script that the bytes stand for, or finds the first line that breaks a rule, with the least rule that it breaks.
/// In one pass; memory is taken for the script and for the names that it binds.
#[tactic(auto, unfolding(crate::specs::Grammar::read_script))]
pub fn parse(alloc: Global, bytes: &[u8]) -> Result<Script, ScriptFault>
    ensures { Answers (λ script. script) result (read_script bytes.now) }
{
    let Some((header, rest)) = next_line(bytes) else {
        return Err(ScriptFault::Header);
    };
    if !is_header(header) {
        return Err(ScriptFault::Header);
    }
    let reader = read_lines(alloc, rest)?;
    Ok(reader.script())
}

/// Whether a line is the header.
fn is_header(line: &[u8]) -> bool
    ensures { result ≡ is_header line.now }
{
    let line = without_return(line);
    if !are_allowed(line) {
        return false;
    }
    match next_word(without_comment(line)) {
        Some((word, rest)) => word == b"WFS1".as_slice() && next_word(rest).is_none(),
        None => false,
    }
}

/// A line's fault as a script's.
fn fault_at(line: u32, fault: LineFault) -> ScriptFault
    ensures { result ≡ fault_at line fault }
{
    match fault {
        LineFault::Breaks(rule) => ScriptFault::Line {
            line,
            rule: rule.number(),
        },
        LineFault::NoMemory => ScriptFault::NoMemory,
    }
}

/// Reads the lines behind the header.
fn read_lines(alloc: Global, bytes: &[u8]) -> Result<Reader<'_>, ScriptFault>
    ensures { Answers reading result (read_lines 2 nothing_read (lines_of bytes.now)) }
{
    let mut reader = Reader::new(alloc);
    let mut rest = bytes;
    let mut number = 2;
    while let Some((line, behind)) = next_line(rest) {
        if number > MOST_LINES {
            return Err(ScriptFault::TooManyLines);
        }
        if let Err(fault) = reader.line(alloc, line) {
            return Err(fault_at(number, fault));
        }
        rest = behind;
        number += 1;
    }
    if !reader.ended {
        return Err(ScriptFault::NoEnd { line: number });
    }
    Ok(reader)
}
