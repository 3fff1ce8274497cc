//! What the programs of cases share. Such a program plays the files that its command line names. A line of a file is a
//! case, `CALL = ANSWER`: a call, and the answer that is wanted. With `N times` in front the call is made N times, and the
//! last answer counts. A blank line, and one that begins with `#`, says nothing.
#![tactic(auto)]

mod attributes;
mod escapes;
mod hex;
mod pixels;
mod scenes;
mod words;

pub use attributes::{context_attr, element_attr};
pub use escapes::bytes_of;
pub use hex::{push_hex, told_hex};
pub use pixels::{color, format, rect, size, told_bytes, transparency, turn};
pub use scenes::{told_layer, told_scene};
use std::alloc::{AllocError, Global};
use std::process::ExitCode;
use std::rt::{Env, Files};
use std::{env, fs, io};
pub use words::{number, value, word, words_of};

/// What the calls of a file are made on, by a runtime of type `R`.
pub trait Stage<R: AllocGlobal>: Drop {
    /// What stands at the beginning of each file.
    fn opened(alloc: Global) -> Self;

    /// Makes a call and tells its answer. Spaces round it do not count.
    fn answer(&mut self, rt: &R, call: &str) -> Result<String, AllocError>;
}

/// How much was played.
#[derive(Clone, Copy, Default)]
struct Tally {
    cases: u64,
    wrong: u64,
}

/// The call of a line and the answer that is wanted, which is empty where none stands there; or None where the line says
/// nothing.
fn case_of(line: &str) -> Option<(&str, &str)> {
    let line = line.trim();
    if line.is_empty() || line.starts_with('#') {
        return None;
    }
    let (call, want) = line.rsplit_once(" = ").unwrap_or((line, ""));
    Some((call.trim(), want.trim()))
}

/// How often a call is made, and the call.
fn repeated(call: &str) -> (u32, &str) {
    let Some((count, rest)) = call.split_once(" times ") else {
        return (1, call);
    };
    match count.parse::<u32>() {
        Ok(count) => (count, rest.trim()),
        Err(_) => (1, call),
    }
}

/// The last answer to a call.
fn answered<S: Stage<R>, R: AllocGlobal>(
    rt: &R,
    stage: &mut S,
    call: &str,
) -> Result<String, AllocError> {
    let (count, call) = repeated(call);
    for _ in 1..count {
        let _ = stage.answer(rt, call)?;
    }
    stage.answer(rt, call)
}

/// Plays the cases of a text, and prints each line that is answered otherwise.
fn play_text<S: Stage<R>, R: Print + AllocGlobal>(
    rt: &R,
    name: &str,
    text: &str,
    tally: &mut Tally,
) -> io::Result<()> {
    let mut stage = S::opened(rt.alloc());
    for (place, line) in text.lines().enumerate() {
        let Some((call, want)) = case_of(line) else {
            continue;
        };
        tally.cases = tally.cases.saturating_add(1);
        let answer = answered(rt, &mut stage, call)?;
        let came = answer.trim();
        if came != want {
            tally.wrong = tally.wrong.saturating_add(1);
            let number = place.saturating_add(1);
            println!(rt; "{name}:{number}: {call} = {came}, and not {want}")?;
        }
    }
    Ok(())
}

/// Plays the files that the command line names. Prints each line that is answered otherwise with its number, and then how
/// many cases were played. The status is 0 where each answer was the one that is wanted, and 1 elsewhere. An error is that
/// of a file or of the output.
pub fn play<S: Stage<R>, R: Files + Env + Print + AllocGlobal>(rt: &R) -> io::Result<ExitCode> {
    let names: Vec<String> = env::args(rt)?.skip(1).collect(rt.alloc())?;
    let mut tally = Tally::default();
    for name in names.iter() {
        let text = fs::read_to_string(rt, name)?;
        play_text::<S, R>(rt, name, &text, &mut tally)?;
    }
    let (cases, files, wrong) = (tally.cases, names.len(), tally.wrong);
    println!(rt; "{cases} cases in {files} files, {wrong} wrong")?;
    Ok(if wrong == 0 {
        ExitCode::SUCCESS
    } else {
        ExitCode::FAILURE
    })
}
