//! The program `cases_faults`: plays cases of the top call, with input that is cut, and with sources and sinks that fail at the calls
//! that they are told. A line of a file is a case, `CALL = ANSWER`, as in the other programs of cases; a blank line, and one that
//! begins with `#`, says nothing.
#![tactic(auto)]

mod parted;
mod parts;
mod plays;

use parts::Parts;
use std::process::ExitCode;
use std::sync::Wait;
use std::thread::Threads;
use std::{env, fs, io};

/// How much was played.
#[derive(Clone, Copy, Default)]
struct Tally {
    cases: u64,
    wrong: u64,
}

/// The call of a line and the answer that is wanted, which is empty where none stands there; or None where the line says
/// nothing.
fn case_of(line: &str) -> Option<(&str, &str)> {
    let line = line.trim();
    if line.is_empty() || line.starts_with('#') {
        return None;
    }
    let (call, want) = line.rsplit_once(" = ").unwrap_or((line, ""));
    Some((call.trim(), want.trim()))
}

/// Plays the cases of a text, and prints each line that is answered otherwise.
fn play_text<R: Threads + Wait + Sync + Print + AllocGlobal>(
    rt: &R,
    name: &str,
    text: &str,
    tally: &mut Tally,
) -> io::Result<()> {
    let mut parts = Parts::opened(rt.alloc());
    for (place, line) in text.lines().enumerate() {
        let Some((call, want)) = case_of(line) else {
            continue;
        };
        tally.cases = tally.cases.saturating_add(1);
        let answer = plays::answer(rt, &mut parts, call)?;
        let came = answer.trim();
        if came != want {
            tally.wrong = tally.wrong.saturating_add(1);
            let number = place.saturating_add(1);
            println!(rt; "{name}:{number}: {call} = {came}, and not {want}")?;
        }
    }
    Ok(())
}

fn main(rt: HostRuntime) -> io::Result<ExitCode> {
    let names: Vec<String> = env::args(&rt)?.skip(1).collect(rt.alloc())?;
    let mut tally = Tally::default();
    for name in names.iter() {
        let text = fs::read_to_string(&rt, name)?;
        play_text(&rt, name, &text, &mut tally)?;
    }
    let (cases, files, wrong) = (tally.cases, names.len(), tally.wrong);
    println!(rt; "{cases} cases in {files} files, {wrong} wrong")?;
    Ok(if wrong == 0 {
        ExitCode::SUCCESS
    } else {
        ExitCode::FAILURE
    })
}
