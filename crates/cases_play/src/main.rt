//! The program `cases_play`: plays the scripts that its command line names, and compares what came with what the comments of
//! their lines say. Behind an event line stand the answers of its events, as `# Ok 3` or `# Ok 0, Ok 0`. A comment
//! `port N: WHAT is ..` tells of the frame that port N showed at the last tick, `film: WHAT is ..` of the whole film, and
//! `film 1: WHAT is ..` of the film in form 1. Where WHAT is `check`, with changes, it is what a check finds of the film so changed.
//! A `:` ends what is wanted, and behind it stands what a person wants to know. Each film has to come with `--repaint` too.
#![tactic(auto)]

mod checks;
mod events;
mod films;
mod lines;
mod plays;

use lines::Checked;
use std::process::ExitCode;
use std::{env, fs, io};

fn main(rt: HostRuntime) -> io::Result<ExitCode> {
    let names: Vec<String> = env::args(&rt)?.skip(1).collect(rt.alloc())?;
    let mut checked = Checked::default();
    for name in names.iter() {
        let text = fs::read_to_string(&rt, name)?;
        let plays = plays::play_text(&rt, &text)?;
        lines::check_text(&rt, name, &text, &plays, &mut checked)?;
    }
    let Checked { said, wrong } = checked;
    println!(rt; "{said} comments in {} scripts, {wrong} wrong", names.len())?;
    Ok(if wrong == 0 {
        ExitCode::SUCCESS
    } else {
        ExitCode::FAILURE
    })
}
