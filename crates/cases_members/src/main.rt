//! The program `cases_members`: plays cases of the members of owners.
#![tactic(auto)]

mod kept;

use kept::Kept;
use std::alloc::{AllocError, Global};
use std::io;
use std::process::ExitCode;
use wf_cases::{Stage, number, word, words_of};

/// The members, once they are made.
#[derive(Drop)]
struct Owners {
    kept: Option<Kept>,
}

fn main(rt: HostRuntime) -> io::Result<ExitCode> {
    wf_cases::play::<Owners, HostRuntime>(&rt)
}

impl<R: AllocGlobal> Stage<R> for Owners {
    fn opened(_alloc: Global) -> Owners {
        Owners { kept: None }
    }

    fn answer(&mut self, rt: &R, call: &str) -> Result<String, AllocError> {
        let alloc = rt.alloc();
        let words = words_of(alloc, call)?;
        let words = words.as_slice();
        if word(words, 0) == "new" {
            self.kept = Kept::new(alloc, number(words, 1), number(words, 2));
            return done(alloc, self.kept.is_some());
        }
        let Some(kept) = &mut self.kept else {
            return format!(in alloc; "no members");
        };
        let at: u32 = number(words, 1);
        match word(words, 0) {
            "open" => done(alloc, kept.open(at)),
            "close" => done(alloc, kept.close(at)),
            "add" => done(alloc, kept.add(at, number(words, 2))),
            "remove" => done(alloc, kept.remove(at)),
            "first" => told(alloc, kept.first(at)),
            "is_open" => answered(alloc, kept.is_open(at)),
            "is_member" => answered(alloc, kept.is_member(at)),
            "empty" => emptied(alloc, kept, at),
            _ => format!(in alloc; "no such call"),
        }
    }
}

/// Whether a call was made, or its condition did not hold.
fn done(alloc: Global, done: bool) -> Result<String, AllocError> {
    format!(in alloc; "{}", if done { "done" } else { "not done" })
}

/// Yes or no.
fn answered(alloc: Global, yes: bool) -> Result<String, AllocError> {
    format!(in alloc; "{}", if yes { "yes" } else { "no" })
}

/// A handle, where there is one.
fn told(alloc: Global, handle: Option<u32>) -> Result<String, AllocError> {
    match handle {
        Some(handle) => format!(in alloc; "{handle}"),
        None => format!(in alloc; "none"),
    }
}

/// The members of an owner, which are taken out from the first.
fn emptied(alloc: Global, kept: &mut Kept, owner: u32) -> Result<String, AllocError> {
    let mut text = format!(in alloc;
        "{}",
        if kept.first(owner).is_some() {
            ""
        } else {
            "none"
        }
    )?;
    for _ in 0..kept.most() {
        let Some(member) = kept.first(owner) else {
            break;
        };
        text.push_str(format!(in alloc; "{member} ")?.as_str())?;
        kept.remove(member);
    }
    Ok(text)
}
