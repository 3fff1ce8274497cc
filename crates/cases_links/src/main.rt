//! The program `cases_links`: plays cases of lists of nodes.
#![tactic(auto)]

mod linked;

use linked::Linked;
use std::alloc::{AllocError, Global};
use std::io;
use std::process::ExitCode;
use wf_cases::{Stage, number, word, words_of};

/// The lists, once they are made.
#[derive(Drop)]
struct Lists {
    linked: Option<Linked>,
}

fn main(rt: HostRuntime) -> io::Result<ExitCode> {
    wf_cases::play::<Lists, HostRuntime>(&rt)
}

impl<R: AllocGlobal> Stage<R> for Lists {
    fn opened(_alloc: Global) -> Lists {
        Lists { linked: None }
    }

    fn answer(&mut self, rt: &R, call: &str) -> Result<String, AllocError> {
        let alloc = rt.alloc();
        let words = words_of(alloc, call)?;
        let words = words.as_slice();
        if word(words, 0) == "new" {
            self.linked = Linked::new(alloc, number(words, 1), number(words, 2));
            return done(alloc, self.linked.is_some());
        }
        let Some(linked) = &mut self.linked else {
            return format!(in alloc; "no lists");
        };
        let at: u32 = number(words, 1);
        match word(words, 0) {
            "insert" => done(alloc, linked.insert(at, number(words, 2), below(words))),
            "remove" => done(alloc, linked.remove(at)),
            "above" => told(alloc, linked.above(at)),
            "below" => told(alloc, linked.below(at)),
            "lowest" => told(alloc, linked.lowest(at)),
            "list_of" => told(alloc, linked.list_of(at)),
            "up" => listed(alloc, linked, linked.bottom(at), true),
            "down" => listed(alloc, linked, linked.top(at), false),
            _ => format!(in alloc; "no such call"),
        }
    }
}

/// The node that a call puts another above, where its fourth word is there.
fn below(words: &[&str]) -> Option<u32> {
    match words.get(3) {
        Some(_) => Some(number(words, 3)),
        None => None,
    }
}

/// Whether a call was made, or its condition did not hold.
fn done(alloc: Global, done: bool) -> Result<String, AllocError> {
    format!(in alloc; "{}", if done { "done" } else { "not done" })
}

/// What a call answers, or that its condition does not hold.
fn told(alloc: Global, answer: Option<Option<u32>>) -> Result<String, AllocError> {
    match answer {
        Some(Some(number)) => format!(in alloc; "{number}"),
        Some(None) => format!(in alloc; "none"),
        None => format!(in alloc; "not done"),
    }
}

/// The nodes of a list from one on, upwards or downwards.
fn listed(
    alloc: Global,
    linked: &Linked,
    from: Option<u32>,
    up: bool,
) -> Result<String, AllocError> {
    let mut text = format!(in alloc; "{}", if from.is_some() { "" } else { "empty" })?;
    let mut next = from;
    for _ in 0..linked.nodes() {
        let Some(node) = next else {
            break;
        };
        text.push_str(format!(in alloc; "{node} ")?.as_str())?;
        next = linked.next(node, up);
    }
    Ok(text)
}
