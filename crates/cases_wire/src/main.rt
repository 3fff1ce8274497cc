//! The program `cases_wire`: plays cases of sessions, which are one client's calls as bytes.
#![tactic(auto)]

mod sessions;

use sessions::{Parts, played};
use std::alloc::{AllocError, Global};
use std::io;
use std::process::ExitCode;
use std::sync::Wait;
use wf_cases::{Stage, number, word, words_of};

fn main(rt: HostRuntime) -> io::Result<ExitCode> {
    wf_cases::play::<Parts, HostRuntime>(&rt)
}

impl<R: AllocGlobal + Wait> Stage<R> for Parts {
    fn opened(_alloc: Global) -> Parts {
        Parts::new()
    }

    /// `quota COUNT`, `step COUNT`, `take N` and `put N` say how many calls the pass has, how many bytes the source gives at once, and
    /// which calls of the source and of the sink fail; `session HEX ..` plays a session with these.
    fn answer(&mut self, rt: &R, call: &str) -> Result<String, AllocError> {
        let alloc = rt.alloc();
        let words = words_of(alloc, call)?;
        let words = words.as_slice();
        match word(words, 0) {
            "quota" => self.quota = number::<u32>(words, 1).max(1),
            "step" => self.step = number::<usize>(words, 1).max(1),
            "take" => self.take = number(words, 1),
            "put" => self.put = number(words, 1),
            "session" => return played(rt, self, words.get(1..).unwrap_or(&[])),
            _ => return format!(in alloc; "no such call"),
        }
        format!(in alloc; "done")
    }
}
