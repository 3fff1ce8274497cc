//! The program `cases_machine`: plays cases of the machine's calls.
#![tactic(auto)]

mod calls;
mod clients;
mod machines;
mod rounds;
mod words;

use clients::Client;
use std::alloc::{AllocError, Global};
use std::io;
use std::process::ExitCode;
use wf_calls::Reply;
use wf_cases::{Stage, number, word, words_of};
use wf_machine::Machine;
use wf_stream::Held;

/// A machine, and what its clients hold.
#[derive(Drop)]
struct Cases {
    machine: Option<Machine>,
    client: Client,
}

fn main(rt: HostRuntime) -> io::Result<ExitCode> {
    wf_cases::play::<Cases, HostRuntime>(&rt)
}

impl<R: AllocGlobal> Stage<R> for Cases {
    fn opened(_alloc: Global) -> Cases {
        Cases {
            machine: None,
            client: Client::new(),
        }
    }

    fn answer(&mut self, rt: &R, call: &str) -> Result<String, AllocError> {
        let alloc = rt.alloc();
        let words = words_of(alloc, call)?;
        let words = words.as_slice();
        if word(words, 0) == "ports" {
            self.machine = machines::open(alloc, words);
            self.client = Client::new();
            return format!(in alloc; "done");
        }
        let Some(machine) = &mut self.machine else {
            return format!(in alloc; "no ports");
        };
        match word(words, 0) {
            "ready" => ready(alloc, machine, words),
            "held" => held(alloc, machine),
            "count" => count(alloc, machine, words),
            "round" => {
                rounds::play(machine, &mut self.client);
                held(alloc, machine)
            }
            "denied" => match self.client.call(words.get(1..).unwrap_or(&[])) {
                Some(call) => {
                    let reply = machine.deny(0, call);
                    told(alloc, &mut self.client, reply)
                }
                None => format!(in alloc; "no such call"),
            },
            _ => match self.client.call(words) {
                Some(call) => {
                    let reply = machine.run(0, call);
                    told(alloc, &mut self.client, reply)
                }
                None => self.client.answer(alloc, words),
            },
        }
    }
}

/// The answer to a call, whose canvas or Job goes to the client.
fn told(alloc: Global, client: &mut Client, reply: Reply) -> Result<String, AllocError> {
    let (code, value) = (reply.code, reply.value);
    client.take(reply);
    format!(in alloc; "{code:?} {value}")
}

/// Whether a call can be answered now.
fn ready(alloc: Global, machine: &Machine, words: &[&str]) -> Result<String, AllocError> {
    match calls::call_of(words.get(1..).unwrap_or(&[])) {
        Some(call) => format!(in alloc; "{}", machine.ready(&call)),
        None => format!(in alloc; "no such call"),
    }
}

/// How many streams are kept, and the bytes of their buffers.
fn held(alloc: Global, machine: &Machine) -> Result<String, AllocError> {
    let Held { streams, bytes } = machine.held();
    format!(in alloc; "{streams} {bytes}")
}

/// How many names the stream of each number has. A line that has no number of a stream is none: they count from 1.
fn count(alloc: Global, machine: &Machine, words: &[&str]) -> Result<String, AllocError> {
    let mut told = String::new(alloc);
    for word in words.get(1..).unwrap_or(&[]) {
        let stream = word.parse::<u32>().ok().unwrap_or(0);
        if stream == 0 {
            return format!(in alloc; "no such number");
        }
        let names = format!(in alloc; "{} ", machine.count(stream))?;
        told.push_str(&names)?;
    }
    Ok(told)
}
