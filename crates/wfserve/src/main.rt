//! The program `wfserve`: serves several clients of one machine, whose messages come on standard input, each in a frame of bytes. It puts
//! their answers on standard output, and the pictures of ports into a file, a pipe or a framebuffer that is named.
#![tactic(auto)]

mod device;
mod ends;
mod words;

ghost use Rattle.std.specs.Prelude.{IsTrue};
ghost use Rattle.wf_calls.specs.PortRules.{may_declare};

use device::Device;
use ends::End;
use std::alloc::Global;
use std::fs::File;
use std::io::BufReader;
use std::process::ExitCode;
use std::rt::Env;
use std::{env, io};
use wf_guard::Form;
use wf_io::{Sink, Source, StdSink, StdSource};
use wf_serve::serve;
use words::{Asked, asked_by};

/// How many bytes of standard input are read at once.
const BLOCK: usize = 65_536;

/// The words of the command line, without the program's name.
fn command_words(rt: &(impl Env + AllocGlobal)) -> io::Result<Vec<String>> {
    let words = env::args(rt)?.skip(1).collect(rt.alloc())?;
    Ok(words)
}

/// Serves what the words asked for.
fn end_of_run<I: Source, K: Sink, F: Sink>(
    alloc: Global,
    asked: &Asked<'_>,
    input: &mut I,
    out: &mut K,
    frames: &mut F,
) -> End
    requires { IsTrue (may_declare asked.now.ports) }
{
    match serve(alloc, asked.form, &asked.ports, input, out, frames) {
        Ok(Ok(())) => End::Done,
        Ok(Err(stop)) => End::Stopped(stop),
        Err(_) => End::NoMemory,
    }
}

/// Serves what the words asked for, with the opened `file` for the pictures.
fn serve_into(rt: &HostRuntime, asked: &Asked<'_>, file: File) -> End
    requires { IsTrue (may_declare asked.now.ports) }
{
    let Ok(reader) = BufReader::with_capacity(rt.alloc(), BLOCK, rt.reader()) else {
        return End::NoMemory;
    };
    let mut input = StdSource::new(reader);
    let mut out = StdSink::new(rt.stdout());
    match asked.form {
        Form::Film | Form::Bands => {
            let mut frames = StdSink::new(file);
            end_of_run(rt.alloc(), asked, &mut input, &mut out, &mut frames)
        }
        Form::Rows { .. } => {
            let mut frames = StdSink::new(Device::new(file, asked.picture));
            end_of_run(rt.alloc(), asked, &mut input, &mut out, &mut frames)
        }
    }
}

/// Opens the file for the pictures, and serves what `words` ask for.
fn run(rt: &HostRuntime, words: &[String]) -> End {
    let asked = match asked_by(rt.alloc(), words) {
        Ok(asked) => asked,
        Err(end) => return end,
    };
    match File::create(rt, asked.file) {
        Ok(file) => serve_into(rt, &asked, file),
        Err(_) => End::NoFile,
    }
}

fn main(rt: HostRuntime) -> ExitCode {
    let end = match command_words(&rt) {
        Ok(words) => run(&rt, &words),
        Err(_) => End::NoMemory,
    };
    end.tell(&mut StdSink::new(rt.stderr()));
    ExitCode::from(end.status())
}
