//! The program `wfplay`: plays a scene script from standard input and writes its film to standard output, or prints the script, or
//! checks the film after it, or writes the log of what happens at the display in that film; or plays a script that is made, and tells
//! its film in one line; or answers a session, which is one client's calls as bytes.
#![tactic(auto)]

ghost use Rattle.std.specs.Prelude.{◌≡◌, ◌≢◌, ◌⊎◌, IfSome};
ghost use Rattle.std.specs.IoError.{error_kind};
ghost use Rattle.std.specs.declared.io.ErrorKind.TheVariants.{OutOfMemory};
ghost use Rattle.wf_command.specs.Words.{AreAccepted, AskFor};
ghost use Rattle.wf_command.specs.declared.asked.Asked.{Asked};
ghost use Rattle.wf_command.specs.declared.asked.Mode.TheVariants as mode;
ghost use Rattle.wf_play.specs.Notes.{PutsOrFront, note_of};
ghost use Rattle.wf_play.specs.Report.{exit_of};
ghost use Rattle.wf_play.specs.declared.report.Status.{Status};
ghost use Rattle.wfplay.specs.Exit.{ExitsByCheck, ExitsByLog, ExitsBySession, PutsFilm, PutsLine, PutsText};

use std::alloc::Global;
use std::io::BufReader;
use std::process::ExitCode;
use std::rt::Env;
use std::sync::Wait;
use std::thread::Threads;
use std::{env, io};
use wf_io::{Sink, Source, StdSink, StdSource};
use wf_play::{Open, Status, play, put_note};

/// The words of the command line, without the program's name.
fn command_words(rt: &(impl Env + AllocGlobal)) -> io::Result<Vec<String>> {
    let words = env::args(rt)?.skip(1).collect(rt.alloc())?;
    Ok(words)
}

/// The status that stands for words that could not be had, or for a buffer that could not: the words are no command, unless there was no
/// memory.
fn status_without_words(error: &io::Error) -> Status
    ensures memory { error_kind error.now ≡ OutOfMemory → result ≡ Status.NoMemory }
    ensures usage { error_kind error.now ≢ OutOfMemory → result ≡ Status.Usage }
{
    if error.kind() == io::ErrorKind::OutOfMemory {
        Status::NoMemory
    } else {
        Status::Usage
    }
}

/// Plays, checks, logs, prints, counts or answers as the words ask, and tells the exit status: where source and sink tell their bytes, 0
/// only where all was put or the film that was checked is the same; and 2 where the words are no command, or 10 where there was no memory
/// to read them.
fn exit_of_play<R: Threads + Wait + Sync, I: Source, O: Sink, N: Sink>(
    rt: &R,
    alloc: Global,
    words: &[String],
    input: &mut I,
    film: &mut O,
    notes: &mut N,
) -> u8
    ensures film { (asked : Asked) → AskFor asked words.now → asked.mode ≡ mode.Film → result ≡ 0
        → IfSome (I.left input.old) (PutsFilm O.took film.old film.new asked.form asked.threads) }
    ensures printed { (asked : Asked) → AskFor asked words.now → asked.mode ≡ mode.Print → result ≡ 0
        → IfSome (I.left input.old) (PutsText O.took film.old film.new) }
    ensures checked { (asked : Asked) → AskFor asked words.now → asked.mode ≡ mode.Check
        → ExitsByCheck O.took film.old film.new (I.left input.old) result }
    ensures logged { (asked : Asked) → AskFor asked words.now → asked.mode ≡ mode.Events
        → ExitsByLog O.took film.old film.new asked.depth (I.left input.old) result }
    ensures served { (asked : Asked) → AskFor asked words.now → asked.mode ≡ mode.Session
        → ExitsBySession O.took film.old film.new (I.left input.old) result }
    ensures made { (asked : Asked) → AskFor asked words.now → asked.mode ≡ mode.Big → result ≡ 0
        → PutsLine O.took film.old film.new asked.form asked.size }
    ensures usage { result ≡ 2 → ¬ (AreAccepted words.now) }
    ensures refused { ¬ (AreAccepted words.now) → (result ≡ 2) ⊎ (result ≡ 10) }
{
    let report = play(rt, alloc, words, input, film, notes, &Open);
    report.status.exit()
}

/// Puts the line of words that could not be had into the notes, and tells the exit status.
fn exit_without_words<N: Sink>(error: &io::Error, notes: &mut N) -> u8
    ensures line { (status : Status) × ((result ≡ exit_of status)
        × PutsOrFront N.took notes.old notes.new (N.faults notes.old) (N.faults notes.new) (note_of status)) }
{
    let status = status_without_words(error);
    put_note(notes, status);
    status.exit()
}

fn main(rt: HostRuntime) -> ExitCode {
    let mut notes = StdSink::new(rt.stderr());
    let words = match command_words(&rt) {
        Ok(words) => words,
        Err(error) => return ExitCode::from(exit_without_words(&error, &mut notes)),
    };
    // A session asks for a few bytes at a time.
    let reader = match BufReader::with_capacity(rt.alloc(), 4096, rt.reader()) {
        Ok(reader) => reader,
        Err(error) => return ExitCode::from(exit_without_words(&error, &mut notes)),
    };
    let mut input = StdSource::new(reader);
    let mut film = StdSink::new(rt.stdout());
    ExitCode::from(exit_of_play(&rt, rt.alloc(), &words, &mut input, &mut film, &mut notes))
}
