//! The top call.

ghost use Rattle.std.specs.Prelude.{◌≡◌, ◌≢◌, ◌≤◌, ◌⊎◌, Bool, true, false, [], codes, IfErr, IfSome};
ghost use Rattle.wf_io.specs.Causes.{Rose};
ghost use Rattle.wf_command.specs.Words.{AreAccepted, AskFor, IsUpTo};
ghost use Rattle.wf_film.specs.declared.form.FilmForm.{FilmForm};
ghost use Rattle.wf_show.specs.Ends.{OthersThrough};
ghost use Rattle.wf_turn.specs.Films.{IsCaused as IsCausedPlay, PlaysFilm};
ghost use Rattle.wf_turn.specs.Serial.{IsInFileOrder};
ghost use Rattle.wf_play.specs.Big.{SaysOfBig};
ghost use Rattle.wf_play.specs.Check.{IsChecked};
ghost use Rattle.wf_play.specs.Events.{IsLogged};
ghost use Rattle.wf_play.specs.Notes.{IsSame, PutsOrFront, note_of};
ghost use Rattle.wf_play.specs.Refusals.{refusal_of};
ghost use Rattle.wf_play.specs.Report.{CompletesIn, IsCaused, IsFoundSame, IsPlainFilm, IsPrinted, IsReadStop, ReadsScript, SaysOfFilm};
ghost use Rattle.wf_play.specs.Report.{SaysOfInput};
ghost use Rattle.wf_play.specs.Sessions.{IsServed};

use crate::big::play_big;
use crate::checked::play_check;
use crate::logged::play_events;
use crate::notes::{put_line, put_note};
use crate::report::{Report, Status, without_order};
use crate::served::play_session;
use std::alloc::Global;
use std::sync::Wait;
use std::thread::Threads;
use wf_calls::Order;
use wf_command::{Asked, Mode, WordsStop, asked_by};
use wf_damage::{Bench, Parts};
use wf_io::{ReadStop, Sink, Source, read_all};
use wf_kernel::{Painter, Plain, Rows};
use wf_script::{Script, ScriptFault, parse, print};
use wf_show::{Gate, threaded_by};
use wf_turn::{PlayStop, serial_by};

/// The longest script, in bytes.
pub(crate) const SCRIPT_LIMIT: usize = 1_048_576;

/// The most bytes of images and picture that are kept of one port's or context's frame.
const ROOM: usize = 8_388_608;

/// Plays `script`, with its clients on threads or line by line, and writes its film, whose frames are painted as is `asked`.
fn play_script<R: Threads + Wait + Sync, O: Sink, G: Gate>(
    rt: &R,
    alloc: Global,
    asked: Asked,
    script: &Script,
    film: &mut O,
    gate: &G,
) -> Result<Order, PlayStop>
    requires some { 1 ≤ asked.rows }
    requires most { asked.rows ≤ 16 }
    ensures plays { PlaysFilm O.took film.old film.new asked.form script.now result }
    ensures checked { IsFoundSame asked.form script.now result }
    ensures order { asked.threads ≡ false → IsInFileOrder script.now result }
    ensures others { asked.threads ≡ true → OthersThrough script.now result }
    ensures caused { IsCausedPlay (O.faults film.old) (O.faults film.new) result }
{
    if asked.repaint {
        let Ok(mut bench) = Bench::new(alloc, ROOM, Parts::new()) else {
            return Err(PlayStop::NoMemory);
        };
        play_by(rt, alloc, asked, script, film, gate, &mut bench)
    } else if asked.threads {
        play_by(
            rt,
            alloc,
            asked,
            script,
            film,
            gate,
            &mut Rows::new(rt, asked.rows.into()),
        )
    } else {
        play_by(rt, alloc, asked, script, film, gate, &mut Plain)
    }
}

/// The same, by a `painter`.
fn play_by<R: Threads + Wait + Sync, O: Sink, G: Gate, P: Painter>(
    rt: &R,
    alloc: Global,
    asked: Asked,
    script: &Script,
    film: &mut O,
    gate: &G,
    painter: &mut P,
) -> Result<Order, PlayStop>
    requires ready { P.ready }
    ensures plays { PlaysFilm O.took film.old film.new asked.form script.now result }
    ensures checked { IsFoundSame asked.form script.now result }
    ensures order { asked.threads ≡ false → IsInFileOrder script.now result }
    ensures others { asked.threads ≡ true → OthersThrough script.now result }
    ensures caused { IsCausedPlay (O.faults film.old) (O.faults film.new) result }
{
    if asked.threads {
        threaded_by(rt, alloc, script, asked.form, film, gate, painter)
    } else {
        serial_by(alloc, script, asked.form, film, painter)
    }
}

/// Reads the script and writes its film.
fn play_film<R: Threads + Wait + Sync, I: Source, O: Sink, G: Gate>(
    rt: &R,
    alloc: Global,
    asked: Asked,
    input: &mut I,
    film: &mut O,
    gate: &G,
) -> Report
    requires some { 1 ≤ asked.rows }
    requires most { asked.rows ≤ 16 }
    ensures mode { result.status ≢ Status.Usage }
    ensures input { IfSome (I.left input.old) (λ bytes.
        SaysOfInput O.took film.old film.new result.order Mode.Film asked.form asked.threads bytes result.status) }
    ensures film { SaysOfFilm O.took film.old film.new result.order result.status }
    ensures caused { IsCaused (I.faults input.old) (I.faults input.new) (O.faults film.old) (O.faults film.new) result.status }
    ensures input_count { I.faults input.old ≤ I.faults input.new }
    ensures film_count { O.faults film.old ≤ O.faults film.new }
{
    let script = match read_script(alloc, input) {
        Ok(script) => script,
        Err(status) => return without_order(alloc, status),
    };
    match play_script(rt, alloc, asked, &script, film, gate) {
        Ok(order) => Report {
            status: Status::Done,
            order,
        },
        Err(PlayStop::WriteFault { written, order }) => Report {
            status: Status::WriteFault { written },
            order,
        },
        Err(PlayStop::NoMemory) => without_order(alloc, Status::NoMemory),
    }
}

/// Reads the script and prints it.
fn play_print<I: Source, O: Sink>(alloc: Global, input: &mut I, film: &mut O) -> Report
    ensures mode { result.status ≢ Status.Usage }
    ensures input { (form : FilmForm) (threads : Bool) → IfSome (I.left input.old) (λ bytes.
        SaysOfInput O.took film.old film.new result.order Mode.Print form threads bytes result.status) }
    ensures film { SaysOfFilm O.took film.old film.new result.order result.status }
    ensures caused { IsCaused (I.faults input.old) (I.faults input.new) (O.faults film.old) (O.faults film.new) result.status }
    ensures input_count { I.faults input.old ≤ I.faults input.new }
    ensures film_count { O.faults film.old ≤ O.faults film.new }
{
    let script = match read_script(alloc, input) {
        Ok(script) => script,
        Err(status) => return without_order(alloc, status),
    };
    match print(&script, film) {
        Ok(()) => without_order(alloc, Status::Done),
        Err(stop) => without_order(
            alloc,
            Status::WriteFault {
                written: stop.written as u64,
            },
        ),
    }
}

/// The status of bytes that are no script, by their first fault.
pub(crate) fn refusal_of(fault: ScriptFault) -> Status
    ensures { result ≡ refusal_of fault }
{
    match fault {
        ScriptFault::Header => Status::Refused { line: 1, rule: 0 },
        ScriptFault::Line { line, rule } => Status::Refused { line, rule },
        ScriptFault::TooManyLines => Status::Refused {
            line: 16_385,
            rule: 9,
        },
        ScriptFault::NoEnd { line } => Status::Refused { line, rule: 8 },
        ScriptFault::NoMemory => Status::NoMemory,
    }
}

/// The script that the input's bytes stand for. Its pieces are off the stack when it returns.
#[inline(never)]
fn read_script<I: Source>(alloc: Global, input: &mut I) -> Result<Script, Status>
    ensures reads { IfSome (I.left input.old) (λ bytes. ReadsScript bytes result) }
    ensures stop { IfErr result (IsReadStop (I.faults input.old) (I.faults input.new)) }
    ensures input_count { I.faults input.old ≤ I.faults input.new }
{
    let bytes = match read_all(alloc, input, SCRIPT_LIMIT) {
        Ok(bytes) => bytes,
        Err(ReadStop::Fault) => return Err(Status::ReadFault),
        Err(ReadStop::TooLong) => return Err(Status::TooLong),
        Err(ReadStop::NoMemory) => return Err(Status::NoMemory),
    };
    match parse(alloc, &bytes) {
        Ok(script) => Ok(script),
        Err(fault) => Err(refusal_of(fault)),
    }
}

/// Plays what is asked for.
fn play_asked<R: Threads + Wait + Sync, I: Source, O: Sink, G: Gate>(
    rt: &R,
    alloc: Global,
    asked: Asked,
    input: &mut I,
    film: &mut O,
    gate: &G,
) -> Report
    requires size { IsUpTo 1000 asked.size }
    requires rows { IsUpTo 16 asked.rows }
    ensures mode { result.status ≢ Status.Usage }
    ensures input { IfSome (I.left input.old) (λ bytes.
        SaysOfInput O.took film.old film.new result.order asked.mode asked.form asked.threads bytes result.status) }
    ensures checked { asked.mode ≡ Mode.Check
        → IsChecked O.took film.old film.new result.order (I.left input.old) result.status }
    ensures made { asked.mode ≡ Mode.Big
        → (input.new ≡ input.old) × SaysOfBig O.took film.old film.new asked.form asked.size result.order result.status }
    ensures logged { asked.mode ≡ Mode.Events
        → IsLogged O.took film.old film.new asked.depth result.order (I.left input.old) result.status }
    ensures served { asked.mode ≡ Mode.Session
        → IsServed O.took film.old film.new result.order (I.left input.old) result.status }
    ensures film { asked.mode ≢ Mode.Session → SaysOfFilm O.took film.old film.new result.order result.status }
    ensures caused { IsCaused (I.faults input.old) (I.faults input.new) (O.faults film.old) (O.faults film.new) result.status }
    ensures input_count { I.faults input.old ≤ I.faults input.new }
    ensures film_count { O.faults film.old ≤ O.faults film.new }
{
    match asked.mode {
        Mode::Film => play_film(rt, alloc, asked, input, film, gate),
        Mode::Check => without_order(alloc, play_check(alloc, input)),
        Mode::Print => play_print(alloc, input, film),
        Mode::Big => play_big(alloc, asked.form, asked.size, film),
        Mode::Events => without_order(alloc, play_events(alloc, asked.depth, input, film)),
        Mode::Session => without_order(alloc, play_session(rt, alloc, input, film)),
    }
}

/// Tells why words ask for nothing, also in the notes.
fn refuse_words<N: Sink>(alloc: Global, status: Status, notes: &mut N) -> Report
    ensures status { result.status ≡ status }
    ensures order { result.order ≡ [] }
    ensures notes { PutsOrFront N.took notes.old notes.new (N.faults notes.old) (N.faults notes.new) (note_of status) }
    ensures count { N.faults notes.old ≤ N.faults notes.new }
{
    put_note(notes, status);
    without_order(alloc, status)
}

/// Plays what the words ask for, and puts its line into the notes.
fn play_words<R: Threads + Wait + Sync, I: Source, O: Sink, N: Sink, G: Gate>(
    rt: &R,
    alloc: Global,
    words: &[String],
    input: &mut I,
    film: &mut O,
    notes: &mut N,
    gate: &G,
) -> Report
    ensures usage { result.status ≡ Status.Usage → ¬ (AreAccepted words.now) }
    ensures refused { ¬ (AreAccepted words.now) → (result.status ≡ Status.Usage) ⊎ (result.status ≡ Status.NoMemory) }
    ensures usage_first { result.status ≡ Status.Usage → input.new ≡ input.old }
    ensures input { (asked : Asked) → AskFor asked words.now → IfSome (I.left input.old) (λ bytes.
        SaysOfInput O.took film.old film.new result.order asked.mode asked.form asked.threads bytes result.status) }
    ensures checked { (asked : Asked) → AskFor asked words.now → asked.mode ≡ Mode.Check
        → IsChecked O.took film.old film.new result.order (I.left input.old) result.status }
    ensures made { (asked : Asked) → AskFor asked words.now → asked.mode ≡ Mode.Big
        → (input.new ≡ input.old) × SaysOfBig O.took film.old film.new asked.form asked.size result.order result.status }
    ensures logged { (asked : Asked) → AskFor asked words.now → asked.mode ≡ Mode.Events
        → IsLogged O.took film.old film.new asked.depth result.order (I.left input.old) result.status }
    ensures served { (asked : Asked) → AskFor asked words.now → asked.mode ≡ Mode.Session
        → IsServed O.took film.old film.new result.order (I.left input.old) result.status }
    ensures film { ((asked : Asked) → AskFor asked words.now → asked.mode ≢ Mode.Session)
        → SaysOfFilm O.took film.old film.new result.order result.status }
    ensures caused { IsCaused (I.faults input.old) (I.faults input.new) (O.faults film.old) (O.faults film.new) result.status }
    ensures notes { ¬ (IsSame words.now result.status)
        → PutsOrFront N.took notes.old notes.new (N.faults notes.old) (N.faults notes.new) (note_of result.status) }
    ensures same { IsSame words.now result.status
        → PutsOrFront N.took notes.old notes.new (N.faults notes.old) (N.faults notes.new) (codes "same\n") }
    ensures input_count { I.faults input.old ≤ I.faults input.new }
    ensures film_count { O.faults film.old ≤ O.faults film.new }
    ensures notes_count { N.faults notes.old ≤ N.faults notes.new }
{
    match asked_by(alloc, words) {
        Ok(asked) => {
            let report = play_asked(rt, alloc, asked, input, film, gate);
            put_line(notes, asked.mode, report.status);
            report
        }
        Err(WordsStop::Usage) => refuse_words(alloc, Status::Usage, notes),
        Err(WordsStop::NoMemory) => refuse_words(alloc, Status::NoMemory, notes),
    }
}

/// Reads a scene script from `input`, writes its film or its canonical text into `film`, and answers how that ended. `words` are the
/// command's words without the program's name: the mode, `film`, `check`, `print`, `big`, `events` or `session`; for a film `--threads`,
/// by which each client plays on a thread of its own, and then `--rows N`, N from 1 to 16 and by default 1, in how many bands a frame is
/// painted at most; for its form `--film N`, N 1 or 2 and by default 2; and for `big`, which reads nothing, plays the script that `make`
/// of `wf_script` makes and writes one line on its film, `--size N`, N from 1 to 1000 and by default 1. `check` reads a script and the
/// film after it, writes nothing, and answers whether that is the film of the script and of its own journal. `events` reads the same, and
/// where a check finds no fault writes the log of what happens at the display, by a queue of `--depth N` happenings, N from 1 to 64 and
/// by default 64. `session` reads one client's calls as bytes, and puts the answer to each before it reads the next. Each status but
/// `Done` puts its line into `notes`, and a check `same` with `Done`; a fault there changes nothing else. `NoMemory` comes only where
/// nothing was put; later only a creation of the script or of the session may lack memory. With `--threads` it may wait, and the gate is
/// called round each event of the clients 1 to 7.
pub fn play<R: Threads + Wait + Sync, I: Source, O: Sink, N: Sink, G: Gate>(
    rt: &R,
    alloc: Global,
    words: &[String],
    input: &mut I,
    film: &mut O,
    notes: &mut N,
    gate: &G,
) -> Report
    // The film, where the input tells its bytes: with the mode `film` and Done, it is the plain film, in the form that is
    // asked for, of the script that the bytes stand for, under the order of the report, which is legal and complete. Without
    // `--threads` that order is the serial one.
    ensures headline { (asked : Asked) → AskFor asked words.now → asked.mode ≡ Mode.Film
        → IfSome (I.left input.old) (λ bytes. result.status ≡ Status.Done
        → IsPlainFilm O.took film.old film.new asked.form asked.threads bytes result.order) }

    // With the mode `print` and Done, it is the script's canonical text.
    ensures printed { (asked : Asked) → AskFor asked words.now → asked.mode ≡ Mode.Print
        → IfSome (I.left input.old) (λ bytes. result.status ≡ Status.Done
        → IsPrinted O.took film.old film.new bytes result.order) }

    // With the mode `check` nothing is put into the film, and the status says what the film behind the script of the input is: with
    // Done, the film of that script and of its own journal.
    ensures checked { (asked : Asked) → AskFor asked words.now → asked.mode ≡ Mode.Check
        → IsChecked O.took film.old film.new result.order (I.left input.old) result.status }

    // With the mode `big` nothing is read, and what is put is the line over the film of the script that is made, or its front.
    ensures made { (asked : Asked) → AskFor asked words.now → asked.mode ≡ Mode.Big
        → (input.new ≡ input.old) × SaysOfBig O.took film.old film.new asked.form asked.size result.order result.status }

    // With the mode `events` each status says of the input what a check says, but where that finds no fault: then the log of the
    // script and of the film's own journal is put, or its front.
    ensures logged { (asked : Asked) → AskFor asked words.now → asked.mode ≡ Mode.Events
        → IsLogged O.took film.old film.new asked.depth result.order (I.left input.old) result.status }

    // With the mode `session` what is put are the answers of a run of the session's messages, on the machine of its header's ports: of
    // all that the input tells with Done, or of the first of them, and with WriteFault a front of these answers.
    ensures served { (asked : Asked) → AskFor asked words.now → asked.mode ≡ Mode.Session
        → IsServed O.took film.old film.new result.order (I.left input.old) result.status }

    // When each status comes.
    ensures usage { result.status ≡ Status.Usage → ¬ (AreAccepted words.now) }
    ensures refused { ¬ (AreAccepted words.now) → (result.status ≡ Status.Usage) ⊎ (result.status ≡ Status.NoMemory) }
    ensures usage_first { result.status ≡ Status.Usage → input.new ≡ input.old }
    ensures input { (asked : Asked) → AskFor asked words.now → IfSome (I.left input.old) (λ bytes.
        SaysOfInput O.took film.old film.new result.order asked.mode asked.form asked.threads bytes result.status) }
    ensures caused { IsCaused (I.faults input.old) (I.faults input.new) (O.faults film.old) (O.faults film.new) result.status }
    ensures complete { (asked : Asked) → AskFor asked words.now → CompletesIn asked.mode (I.left input.old) (I.faults input.old)
        (I.faults input.new) (O.faults film.old) (O.faults film.new) result.status }

    // What went out, in every mode but `session`.
    ensures film { ((asked : Asked) → AskFor asked words.now → asked.mode ≢ Mode.Session)
        → SaysOfFilm O.took film.old film.new result.order result.status }

    // What went into the notes.
    ensures notes { ¬ (IsSame words.now result.status)
        → PutsOrFront N.took notes.old notes.new (N.faults notes.old) (N.faults notes.new) (note_of result.status) }
    ensures same { IsSame words.now result.status
        → PutsOrFront N.took notes.old notes.new (N.faults notes.old) (N.faults notes.new) (codes "same\n") }

    // No count of faults falls.
    ensures input_count { I.faults input.old ≤ I.faults input.new }
    ensures film_count { O.faults film.old ≤ O.faults film.new }
    ensures notes_count { N.faults notes.old ≤ N.faults notes.new }
{
    play_words(rt, alloc, words, input, film, notes, gate)
}
