//! The words as a simple command of `clap`.

ghost use Rattle.std.specs.Prelude.{◌≡◌, ◌≢◌, ◌≤◌, IfErr, IfOk, IfSome, codes, false};
ghost use Rattle.std.specs.Option.{IfNone};
ghost use Rattle.clap.specs.Words.{app_of, first_value, found_of, kind_of, one_text, rule_of, with_rule};
ghost use Rattle.wf_command.specs.Words.{bare};
ghost use Rattle.wf_command.specs.Words.{AreAccepted, AskFor, IsCount, IsForm, IsMeant, IsSet, command, flag_rule, mode_rule, mode_word};
ghost use Rattle.wf_command.specs.Words.{number_rule, rows_rule, texts_in, threads_rule};

use crate::asked::{Asked, Mode, WordsStop};
use clap::error::ErrorKind;
use clap::{Arg, ArgAction, ArgMatches, Command, Error, value_parser};
use std::alloc::{AllocError, Global};
use wf_film::FilmForm;

/// The mode, which is required.
fn mode_arg<'a>(alloc: Global) -> Arg<'a>
    ensures rule { rule_of result ≡ mode_rule }
    ensures own { result.global ≡ false }
{
    Arg::new(alloc, "mode").required(true)
}

/// The flag `name`.
fn flag_arg<'a>(alloc: Global, name: &'a str) -> Arg<'a>
    ensures rule { rule_of result ≡ flag_rule name.now }
    ensures own { result.global ≡ false }
{
    Arg::new(alloc, name).long(name).action(ArgAction::SetTrue)
}

/// The option `name`, a number from 1 to `last`, by default `default`.
fn number_arg<'a>(alloc: Global, name: &'a str, last: u16, default: &'a str) -> Arg<'a>
    ensures rule { rule_of result ≡ number_rule name.now last default.now }
    ensures own { result.global ≡ false }
{
    Arg::new(alloc, name)
        .long(name)
        .value_parser(value_parser!(u16).range(1..=i64::from(last)))
        .default_value(default)
}

/// The command so far: a mode, and how a script is played.
fn command_of_mode<'a>(alloc: Global) -> Result<Command<'a>, AllocError>
    ensures { IfOk result (λ c. app_of c ≡ with_rule (with_rule (with_rule bare mode_rule) threads_rule) rows_rule) }
{
    Command::new(alloc, "wfplay")
        .no_binary_name(true)
        .disable_help_flag(true)
        .arg(mode_arg(alloc))?
        .arg(flag_arg(alloc, "threads"))?
        .arg(number_arg(alloc, "rows", 16, "1"))
}

/// The command: a mode, and its options.
fn command<'a>(alloc: Global) -> Result<Command<'a>, AllocError>
    ensures { IfOk result (λ c. app_of c ≡ command) }
{
    command_of_mode(alloc)?
        .arg(number_arg(alloc, "film", 2, "2"))?
        .arg(number_arg(alloc, "size", 1000, "1"))?
        .arg(number_arg(alloc, "depth", 64, "64"))?
        .arg(flag_arg(alloc, "repaint"))
}

/// The mode that a word names.
fn mode_named(word: &str) -> Option<Mode>
    ensures named { IfSome result (λ m. word.now ≡ mode_word m) }
    ensures none { IfNone result ((m : Mode) → word.now ≢ mode_word m) }
{
    match word {
        "film" => Some(Mode::Film),
        "check" => Some(Mode::Check),
        "print" => Some(Mode::Print),
        "big" => Some(Mode::Big),
        "events" => Some(Mode::Events),
        "session" => Some(Mode::Session),
        _ => None,
    }
}

/// The form of a film, by `--film`.
fn form_in(matches: &ArgMatches) -> FilmForm
    ensures { IsForm (one_text (found_of matches.now) (codes "film")) result }
{
    match matches.get_one::<u16>("film") {
        Some(1) => FilmForm::One,
        _ => FilmForm::Two,
    }
}

/// Whether the flag `name` stands among the words.
fn flag_in(matches: &ArgMatches, name: &str) -> bool
    ensures { IsSet (first_value (found_of matches.now) name.now) result }
{
    match matches.get_str(name) {
        Some(word) => word == "true",
        None => false,
    }
}

/// The number of the option `name`, from 1 to `last`, or `default`.
fn count_in(matches: &ArgMatches, name: &str, last: u16, default: u16) -> u16
    requires { default ≤ last }
    ensures count { IsCount last default (one_text (found_of matches.now) name.now) result }
    ensures most { result ≤ last }
{
    match matches.get_one::<u16>(name) {
        Some(n) if 1 <= n && n <= last => n,
        _ => default,
    }
}

/// What the matches of a command ask for, or none where they name no mode.
fn asked_in(matches: &ArgMatches) -> Option<Asked>
    ensures asked { IfSome result (IsMeant (texts_in (found_of matches.now))) }
    ensures none { IfNone result ((a : Asked) → ¬ (IsMeant (texts_in (found_of matches.now)) a)) }
{
    let threads = flag_in(matches, "threads");
    let rows = count_in(matches, "rows", 16, 1) as u8;
    let form = form_in(matches);
    let size = count_in(matches, "size", 1000, 1);
    let depth = count_in(matches, "depth", 64, 64) as u8;
    let repaint = flag_in(matches, "repaint");
    match matches.get_str("mode") {
        Some(word) => match mode_named(word) {
            Some(mode) => Some(Asked {
                mode,
                threads,
                rows,
                form,
                size,
                depth,
                repaint,
            }),
            None => None,
        },
        None => None,
    }
}

/// Why words are no command.
fn stop_of(error: &Error) -> WordsStop
    ensures memory { kind_of error.now ≡ ErrorKind.OutOfMemory → result ≡ WordsStop.NoMemory }
    ensures usage { kind_of error.now ≢ ErrorKind.OutOfMemory → result ≡ WordsStop.Usage }
{
    if error.kind() == ErrorKind::OutOfMemory {
        WordsStop::NoMemory
    } else {
        WordsStop::Usage
    }
}

/// Returns what `words`, without the program's name, ask for: they are accepted exactly where they are matches of the command
/// and name a mode that there is.
pub fn asked_by(alloc: Global, words: &[String]) -> Result<Asked, WordsStop>
    ensures asked { IfOk result (λ a. AskFor a words.now) }
    ensures usage { IfErr result (λ stop. stop ≡ WordsStop.Usage → ¬ (AreAccepted words.now)) }
{
    let Ok(command) = command(alloc) else {
        return Err(WordsStop::NoMemory);
    };
    match command.try_get_matches_from(words) {
        Ok(matches) => match asked_in(&matches) {
            Some(asked) => Ok(asked),
            None => Err(WordsStop::Usage),
        },
        Err(error) => Err(stop_of(&error)),
    }
}
