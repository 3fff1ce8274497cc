//! The lines of a script with what their comments say.

use crate::checks::{told_check, told_log};
use crate::events::{Journal, is_code};
use crate::films::{frame_of, told_film, told_frame};
use crate::plays::{OF_ONE, Plays};
use std::alloc::{AllocError, Global};
use std::io;
use std::sync::Wait;
use std::thread::Threads;
use wf_cases::{word, words_of};
use wf_play::Status;
use wf_plays::Played;

/// How many comments were compared, and how many were wrong.
#[derive(Clone, Copy, Default)]
pub(crate) struct Checked {
    pub(crate) said: u64,
    pub(crate) wrong: u64,
}

/// A script that is being compared, and how many ticks were passed.
#[derive(Drop)]
struct Script<'a> {
    text: &'a str,
    plays: &'a Plays,
    journal: Journal<'a>,
    ticks: usize,
}

/// What came, and what a comment says of it.
#[derive(Drop)]
struct Said<'a> {
    came: String,
    said: &'a str,
}

/// What is wanted, up to a `:` behind which stands what a person wants to know.
fn before_colon(said: &str) -> &str {
    let (said, _) = said.split_once(':').unwrap_or((said, ""));
    said.trim()
}

/// Compares each comment with what came, and prints each that says otherwise.
pub(crate) fn check_text<R: Threads + Wait + Sync + Print + AllocGlobal>(
    rt: &R,
    name: &str,
    text: &str,
    plays: &Plays,
    checked: &mut Checked,
) -> io::Result<()> {
    let played = &plays.played;
    if played.status != Status::Done {
        checked.wrong = checked.wrong.saturating_add(1);
        return println!(rt; "{name}: {:?}", played.status);
    }
    if !plays.repainted {
        checked.wrong = checked.wrong.saturating_add(1);
        println!(rt; "{name}: another film with --repaint")?;
    }
    let mut script = Script {
        text,
        plays,
        journal: Journal::new(played.order.turns()),
        ticks: 0,
    };
    for (place, line) in text.lines().enumerate() {
        let Some(Said { came, said }) = script.line(rt, line)? else {
            continue;
        };
        checked.said = checked.said.saturating_add(1);
        let came = came.trim();
        if came != said {
            checked.wrong = checked.wrong.saturating_add(1);
            let number = place.saturating_add(1);
            println!(rt; "{name}:{number}: {came}, and not {said}")?;
        }
    }
    Ok(())
}

impl<'a> Script<'a> {
    /// What a line's comment says, if it says something, and what came.
    fn line<'b, R: Threads + Wait + Sync + AllocGlobal>(
        &mut self,
        rt: &R,
        line: &'b str,
    ) -> io::Result<Option<Said<'b>>> {
        let alloc = rt.alloc();
        let (line, comment) = line.split_once('#').unwrap_or((line, ""));
        let comment = comment.trim();
        let words = words_of(alloc, line)?;
        let came = self.journal.told(alloc, &words)?;
        if word(&words, 1) == "tick" {
            self.ticks = self.ticks.saturating_add(1);
        }
        if let (Some(said), Some(played)) = (comment.strip_prefix(OF_ONE), &self.plays.of_one) {
            return self.film(rt, played, said.trim());
        }
        let (first, rest) = comment.split_once(' ').unwrap_or((comment, ""));
        match first {
            "port" if rest.contains(": ") => Ok(self.frame(alloc, rest)?),
            "film:" => self.film(rt, &self.plays.played, rest),
            _ if is_code(first) => Ok(Some(Said {
                came,
                said: before_colon(comment),
            })),
            _ => Ok(None),
        }
    }

    /// What is said of a port's frame: `N: WHAT is WANTED`.
    fn frame<'b>(&self, alloc: Global, said: &'b str) -> Result<Option<Said<'b>>, AllocError> {
        let (port, said) = said.split_once(": ").unwrap_or(("", said));
        let (what, said) = said.split_once(" is ").unwrap_or(("", said));
        let words = words_of(alloc, what)?;
        let port = port.parse::<usize>().unwrap_or(0);
        let came = match frame_of(self.plays.played.film.bytes(), self.ticks, port) {
            Some(frame) => told_frame(alloc, frame, &words)?,
            None => format!(in alloc; "no frame")?,
        };
        let said = before_colon(said);
        Ok(Some(Said { came, said }))
    }

    /// What is said of a film: `WHAT is WANTED`.
    fn film<'b, R: Threads + Wait + Sync + AllocGlobal>(
        &self,
        rt: &R,
        played: &Played,
        said: &'b str,
    ) -> io::Result<Option<Said<'b>>> {
        let (what, said) = said.split_once(" is ").unwrap_or(("", said));
        let (alloc, film) = (rt.alloc(), played.film.bytes());
        let words = words_of(alloc, what)?;
        let came = match words.split_first() {
            Some((&"check", changes)) => told_check(rt, self.text, film, changes)?,
            Some((&"log", words)) => told_log(rt, self.text, film, words)?,
            _ => told_film(alloc, film, played.order.turns().len(), what)?,
        };
        let said = before_colon(said);
        Ok(Some(Said { came, said }))
    }
}
