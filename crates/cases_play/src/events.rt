//! Which events of the journal a line of a script made. Serial play plays one line after another, so they stand together.

use std::alloc::{AllocError, Global};
use wf_calls::Turn;
use wf_cases::word;

/// The codes of answers, each at its number.
const CODES: [&str; 13] = [
    "Ok",
    "OutOfMemory",
    "IllegalArgument",
    "Unsupported",
    "NotSupported",
    "BadAttribute",
    "InUse",
    "Busy",
    "NoBuffer",
    "BadDevice",
    "BadHandle",
    "Inconsistency",
    "Limit",
];

/// Whether a word is a code.
pub(crate) fn is_code(word: &str) -> bool {
    CODES.iter().any(|code| *code == word)
}

/// The events that no line was told of yet, which clients hold a canvas, and how many ports there are.
#[derive(Drop)]
pub(crate) struct Journal<'a> {
    turns: &'a [Turn],
    held: [bool; 8],
    ports: u32,
}

/// The answers of a line's events.
#[derive(Drop)]
struct Answers {
    alloc: Global,
    told: String,
}

impl Answers {
    /// One more answer.
    fn push(&mut self, turn: Turn) -> Result<(), AllocError> {
        let code = CODES.get(usize::from(turn.code)).copied().unwrap_or("?");
        let comma = if self.told.is_empty() { "" } else { ", " };
        let value = turn.value;
        let answer = format!(in self.alloc; "{comma}{code} {value}")?;
        self.told.push_str(&answer)
    }
}

impl<'a> Journal<'a> {
    /// All events of an order.
    pub(crate) fn new(turns: &'a [Turn]) -> Journal<'a> {
        Journal {
            turns,
            held: [false; 8],
            ports: 0,
        }
    }

    /// How many events no line was told of.
    pub(crate) fn left(&self) -> usize {
        self.turns.len()
    }

    /// The next event's answer, or a code that there is not where no event is left.
    fn next(&mut self, answers: &mut Answers) -> Result<Turn, AllocError> {
        let Some((turn, rest)) = self.turns.split_first() else {
            return Ok(Turn {
                client: 0,
                code: 255,
                value: 0,
            });
        };
        self.turns = rest;
        answers.push(*turn)?;
        Ok(*turn)
    }

    /// The answers of a line's events, one behind another.
    pub(crate) fn told(&mut self, alloc: Global, words: &[&str]) -> Result<String, AllocError> {
        let mut answers = Answers {
            alloc,
            told: String::new(alloc),
        };
        if word(words, 0) == "port" {
            self.ports = self.ports.saturating_add(1);
        }
        if let Some(client @ 0..=7) = word(words, 0).parse::<usize>().ok() {
            let verb = if word(words, 2) == "=" {
                word(words, 3)
            } else {
                word(words, 1)
            };
            self.line(client, verb, &mut answers)?;
        }
        Ok(answers.told)
    }

    /// The events of a line of a client.
    fn line(&mut self, client: usize, verb: &str, answers: &mut Answers) -> Result<(), AllocError> {
        let held = self.held.get(client).copied().unwrap_or(false);
        let held = match verb {
            "paint" => held,
            "acquire" if !held => self.next(answers)?.code == 0,
            "frame" if !held && self.next(answers)?.code == 0 => self.next(answers)?.code != 0,
            "post" | "discard" if held => self.next(answers)?.code != 0,
            "acquire" | "frame" | "post" | "discard" => held,
            "tick" => {
                self.tick(answers)?;
                held
            }
            "compose" | "trycompose" => {
                if self.next(answers)?.code == 0 {
                    self.next(answers)?;
                }
                held
            }
            _ => {
                self.next(answers)?;
                held
            }
        };
        if let Some(place) = self.held.get_mut(client) {
            *place = held;
        }
        Ok(())
    }

    /// The events of a tick: contexts are begun and ended until there is no more, or sixteen times, and then the ports.
    fn tick(&mut self, answers: &mut Answers) -> Result<(), AllocError> {
        for _ in 0..16 {
            let begin = self.next(answers)?;
            if begin.value == 0 {
                break;
            }
            if begin.code == 0 {
                self.next(answers)?;
            }
        }
        for _ in 0..self.ports {
            let begin = self.next(answers)?;
            if begin.code == 0 && begin.value != 0 {
                self.next(answers)?;
            }
        }
        Ok(())
    }
}
