//! What a play of a case is made of.

use std::alloc::{AllocError, Global};
use wf_calls::Turn;
use wf_cases::{bytes_of, number, push_hex, word, words_of};

/// The most bytes that a play puts here.
pub(crate) const ROOM: usize = 65_536;

/// The words and the input of a play, how many of its bytes are its script's, how many bytes the source gives in a call and the sink takes
/// in one, and what has to come: the bytes of a whole play, and the turns of its order.
#[derive(Drop)]
pub(crate) struct Parts {
    pub(crate) words: Vec<String>,
    pub(crate) input: Vec<u8>,
    pub(crate) script: usize,
    pub(crate) step: usize,
    pub(crate) most: usize,
    pub(crate) wanted: Vec<u8>,
    pub(crate) turns: Vec<Turn>,
}

/// How many bytes there are.
fn told(alloc: Global, bytes: &[u8]) -> Result<String, AllocError> {
    format!(in alloc; "{} bytes", bytes.len())
}

impl Parts {
    /// Nothing, read whole.
    pub(crate) fn opened(alloc: Global) -> Parts {
        Parts {
            words: Vec::new(alloc),
            input: Vec::new(alloc),
            script: 0,
            step: 4096,
            most: ROOM,
            wanted: Vec::new(alloc),
            turns: Vec::new(alloc),
        }
    }

    /// Takes a part, where the verb is one of a part: `words WORD ..` the words of the command line, `step COUNT` and `most COUNT`.
    /// What was taken before is added to by `script TEXT`, `bytes HEX` and `spaces COUNT` (the input), `text TEXT` and `film HEX` (what
    /// a whole play puts), and `turn CLIENT CODE VALUE`. `order COUNT` takes the turns of the film. `anew` drops all of that.
    pub(crate) fn take(
        &mut self,
        alloc: Global,
        verb: &str,
        rest: &str,
    ) -> Result<Option<String>, AllocError> {
        let words = words_of(alloc, rest)?;
        let words = words.as_slice();
        let came = match verb {
            "words" => {
                self.words = Vec::new(alloc);
                for word in words.iter() {
                    self.words.push(String::from_str(alloc, word)?)?;
                }
                format!(in alloc; "{} words", self.words.len())?
            }
            "step" => {
                self.step = number::<usize>(words, 0).max(1);
                format!(in alloc; "{}", self.step)?
            }
            "most" => {
                self.most = number::<usize>(words, 0).max(1);
                format!(in alloc; "{}", self.most)?
            }
            "script" => {
                self.input.extend_from_slice(&bytes_of(alloc, rest)?)?;
                self.script = self.input.len();
                told(alloc, &self.input)?
            }
            "bytes" => {
                push_hex(&mut self.input, word(words, 0))?;
                told(alloc, &self.input)?
            }
            "spaces" => {
                for _ in 0..number::<u32>(words, 0) {
                    self.input.push(b' ')?;
                }
                told(alloc, &self.input)?
            }
            "text" => {
                self.wanted.extend_from_slice(&bytes_of(alloc, rest)?)?;
                told(alloc, &self.wanted)?
            }
            "film" => {
                push_hex(&mut self.wanted, word(words, 0))?;
                told(alloc, &self.wanted)?
            }
            "turn" => {
                self.turns.push(Turn {
                    client: number(words, 0),
                    code: number(words, 1),
                    value: number(words, 2),
                })?;
                format!(in alloc; "{} turns", self.turns.len())?
            }
            "order" => {
                self.order(number(words, 0))?;
                format!(in alloc; "{} turns", self.turns.len())?
            }
            "anew" => {
                self.input = Vec::new(alloc);
                self.script = 0;
                self.wanted = Vec::new(alloc);
                self.turns = Vec::new(alloc);
                format!(in alloc; "nothing")?
            }
            _ => return Ok(None),
        };
        Ok(Some(came))
    }

    /// Takes so many turns from the journal of the film that is wanted: they stand before its last byte.
    fn order(&mut self, count: usize) -> Result<(), AllocError> {
        let last = self.wanted.len().saturating_sub(1);
        let first = last.saturating_sub(count.saturating_mul(6));
        let entries = self.wanted.get(first..last).unwrap_or(&[]);
        for entry in entries.chunks_exact(6) {
            let mut value = 0u32;
            for byte in entry.iter().skip(2) {
                value = value.wrapping_mul(256).wrapping_add(u32::from(*byte));
            }
            self.turns.push(Turn {
                client: entry[0],
                code: entry[1],
                value,
            })?;
        }
        Ok(())
    }
}
