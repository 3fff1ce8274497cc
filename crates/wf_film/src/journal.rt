//! The journal of a film.

ghost use Rattle.std.specs.Prelude.{◌≡◌};
ghost use Rattle.wf_film.specs.Reading.{journal_at, turn_at, turns_at};
ghost use Rattle.wf_film.specs.Rules.{Finds, Gives};

use crate::fields::{byte_within, u32_of};
use crate::rule::{Breach, ReadStop};
use std::alloc::Global;
use wf_calls::{Order, Turn};

/// The bytes of an entry.
const ENTRY: usize = 6;

/// An entry.
#[tactic(auto, unfolding(crate::specs::Reading::turn_at))]
fn turn_of(bytes: &[u8]) -> Result<(Turn, &[u8]), Breach>
    ensures { Finds (λ x. (x.0, x.1.now)) result (turn_at bytes.now) }
{
    let (client, rest) = byte_within(0, 7, bytes)?;
    let (code, rest) = byte_within(0, 12, rest)?;
    let (value, rest) = u32_of(rest)?;
    Ok((
        Turn {
            client,
            code,
            value,
        },
        rest,
    ))
}

/// So many entries. A count that is higher than the bytes allow takes no memory.
fn turns_of(alloc: Global, count: u32, bytes: &[u8]) -> Result<(Vec<Turn>, &[u8]), ReadStop>
    ensures { Gives (λ x. (x.0.items, x.1.now)) result (turns_at count bytes.now) }
{
    let most = bytes.len() / ENTRY;
    let mut turns = Vec::with_capacity(alloc, most.min(count as usize))?;
    let mut rest = bytes;
    for _ in 0..count {
        let (turn, behind) = turn_of(rest)?;
        turns.push(turn)?;
        rest = behind;
    }
    Ok((turns, rest))
}

/// The journal, whose tag was read.
#[tactic(auto, unfolding(crate::specs::Reading::journal_at))]
pub(crate) fn journal_of(alloc: Global, bytes: &[u8]) -> Result<(Order, &[u8]), ReadStop>
    ensures { Gives (λ x. (x.0, x.1.now)) result (journal_at bytes.now) }
{
    let (count, rest) = u32_of(bytes)?;
    let (turns, rest) = turns_of(alloc, count, rest)?;
    Ok((Order::new(turns), rest))
}
