//! Words by their kinds, from the front of a text.

ghost use Rattle.std.specs.Prelude.{◌≡◌, ◌+◌, ◌≤◌, length};
ghost use Rattle.wf_script.specs.Pick.{counted, first, first_as};
ghost use Rattle.wf_script.specs.Rules.{FirstWord, Reads};
ghost use Rattle.wf_script.specs.Words.{count_in, words_in};

use crate::numbers::count_in;
use crate::rule::Rule;
use crate::words::next_word;

/// How many words a text has.
pub(crate) fn word_count(text: &[u8]) -> usize
    ensures { result ≡ length (words_in text.now) }
{
    let mut rest = text;
    let mut count = 0;
    while let Some((_, behind)) = next_word(rest) {
        rest = behind;
        count += 1;
    }
    count
}

/// Whether a text has so many words.
pub(crate) fn counted(count: usize, text: &[u8]) -> Result<(), Rule>
    ensures { result ≡ counted count (words_in text.now) }
{
    if word_count(text) == count {
        Ok(())
    } else {
        Err(Rule::Count)
    }
}

/// The first word, and what stands behind it.
pub(crate) fn first(text: &[u8]) -> Result<(&[u8], &[u8]), Rule>
    ensures { FirstWord result (first (words_in text.now)) }
{
    next_word(text).ok_or(Rule::Count)
}

/// A number without a sign, in a range.
pub(crate) fn count(low: u32, high: u32, text: &[u8]) -> Result<(u32, &[u8]), Rule>
    ensures { Reads result (first_as (count_in low high) (words_in text.now)) }
{
    let (word, behind) = first(text)?;
    let count = count_in(low, high, word).ok_or(Rule::Word)?;
    Ok((count, behind))
}
