//! The words of a call.

use std::alloc::{AllocError, Global};
use std::str::FromStr;

/// Returns the words of a call.
pub fn words_of<'a>(alloc: Global, call: &'a str) -> Result<Vec<&'a str>, AllocError> {
    call.split_whitespace().collect(alloc)
}

/// Returns the word at a place, or an empty one.
pub fn word<'a>(words: &[&'a str], at: usize) -> &'a str {
    words.get(at).copied().unwrap_or("")
}

/// Returns the number that a word stands for, or 0 where it is none of this type.
pub fn number<N: FromStr + Default + Drop>(words: &[&str], at: usize) -> N
where
    N::Err: Drop,
{
    word(words, at).parse::<N>().ok().unwrap_or(N::default())
}

/// Reads the value of an attribute from up to four words. A number for which there is none is 0.
pub fn value(words: &[&str], at: usize) -> [i64; 4] {
    let at = at.min(10_000);
    [
        number(words, at),
        number(words, at + 1),
        number(words, at + 2),
        number(words, at + 3),
    ]
}
