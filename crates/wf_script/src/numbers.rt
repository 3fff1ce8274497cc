//! Words that stand for numbers.

ghost use Rattle.std.specs.Prelude.{◌≡◌, ◌<◌, ◌≤◌, ◌≤ℤ◌, IfSome};
ghost use Rattle.wf_script.specs.Words.{client_of, count_in, digits_of, integer_in, integer_of, is_digit, size_of};

use crate::words::cut_at;
use wf_pixel::{MOST_SIDE, Size};

/// The most digits of a number.
const MOST_DIGITS: usize = 10;

/// The greatest number that a word may stand for.
const GREATEST: u32 = u32::MAX;

/// Whether a byte is a decimal digit.
fn is_digit(byte: u8) -> bool
    ensures { result ≡ is_digit byte }
{
    b'0' <= byte && byte <= b'9'
}

/// The number that 1 to 10 digits stand for.
#[tactic(auto, using(std::proofs::lemmas::Bool::Decides::nat_tests, std::proofs::lemmas::List::Folds::list_all_at), unfolding(crate::specs::Words::digits_of))]
fn digits_of(word: &[u8]) -> Option<u64>
    ensures { result ≡ digits_of word.now }
{
    if word.is_empty() || word.len() > MOST_DIGITS {
        return None;
    }
    let mut value: u64 = 0;
    for digit in word {
        if !is_digit(*digit) {
            return None;
        }
        value = value * 10 + u64::from(*digit - b'0');
    }
    Some(value)
}

/// The number without a sign that a word stands for, where it is in a range.
#[tactic(auto, using(std::proofs::lemmas::Bool::Decides::nat_tests), unfolding(crate::specs::Words::count_in))]
pub(crate) fn count_in(low: u32, high: u32, word: &[u8]) -> Option<u32>
    ensures value { result ≡ count_in low high word.now }
    ensures within { IfSome result (λ n. (low ≤ n) × (n ≤ high)) }
{
    let count = digits_of(word)?;
    if u64::from(low) <= count && count <= u64::from(high) {
        Some(count as u32)
    } else {
        None
    }
}

/// The number with an optional minus that a word stands for.
#[tactic(auto, using(std::proofs::lemmas::Bool::Decides::nat_tests), unfolding(crate::specs::Words::integer_of))]
pub(crate) fn integer_of(word: &[u8]) -> Option<i64>
    ensures { result ≡ integer_of word.now }
{
    match word.split_first() {
        None => None,
        Some((b'-', digits)) => Some(-i64::from(count_in(0, GREATEST, digits)?)),
        Some(_) => Some(i64::from(count_in(0, GREATEST, word)?)),
    }
}

/// The number with an optional minus that a word stands for, where it is in a range.
#[tactic(auto, using(std::proofs::lemmas::Bool::Decides::nat_tests), unfolding(crate::specs::Words::integer_in))]
pub(crate) fn integer_in(low: i64, high: i64, word: &[u8]) -> Option<i64>
    ensures value { result ≡ integer_in low high word.now }
    ensures within { IfSome result (λ n. (low ≤ℤ n) × (n ≤ℤ high)) }
{
    let number = integer_of(word)?;
    if low <= number && number <= high {
        Some(number)
    } else {
        None
    }
}

/// The size that two sides with an `x` between stand for.
#[tactic(auto, unfolding(crate::specs::Words::size_of))]
pub(crate) fn size_of(word: &[u8]) -> Option<Size>
    ensures { result ≡ size_of word.now }
{
    let (w, h) = cut_at(word, b'x');
    let w = count_in(1, MOST_SIDE, w)?;
    let h = count_in(1, MOST_SIDE, h)?;
    Some(Size { w, h })
}

/// The client that one digit stands for.
pub(crate) fn client_of(word: &[u8]) -> Option<u8>
    ensures value { result ≡ client_of word.now }
    ensures small { IfSome result (λ n. n < 8) }
{
    if word.len() == 1 && b'0' <= word[0] && word[0] <= b'7' {
        Some(word[0] - b'0')
    } else {
        None
    }
}
