//! The numbers of a message's body.

ghost use Rattle.std.specs.Prelude.{◌≡◌, ◌+◌, ◌*◌, ◌≤◌, IfSome, IsTrue, length, option_map};
ghost use Rattle.wf_serve.specs.Bodies.{message_in, word_at, words, words_in};
ghost use Rattle.wf_wire.specs.Messages.{may_paint};

use arrayvec::ArrayVec;
use byteorder::{BigEndian, ByteOrder};
use wf_wire::Message;

/// The most arguments of a call.
const MOST_WORDS: usize = 9;

/// Returns the number at a `place` of eight bytes, counted from 0.
pub(crate) fn word_at(body: &[u8], place: usize) -> u64
    requires { 8 * place + 8 ≤ length body.now }
    ensures { result ≡ word_at body.now place }
{
    BigEndian::read_u64(&body[8 * place..])
}

/// Returns the first `count` numbers.
fn words_of(body: &[u8], count: usize) -> ArrayVec<u64, MOST_WORDS>
    requires most { count ≤ MOST_WORDS }
    requires within { 8 * count ≤ length body.now }
    ensures { result.items ≡ words count body.now }
{
    let mut found = ArrayVec::new();
    for place in 0..count {
        found.push(word_at(body, place));
    }
    found
}

/// Returns the numbers of a body that has nothing else, or `None` where it has more than those of a call.
fn words_in(body: &[u8]) -> Option<ArrayVec<u64, MOST_WORDS>>
    ensures { option_map (λ found. found.items) result ≡ words_in body.now }
{
    if body.len() > 8 * MOST_WORDS || body.len() % 8 != 0 {
        return None;
    }
    Some(words_of(body, body.len() / 8))
}

/// Returns what a message of `number` with this `body` asks for, or `None` where these are not its arguments.
pub(crate) fn message_in(number: u8, body: &[u8]) -> Option<Message>
    ensures message { result ≡ message_in number body.now }
    ensures paint { IfSome result (λ m. IsTrue (may_paint m)) }
{
    match words_in(body) {
        Some(found) => Message::of(number, &found),
        None => None,
    }
}
