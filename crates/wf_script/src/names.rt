//! Words that stand for names.

ghost use Rattle.std.specs.Prelude.{◌≡◌, ◌&&◌, true, Some, option_map};
ghost use Rattle.std.specs.List.{list_all};
ghost use Rattle.wf_script.specs.Words.{handle_of, is_name, is_name_byte, name_of, starts_as_name};

use crate::name::Name;
use arrayvec::ArrayString;
use std::str;

/// The word for no handle.
const NONE: &[u8] = b"none";

/// Whether a byte may stand in a name.
fn is_name_byte(byte: u8) -> bool
    ensures { result ≡ is_name_byte byte }
{
    (b'a' <= byte && byte <= b'z') || (b'0' <= byte && byte <= b'9') || byte == b'_'
}

/// Whether each byte may stand in a name.
fn are_name_bytes(bytes: &[u8]) -> bool
    ensures { result ≡ list_all is_name_byte bytes.now }
{
    bytes.iter().all(|byte| is_name_byte(*byte))
}

/// Whether a word has the letters of a name.
#[tactic(auto, using(std::proofs::lemmas::Bool::Decides::nat_tests))]
fn starts_as_name(word: &[u8]) -> bool
    ensures { result ≡ starts_as_name word.now }
{
    match word.split_first() {
        None => false,
        Some((first, rest)) => b'a' <= *first && *first <= b'z' && are_name_bytes(rest),
    }
}

/// Whether a word is a name.
fn is_name(word: &[u8]) -> bool
    ensures { result ≡ is_name word.now }
{
    starts_as_name(word) && word.len() <= 16 && word != NONE
}

/// The name that a word is.
#[tactic(auto, using(crate::proofs::NameText::name_is_text), unfolding(crate::specs::Words::name_of))]
pub(crate) fn name_of(word: &[u8]) -> Option<Name>
    ensures { result ≡ name_of word.now }
{
    if !is_name(word) {
        return None;
    }
    let text = str::from_utf8(word).ok()?;
    let text = ArrayString::from(text).ok()?;
    Some(Name::new(text))
}

/// The letters of a name, where they stand in a text.
#[derive(Clone, Copy)]
pub(crate) struct Letters<'a> {
    pub word: &'a [u8],
    ghost is_name: { is_name word.now ≡ true },
}

impl<'a> Letters<'a> {
    /// The name.
    #[tactic(auto, unfolding(crate::specs::Words::name_of))]
    pub(crate) fn name(self) -> Option<Name>
        ensures { result ≡ Some self.entry.word.now }
    {
        name_of(self.word)
    }
}

/// The name of a handle's letters, where it has some.
pub(crate) fn named(letters: Option<Letters<'_>>) -> Option<Name>
    ensures { result ≡ option_map (λ l. l.word.now) letters.entry }
{
    match letters {
        Some(letters) => letters.name(),
        None => None,
    }
}

/// The letters of a handle's word, which has none where it is `none`.
#[tactic(auto, unfolding(crate::specs::Words::handle_of, crate::specs::Words::name_of))]
pub(crate) fn handle_of(word: &[u8]) -> Option<Option<Letters<'_>>>
    ensures { option_map (λ letters. option_map (λ l. l.word.now) letters) result ≡ handle_of word.now }
{
    if word == NONE {
        return Some(None);
    }
    if !is_name(word) {
        return None;
    }
    Some(Some(Letters { word }))
}
