//! The words that are printed.

ghost use Rattle.std.specs.Prelude.{◌≡◌, ◌+◌, ◌*◌, ◌≤◌, ◌++◌, codes, decimal, flat_map, length, map, IsTrue};
ghost use Rattle.std.specs.List.{list_all};
ghost use Rattle.wf_script.specs.Canonical.{hex_pixel_word, size_word};
ghost use Rattle.wf_script.specs.Fields.{item_word};
ghost use Rattle.wf_script.specs.Spelled.{handle_word, integer_word};
ghost use Rattle.wf_script.specs.Text.{Adds, extent};
ghost use Rattle.wf_script.specs.Token.{is_short, shown_item, shown_word, spaced, token_word};

use crate::hex::hex_of;
use crate::name::Name;
use crate::spelled::{
    context_attr_word, element_attr_word, filter_word, format_word, pipe_attr_word, port_attr_word,
    stat_word, transition_word, transparency_word,
};
use crate::text::Text;
use crate::{ROW_DIGITS, WORD_ROOM};
use itoa::Buffer;
use wf_calls::{PipeAttr, PortAttr, StatWord, Transition};
use wf_io::Sink;
use wf_pixel::{Format, Rgba, Size};
use wf_scene::{ContextAttr, ElementAttr};

/// A word of a kind that forms have, by what it says.
#[derive(Clone, Copy)]
pub(crate) enum Shown<'a> {
    Handle(&'a Option<Name>),
    Number(&'a i64),
    Format(Format),
    Stat(StatWord),
    ElementAttr(ElementAttr),
    ContextAttr(ContextAttr),
    PortAttr(PortAttr),
    PipeAttr(PipeAttr),
    Filter(i64),
    Transparency(i64),
    Transition(Transition),
}

/// A word, by what it says.
#[derive(Clone, Copy)]
pub(crate) enum Token<'a> {
    /// Just these letters.
    Letters(&'a [u8]),
    Shown(Shown<'a>),
    Count(u32),
    Place(i32),
    Size(Size),
    Pixels(&'a [Rgba]),
}

/// Adds a number.
#[tactic(auto, using(crate::proofs::Tokens::integer_word_signed))]
fn add_number<K: Sink>(text: &mut Text, k: &mut K, number: i64)
    ensures adds { Adds K.took K.faults text.old k.old text.new k.new (integer_word number) }
    ensures most { extent text.new ≤ extent text.old + 20 }
{
    text.add(k, Buffer::new().format(number).as_bytes());
}

/// Adds a number without a sign.
pub(crate) fn add_count<K: Sink>(text: &mut Text, k: &mut K, count: u32)
    ensures adds { Adds K.took K.faults text.old k.old text.new k.new (decimal count) }
    ensures most { extent text.new ≤ extent text.old + 10 }
{
    text.add(k, Buffer::new().format(count).as_bytes());
}

/// Adds a handle.
fn add_handle<K: Sink>(text: &mut Text, k: &mut K, handle: &Option<Name>)
    ensures adds { Adds K.took K.faults text.old k.old text.new k.new (handle_word handle.now) }
    ensures most { extent text.new ≤ extent text.old + 16 }
{
    match handle {
        None => text.add(k, b"none"),
        Some(name) => text.add(k, name.as_bytes()),
    }
}

/// Adds a size.
#[tactic(auto, using(crate::proofs::Additions::adds_both))]
fn add_size<K: Sink>(text: &mut Text, k: &mut K, size: Size)
    ensures adds { Adds K.took K.faults text.old k.old text.new k.new (size_word size) }
    ensures most { extent text.new ≤ extent text.old + 21 }
{
    add_count(text, k, size.w);
    text.add(k, b"x");
    add_count(text, k, size.h);
}

/// Adds pixels.
#[tactic(auto, using(crate::proofs::Additions::adds_none))]
fn add_pixels<K: Sink>(text: &mut Text, k: &mut K, pixels: &[Rgba])
    ensures adds { Adds K.took K.faults text.old k.old text.new k.new (flat_map hex_pixel_word pixels.now) }
    ensures most { extent text.new ≤ extent text.old + 8 * length pixels.now }
{
    for pixel in pixels {
        text.add(k, &hex_of(*pixel));
    }
}

/// Adds a word of a kind that forms have.
fn add_shown<K: Sink>(text: &mut Text, k: &mut K, shown: Shown<'_>)
    ensures adds { Adds K.took K.faults text.old k.old text.new k.new (item_word (shown_item shown.entry)) }
    ensures most { extent text.new ≤ extent text.old + 64 }
{
    match shown {
        Shown::Handle(handle) => add_handle(text, k, handle),
        Shown::Number(number) => add_number(text, k, *number),
        Shown::Format(format) => text.add(k, format_word(format)),
        Shown::Stat(what) => text.add(k, stat_word(what)),
        Shown::ElementAttr(attr) => text.add(k, element_attr_word(attr)),
        Shown::ContextAttr(attr) => text.add(k, context_attr_word(attr)),
        Shown::PortAttr(attr) => text.add(k, port_attr_word(attr)),
        Shown::PipeAttr(attr) => text.add(k, pipe_attr_word(attr)),
        Shown::Filter(number) => text.add(k, filter_word(number)),
        Shown::Transparency(number) => text.add(k, transparency_word(number)),
        Shown::Transition(transition) => text.add(k, transition_word(transition)),
    }
}

/// Adds a word.
fn add_token<K: Sink>(text: &mut Text, k: &mut K, token: &Token<'_>)
    requires { IsTrue (is_short token.now) }
    ensures adds { Adds K.took K.faults text.old k.old text.new k.new (token_word token.now) }
    ensures most { extent text.new ≤ extent text.old + ROW_DIGITS }
{
    match token {
        Token::Letters(letters) => text.add(k, letters),
        Token::Shown(shown) => add_shown(text, k, *shown),
        Token::Count(count) => add_count(text, k, *count),
        Token::Place(place) => add_number(text, k, i64::from(*place)),
        Token::Size(size) => add_size(text, k, *size),
        Token::Pixels(pixels) => add_pixels(text, k, pixels),
    }
}

/// Adds a word behind a space.
#[tactic(auto, using(crate::proofs::Additions::adds_both))]
pub(crate) fn add_word<K: Sink>(text: &mut Text, k: &mut K, token: &Token<'_>)
    requires { IsTrue (is_short token.now) }
    ensures adds { Adds K.took K.faults text.old k.old text.new k.new (codes " " ++ token_word token.now) }
    ensures most { extent text.new ≤ extent text.old + WORD_ROOM }
{
    text.add(k, b" ");
    add_token(text, k, token);
}

/// Adds words, each behind a space.
#[tactic(auto, using(crate::proofs::Additions::adds_none, std::proofs::lemmas::List::Folds::list_all_at), unfolding(crate::specs::Token::spaced))]
pub(crate) fn add_words<K: Sink>(text: &mut Text, k: &mut K, tokens: &[Token<'_>])
    requires { IsTrue (list_all is_short tokens.now) }
    ensures adds { Adds K.took K.faults text.old k.old text.new k.new (spaced (map token_word tokens.now)) }
    ensures most { extent text.new ≤ extent text.old + WORD_ROOM * length tokens.now }
{
    for token in tokens {
        add_word(text, k, token);
    }
}

/// Adds words of kinds that forms have, each behind a space.
#[tactic(auto, using(crate::proofs::Additions::adds_none), unfolding(crate::specs::Token::spaced))]
pub(crate) fn add_all_shown<K: Sink>(text: &mut Text, k: &mut K, shown: &[Shown<'_>])
    ensures adds { Adds K.took K.faults text.old k.old text.new k.new (spaced (map shown_word shown.now)) }
    ensures most { extent text.new ≤ extent text.old + WORD_ROOM * length shown.now }
{
    for one in shown {
        add_word(text, k, &Token::Shown(*one));
    }
}
