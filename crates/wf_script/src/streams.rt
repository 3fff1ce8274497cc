//! The words behind the verbs that paint.

ghost use Rattle.std.specs.Prelude.{◌≡◌, []};
ghost use Rattle.wf_script.specs.Given.{given};
ghost use Rattle.wf_script.specs.Rules.{Gives};
ghost use Rattle.wf_script.specs.Streams.{frame_words, paint_words};
ghost use Rattle.wf_script.specs.Words.{words_in};

use crate::field::Item;
use crate::line::Verb;
use crate::names::{handle_of, named};
use crate::paints::paint_of;
use crate::pick::first;
use crate::rule::{LineFault, Rule};
use arrayvec::ArrayVec;
use std::alloc::Global;

/// What is painted into the write buffer that was taken last.
#[tactic(auto, unfolding(crate::specs::Streams::paint_words))]
pub(crate) fn painting(alloc: Global, words: &[u8]) -> Result<Verb, LineFault>
    ensures { Gives (given []) result (paint_words (words_in words.now)) }
{
    let paint = paint_of(alloc, words)?;
    Ok(Verb::Paint(paint))
}

/// A stream, and what is painted into it. The stream's handle is put into `items`.
#[tactic(auto, unfolding(crate::specs::Streams::frame_words))]
pub(crate) fn frame<'a>(
    alloc: Global,
    words: &'a [u8],
    items: &mut ArrayVec<Item<'a>, 8>,
) -> Result<Verb, LineFault>
    requires { items.old.items ≡ [] }
    ensures { Gives (given items.new.items) result (frame_words (words_in words.now)) }
{
    let (word, words) = first(words)?;
    let paint = paint_of(alloc, words)?;
    let stream = handle_of(word).ok_or(Rule::Word)?;
    items.push(Item::Handle(stream));
    Ok(Verb::Frame {
        stream: named(stream),
        paint,
    })
}
