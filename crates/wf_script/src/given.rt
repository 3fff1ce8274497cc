//! What the words behind a verb give.

ghost use Rattle.std.specs.Prelude.{◌≡◌, []};
ghost use Rattle.wf_script.specs.Forms.{arguments, plain_words};
ghost use Rattle.wf_script.specs.Given.{given};
ghost use Rattle.wf_script.specs.Rules.{Gives};
ghost use Rattle.wf_script.specs.Words.{words_in};

use crate::field::Item;
use crate::form::{Form, Plain};
use crate::line::Verb;
use crate::making::verb_of;
use crate::rule::LineFault;
use crate::shapes::read_words;
use crate::streams::{frame, painting};
use arrayvec::ArrayVec;
use std::alloc::Global;

/// What the words behind a verb that does not paint ask for. Their items are put into `items`.
#[tactic(auto, unfolding(crate::specs::Forms::plain_words))]
fn plain_arguments<'a>(
    plain: Plain,
    words: &'a [u8],
    items: &mut ArrayVec<Item<'a>, 8>,
) -> Result<Verb, LineFault>
    requires { items.old.items ≡ [] }
    ensures { Gives (given items.new.items) result (plain_words plain (words_in words.now)) }
{
    read_words(plain, words, items)?;
    Ok(verb_of(plain, items.as_slice()))
}

/// What the words behind a verb of this form ask for. Their items, with the names that it uses, are put into `items`, where none stood:
/// they stay where they are read, since they are large.
pub(crate) fn arguments<'a>(
    alloc: Global,
    form: Form,
    words: &'a [u8],
    items: &mut ArrayVec<Item<'a>, 8>,
) -> Result<Verb, LineFault>
    requires { items.old.items ≡ [] }
    ensures { Gives (given items.new.items) result (arguments form (words_in words.now)) }
{
    match form {
        Form::Paint => painting(alloc, words),
        Form::Frame => frame(alloc, words, items),
        Form::Plain(plain) => plain_arguments(plain, words, items),
    }
}
