//! The parts of an event line.

ghost use Rattle.std.specs.Prelude.{◌≡◌, IfOk, option_map};
ghost use Rattle.wf_script.specs.Grammar.{bound_name, has_its_name, is_its_client, parts_of};
ghost use Rattle.wf_script.specs.Reader.{FindsParts};
ghost use Rattle.wf_script.specs.Words.{words_in};

use crate::form::{Form, Plain};
use crate::name::Name;
use crate::names::name_of;
use crate::rule::Rule;
use crate::words::next_word;

/// The words of an event line behind its client: the word before `=`, where there is one, the verb, and what is behind
/// it.
#[derive(Clone, Copy)]
pub(crate) struct Parts<'a> {
    pub name: Option<&'a [u8]>,
    pub verb: &'a [u8],
    pub arguments: &'a [u8],
}

/// The parts of an event line.
#[tactic(auto, unfolding(crate::specs::Grammar::parts_of))]
pub(crate) fn parts_of(words: &[u8]) -> Result<Parts<'_>, Rule>
    ensures { FindsParts result (parts_of (words_in words.now)) }
{
    let (first, behind) = next_word(words).ok_or(Rule::Verb)?;
    let Some((second, rest)) = next_word(behind) else {
        return Ok(Parts {
            name: None,
            verb: first,
            arguments: behind,
        });
    };
    if second != b"=".as_slice() {
        return Ok(Parts {
            name: None,
            verb: first,
            arguments: behind,
        });
    }
    let (verb, arguments) = next_word(rest).ok_or(Rule::Verb)?;
    Ok(Parts {
        name: Some(first),
        verb,
        arguments,
    })
}

/// Whether a name stands in front exactly where the form makes something.
pub(crate) fn has_its_name(form: Form, name: Option<&[u8]>) -> bool
    ensures { result ≡ has_its_name form (option_map (λ w. w.now) name.entry) }
{
    match name {
        Some(_) => form.binds(),
        None => !form.binds(),
    }
}

/// Whether a client may have a line of this form.
pub(crate) fn is_its_client(form: Form, client: u8) -> bool
    ensures { result ≡ is_its_client form client }
{
    match form {
        Form::Plain(Plain::Tick) => client == 0,
        _ => true,
    }
}

/// The name that a line binds, if it binds one.
#[tactic(auto, unfolding(crate::specs::Words::name_of))]
pub(crate) fn bound_name(word: Option<&[u8]>) -> Result<Option<Name>, Rule>
    ensures value { result ≡ bound_name (option_map (λ w. w.now) word.entry) }
    ensures same { IfOk result (λ name. name ≡ option_map (λ w. w.now) word.entry) }
{
    match word {
        Some(word) => {
            let name = name_of(word).ok_or(Rule::Word)?;
            Ok(Some(name))
        }
        None => Ok(None),
    }
}
