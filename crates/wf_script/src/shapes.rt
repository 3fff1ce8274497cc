//! Words by the kinds that a form has.

ghost use Rattle.std.specs.Prelude.{◌≡◌, ◌+◌, ◌≤◌, [], length, IfOk, OnOk};
ghost use Rattle.std.specs.List.{slice_get};
ghost use Rattle.wf_script.specs.Fields.{context_fields, element_fields, pipe_fields, port_fields, read_shape};
ghost use Rattle.wf_script.specs.Forms.{fields, shape};
ghost use Rattle.wf_script.specs.Items.{IsShape, IsWordAt, ReadsOn, items_of};
ghost use Rattle.wf_script.specs.Rules.{Finds};
ghost use Rattle.wf_script.specs.Words.{words_in};

use crate::field::{Field, Item};
use crate::form::Plain;
use crate::pick::{counted, first};
use crate::rule::Rule;
use crate::word_tables::{context_attr_of, element_attr_of, pipe_attr_of, port_attr_of};
use crate::words::next_word;
use arrayvec::ArrayVec;
use wf_calls::{PipeAttr, PortAttr};
use wf_scene::{ContextAttr, ElementAttr};

/// The kinds of the words of what an element's attribute is set to.
pub(crate) fn element_fields(attr: ElementAttr) -> &'static [Field]
    ensures fields { result.now ≡ element_fields attr }
    ensures few { length result.now ≤ 4 }
{
    match attr {
        ElementAttr::Dest | ElementAttr::SrcRect => {
            &[Field::Number, Field::Number, Field::Number, Field::Number]
        }
        ElementAttr::Source | ElementAttr::Mask => &[Field::Handle],
        ElementAttr::Filter => &[Field::Filter],
        ElementAttr::Transparency => &[Field::Transparency],
        ElementAttr::Flip | ElementAttr::Rotation | ElementAttr::Alpha => &[Field::Number],
    }
}

/// The kinds of the words of what a context's attribute is set to.
pub(crate) fn context_fields(attr: ContextAttr) -> &'static [Field]
    ensures fields { result.now ≡ context_fields attr }
    ensures few { length result.now ≤ 4 }
{
    match attr {
        ContextAttr::Background => &[Field::Number, Field::Number, Field::Number, Field::Number],
        _ => &[Field::Number],
    }
}

/// The kinds of the words of what a port's attribute is set to.
pub(crate) fn port_fields(attr: PortAttr) -> &'static [Field]
    ensures fields { result.now ≡ port_fields attr }
    ensures few { length result.now ≤ 4 }
{
    match attr {
        PortAttr::Background => &[Field::Number, Field::Number, Field::Number],
        _ => &[Field::Number],
    }
}

/// The kinds of the words of what a pipeline's attribute is set to.
pub(crate) fn pipe_fields(attr: PipeAttr) -> &'static [Field]
    ensures fields { result.now ≡ pipe_fields attr }
    ensures few { length result.now ≤ 4 }
{
    match attr {
        PipeAttr::Dest | PipeAttr::SrcRect => {
            &[Field::Number, Field::Number, Field::Number, Field::Number]
        }
        PipeAttr::Filter => &[Field::Filter],
        PipeAttr::Transparency => &[Field::Transparency],
        _ => &[Field::Number],
    }
}

/// The second word of a text.
fn second(words: &[u8]) -> Result<&[u8], Rule>
    ensures { IsWordAt result (slice_get (words_in words.now) 1) }
{
    let (_, words) = first(words)?;
    let (word, _) = first(words)?;
    Ok(word)
}

/// The third word of a text.
fn third(words: &[u8]) -> Result<&[u8], Rule>
    ensures { IsWordAt result (slice_get (words_in words.now) 2) }
{
    let (_, words) = first(words)?;
    second(words)
}

/// The kinds of the words behind those that each line of a form has: where it sets an attribute, those of the attribute's value.
fn more_fields(plain: Plain, words: &[u8]) -> Result<&'static [Field], Rule>
    ensures shape { IsShape (fields plain) result (shape plain (words_in words.now)) }
    ensures few { IfOk result (λ more. length more.now ≤ 4) }
{
    match plain {
        Plain::ElementSet => {
            let attr = element_attr_of(third(words)?).ok_or(Rule::Word)?;
            Ok(element_fields(attr))
        }
        Plain::ContextSet => {
            let attr = context_attr_of(third(words)?).ok_or(Rule::Word)?;
            Ok(context_fields(attr))
        }
        Plain::PortSet => {
            let attr = port_attr_of(second(words)?).ok_or(Rule::Word)?;
            Ok(port_fields(attr))
        }
        Plain::PipeSet => {
            let attr = pipe_attr_of(second(words)?).ok_or(Rule::Word)?;
            Ok(pipe_fields(attr))
        }
        _ => Ok(&[]),
    }
}

/// Reads the first words of a text by their kinds, behind items that were read before.
fn read_on<'a>(
    items: &mut ArrayVec<Item<'a>, 8>,
    fields: &[Field],
    words: &'a [u8],
) -> Result<&'a [u8], Rule>
    requires { length items.old.items + length fields.now ≤ 8 }
    ensures read { ReadsOn (items_of items.old.items) fields.now (words_in words.now) (items_of items.new.items) result }
    ensures count { OnOk result (length items.new.items ≡ length items.old.items + length fields.now) }
{
    let mut rest = words;
    for field in fields {
        let Some((word, behind)) = next_word(rest) else {
            return Err(Rule::Count);
        };
        match field.read(word) {
            Some(item) => items.push(item),
            None => return Err(Rule::Word),
        }
        rest = behind;
    }
    Ok(rest)
}

/// Puts the items of the words behind a verb into `items`, where none stood.
pub(crate) fn read_words<'a>(
    plain: Plain,
    words: &'a [u8],
    items: &mut ArrayVec<Item<'a>, 8>,
) -> Result<(), Rule>
    requires { items.old.items ≡ [] }
    ensures { Finds (λ _. items_of items.new.items) result (read_shape (shape plain (words_in words.now)) (words_in words.now)) }
{
    let front = plain.fields();
    let more = more_fields(plain, words)?;
    counted(front.len() + more.len(), words)?;
    let rest = read_on(items, front, words)?;
    match read_on(items, more, rest) {
        Ok(_) => Ok(()),
        Err(rule) => Err(rule),
    }
}
