//! What stands at a place among items.

ghost use Rattle.std.specs.Prelude.{◌≡◌, ◌<◌, option_map};
ghost use Rattle.std.specs.List.{slice_get};
ghost use Rattle.wf_script.specs.Fields.{context_attr_at, element_attr_at, format_at, handle_at, is_handle, number_at, pipe_attr_at};
ghost use Rattle.wf_script.specs.Fields.{port_attr_at, stat_at, transition_at, value_at};
ghost use Rattle.wf_script.specs.Items.{item_of, items_of};

use crate::field::Item;
use crate::line::Value;
use crate::name::Name;
use crate::names::named;
use wf_calls::{PipeAttr, PortAttr, StatWord, Transition};
use wf_pixel::Format;
use wf_scene::{ContextAttr, ElementAttr};

/// The item at a place.
#[tactic(auto, using(crate::proofs::ItemRow::item_in_row))]
fn item_at<'a>(items: &[Item<'a>], place: usize) -> Option<Item<'a>>
    ensures { option_map item_of result ≡ slice_get (items_of items.now) place }
{
    items.get(place).copied()
}

/// The handle at a place.
pub(crate) fn handle_at(items: &[Item<'_>], place: usize) -> Option<Name>
    ensures { result ≡ handle_at (items_of items.now) place }
{
    match item_at(items, place) {
        Some(Item::Handle(letters)) => named(letters),
        _ => None,
    }
}

/// The number at a place.
pub(crate) fn number_at(items: &[Item<'_>], place: usize) -> i64
    ensures { result ≡ number_at (items_of items.now) place }
{
    match item_at(items, place) {
        Some(Item::Number(number) | Item::Filter(number) | Item::Transparency(number)) => number,
        _ => 0,
    }
}

/// The format at a place.
pub(crate) fn format_at(items: &[Item<'_>], place: usize) -> Format
    ensures { result ≡ format_at (items_of items.now) place }
{
    match item_at(items, place) {
        Some(Item::Format(found)) => found,
        _ => Format::A8,
    }
}

/// What is counted, at a place.
pub(crate) fn stat_at(items: &[Item<'_>], place: usize) -> StatWord
    ensures { result ≡ stat_at (items_of items.now) place }
{
    match item_at(items, place) {
        Some(Item::Stat(found)) => found,
        _ => StatWord::Streams,
    }
}

/// The attribute of an element at a place.
pub(crate) fn element_attr_at(items: &[Item<'_>], place: usize) -> ElementAttr
    ensures { result ≡ element_attr_at (items_of items.now) place }
{
    match item_at(items, place) {
        Some(Item::ElementAttr(found)) => found,
        _ => ElementAttr::Dest,
    }
}

/// The attribute of a context at a place.
pub(crate) fn context_attr_at(items: &[Item<'_>], place: usize) -> ContextAttr
    ensures { result ≡ context_attr_at (items_of items.now) place }
{
    match item_at(items, place) {
        Some(Item::ContextAttr(found)) => found,
        _ => ContextAttr::Rotation,
    }
}

/// The attribute of a port at a place.
pub(crate) fn port_attr_at(items: &[Item<'_>], place: usize) -> PortAttr
    ensures { result ≡ port_attr_at (items_of items.now) place }
{
    match item_at(items, place) {
        Some(Item::PortAttr(found)) => found,
        _ => PortAttr::Mode,
    }
}

/// The attribute of a pipeline at a place.
pub(crate) fn pipe_attr_at(items: &[Item<'_>], place: usize) -> PipeAttr
    ensures { result ≡ pipe_attr_at (items_of items.now) place }
{
    match item_at(items, place) {
        Some(Item::PipeAttr(found)) => found,
        _ => PipeAttr::Dest,
    }
}

/// When a source shows, at a place.
pub(crate) fn transition_at(items: &[Item<'_>], place: usize) -> Transition
    ensures { result ≡ transition_at (items_of items.now) place }
{
    match item_at(items, place) {
        Some(Item::Transition(found)) => found,
        _ => Transition::Now,
    }
}

/// Whether a handle stands at a place.
fn is_handle_at(items: &[Item<'_>], place: usize) -> bool
    ensures { result ≡ is_handle (slice_get (items_of items.now) place) }
{
    matches!(item_at(items, place), Some(Item::Handle(_)))
}

/// The value that begins at a place.
pub(crate) fn value_at(items: &[Item<'_>], place: usize) -> Value
    requires { place < 8 }
    ensures { result ≡ value_at (items_of items.now) place }
{
    if is_handle_at(items, place) {
        return Value::Handle(handle_at(items, place));
    }
    Value::Numbers([
        number_at(items, place),
        number_at(items, place + 1),
        number_at(items, place + 2),
        number_at(items, place + 3),
    ])
}
