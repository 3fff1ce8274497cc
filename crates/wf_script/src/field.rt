//! Kinds of words, and what a word of each stands for.

ghost use Rattle.std.specs.Prelude.{◌≡◌, option_map};
ghost use Rattle.wf_script.specs.Fields.{read};
ghost use Rattle.wf_script.specs.Items.{item_of};

use crate::names::{Letters, handle_of};
use crate::numbers::integer_of;
use crate::word_tables::{
    context_attr_of, element_attr_of, filter_of, format_of, pipe_attr_of, port_attr_of, stat_of,
    transition_of, transparency_of,
};
use wf_calls::{PipeAttr, PortAttr, StatWord, Transition};
use wf_pixel::Format;
use wf_scene::{ContextAttr, ElementAttr};

/// The kinds of words behind a verb.
#[derive(Clone, Copy)]
pub(crate) enum Field {
    Handle,
    Number,
    Format,
    Stat,
    ElementAttr,
    ContextAttr,
    PortAttr,
    PipeAttr,
    Filter,
    Transparency,
    Transition,
}

/// What a word stands for, by its kind.
#[derive(Clone, Copy)]
pub(crate) enum Item<'a> {
    Handle(Option<Letters<'a>>),
    Number(i64),
    Format(Format),
    Stat(StatWord),
    ElementAttr(ElementAttr),
    ContextAttr(ContextAttr),
    PortAttr(PortAttr),
    PipeAttr(PipeAttr),
    Filter(i64),
    Transparency(i64),
    Transition(Transition),
}

impl<'a> Default for Item<'a> {
    fn default() -> Item<'a> {
        Item::Number(0)
    }
}

impl Field {
    /// Reads a word of this kind.
    pub(crate) fn read(self, word: &[u8]) -> Option<Item<'_>>
        ensures { option_map item_of result ≡ read self word.now }
    {
        let item = match self {
            Field::Handle => Item::Handle(handle_of(word)?),
            Field::Number => Item::Number(integer_of(word)?),
            Field::Format => Item::Format(format_of(word)?),
            Field::Stat => Item::Stat(stat_of(word)?),
            Field::ElementAttr => Item::ElementAttr(element_attr_of(word)?),
            Field::ContextAttr => Item::ContextAttr(context_attr_of(word)?),
            Field::PortAttr => Item::PortAttr(port_attr_of(word)?),
            Field::PipeAttr => Item::PipeAttr(pipe_attr_of(word)?),
            Field::Filter => Item::Filter(filter_of(word)?),
            Field::Transparency => Item::Transparency(transparency_of(word)?),
            Field::Transition => Item::Transition(transition_of(word)?),
        };
        Some(item)
    }
}
