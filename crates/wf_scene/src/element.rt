//! An element of a cached scene.

ghost use Rattle.std.specs.Prelude.{◌≡◌, IsTrue, option_map};
ghost use Rattle.wf_scene.specs.Values as number;
ghost use Rattle.wf_scene.specs.Elements.{change_of, may_take, new_element, numbers};

use crate::attributes::ElementAttr;
use crate::style::Style;
use crate::values::{
    at_index, channel_of, degrees, filter_number, filter_of, flag_of, rect_numbers, rect_of,
    transparency_number, transparency_of, turn_of,
};

/// An element: its handle, how it is shown, and the handles of its source and its mask, or 0.
#[derive(Clone, Copy, Debug, PartialEq, Eq)]
pub struct Element {
    pub handle: u32,
    pub style: Style,
    pub source: u32,
    pub mask: u32,
}

impl Element {
    /// An element with the initial attributes.
    pub(crate) fn new(handle: u32) -> Element
        ensures { result ≡ new_element handle }
    {
        Element {
            handle,
            style: Style::default(),
            source: 0,
            mask: 0,
        }
    }

    /// The element with an attribute set to a value, or None where the value is outside the attribute's range. A value
    /// that names a source or a mask is 0 or a handle.
    pub(crate) fn with(self, attr: ElementAttr, value: [i64; 4]) -> Option<Element>
        requires { IsTrue (may_take attr value) }
        ensures { result ≡ option_map (λ change. change self) (change_of attr value) }
    {
        match attr {
            ElementAttr::Dest => Some(self.in_style(Style {
                dest: rect_of(value)?,
                ..self.style
            })),
            ElementAttr::Source => Some(Element {
                source: value[0] as u32,
                ..self
            }),
            ElementAttr::SrcRect => Some(self.in_style(Style {
                src: rect_of(value)?,
                ..self.style
            })),
            ElementAttr::Flip => Some(self.in_style(Style {
                flip: flag_of(value[0])?,
                ..self.style
            })),
            ElementAttr::Rotation => Some(self.in_style(Style {
                turn: turn_of(value[0])?,
                ..self.style
            })),
            ElementAttr::Filter => Some(self.in_style(Style {
                filter: filter_of(value[0])?,
                ..self.style
            })),
            ElementAttr::Transparency => Some(self.in_style(Style {
                transparency: transparency_of(value[0])?,
                ..self.style
            })),
            ElementAttr::Alpha => Some(self.in_style(Style {
                alpha: channel_of(value[0])?,
                ..self.style
            })),
            ElementAttr::Mask => Some(Element {
                mask: value[0] as u32,
                ..self
            }),
        }
    }

    /// The element in another style.
    fn in_style(self, style: Style) -> Element
        ensures { result ≡ record self { style = style } }
    {
        Element { style, ..self }
    }

    /// The number of an attribute at an index, which counts from 0.
    pub(crate) fn number(&self, attr: ElementAttr, index: i64) -> Option<u32>
        ensures { result ≡ number.at_index index (numbers attr self.now) }
    {
        let style = &self.style;
        match attr {
            ElementAttr::Dest => at_index(index, &rect_numbers(style.dest)),
            ElementAttr::Source => at_index(index, &[self.source]),
            ElementAttr::SrcRect => at_index(index, &rect_numbers(style.src)),
            ElementAttr::Flip => at_index(index, &[u32::from(style.flip)]),
            ElementAttr::Rotation => at_index(index, &[degrees(style.turn)]),
            ElementAttr::Filter => at_index(index, &[filter_number(style.filter)]),
            ElementAttr::Transparency => {
                at_index(index, &[transparency_number(style.transparency)])
            }
            ElementAttr::Alpha => at_index(index, &[u32::from(style.alpha)]),
            ElementAttr::Mask => at_index(index, &[self.mask]),
        }
    }
}
