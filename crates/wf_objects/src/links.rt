//! Which sources and masks an element may name.

ghost use Rattle.std.specs.Prelude.{◌≡◌, ◌&&◌, ◌==◌, OnOk, IsSome, IsTrue};
ghost use Rattle.std.specs.List.{list_any};
ghost use Rattle.wf_scene.specs.Elements.{may_take};
ghost use Rattle.wf_scene.specs.Values.{component, is_count, is_handle};
ghost use Rattle.wf_model.specs.Core.{linked};
ghost use Rattle.wf_objects.specs.Sides.{core_side_of};
ghost use Rattle.wf_objects.specs.Sights.{may_name, named_source};

use crate::objects::Objects;
use crate::rows::{Context, Link};
use wf_calls::{Code, Refusal};
use wf_scene::ElementAttr;
use wf_stream::Store;

/// A context is one of a device.
pub(crate) fn is_of_device(contexts: &[Context], device: u32, context: u32) -> bool
    ensures { result ≡ list_any (λ c. (c.handle == context) && (c.device == device)) contexts.now }
{
    contexts
        .iter()
        .any(|other| other.handle == context && other.device == device)
}

/// A number of a call is this handle.
fn is_count(handle: u32, number: i64) -> bool
    ensures { result ≡ is_count handle number }
{
    number >= 0 && number == i64::from(handle)
}

/// A number names this link, which is of a context of the device.
fn is_named(link: &Link, contexts: &[Context], device: u32, number: i64) -> bool
    ensures named { result ≡ (is_count link.now.handle number
        && list_any (λ c. (c.handle == link.now.context) && (c.device == device)) contexts.now) }
    ensures handle { IsTrue result → IsTrue (is_handle number) }
{
    is_count(link.handle, number) && is_of_device(contexts, device, link.context)
}

/// The source or the mask that a number names, where it is of a context of the device.
fn named_source(sources: &[Link], contexts: &[Context], device: u32, number: i64) -> Option<Link>
    ensures found { result ≡ named_source device number sources.now contexts.now }
    ensures handle { IsSome result → IsTrue (is_handle number) }
{
    for source in sources {
        if is_named(source, contexts, device, number) {
            return Some(*source);
        }
    }
    None
}

/// An element of a context may name the source or the mask of this number, or none by 0.
fn may_name(
    sources: &[Link],
    contexts: &[Context],
    device: u32,
    owner: u32,
    number: i64,
) -> Result<(), Refusal>
    ensures checked { result ≡ may_name device owner number sources.now contexts.now }
    ensures handle { OnOk result (IsTrue (is_handle number)) }
{
    if number == 0 {
        return Ok(());
    }
    let Some(source) = named_source(sources, contexts, device, number) else {
        return Err(Refusal::of(Code::BadHandle));
    };
    if source.context != owner {
        return Err(Refusal::of(Code::IllegalArgument));
    }
    Ok(())
}

/// The first number of a value.
fn first(value: [i64; 4]) -> i64
    ensures { result ≡ component value 0 }
{
    value[0]
}

impl Objects {
    /// What an attribute of an element of a context is set to may be linked to the element.
    pub(crate) fn check_link(
        &self,
        store: &Store,
        device: u32,
        owner: u32,
        attr: ElementAttr,
        value: [i64; 4],
    ) -> Result<(), Refusal>
        ensures checked { result ≡ linked attr device owner (component value 0) (core_side_of self.now store.now) }
        ensures takes { OnOk result (IsTrue (may_take attr value)) }
    {
        let number = first(value);
        match attr {
            ElementAttr::Source => may_name(&self.sources, &self.contexts, device, owner, number),
            ElementAttr::Mask => may_name(&self.masks, &self.contexts, device, owner, number),
            _ => Ok(()),
        }
    }
}
