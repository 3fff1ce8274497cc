//! Why nothing is made where there is no memory for it.

ghost use Rattle.std.specs.Prelude.{◌≡◌, ◌<◌, Err, IfSome, length, nat_le, slice_get, true};
ghost use Rattle.wf_model.specs.Core.{contexts_full, room, sources_full};
ghost use Rattle.wf_model.specs.Objects.{CoreState};
ghost use Rattle.wf_objects.specs.Sides.{core_side_of};

use crate::objects::Objects;
use wf_calls::{Code, Refusal};
use wf_model::{MOST_CONTEXTS, MOST_DEVICES};
use wf_scene::MOST_ELEMENTS;
use wf_stream::Store;

/// The last refusals of a creation for which there is no memory: Limit, or OutOfMemory.
fn deny(store: &Store, at_limit: bool) -> Refusal
    ensures { (core : CoreState) → room at_limit true (core_side_of core store.now) ≡ Err result }
{
    if at_limit || store.full() {
        Refusal::of(Code::Limit)
    } else {
        Refusal::of(Code::OutOfMemory)
    }
}

impl Objects {
    /// Returns why a device is not made where there is no memory: a ninth device or no handle is Limit, and else it is
    /// OutOfMemory.
    pub fn deny_device(&self, store: &Store) -> Refusal
        ensures { room (nat_le MOST_DEVICES (length self.now.devices)) true (core_side_of self.now store.now) ≡ Err result }
    {
        deny(store, self.devices.len() >= MOST_DEVICES)
    }

    /// Returns why a context is not made where there is no memory: a 17th context or no handle is Limit, and else it is
    /// OutOfMemory.
    pub fn deny_context(&self, store: &Store) -> Refusal
        ensures { room (contexts_full (core_side_of self.now store.now)) true (core_side_of self.now store.now) ≡ Err result }
    {
        deny(store, self.contexts.len() >= MOST_CONTEXTS)
    }

    /// Returns why a source or a mask is not made where there is no memory: a 257th of both or no handle is Limit, and else it
    /// is OutOfMemory.
    pub fn deny_link(&self, store: &Store) -> Refusal
        ensures { room (sources_full (core_side_of self.now store.now)) true (core_side_of self.now store.now) ≡ Err result }
    {
        deny(store, self.sources_full(store))
    }

    /// Returns why an element of the context at a place is not made where there is no memory: a 65th element of it or no handle
    /// is Limit, and else it is OutOfMemory.
    pub fn deny_element(&self, store: &Store, place: usize) -> Refusal
        requires { place < length self.now.contexts }
        ensures { IfSome (slice_get self.now.contexts place) (λ c. room (nat_le MOST_ELEMENTS (length c.cached.elements)) true
            (core_side_of self.now store.now) ≡ Err result) }
    {
        deny(store, self.contexts[place].cached.count() >= MOST_ELEMENTS)
    }
}
