//! Where an object is kept that a call names by its handle.

ghost use Rattle.std.specs.Prelude.{◌≡◌, ◌<◌, ◌&&◌, ◌==◌, ◌||◌, false, not, is_some, option_and_then, option_map, position, slice_get};
ghost use Rattle.std.specs.Prelude.{length, IfOk, IfSome, IsTrue, OnOk};
ghost use Rattle.std.specs.List.{list_any};
ghost use Rattle.wf_life.specs.Handles.{key_of};
ghost use Rattle.wf_stream.specs.Streams.{is_stream};
ghost use Rattle.wf_model.specs.Core.{is_element_or_0};
ghost use Rattle.wf_objects.specs.Fits.{Fits};
ghost use Rattle.wf_objects.specs.Links.{links};
ghost use Rattle.wf_objects.specs.Owners.{of_device, of_element, live_device, owned_context, owned_link, owning_context, LivesAt};
ghost use Rattle.wf_model.specs.Outcome.{at_place};
ghost use Rattle.wf_objects.specs.Owners.{StandsAt};
ghost use Rattle.wf_objects.specs.Sides.{core_side_of};

use crate::links::is_of_device;
use crate::objects::Objects;
use crate::rows::{Context, Link};
use wf_calls::{Code, Refusal};
use wf_scene::Cached;
use wf_stream::{Kind, Store};

/// Finds the key of the live object of this kind that has the handle.
pub fn key_of(store: &Store, handle: u32, kind: Kind) -> Option<u32>
    requires { is_stream kind ≡ false }
    ensures { result ≡ key_of handle kind store.now.others }
{
    store.find(handle, kind).ok()
}

/// The place of the context that has the handle.
fn place_of(contexts: &[Context], handle: u32) -> Option<usize>
    ensures place { result ≡ position (λ c. c.handle == handle) contexts.now }
    ensures within { IfSome result (λ place. place < length contexts.now) }
{
    contexts.iter().position(|context| context.handle == handle)
}

/// A source or a mask of a device has the handle.
fn is_owned(links: &[Link], contexts: &[Context], device: u32, handle: u32) -> bool
    ensures { result ≡ list_any (λ s. (s.handle == handle) && list_any (λ c. (c.handle == s.context) && (c.device == device)) contexts.now)
        links.now }
{
    links.iter().any(|link| link.handle == handle && is_of_device(contexts, device, link.context))
}

impl Objects {
    /// Checks that a device lives, or refuses by BadDevice.
    pub fn check_device(&self, store: &Store, device: u32) -> Result<(), Refusal>
        requires { Fits self.now store.now }
        ensures { result ≡ live_device device (core_side_of self.now store.now) }
    {
        match key_of(store, device, Kind::Device) {
            Some(_) => Ok(()),
            None => Err(Refusal::of(Code::BadDevice)),
        }
    }

    /// Checks that a device lives and has this source, or this mask, or refuses by BadDevice or BadHandle.
    pub fn check_link_owned(
        &self,
        store: &Store,
        mask: bool,
        device: u32,
        link: u32,
    ) -> Result<(), Refusal>
        requires { Fits self.now store.now }
        ensures owned { result ≡ owned_link mask device link (core_side_of self.now store.now) }
        ensures live { OnOk result (IsTrue (list_any (λ s. s.handle == link) (links mask self.now))) }
    {
        self.check_device(store, device)?;
        if !is_owned(self.links(mask), &self.contexts, device, link) {
            return Err(Refusal::of(Code::BadHandle));
        }
        Ok(())
    }

    /// The place of a live context.
    pub(crate) fn live_place(&self, context: u32) -> usize
        requires { IsTrue (list_any (λ c. c.handle == context) self.now.contexts) }
        ensures within { result < length self.now.contexts }
        ensures here { StandsAt context result self.now }
    {
        let Some(place) = place_of(&self.contexts, context) else {
            unreachable!()
        };
        place
    }

    /// The place of a device's context.
    fn place_in_device(&self, store: &Store, device: u32, context: u32) -> Option<usize>
        requires { Fits self.now store.now }
        ensures found { option_and_then (slice_get self.now.contexts) result ≡ of_device device context self.now.contexts }
        ensures within { IfSome result (λ place. place < length self.now.contexts) }
        ensures here { IfSome result (λ place. StandsAt context place self.now) }
    {
        match key_of(store, context, Kind::Context) {
            Some(owner) if owner == device => place_of(&self.contexts, context),
            _ => None,
        }
    }

    /// Finds the place of a context, or refuses by BadDevice or BadHandle.
    pub fn context_place(&self, store: &Store, device: u32, context: u32) -> Result<usize, Refusal>
        requires { Fits self.now store.now }
        ensures found { at_place result self.now.contexts ≡ owned_context device context (core_side_of self.now store.now) }
        ensures within { IfOk result (λ place. place < length self.now.contexts) }
        ensures here { IfOk result (λ place. StandsAt context place self.now) }
    {
        self.check_device(store, device)?;
        self.place_in_device(store, device, context)
            .ok_or(Refusal::of(Code::BadHandle))
    }

    /// The place of a device's context in which an element lives.
    fn element_in_device(&self, store: &Store, device: u32, element: u32) -> Option<usize>
        requires { Fits self.now store.now }
        ensures found { option_and_then (slice_get self.now.contexts) result ≡ of_element device element self.now.contexts }
        ensures within { IfSome result (λ place. place < length self.now.contexts) }
        ensures lives { IfSome result (λ place. LivesAt element place self.now) }
    {
        match key_of(store, element, Kind::Element) {
            Some(owner) => self.place_in_device(store, device, owner),
            None => None,
        }
    }

    /// Finds the place of the context in which an element lives, or refuses by BadDevice or BadHandle.
    pub fn element_place(&self, store: &Store, device: u32, element: u32) -> Result<usize, Refusal>
        requires { Fits self.now store.now }
        ensures found { at_place result self.now.contexts ≡ owning_context device element (core_side_of self.now store.now) }
        ensures within { IfOk result (λ place. place < length self.now.contexts) }
        ensures lives { IfOk result (λ place. LivesAt element place self.now) }
    {
        self.check_device(store, device)?;
        self.element_in_device(store, device, element)
            .ok_or(Refusal::of(Code::BadHandle))
    }

    /// Tells whether a handle is 0 or that of a live element of the device.
    pub fn is_element_or_0(&self, store: &Store, device: u32, handle: u32) -> bool
        requires { Fits self.now store.now }
        ensures { result ≡ is_element_or_0 device handle (core_side_of self.now store.now) }
    {
        handle == 0 || self.element_in_device(store, device, handle).is_some()
    }

    /// Tells whether a port has a context.
    pub fn has_port(&self, port: u32) -> bool
        ensures { result ≡ list_any (λ c. c.port == port) self.now.contexts }
    {
        self.contexts.iter().any(|context| context.port == port)
    }

    /// Tells whether a context draws into a stream.
    pub fn has_target(&self, stream: u32) -> bool
        ensures { result ≡ list_any (λ c. c.target == stream) self.now.contexts }
    {
        self.contexts.iter().any(|context| context.target == stream)
    }

    /// Returns the cached scene of the context at a place.
    pub fn cached(&self, place: usize) -> &Cached
        requires { place < length self.now.contexts }
        ensures { IfSome (slice_get self.now.contexts place) (λ c. c.cached ≡ result.now) }
    {
        &self.contexts[place].cached
    }
}
