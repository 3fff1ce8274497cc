//! Creations for which there is no memory.

ghost use Rattle.std.specs.Prelude.{IfSome, IsSome, IsTrue, pos, true};
ghost use Rattle.wf_pixel.specs.Choice.{is_between};
ghost use Rattle.wf_calls.specs.Creations.{is_creation};
ghost use Rattle.wf_calls.specs.Parts.{device_of, is_of_core, part_of};
ghost use Rattle.wf_calls.specs.Requests.{call_of};
ghost use Rattle.wf_model.specs.Core.{device_new, element_new, screen_context, stream_context};
ghost use Rattle.wf_model.specs.Calls.{core_call};
ghost use Rattle.wf_model.specs.Fitting.{IsOfPixels};
ghost use Rattle.wf_core.specs.Links.{link_new};
ghost use Rattle.wf_model.specs.Sides.{KeepsAll};
ghost use Rattle.wf_core.specs.Steps.{IsGiven, Steps};
ghost use Rattle.wf_objects.specs.Does.{Does};
ghost use Rattle.wf_objects.specs.Fits.{Fits};

use crate::answers::reply;
use crate::composition::Core;
use crate::contexts::{screen_target, stream_target};
use crate::sources::linked_stream;
use crate::table::deny;
use wf_calls::{Refusal, Reply, Request};
use wf_objects::Objects;
use wf_stream::Store;

/// The refusal of a new device, for which there is no memory.
pub(crate) fn deny_device_new(objects: &Objects, store: &Store) -> Result<u32, Refusal>
    requires { Fits objects.now store.now }
    ensures { Does (λ _. device_new true) objects.now objects.now store.now store.now result }
{
    Err(objects.deny_device(store))
}

/// The refusal of a new context of a port's screen, for which there is no memory.
pub(crate) fn deny_screen_context(
    objects: &Objects,
    store: &Store,
    device: u32,
    port: i64,
    screen: Option<u32>,
) -> Result<u32, Refusal>
    requires fits { Fits objects.now store.now }
    requires declared { IsSome screen → IsTrue (is_between (pos 1) (pos 4) port) }
    requires pixels { IfSome screen (IsOfPixels store.now.streams) }
    ensures { Does (λ _. screen_context device port screen true) objects.now objects.now store.now store.now result }
{
    match screen_target(objects, store, device, port, screen) {
        Ok(_) => Err(objects.deny_context(store)),
        Err(refusal) => Err(refusal),
    }
}

/// The refusal of a new context that draws into a stream, for which there is no memory.
pub(crate) fn deny_stream_context(
    objects: &Objects,
    store: &Store,
    device: u32,
    stream: u32,
) -> Result<u32, Refusal>
    requires { Fits objects.now store.now }
    ensures { Does (λ _. stream_context device stream true) objects.now objects.now store.now store.now result }
{
    match stream_target(objects, store, device, stream) {
        Ok(_) => Err(objects.deny_context(store)),
        Err(refusal) => Err(refusal),
    }
}

/// The refusal of a new element, for which there is no memory.
pub(crate) fn deny_element_new(
    objects: &Objects,
    store: &Store,
    device: u32,
    context: u32,
) -> Result<u32, Refusal>
    requires { Fits objects.now store.now }
    ensures { Does (λ _. element_new device context true) objects.now objects.now store.now store.now result }
{
    let place = objects.context_place(store, device, context)?;
    Err(objects.deny_element(store, place))
}

/// The refusal of a new source or mask, for which there is no memory.
pub(crate) fn deny_link(
    objects: &Objects,
    store: &Store,
    mask: bool,
    device: u32,
    context: u32,
    stream: u32,
) -> Result<u32, Refusal>
    requires { Fits objects.now store.now }
    ensures { Does (λ _. link_new mask device context stream true) objects.now objects.now store.now store.now result }
{
    match linked_stream(objects, store, mask, device, context, stream) {
        Ok(_) => Err(objects.deny_link(store)),
        Err(refusal) => Err(refusal),
    }
}

impl Core {
    /// Refuses a creation for which there is no memory: as the method of its name does, and where that would make the object,
    /// by OutOfMemory. Nothing is made, and the device's register takes the refusal where it is empty.
    pub fn deny(&mut self, store: &Store, call: &Request, screen: Option<u32>) -> Reply
        requires fits { Fits self.old store.now }
        requires creation { IsTrue (is_creation (call_of call.now)) }
        requires ours { IsTrue (is_of_core (part_of (call_of call.now))) }
        requires given { IsGiven (call_of call.now) screen store.now.streams }
        ensures { Steps (device_of (call_of call.now)) (λ _. core_call screen true (call_of call.now)) KeepsAll self.old self.new
            store.now store.now result }
    {
        let denied = deny(&self.objects, store, call, screen);
        reply(&mut self.objects, store, call.device(), denied)
    }
}
