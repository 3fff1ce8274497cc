//! Whether contexts are active.

ghost use Rattle.wf_model.specs.Core.{activate, deactivate, set_active};
ghost use Rattle.wf_model.specs.Sides.{KeepsAll};
ghost use Rattle.wf_core.specs.Steps.{Steps};
ghost use Rattle.wf_objects.specs.Does.{Does};
ghost use Rattle.wf_objects.specs.Fits.{Fits};

use crate::answers::reply;
use crate::composition::Core;
use wf_calls::{Refusal, Reply};
use wf_objects::Objects;
use wf_stream::Store;

pub(crate) fn try_set_active(
    objects: &mut Objects,
    store: &Store,
    active: bool,
    device: u32,
    context: u32,
) -> Result<u32, Refusal>
    requires { Fits objects.old store.now }
    ensures { Does (λ _. set_active active device context) objects.old objects.new store.now store.now result }
{
    let place = objects.context_place(store, device, context)?;
    objects.set_active(store, place, active);
    Ok(0)
}

impl Core {
    /// Makes a context active. One that is active stays so.
    pub fn activate(&mut self, store: &mut Store, device: u32, context: u32) -> Reply
        requires { Fits self.old store.old }
        ensures { Steps device (λ _. activate device context) KeepsAll self.old self.new store.old store.new result }
    {
        let done = try_set_active(&mut self.objects, store, true, device, context);
        reply(&mut self.objects, store, device, done)
    }

    /// Makes a context inactive. One that is inactive stays so.
    pub fn deactivate(&mut self, store: &mut Store, device: u32, context: u32) -> Reply
        requires { Fits self.old store.old }
        ensures { Steps device (λ _. deactivate device context) KeepsAll self.old self.new store.old store.new result }
    {
        let done = try_set_active(&mut self.objects, store, false, device, context);
        reply(&mut self.objects, store, device, done)
    }
}
