//! Devices and their registers.

ghost use Rattle.wf_stream.specs.Names.{NamesFit};
ghost use Rattle.wf_model.specs.Names.{core_names};
ghost use Rattle.wf_model.specs.Core.{device_destroy, device_new, get_error};
ghost use Rattle.wf_model.specs.Sides.{KeepsAll};
ghost use Rattle.wf_core.specs.Steps.{Steps};
ghost use Rattle.wf_objects.specs.Does.{Does};
ghost use Rattle.wf_objects.specs.Fits.{Fits};
ghost use Rattle.wf_objects.specs.Sides.{KeepsRest};

use crate::answers::reply;
use crate::composition::Core;
use wf_calls::{Refusal, Reply};
use wf_objects::Objects;
use wf_stream::Store;

pub(crate) fn try_device_destroy(
    objects: &mut Objects,
    store: &mut Store,
    device: u32,
) -> Result<u32, Refusal>
    requires fits { Fits objects.old store.old }
    requires names { NamesFit (core_names objects.old) store.old }
    ensures { Does (λ _. device_destroy device) objects.old objects.new store.old store.new result }
{
    objects.check_device(store, device)?;
    objects.drop_device(store, device);
    Ok(0)
}

impl Core {
    /// Makes a device, whose handle it answers. Limit is a ninth device, or that all handles were given.
    pub fn device_new(&mut self, store: &mut Store) -> Reply
        requires { Fits self.old store.old }
        ensures { Steps 0 (λ m. device_new m) KeepsRest self.old self.new store.old store.new result }
    {
        let done = self.objects.add_device(store);
        reply(&mut self.objects, store, 0, done)
    }

    /// Destroys a device with its contexts and all that is theirs. BadDevice is no live device.
    pub fn device_destroy(&mut self, store: &mut Store, device: u32) -> Reply
        requires fits { Fits self.old store.old }
        requires names { NamesFit (core_names self.old) store.old }
        ensures { Steps device (λ _. device_destroy device) KeepsRest self.old self.new store.old store.new result }
    {
        let done = try_device_destroy(&mut self.objects, store, device);
        reply(&mut self.objects, store, device, done)
    }

    /// Answers the number of the code in a device's register, or 0 for an empty one, and empties the register.
    pub fn get_error(&mut self, store: &mut Store, device: u32) -> Reply
        requires { Fits self.old store.old }
        ensures { Steps device (λ _. get_error device) KeepsAll self.old self.new store.old store.new result }
    {
        let done = self.objects.take_error(store, device);
        reply(&mut self.objects, store, device, done)
    }
}
