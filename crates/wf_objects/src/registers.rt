//! The registers of devices, which keep the code of the first refusal until it is asked for.

ghost use Rattle.std.specs.Prelude.{◌≡◌, ◌==◌, None, Some, Option, if◌then◌else◌};
ghost use Rattle.wf_words.specs.Keyed.{at_key, change};
ghost use Rattle.wf_stream.specs.Streams.{StoreView};
ghost use Rattle.wf_model.specs.Composition.{offer, recorded};
ghost use Rattle.wf_model.specs.Core.{get_error, register_number};
ghost use Rattle.wf_objects.specs.Does.{Does};
ghost use Rattle.wf_objects.specs.Fits.{Fits};

use crate::objects::Objects;
use crate::rows::Device;
use wf_calls::{Code, Refusal};
use wf_stream::Store;

/// The device of a handle.
pub(crate) fn device_at(devices: &[Device], handle: u32) -> Option<Device>
    ensures { result ≡ at_key (λ x. x.handle) handle devices.now }
{
    for device in devices {
        if device.handle == handle {
            return Some(*device);
        }
    }
    None
}

/// A register that was offered a code: a full one stays.
fn recorded(register: Option<Code>, code: Code) -> Option<Code>
    ensures { result ≡ recorded code register }
{
    match register {
        None => Some(code),
        Some(first) => Some(first),
    }
}

/// The number of the code in a device's register, 0 for an empty one.
fn register_number(device: Device) -> u32
    ensures { result ≡ register_number device.register }
{
    match device.register {
        None => 0,
        Some(code) => code.number() as u32,
    }
}

/// A device whose register is emptied, where it is the one of a handle.
fn cleared(device: Device, handle: u32) -> Device
    ensures { result ≡ (if device.handle == handle then record device { register = None } else device) }
{
    if device.handle == handle {
        Device {
            register: None,
            ..device
        }
    } else {
        device
    }
}

/// A device whose register is offered a code, where it is the one of a handle.
fn offered(device: Device, handle: u32, code: Code) -> Device
    ensures { result ≡ (if device.handle == handle then record device { register = recorded code device.register } else device) }
{
    if device.handle == handle {
        Device {
            register: recorded(device.register, code),
            ..device
        }
    } else {
        device
    }
}

/// Empties the register of a device.
fn clear_in(devices: &mut [Device], handle: u32)
    ensures { devices.new ≡ change (λ x. x.handle) handle (λ x. record x { register = None }) devices.old }
{
    for place in 0..devices.len() {
        devices[place] = cleared(devices[place], handle);
    }
}

/// Offers a code to the register of a device.
fn record_in(devices: &mut [Device], handle: u32, code: Code)
    ensures { devices.new ≡ change (λ x. x.handle) handle (λ x. record x { register = recorded code x.register }) devices.old }
{
    for place in 0..devices.len() {
        devices[place] = offered(devices[place], handle, code);
    }
}

impl Objects {
    /// Takes the code out of a device's register, and answers its number, 0 for an empty one; or the refusal BadDevice.
    pub fn take_error(&mut self, store: &Store, device: u32) -> Result<u32, Refusal>
        requires { Fits self.old store.now }
        ensures { Does (λ _. get_error device) self.old self.new store.now store.now result }
    {
        match device_at(&self.devices, device) {
            None => Err(Refusal::of(Code::BadDevice)),
            Some(found) => {
                clear_in(&mut self.devices, device);
                Ok(register_number(found))
            }
        }
    }

    /// Offers a code to the register of a device, where it lives, which takes it where it is empty.
    pub fn record(&mut self, device: u32, code: Code)
        ensures recorded { self.new ≡ offer device code self.old }
        ensures fits { (store : StoreView) → Fits self.old store → Fits self.new store }
    {
        record_in(&mut self.devices, device, code);
    }
}
