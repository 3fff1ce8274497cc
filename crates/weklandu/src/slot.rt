//! What C keeps of a thing.

ghost use Rattle.std.specs.Prelude.{◌≡◌, Option, None, option_map};
ghost use Rattle.weklandu.specs.declared.thing.Thing.{Thing};
ghost use Rattle.weklandu.specs.Handles.{live_of};
ghost use Rattle.weklandu.specs.Things.{OpensOne};

use crate::handle::Handle;
use crate::thing::Thing;
use std::alloc::Global;
use std::mem;
use wf_calls::Code;

/// What C keeps of a thing: a pointer to it, and 1 where there is one. All zero it is closed.
#[repr(C)]
#[derive(Drop)]
pub struct Slot {
    pub handle: Handle,
    pub live: u32,
    ghost kept: { live ≡ live_of handle.state },
}

impl Slot {
    /// Makes a closed one.
    fn closed() -> Slot
        ensures { result.handle.state ≡ None }
    {
        Slot {
            handle: Handle::none(),
            live: 0,
        }
    }

    /// Takes the thing out, which leaves the slot closed; or returns `None` where it is closed.
    pub(crate) fn take(&mut self, alloc: Global) -> Option<Box<Thing>>
        ensures thing { option_map (λ b. b.value) result ≡ self.old.handle.state }
        ensures closed { self.new.handle.state ≡ None }
    {
        let Slot { handle, live } = mem::replace(self, Slot::closed());
        if live == 0 {
            return None;
        }
        Some(handle.into_box(alloc))
    }

    /// Puts a thing here, if there is one. What was here is dropped.
    pub(crate) fn put(&mut self, thing: Option<Box<Thing>>)
        ensures { self.new.handle.state ≡ option_map (λ b. b.value) thing }
    {
        *self = match thing {
            Some(thing) => Slot {
                handle: Handle::of(thing),
                live: 1,
            },
            None => Slot::closed(),
        };
    }

    /// Opens a thing in this closed slot. Returns the number of Ok, or of want of memory.
    pub(crate) fn open(&mut self, alloc: Global, thing: Thing) -> u8
        requires { self.old.handle.state ≡ None }
        ensures { OpensOne thing self.old.handle.state self.new.handle.state result }
    {
        match Box::new(alloc, thing) {
            Ok(thing) => {
                self.put(Some(thing));
                Code::Ok.number()
            }
            Err(_) => Code::OutOfMemory.number(),
        }
    }
}
