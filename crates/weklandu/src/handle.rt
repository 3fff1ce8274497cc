//! A pointer that owns what it leads to.

ghost use Rattle.std.specs.Prelude.{◌≡◌, Option, Some, None, IsSome};
ghost use Rattle.weklandu.specs.declared.thing.Thing.{Thing};

use crate::loose::Loose;
use crate::thing::Thing;
use std::alloc::Global;
use std::marker::Model;

/// A pointer to a thing, which owns it, or null.
#[repr(C)]
#[derive(Drop)]
pub struct Handle {
    at: *mut u8,
    pub ghost state: { Option Thing },
}

impl Model for Handle {
    ghost use Rattle.weklandu.specs.Handles.{handle_owns};
    ghost use Rattle.weklandu.specs.contracts.thing.Thing.{the_row};

    ghost also_owns = { λ h. handle_owns the_row h.at h.state };
}

impl Handle {
    /// Makes the null pointer.
    pub(crate) fn none() -> Handle
        ensures { result.state ≡ None }
    {
        Handle {
            at: std::ptr::null_mut(),
        }
    }

    /// Makes the handle of a loose thing.
    fn of_loose(whole: Loose<Thing, Global>) -> Handle
        ensures { result.state ≡ Some whole.value }
    {
        let Loose { at, alloc: _ } = whole;
        Handle { at: at as *mut u8 }
    }

    /// Gives the thing, loose.
    fn into_loose(self, alloc: Global) -> Loose<Thing, Global>
        requires { IsSome self.state }
        ensures { self.state ≡ Some result.value }
    {
        let Handle { at } = self;
        Loose {
            at: at as *mut Thing,
            alloc,
        }
    }

    /// Makes the handle of a thing in a box.
    pub(crate) fn of(whole: Box<Thing>) -> Handle
        ensures { result.state ≡ Some whole.value }
    {
        Handle::of_loose(Loose::of(whole))
    }

    /// Gives the thing in a box.
    pub(crate) fn into_box(self, alloc: Global) -> Box<Thing>
        requires { IsSome self.state }
        ensures { self.state ≡ Some result.value }
    {
        self.into_loose(alloc).into_box()
    }
}
