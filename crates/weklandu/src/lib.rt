//! The machine for C, C++ and whatever calls these. weklandu.h declares them and says what a caller owes.
#![tactic(auto)]

mod frames;
mod handle;
mod loose;
mod machines;
mod slot;
mod thing;

ghost use Rattle.std.specs.Prelude.{◌≡◌, None};

use slot::Slot;
use std::alloc::Global;

/// Closes what is open in a slot, with all that it holds, and frees its memory.
#[unsafe(no_mangle)]
pub extern "C" fn wk_close(alloc: Global, slot: &mut Slot)
    ensures { slot.new.handle.state ≡ None }
{
    let thing = slot.take(alloc);
    drop(thing);
}
