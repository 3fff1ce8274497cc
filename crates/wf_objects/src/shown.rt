//! What contexts show.

ghost use Rattle.std.specs.Prelude.{◌≡◌, option_map};
ghost use Rattle.wf_model.specs.Frames.{next_context};
ghost use Rattle.wf_objects.specs.Owners.{of_device};
ghost use Rattle.wf_objects.specs.Shows.{next_of, next_shown, shown_of, shown_context};

use crate::objects::Objects;
use crate::registers::device_at;
use crate::rows::Context;
use std::marker::Model;
use wf_calls::Code;
use wf_scene::Scene;

/// What a context shows: the number of the stream that it draws into, whether it is active, and its committed scene.
#[derive(Drop)]
pub struct Shown<'a> {
    pub target: u32,
    pub active: bool,
    pub scene: &'a Scene,
}

impl<'a> Model for Shown<'a> {
    ghost use Rattle.wf_objects.specs.Shows as plain;

    ghost Value = { plain.Shown };

    ghost view = { λ s. record { target = s.target; active = s.active; scene = s.scene.now } };
}

/// What a context shows.
fn shown_of(context: &Context) -> Shown<'_>
    ensures { result ≡ shown_of context.now }
{
    Shown {
        target: context.target,
        active: context.active,
        scene: &context.committed,
    }
}

/// What the context of a device shows.
fn shown_in(contexts: &[Context], device: u32, handle: u32) -> Option<Shown<'_>>
    ensures { result ≡ option_map shown_of (of_device device handle contexts.now) }
{
    for context in contexts {
        if context.handle == handle && context.device == device {
            return Some(shown_of(context));
        }
    }
    None
}

/// The first active context above a handle, and what it shows.
fn next_in(contexts: &[Context], after: u32) -> Option<(u32, Shown<'_>)>
    ensures { result ≡ option_map next_of (next_context after contexts.now) }
{
    for context in contexts {
        if context.active && context.handle > after {
            return Some((context.handle, shown_of(context)));
        }
    }
    None
}

impl Objects {
    /// Returns what a context shows. BadDevice is no live device, BadHandle no context of it.
    pub fn context(&self, device: u32, context: u32) -> Result<Shown<'_>, Code>
        ensures { result ≡ shown_context device context self.now }
    {
        if device_at(&self.devices, device).is_none() {
            return Err(Code::BadDevice);
        }
        shown_in(&self.contexts, device, context).ok_or(Code::BadHandle)
    }

    /// Returns the active context with the least handle above `after`, of any device, and what it shows.
    pub fn next(&self, after: u32) -> Option<(u32, Shown<'_>)>
        ensures { result ≡ next_shown after self.now }
    {
        next_in(&self.contexts, after)
    }
}
