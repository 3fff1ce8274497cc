//! The objects as the tables keep them: a row for each. A row is seen as the object that the plain machine has.

use std::marker::Model;
use wf_calls::Code;
use wf_scene::{Cached, Scene};

/// A device: its handle, and the code that its register holds, if there is one.
#[derive(Clone, Copy)]
pub(crate) struct Device {
    pub(crate) handle: u32,
    pub(crate) register: Option<Code>,
}

impl Model for Device {
    ghost use Rattle.wf_model.specs.Objects as plain;

    ghost Value = { plain.Device };

    ghost use Rattle.wf_objects.specs.Rows.{device_of};

    ghost view = { device_of };

    ghost inverse = { λ d. record { handle = d.handle; register = d.register } };
}

/// A context: its handle, its device, its port or 0, the number of the stream that it draws into, whether it is active,
/// and its cached and its committed scene.
#[derive(Drop)]
pub(crate) struct Context {
    pub(crate) handle: u32,
    pub(crate) device: u32,
    pub(crate) port: u32,
    pub(crate) target: u32,
    pub(crate) active: bool,
    pub(crate) cached: Cached,
    pub(crate) committed: Scene,
}

impl Model for Context {
    ghost use Rattle.wf_model.specs.Objects as plain;

    ghost Value = { plain.Context };

    ghost use Rattle.wf_objects.specs.Rows.{context_of};

    ghost view = { context_of };
}

/// A link: a source or a mask, with its handle, its context, and the number of the stream that it shows.
#[derive(Clone, Copy)]
pub(crate) struct Link {
    pub(crate) handle: u32,
    pub(crate) context: u32,
    pub(crate) stream: u32,
}

impl Model for Link {
    ghost use Rattle.wf_model.specs.Objects as plain;

    ghost Value = { plain.Source };

    ghost use Rattle.wf_objects.specs.Rows.{link_of};

    ghost view = { link_of };

    ghost inverse = { λ s. record { handle = s.handle; context = s.context; stream = s.stream } };
}
