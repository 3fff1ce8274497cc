//! The tables.

ghost use Rattle.std.specs.Prelude.{◌≡◌, ◌≤◌, IfOk, length};
ghost use Rattle.wf_model.specs.Names.{core_names};
ghost use Rattle.wf_model.specs.Objects.{no_objects};
ghost use Rattle.wf_objects.specs.Links.{links};

use crate::rows::{Context, Device, Link};
use std::alloc::Global;
use std::marker::Model;
use wf_members::Members;
use wf_model::{MOST_CONTEXTS, MOST_CORE_NAMES, MOST_DEVICES, MOST_SOURCES};
use wf_words::NoMemory;

/// The objects of composition: devices, contexts, sources and masks, each by rising handle. A context has its elements in
/// its cached scene. Beside them the members tell which contexts each device has, and which sources and masks each context.
/// All room is taken when they are made.
#[derive(Drop)]
pub struct Objects {
    pub(crate) alloc: Global,
    pub(crate) devices: Vec<Device>,
    pub(crate) contexts: Vec<Context>,
    pub(crate) sources: Vec<Link>,
    pub(crate) masks: Vec<Link>,
    pub(crate) members: Members,
    pub(crate) linked: Members,
}

impl Model for Objects {
    ghost use Rattle.wf_model.specs.Objects.{CoreState};

    ghost Value = { CoreState };

    ghost use Rattle.wf_objects.specs.Inside.{tables_of, IsKept};

    ghost view = { tables_of };

    ghost invariant = { IsKept };
}

impl Objects {
    /// Makes tables without objects, with the room for all that may live.
    pub fn new(alloc: Global) -> Result<Objects, NoMemory>
        ensures { IfOk result (λ made. made ≡ no_objects) }
    {
        Ok(Objects {
            alloc,
            devices: Vec::with_capacity(alloc, MOST_DEVICES)?,
            contexts: Vec::with_capacity(alloc, MOST_CONTEXTS)?,
            sources: Vec::with_capacity(alloc, MOST_SOURCES)?,
            masks: Vec::with_capacity(alloc, MOST_SOURCES)?,
            members: Members::new(alloc, MOST_CONTEXTS as u32, MOST_DEVICES as u32)?,
            linked: Members::new(alloc, MOST_SOURCES as u32, MOST_CONTEXTS as u32)?,
        })
    }

    /// The sources, or the masks.
    pub(crate) fn links(&self, mask: bool) -> &[Link]
        ensures { result.now ≡ links mask self.now }
    {
        if mask { &self.masks } else { &self.sources }
    }

    /// Shows the prover that there are few names of streams. Does nothing at run time.
    pub fn prove_few_names(&self)
        ensures { length (core_names self.now) ≤ MOST_CORE_NAMES }
    {
        let _ = &self.sources;
    }
}
