//! The objects of composition.

ghost use Rattle.std.specs.Prelude.{◌≡◌, ◌≤◌, IfOk, length};
ghost use Rattle.wf_stream.specs.Streams.{StoreView};
ghost use Rattle.wf_model.specs.Composition.{change_register, recorded};
ghost use Rattle.wf_model.specs.Names.{core_names};
ghost use Rattle.wf_model.specs.Objects.{no_objects};
ghost use Rattle.wf_objects.specs.Fits.{Fits};
ghost use Rattle.wf_objects.specs.Shows.{next_shown, shown_context};

use std::alloc::Global;
use std::marker::Model;
use wf_calls::Code;
use wf_model::MOST_CORE_NAMES;
use wf_objects::{Objects, Shown};
use wf_words::NoMemory;

/// The objects of composition: devices, contexts, sources and masks, each by rising handle. A context has its elements in
/// its cached scene. All room is taken when they are made.
#[derive(Drop)]
pub struct Core {
    pub(crate) objects: Objects,
}

impl Model for Core {
    ghost use Rattle.wf_model.specs.Objects.{CoreState};

    ghost Value = { CoreState };

    ghost view = { λ c. c.objects };
}

impl Core {
    /// Makes the calls of composition without objects, with the room for all that may live.
    pub fn new(alloc: Global) -> Result<Core, NoMemory>
        ensures { IfOk result (λ made. made ≡ no_objects) }
    {
        Ok(Core {
            objects: Objects::new(alloc)?,
        })
    }

    /// Returns what a context shows. BadDevice is no live device, BadHandle no context of it.
    pub fn context(&self, device: u32, context: u32) -> Result<Shown<'_>, Code>
        ensures { result ≡ shown_context device context self.now }
    {
        self.objects.context(device, context)
    }

    /// Returns the active context with the least handle above `after`, of any device, and what it shows.
    pub fn next(&self, after: u32) -> Option<(u32, Shown<'_>)>
        ensures { result ≡ next_shown after self.now }
    {
        self.objects.next(after)
    }

    /// Offers a code to the register of a device, which takes it where the device is live and the register is empty.
    pub fn record(&mut self, device: u32, code: Code)
        ensures recorded { self.new ≡ change_register device (recorded code) self.old }
        ensures fits { (store : StoreView) → Fits self.old store → Fits self.new store }
    {
        self.objects.record(device, code);
    }

    /// Shows the prover that there are few names of streams. Does nothing at run time.
    pub fn prove_few_names(&self)
        ensures { length (core_names self.now) ≤ MOST_CORE_NAMES }
    {
        self.objects.prove_few_names();
    }
}
