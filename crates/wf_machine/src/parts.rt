//! What the machine is made of.

ghost use Rattle.std.specs.Prelude.{◌≡◌, map, IfOk, IsTrue, None};
ghost use Rattle.wf_calls.specs.PortRules.{may_declare};
ghost use Rattle.wf_model.specs.State.{opening};
ghost use Rattle.wf_machine.specs.Fitting.{PortsFit};
ghost use Rattle.wf_machine.specs.Ports.{sizes_of};

use crate::frame::FramePlace;
use crate::port::Port;
use std::alloc::Global;
use std::marker::Model;
use wf_calls::Ports;
use wf_core::Core;
use wf_display::Display;
use wf_stream::Store;
use wf_words::NoMemory;

/// The streams, the objects of composition and of the display, the images for the frames of ports, how many frames were begun,
/// and the frame that runs.
#[derive(Drop)]
pub(crate) struct Parts {
    pub store: Store,
    pub core: Core,
    pub display: Display,
    pub ports: Vec<Port>,
    pub begun: u64,
    pub frame: FramePlace,
}

impl Model for Parts {
    ghost use Rattle.wf_model.specs.State.{State};

    ghost Value = { State };

    ghost use Rattle.wf_machine.specs.Inside.{state_of, IsSound};

    ghost view = { state_of };

    ghost invariant = { IsSound };
}

/// For each port an image for the frames of each of its modes.
fn images_of(alloc: Global, ports: &Ports) -> Result<Vec<Port>, NoMemory>
    requires { IsTrue (may_declare ports.now) }
    ensures modes { IfOk result (λ made. map sizes_of made.items ≡ map (λ m. m.sizes.items) ports.now.modes.items) }
    ensures fit { IfOk result (λ made. PortsFit None 1 made.items) }
{
    let mut images = Vec::with_capacity(alloc, ports.modes.len())?;
    for modes in ports.modes.as_slice() {
        let sizes = modes.sizes.as_slice();
        images.push_reserved(Port::new(alloc, sizes)?);
    }
    Ok(images)
}

impl Parts {
    /// The parts before the first call: for each port a screen, and an image for the frames of each of its modes.
    pub(crate) fn open(alloc: Global, ports: &Ports) -> Result<Parts, NoMemory>
        requires { IsTrue (may_declare ports.now) }
        ensures { IfOk result (λ parts. parts ≡ opening ports.now) }
    {
        let mut store = Store::new(alloc);
        let core = Core::new(alloc)?;
        let display = Display::new(alloc, ports, &mut store)?;
        Ok(Parts {
            store,
            core,
            display,
            ports: images_of(alloc, ports)?,
            begun: 0,
            frame: FramePlace::new(),
        })
    }
}
