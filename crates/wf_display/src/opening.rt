//! The display before the first call.

ghost use Rattle.std.specs.Prelude.{◌≡◌, ◌<◌, ◌≤◌, IfOk, IfSome, IsTrue, OnOk, length};
ghost use Rattle.std.specs.List.{list_all};
ghost use Rattle.wf_words.specs.Keyed.{nth};
ghost use Rattle.wf_stream.specs.Streams.{empty};
ghost use Rattle.wf_calls.specs.PortRules.{may_declare, may_have};
ghost use Rattle.wf_model.specs.DisplaySides.{screen_at};
ghost use Rattle.wf_model.specs.State.{initial_pipeline, initial_port, opened_display};
ghost use Rattle.wf_display.specs.Opening.{with_screens};
ghost use Rattle.wf_display.specs.Fits.{Fits};

use crate::display::Display;
use arrayvec::ArrayVec;
use std::alloc::Global;
use wf_calls::{Modes, Ports};
use wf_model::{MOST_SOURCES, Pipeline, Port, PortStyle};
use wf_pixel::{Rgba, Size};
use wf_scene::Style;
use wf_stream::Store;
use wf_words::NoMemory;

/// The first mode, on, over black.
const INITIAL_STYLE: PortStyle = PortStyle {
    mode: 1,
    background: Rgba::BLACK,
    power: true,
};

/// A port of these modes, which shows the first, on and attached.
fn initial_port(modes: &Modes) -> Port
    requires { length modes.now.sizes.items ≤ 4 }
    ensures { result ≡ initial_port modes.now }
{
    let mut sizes: ArrayVec<Size, 4> = ArrayVec::new();
    for size in modes.sizes.as_slice() {
        sizes.push(*size);
    }
    Port {
        modes: sizes,
        cached: INITIAL_STYLE,
        committed: INITIAL_STYLE,
        attached: true,
    }
}

/// A pipeline that shows nothing, by no port.
fn initial_pipeline() -> Pipeline
    ensures { result ≡ initial_pipeline }
{
    Pipeline {
        cached: Style::default(),
        committed: Style::default(),
        cached_port: 0,
        committed_port: 0,
        request: None,
        current: 0,
        pending: None,
    }
}

impl Display {
    /// Makes the ports and the pipelines that are declared, with the screens of the ports in a store in which nothing was made,
    /// as streams 1, 2 and so on.
    pub fn new(alloc: Global, ports: &Ports, store: &mut Store) -> Result<Display, NoMemory>
        requires declared { IsTrue (may_declare ports.now) }
        requires empty { store.old ≡ empty }
        ensures display { IfOk result (λ made. made ≡ opened_display ports.now) }
        ensures screens { OnOk result (store.new ≡ with_screens ports.now.modes.items) }
        ensures fits { IfOk result (λ made. Fits made store.new) }
    {
        let mut opened = Vec::with_capacity(alloc, ports.modes.len())?;
        for modes in ports.modes.as_slice() {
            let sizes = modes.sizes.as_slice();
            store.screen(sizes[0])?;
            opened.push_reserved(initial_port(modes));
        }
        let pipelines = vec![in alloc; initial_pipeline(); ports.pipes as usize]?;
        Ok(Display {
            ports: opened,
            pipelines,
            sources: Vec::with_capacity(alloc, MOST_SOURCES)?,
            register: None,
        })
    }

    /// Returns the number of a port's screen, which is the port's own number, or `None` for a port that was not declared.
    pub fn screen(&self, port: u32) -> Option<u32>
        ensures { result ≡ screen_at port self.now }
    {
        if 1 <= port && port as usize <= self.ports.len() {
            Some(port)
        } else {
            None
        }
    }
}
