//! The objects of the display.

ghost use Rattle.std.specs.Prelude.{◌≡◌, ◌<◌, ◌≤◌, ℕ, IfSome, IfNone, None, length, map};
ghost use Rattle.wf_words.specs.Keyed.{nth};
ghost use Rattle.wf_model.specs.Display.{begun_display};
ghost use Rattle.wf_display.specs.Display.{IsDisplay};
ghost use Rattle.wf_display.specs.Fits.{Fits};

use std::marker::Model;
use wf_calls::{Code, MOST_PIPELINES};
use wf_model::{DisplaySource, Pipeline, Port};
use wf_stream::Store;

/// The objects of the display: ports and pipelines, which are numbered from 1; sources by rising handle; and the error
/// register. All room is taken when they are made.
#[derive(Drop)]
pub struct Display {
    pub(crate) ports: Vec<Port>,
    pub(crate) pipelines: Vec<Pipeline>,
    pub(crate) sources: Vec<DisplaySource>,
    pub(crate) register: Option<Code>,
}

impl Model for Display {
    ghost use Rattle.wf_model.specs.State.{DisplayState};

    ghost Value = { DisplayState };

    ghost use Rattle.wf_display.specs.Inside.{display_of, IsSound};

    ghost view = { display_of };

    ghost invariant = { IsSound };
}

impl Display {
    /// Returns the ports, by rising number from 1.
    pub fn ports(&self) -> &[Port]
        ensures ports { result.now ≡ self.now.ports }
        ensures few { length result.now ≤ 4 }
    {
        &self.ports
    }

    /// Returns the pipelines, by rising number from 1.
    pub fn pipelines(&self) -> &[Pipeline]
        ensures pipelines { result.now ≡ self.now.pipelines }
        ensures few { length result.now ≤ MOST_PIPELINES }
    {
        &self.pipelines
    }
}
