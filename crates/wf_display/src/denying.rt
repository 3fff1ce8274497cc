//! The creation of a source for which there is no memory.

ghost use Rattle.std.specs.Prelude.{◌≡◌, IsTrue, true};
ghost use Rattle.wf_calls.specs.Creations.{is_creation};
ghost use Rattle.wf_calls.specs.Parts.{part_of};
ghost use Rattle.wf_calls.specs.Requests.{call_of};
ghost use Rattle.wf_model.specs.Calls.{display_call};
ghost use Rattle.wf_model.specs.Pipelines.{display_source};
ghost use Rattle.wf_model.specs.Sides.{KeepsAll};
ghost use Rattle.wf_display.specs.Does.{Does, Steps};
ghost use Rattle.wf_display.specs.Fits.{Fits};

use crate::display::Display;
use crate::sources::pixel_stream;
use wf_calls::{Code, Part, Refusal, Reply, Request};
use wf_stream::Store;

impl Display {
    /// The refusal of a new source of a pipeline, for which there is no memory.
    pub(crate) fn deny_display_source(
        &self,
        store: &Store,
        pipe: i64,
        stream: u32,
    ) -> Result<u32, Refusal>
        requires { Fits self.now store.now }
        ensures { Does (λ _. display_source pipe stream true) self.now self.now store.now store.now result }
    {
        self.pipeline_place(pipe)?;
        pixel_stream(store, stream)?;
        if self.all_sources(store) || store.full() {
            return Err(Refusal::of(Code::Limit));
        }
        Err(Refusal::of(Code::OutOfMemory))
    }

    /// Refuses the creation of a source for which there is no memory: as `display_source` does, and where that would make
    /// the source, by OutOfMemory. Nothing is made, and the register takes the refusal where it is empty.
    pub fn deny(&mut self, store: &Store, call: &Request) -> Reply
        requires fits { Fits self.old store.now }
        requires creation { IsTrue (is_creation (call_of call.now)) }
        requires ours { part_of (call_of call.now) ≡ Part.Display }
        ensures { Steps (λ _. display_call true (call_of call.now)) KeepsAll self.old self.new store.now store.now result }
    {
        let denied = self.denied(store, call);
        Reply::bare(self.answer(store, denied))
    }
}
