//! Creations for which there is no memory.

ghost use Rattle.std.specs.Prelude.{◌≡◌, IsTrue, true};
ghost use Rattle.wf_calls.specs.Creations.{is_creation};
ghost use Rattle.wf_calls.specs.Parts.{is_of_core, part_of};
ghost use Rattle.wf_calls.specs.Requests.{call_of};
ghost use Rattle.wf_machine.specs.Object.{IsMarkedAct};

use crate::parts::Parts;
use wf_calls::{Part, Reply, Request};

impl Parts {
    /// Refuses a creation for which there is no memory, by OutOfMemory where no other refusal meets it.
    pub(crate) fn deny(&mut self, call: &Request) -> Reply
        requires { IsTrue (is_creation (call_of call.now)) }
        ensures { IsMarkedAct true self.old (call_of call.now) self.new result }
    {
        match call.part() {
            Part::Streams => Reply::bare(self.deny_on_streams(call)),
            Part::Composition { .. } => self.deny_on_objects(call),
            Part::Display => self.deny_on_display(call),
            // No other part makes anything, as the proof shows.
            _ => unreachable!(),
        }
    }

    /// Refuses the creation of an object of composition.
    fn deny_on_objects(&mut self, call: &Request) -> Reply
        requires creation { IsTrue (is_creation (call_of call.now)) }
        requires ours { IsTrue (is_of_core (part_of (call_of call.now))) }
        ensures { IsMarkedAct true self.old (call_of call.now) self.new result }
    {
        let screen = self.screen_of(call);
        self.core.deny(&self.store, call, screen)
    }

    /// Refuses the creation of a source of the display.
    fn deny_on_display(&mut self, call: &Request) -> Reply
        requires creation { IsTrue (is_creation (call_of call.now)) }
        requires ours { part_of (call_of call.now) ≡ Part.Display }
        ensures { IsMarkedAct true self.old (call_of call.now) self.new result }
    {
        self.display.deny(&self.store, call)
    }
}
