//! Every call of composition, by the table of calls.

ghost use Rattle.std.specs.Prelude.{IsTrue};
ghost use Rattle.wf_calls.specs.Parts.{device_of, is_of_core, part_of};
ghost use Rattle.wf_calls.specs.Replies.{bare};
ghost use Rattle.wf_calls.specs.Requests.{call_of};
ghost use Rattle.wf_stream.specs.Names.{HasRoom, NamesFit};
ghost use Rattle.wf_model.specs.Names.{core_names};
ghost use Rattle.wf_model.specs.Calls.{core_call};
ghost use Rattle.wf_core.specs.Steps.{IsGiven, Steps};
ghost use Rattle.wf_objects.specs.Fits.{Fits};
ghost use Rattle.wf_objects.specs.Sides.{KeepsRest};

use crate::answers::answer;
use crate::composition::Core;
use crate::table::carry_out;
use wf_calls::{Answer, Request};
use wf_stream::Store;

impl Core {
    /// Runs a call of composition: it does and answers what the method of its name does.
    pub fn run(&mut self, store: &mut Store, call: &Request, screen: Option<u32>) -> Answer
        requires fits { Fits self.old store.old }
        requires names { NamesFit (core_names self.old) store.old }
        requires room { HasRoom store.old }
        requires ours { IsTrue (is_of_core (part_of (call_of call.now))) }
        requires given { IsGiven (call_of call.now) screen store.old.streams }
        ensures { Steps (device_of (call_of call.now)) (λ m. core_call screen m (call_of call.now)) KeepsRest self.old self.new
            store.old store.new (bare result) }
    {
        let done = carry_out(&mut self.objects, store, call, screen);
        answer(&mut self.objects, store, call.device(), done)
    }
}
