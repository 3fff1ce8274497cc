//! Every call of the display, by the table of calls.

ghost use Rattle.std.specs.Prelude.{◌≡◌};
ghost use Rattle.wf_stream.specs.Names.{HasRoom, NamesFit};
ghost use Rattle.wf_calls.specs.Parts.{part_of};
ghost use Rattle.wf_calls.specs.Replies.{bare};
ghost use Rattle.wf_calls.specs.Requests.{call_of};
ghost use Rattle.wf_model.specs.Core.{register_number};
ghost use Rattle.wf_model.specs.Calls.{display_call};
ghost use Rattle.wf_model.specs.Registers.{display_error};
ghost use Rattle.wf_model.specs.DisplaySides.{on_display};
ghost use Rattle.wf_model.specs.Names.{display_names};
ghost use Rattle.wf_model.specs.Sides.{KeepsAll};
ghost use Rattle.wf_display.specs.Does.{Does, Steps};
ghost use Rattle.wf_display.specs.Fits.{Fits};
ghost use Rattle.wf_display.specs.Sides.{KeepsRest};

use crate::display::Display;
use wf_calls::{Answer, Code, Part, Refusal, Reply, Request};
use wf_stream::Store;

/// The number of a code in the register, 0 for an empty one.
fn register_number(register: Option<Code>) -> u32
    ensures { result ≡ register_number register }
{
    match register {
        None => 0,
        Some(code) => code.number() as u32,
    }
}

impl Display {
    pub(crate) fn try_display_error(&mut self, store: &Store) -> Result<u32, Refusal>
        requires { Fits self.old store.now }
        ensures { Does (λ _. on_display display_error) self.old self.new store.now store.now result }
    {
        let number = register_number(self.register);
        self.register = None;
        Ok(number)
    }

    /// Answers the number of the code in the register, or 0 for an empty one, and empties the register.
    pub fn display_error(&mut self, store: &mut Store) -> Reply
        requires { Fits self.old store.old }
        ensures { Steps (λ _. on_display display_error) KeepsAll self.old self.new store.old store.new result }
    {
        let done = self.try_display_error(store);
        Reply::bare(self.answer(store, done))
    }

    /// Runs a call of the display: it does and answers what the method of its name does.
    pub fn run(&mut self, store: &mut Store, call: &Request) -> Answer
        requires fits { Fits self.old store.old }
        requires names { NamesFit (display_names self.old) store.old }
        requires room { HasRoom store.old }
        requires ours { part_of (call_of call.now) ≡ Part.Display }
        ensures { Steps (λ m. display_call m (call_of call.now)) KeepsRest self.old self.new store.old store.new (bare result) }
    {
        let done = self.carry_out(store, call);
        self.answer(store, done)
    }
}
