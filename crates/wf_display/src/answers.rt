//! Answers: a value, or the refusal, which the register takes where it is empty.

ghost use Rattle.std.specs.Prelude.{◌≡◌};
ghost use Rattle.wf_calls.specs.Codes.{is_out_of_memory};
ghost use Rattle.wf_model.specs.Composition.{recorded};
ghost use Rattle.wf_model.specs.DisplaySides.{display_answer};
ghost use Rattle.wf_model.specs.Outcome.{lacks_memory};
ghost use Rattle.wf_display.specs.Fits.{Fits};
ghost use Rattle.wf_display.specs.Sides.{display_side_of};
ghost use Rattle.wf_model.specs.Outcome.{done_by};

use crate::display::Display;
use wf_calls::{Answer, Code, Refusal};
use wf_stream::Store;

/// A register that was offered a code: a full one stays.
fn recorded(register: Option<Code>, code: Code) -> Option<Code>
    ensures { result ≡ recorded code register }
{
    match register {
        None => Some(code),
        Some(first) => Some(first),
    }
}

impl Display {
    /// The answer of a call that was carried out or refused.
    pub(crate) fn answer(&mut self, store: &Store, done: Result<u32, Refusal>) -> Answer
        requires { Fits self.old store.now }
        ensures answered { display_answer (display_side_of self.old store.now) (done_by done (display_side_of self.old store.now))
            ≡ (display_side_of self.new store.now, result) }
        ensures memory { is_out_of_memory result.code ≡ lacks_memory done }
        ensures fits { Fits self.new store.now }
    {
        match done {
            Ok(value) => Answer::done(value),
            Err(refused) => {
                self.register = recorded(self.register, refused.code);
                Answer::refused(refused)
            }
        }
    }
}
