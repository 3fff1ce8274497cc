//! A call that is put where another one stood, and the value that it sets an attribute to.

ghost use Rattle.std.specs.Prelude.{◌≡◌, true};
ghost use Rattle.wf_turn.specs.Program.{handle};
ghost use Rattle.wf_turn.specs.Puts.{set_to};

use crate::program::Program;
use wf_calls::Request;
use wf_script::Value;

/// Puts a call where another one stood.
#[inline(always)]
pub(crate) fn put(place: &mut Request, call: Request) -> bool
    ensures given { result ≡ true }
    ensures put { place.new ≡ call }
{
    *place = call;
    true
}

impl<'a> Program<'a> {
    /// What an attribute is set to: four numbers, of which a handle is the first.
    pub(crate) fn set_to(&self, value: &'a Value) -> [i64; 4]
        ensures { result ≡ set_to (handle self.now) value.now }
    {
        match value {
            Value::Handle(name) => [self.handle(name).into(), 0, 0, 0],
            Value::Numbers(numbers) => *numbers,
        }
    }
}
