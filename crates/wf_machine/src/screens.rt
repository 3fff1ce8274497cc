//! The screens of which calls of composition make contexts.

ghost use Rattle.std.specs.Prelude.{◌≡◌, IsSome, IsTrue, pos};
ghost use Rattle.wf_pixel.specs.Choice.{is_between};
ghost use Rattle.wf_calls.specs.Requests.{call_of};
ghost use Rattle.wf_model.specs.Composing.{declared_screen, screen_of};
ghost use Rattle.wf_core.specs.Steps.{IsOfPort};

use crate::parts::Parts;
use wf_calls::Request;

impl Parts {
    /// The screen that a call asks for, where it makes the context of one.
    pub(crate) fn screen_of(&self, call: &Request) -> Option<u32>
        ensures screen { result ≡ screen_of (call_of call.now) self.now }
        ensures within { IsOfPort (call_of call.now) result }
    {
        match call {
            Request::ScreenContext { port, .. } => self.declared_screen(*port),
            _ => None,
        }
    }

    /// The screen of a port, which counts from 1: the stream of its number. None where the port was not declared.
    pub(crate) fn declared_screen(&self, port: i64) -> Option<u32>
        ensures screen { result ≡ declared_screen port self.now }
        ensures within { IsSome result → IsTrue (is_between (pos 1) (pos 4) port) }
    {
        if 1 <= port && port <= 4 {
            self.display.screen(port as u32)
        } else {
            None
        }
    }
}
