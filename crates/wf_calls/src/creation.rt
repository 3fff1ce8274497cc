//! The calls that make an object. tools/calls writes this file.

ghost use Rattle.std.specs.Prelude.{◌≡◌};
ghost use Rattle.wf_calls.specs.Creations.{is_creation};
ghost use Rattle.wf_calls.specs.Requests.{call_of};

use crate::request::Request;

impl Request {
    /// Tells whether this call makes an object, whose handle it answers. No other call can answer OutOfMemory.
    pub fn is_creation(&self) -> bool
        ensures { result ≡ is_creation (call_of self.now) }
    {
        matches!(
            self,
            Request::StreamNew { .. }
                | Request::StreamQueue { .. }
                | Request::DeviceNew
                | Request::ScreenContext { .. }
                | Request::StreamContext { .. }
                | Request::ElementNew { .. }
                | Request::SourceNew { .. }
                | Request::MaskNew { .. }
                | Request::DisplaySource { .. }
        )
    }
}
