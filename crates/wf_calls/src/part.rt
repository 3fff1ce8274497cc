//! The parts of the machine that answer calls.

ghost use Rattle.std.specs.Prelude.{◌≡◌};
ghost use Rattle.wf_calls.specs.Parts.{device_of, is_begin, part_of};
ghost use Rattle.wf_calls.specs.Requests.{call_of};

use crate::call::Call;
use crate::request::Request;

/// Who answers a call.
#[derive(Clone, Copy, Debug, PartialEq, Eq)]
pub enum Part {
    /// The machine, from its streams.
    Streams,
    /// The machine, by a write buffer that it gives or takes.
    Buffers,
    /// The objects of composition; the call names this device, or 0 where it makes one.
    Composition { device: u32 },
    /// The objects of the display.
    Display,
    /// The machine, which begins a frame; the call names this device, or none where the clock makes it.
    Begin { device: Option<u32> },
    /// The machine, which ends the running frame.
    End,
}

impl Request {
    /// Returns who answers this call.
    pub fn part(&self) -> Part
        ensures { result ≡ part_of (call_of self.now) }
    {
        match self {
            // tools/calls writes what stands from here on, from crates/calls.table
            Request::StreamNew { .. }
            | Request::StreamQueue { .. }
            | Request::StreamDestroy { .. }
            | Request::Stat { .. } => Part::Streams,
            Request::Acquire { .. } => Part::Buffers,
            Request::DeviceNew => Part::Composition { device: 0 },
            Request::DeviceDestroy { device }
            | Request::GetError { device }
            | Request::ScreenContext { device, .. }
            | Request::StreamContext { device, .. }
            | Request::ContextDestroy { device, .. }
            | Request::ElementNew { device, .. }
            | Request::ElementDestroy { device, .. }
            | Request::SourceNew { device, .. }
            | Request::SourceDestroy { device, .. }
            | Request::MaskNew { device, .. }
            | Request::MaskDestroy { device, .. }
            | Request::ElementSet { device, .. }
            | Request::ElementGet { device, .. }
            | Request::ElementInsert { device, .. }
            | Request::ElementRemove { device, .. }
            | Request::ElementAbove { device, .. }
            | Request::ElementBelow { device, .. }
            | Request::ContextSet { device, .. }
            | Request::ContextGet { device, .. }
            | Request::Commit { device, .. }
            | Request::Activate { device, .. }
            | Request::Deactivate { device, .. } => Part::Composition { device: *device },
            Request::PortSet { .. }
            | Request::PortGet { .. }
            | Request::Attach { .. }
            | Request::PipeSet { .. }
            | Request::PipeGet { .. }
            | Request::PipeBindPort { .. }
            | Request::DisplaySource { .. }
            | Request::DisplaySourceDestroy { .. }
            | Request::PipeBindSource { .. }
            | Request::CommitDevice
            | Request::CommitPort { .. }
            | Request::CommitPipe { .. }
            | Request::DisplayError => Part::Display,
            Request::BeginNext { .. } | Request::BeginPort { .. } => Part::Begin { device: None },
            Request::BeginContext { device, .. } => Part::Begin {
                device: Some(*device),
            },
            // tools/calls writes what stands up to here
        }
    }

    /// Returns the device that this call of composition names, or 0, which no device has.
    pub fn device(&self) -> u32
        ensures { result ≡ device_of (call_of self.now) }
    {
        match self.part() {
            Part::Composition { device } => device,
            Part::Streams | Part::Buffers | Part::Display | Part::Begin { .. } | Part::End => 0,
        }
    }

    /// Tells whether this call begins a frame.
    pub fn is_begin(&self) -> bool
        ensures { result ≡ is_begin (call_of self.now) }
    {
        matches!(self.part(), Part::Begin { .. })
    }
}

impl Call {
    /// Tells whether this call begins a frame.
    pub fn is_begin(&self) -> bool
        ensures { result ≡ is_begin self.now }
    {
        matches!(
            self,
            Call::BeginNext { .. } | Call::BeginPort { .. } | Call::BeginContext { .. }
        )
    }
}
