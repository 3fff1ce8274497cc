//! What happens at the display.

/// What happens at the display in a turn.
#[derive(Clone, Copy, Debug, PartialEq, Eq)]
pub(crate) enum Happening {
    /// A source of a pipeline, counted from 1, became current, or none did.
    Bind { pipe: u32 },
    /// A display was attached to a port, counted from 1, or detached from it.
    Attach { port: u32, on: bool },
    /// Streams were dropped.
    Released { count: u32 },
}

impl Default for Happening {
    fn default() -> Happening {
        Happening::Released { count: 0 }
    }
}
