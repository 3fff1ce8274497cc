//! What a check finds.

/// What a check finds.
#[derive(Clone, Copy, Debug, PartialEq, Eq)]
pub enum Verdict {
    /// The bytes are the film of the script and of their own journal, in their own form.
    Same,
    /// They are no film: at this byte, counted from 0, they break a rule of films.
    BadFilm { at: u64, rule: u32 },
    /// Entry `entry`, counted from 0, is no turn; or `entry` is the number of entries, all are turns, and a program is not through.
    BadOrder { entry: u32 },
    /// At this byte, counted from 0, they are not the film of their order; or this is the shorter length.
    Differs { at: u64 },
}
