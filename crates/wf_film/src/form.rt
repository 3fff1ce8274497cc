//! The forms of a film.

/// The form of a film.
#[derive(Clone, Copy, Debug, PartialEq, Eq)]
pub enum FilmForm {
    /// Its frames do not say where in the journal they begin.
    One,
    /// Each frame carries the place, in the journal and from 0, of the entry that began it.
    Two,
}
