//! What the words ask for.

use wf_film::FilmForm;

/// What the program is asked for.
#[derive(Clone, Copy, Debug, PartialEq, Eq)]
pub enum Mode {
    /// The film of a script.
    Film,
    /// Whether a film is that of a script and of its own journal.
    Check,
    /// A script in its canonical text.
    Print,
    /// The film of a script that is made, in two numbers.
    Big,
    /// The log of what happens at the display in a film.
    Events,
    /// The answers to a session, which is one client's calls as bytes.
    Session,
}

/// A mode with its options.
#[derive(Clone, Copy, Debug, PartialEq, Eq)]
pub struct Asked {
    pub mode: Mode,
    /// Each client plays on a thread of its own.
    pub threads: bool,
    /// In how many bands of rows, 1 to 16, a frame is painted at most.
    pub rows: u8,
    /// The form of the film.
    pub form: FilmForm,
    /// How many rounds the script has that is made, 1 to 1000.
    pub size: u16,
    /// For how many happenings of a stretch the log has room, 1 to 64.
    pub depth: u8,
    /// A frame is painted over the last one of its port or context, where something changed.
    pub repaint: bool,
}

/// Why nothing is asked for.
#[derive(Clone, Copy, Debug, PartialEq, Eq)]
pub enum WordsStop {
    /// The words are no command.
    Usage,
    NoMemory,
}
