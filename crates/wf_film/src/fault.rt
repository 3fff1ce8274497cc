//! Why bytes are no film.

ghost use Rattle.std.specs.Prelude.{◌≡◌, ◌≤◌, length};
ghost use Rattle.wf_film.specs.Reading.{fault_in, stop_of};

use crate::rule::Breach;

/// Why bytes are no film: the first fault, or no memory.
#[derive(Clone, Copy, Debug, PartialEq, Eq)]
pub enum FilmStop {
    /// A rule is broken at this byte, counted from 0: 1 no magic, 2 no tag that may stand there, 3 the film ends too
    /// early, 4 a number out of its range, 5 something behind the end.
    Fault { at: u64, rule: u32 },
    NoMemory,
}

impl FilmStop {
    /// The fault of bytes in which a rule is broken.
    pub(crate) fn of(broken: Breach, bytes: &[u8]) -> FilmStop
        requires { broken.left ≤ length bytes.now }
        ensures { result ≡ stop_of (fault_in (length bytes.now) broken) }
    {
        let at = bytes.len() - broken.left;
        FilmStop::Fault {
            at: at as u64,
            rule: broken.rule.number(),
        }
    }
}
