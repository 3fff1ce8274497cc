//! The rules of a film, and where one is broken.

ghost use Rattle.std.specs.Prelude.{◌≡◌};
ghost use Rattle.wf_film.specs.Rules.{breach, ends_here, rule_number};

use std::alloc::{AllocError, AllocFailed};

/// The rules that a film may break.
#[derive(Clone, Copy, Debug, PartialEq, Eq)]
pub(crate) enum Rule {
    /// The first four bytes are a magic.
    Magic,
    /// A tag is `F` or `J`, and behind the journal `E`.
    Tag,
    /// The film goes on where a field begins, and to that field's end.
    Whole,
    /// A port, a side, a client and a code are in their ranges.
    Range,
    /// Nothing follows the end.
    Last,
}

impl Rule {
    /// The number that a fault gives.
    pub(crate) fn number(self) -> u32
        ensures { result ≡ rule_number self }
    {
        match self {
            Rule::Magic => 1,
            Rule::Tag => 2,
            Rule::Whole => 3,
            Rule::Range => 4,
            Rule::Last => 5,
        }
    }
}

/// A rule that is broken, and how many bytes of the film are left from there on.
#[derive(Clone, Copy, Debug, PartialEq, Eq)]
pub(crate) struct Breach {
    pub rule: Rule,
    pub left: usize,
}

impl Breach {
    /// The rule is broken where these bytes are left.
    pub(crate) fn at(rule: Rule, left: &[u8]) -> Breach
        ensures { result ≡ breach rule left.now }
    {
        Breach {
            rule,
            left: left.len(),
        }
    }

    /// The film ends where it has to go on.
    pub(crate) fn at_end() -> Breach
        ensures { result ≡ ends_here }
    {
        Breach {
            rule: Rule::Whole,
            left: 0,
        }
    }
}

/// Why a film is not read.
#[derive(Clone, Copy, Debug, PartialEq, Eq)]
pub(crate) enum ReadStop {
    Breaks(Breach),
    NoMemory,
}

impl From<Breach> for ReadStop {
    ghost use Rattle.wf_film.specs.declared.rule.ReadStop.TheVariants.{Breaks};

    ghost from_gives = { λ broken stop. stop ≡ Breaks broken };

    fn from(broken: Breach) -> ReadStop {
        ReadStop::Breaks(broken)
    }
}

impl From<AllocError> for ReadStop {
    ghost use Rattle.wf_film.specs.declared.rule.ReadStop.TheVariants.{NoMemory};

    ghost from_gives = { λ _ stop. stop ≡ NoMemory };

    fn from(_error: AllocError) -> ReadStop {
        ReadStop::NoMemory
    }
}

impl<T: Drop> From<AllocFailed<T>> for ReadStop {
    ghost use Rattle.wf_film.specs.declared.rule.ReadStop.TheVariants.{NoMemory};

    ghost from_gives = { λ _ stop. stop ≡ NoMemory };

    fn from(_failed: AllocFailed<T>) -> ReadStop {
        ReadStop::NoMemory
    }
}
