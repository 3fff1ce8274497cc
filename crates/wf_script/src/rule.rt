//! The rules of a line.

ghost use Rattle.std.specs.Prelude.{◌≡◌};
ghost use Rattle.wf_script.specs.Rules.{rule_number};

use std::alloc::AllocFailed;

/// The rules that a line other than the first may break, in the order in which they are looked at.
#[derive(Clone, Copy)]
pub(crate) enum Rule {
    /// Only printed ASCII and tabs stand in a line.
    Byte,
    /// The first word says what kind of line it is.
    Client,
    /// The verb is known, and has a name in front where it makes something.
    Verb,
    /// Lines of its kind stand here.
    Place,
    /// It has as many words as its form.
    Count,
    /// Each word is of its kind and in its range.
    Word,
    /// Names that it uses are visible, and one that it binds is not.
    Name,
}

impl Rule {
    /// The number that a fault gives.
    pub(crate) fn number(self) -> u32
        ensures { result ≡ rule_number self }
    {
        match self {
            Rule::Byte => 1,
            Rule::Client => 2,
            Rule::Verb => 3,
            Rule::Place => 4,
            Rule::Count => 5,
            Rule::Word => 6,
            Rule::Name => 7,
        }
    }
}

/// Why a line is not taken.
#[derive(Clone, Copy)]
pub(crate) enum LineFault {
    Breaks(Rule),
    NoMemory,
}

impl From<Rule> for LineFault {
    ghost use Rattle.wf_script.specs.declared.rule.LineFault.TheVariants.{Breaks};

    ghost from_gives = { λ rule fault. fault ≡ Breaks rule };

    fn from(rule: Rule) -> LineFault {
        LineFault::Breaks(rule)
    }
}

impl From<wf_words::NoMemory> for LineFault {
    ghost use Rattle.wf_script.specs.declared.rule.LineFault.TheVariants.{NoMemory};

    ghost from_gives = { λ _ fault. fault ≡ NoMemory };

    fn from(_want: wf_words::NoMemory) -> LineFault {
        LineFault::NoMemory
    }
}

impl<T: Drop> From<AllocFailed<T>> for LineFault {
    ghost use Rattle.wf_script.specs.declared.rule.LineFault.TheVariants.{NoMemory};

    ghost from_gives = { λ _ fault. fault ≡ NoMemory };

    fn from(_failed: AllocFailed<T>) -> LineFault {
        LineFault::NoMemory
    }
}
