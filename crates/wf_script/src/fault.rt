//! Why bytes are no script.

ghost use Rattle.std.specs.Prelude.{◌≡◌};

/// Why bytes are no script: the first line that breaks a rule, counted from 1, and the least rule that it breaks.
#[derive(Clone, Copy, Debug, PartialEq, Eq)]
pub enum ScriptFault {
    /// Line 1 is not the header.
    Header,
    /// A line breaks a rule: 1 byte, 2 client, 3 verb, 4 place, 5 count, 6 word, 7 name.
    Line { line: u32, rule: u32 },
    /// There are more than `MOST_LINES` lines.
    TooManyLines,
    /// The bytes end without the line `end`. The line is the one behind the last.
    NoEnd { line: u32 },
    NoMemory,
}

impl From<wf_words::NoMemory> for ScriptFault {
    ghost use Rattle.wf_script.specs.declared.fault.ScriptFault.TheVariants.{NoMemory};

    ghost from_gives = { λ _ fault. fault ≡ NoMemory };

    fn from(_want: wf_words::NoMemory) -> ScriptFault {
        ScriptFault::NoMemory
    }
}
