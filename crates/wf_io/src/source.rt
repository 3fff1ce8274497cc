//! Where bytes come from.

ghost use Rattle.std.specs.Prelude.{ℕ, List};
ghost use Rattle.std.specs.Prelude.{Option};
ghost use Rattle.std.specs.Io.{ReadsAtMost};
ghost use Rattle.std.specs.Io.KnownBytes.{ReadConsumes};
ghost use Rattle.wf_io.specs.Causes.{HasCause};

/// Reading or writing failed, and the count of faults of the source or the sink rose.
#[derive(Clone, Copy, Debug, PartialEq, Eq)]
pub struct Failed;

/// Where bytes come from.
pub trait Source {
    /// The bytes that it has left, where it tells them.
    ghost left: { Self → Option (List ℕ) };

    /// How often it failed. A count that has come to 2^64 - 1 stands still, and counts as risen.
    ghost faults: { Self → ℕ };

    /// Moves the next bytes into the front of `into`, and answers how many. 0 for a piece that is not empty
    /// means that the source has ended. Where it fails, nothing is moved.
    fn take(&mut self, into: &mut [u8]) -> Result<usize, Failed>
        ensures bound { ReadsAtMost result into.new }
        ensures bytes { ReadConsumes (left self.old) (left self.new) result into.new }
        ensures cause { HasCause (faults self.old) (faults self.new) result };
}
