//! Where bytes go.

ghost use Rattle.std.specs.Prelude.{ℕ, List, ◌<◌, length, take, IfOk, OnErr};
ghost use Rattle.std.specs.Io.{WritesAtMost};
ghost use Rattle.wf_io.specs.Causes.{HasCause};
ghost use Rattle.wf_io.specs.Bytes.{Puts, PutsNothing};

use crate::source::Failed;

/// Where bytes go.
pub trait Sink {
    /// Whether the sink may have taken just these bytes since it was made.
    ghost took: { Self → List ℕ → Type 0 };

    /// How often it failed. A count that has come to 2^64 - 1 stands still, and counts as risen.
    ghost faults: { Self → ℕ };

    /// Takes bytes from the front of `bytes`, and answers how many: at least one of a piece that is not empty.
    /// Where it fails, it takes none.
    fn put(&mut self, bytes: &[u8]) -> Result<usize, Failed>
        ensures bound { WritesAtMost result bytes.now }
        ensures progress { IfOk result (λ n. 0 < length bytes.now → 0 < n) }
        ensures taken { IfOk result (λ n. Puts took self.old self.new (take n bytes.now)) }
        ensures kept { OnErr result (PutsNothing took self.old self.new) }
        ensures cause { HasCause (faults self.old) (faults self.new) result };
}
