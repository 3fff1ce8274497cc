//! Reads all that a source has left.

ghost use Rattle.std.specs.Prelude.{◌≡◌, ◌<◌, ◌≤◌, length, IfOk, OnOk, IfSome, IsErrOf};
ghost use Rattle.std.specs.Io.KnownBytes.{Consumes, IsAtEnd};
ghost use Rattle.wf_io.specs.Causes.{Rose};

use crate::source::Source;
use std::alloc::Global;

/// How many bytes are asked for at once.
const PIECE: usize = 4096;

/// Why not all was read.
#[derive(Clone, Copy, Debug, PartialEq, Eq)]
pub enum ReadStop {
    /// The source failed.
    Fault,
    /// There are more bytes than the limit.
    TooLong,
    NoMemory,
}

/// Reads all bytes that `s` has left, of which there are at most `limit`. It asks for 4,096 bytes at a time, and for fewer only
/// near the limit; each call but the last takes one byte at least.
pub fn read_all<S: Source>(alloc: Global, s: &mut S, limit: usize) -> Result<Vec<u8>, ReadStop>
    ensures all { IfOk result (λ v. IfSome (S.left s.old) (λ bytes. v.items ≡ bytes)) }
    ensures within { IfOk result (λ v. length v.items ≤ limit) }
    ensures end { OnOk result (IsAtEnd (S.left s.new)) }
    ensures too_long { IsErrOf result ReadStop.TooLong → IfSome (S.left s.old) (λ bytes. limit < length bytes) }
    ensures fault { IsErrOf result ReadStop.Fault → Rose (S.faults s.old) (S.faults s.new) }
    ensures later { S.faults s.old ≤ S.faults s.new }
{
    let mut bytes = Vec::new(alloc);
    let mut piece = [0u8; PIECE];
    while bytes.len() <= limit {
        let asked = (limit - bytes.len()).min(PIECE - 1) + 1;
        let Ok(n) = s.take(&mut piece[..asked]) else {
            return Err(ReadStop::Fault);
        };
        if n == 0 {
            return Ok(bytes);
        }
        if bytes.extend_from_slice(&piece[..n]).is_err() {
            return Err(ReadStop::NoMemory);
        }
    }
    Err(ReadStop::TooLong)
}
