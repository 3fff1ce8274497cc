//! Writes all of a piece.

ghost use Rattle.std.specs.Prelude.{◌≡◌, ◌<◌, ◌≤◌, length, OnOk, IfErr};
ghost use Rattle.wf_io.specs.Causes.{HasCause};
ghost use Rattle.wf_io.specs.Bytes.{Puts, PutsPart};

use crate::sink::Sink;

/// The sink failed when it had taken this many bytes.
#[derive(Clone, Copy, Debug, PartialEq, Eq)]
pub struct WriteStop {
    pub written: usize,
}

/// Puts all of `bytes` into `k`, in as many calls as it takes. It cannot lack memory.
pub fn write_all<K: Sink>(k: &mut K, bytes: &[u8]) -> Result<(), WriteStop>
    ensures all { OnOk result (Puts K.took k.old k.new bytes.now) }
    ensures part { IfErr result (λ stop. PutsPart K.took k.old k.new 0 bytes.now stop.written) }
    ensures cause { HasCause (K.faults k.old) (K.faults k.new) result }
{
    let mut written = 0usize;
    while written < bytes.len() {
        match k.put(&bytes[written..]) {
            Ok(n) => written += n,
            Err(_) => return Err(WriteStop { written }),
        }
    }
    Ok(())
}
