//! Why a session stops.

/// Why a session stops before its input ends. Bytes are counted from the first one of the input, or of the answers, from 0.
#[derive(Clone, Copy)]
pub enum ServeStop {
    /// The source failed.
    ReadFault,
    /// The sink failed behind the first `written` bytes of the answers.
    WriteFault { written: u64 },
    /// The input breaks the rule of this number at byte `at`.
    BadMessage { at: u64, rule: u32 },
    /// A message that begins at byte `at` may not be answered any more.
    Quota { at: u64 },
}
