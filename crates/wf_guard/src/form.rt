//! How the pictures of ports are put.

/// How many ports a core has at most.
pub const MOST_PORTS: usize = 4;

/// How the pictures of ports are put.
#[derive(Clone, Copy, Debug, PartialEq, Eq)]
pub enum Form {
    /// Each as a frame of a film: a letter, the port, the tick, its sides and its pixels.
    Film,
    /// The same where there is no last picture of its sides, and else the rows that changed.
    Bands,
    /// Those of the first port alone, for a framebuffer: rows of words X R G B, the lowest byte first, each row `stride` bytes after the
    /// one before.
    Rows { stride: u32 },
}
