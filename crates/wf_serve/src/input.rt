//! The frames of bytes in which messages come.

ghost use Rattle.std.specs.Prelude.{◌≡◌, ◌+◌, ◌≤◌, ◌++◌, take, length, IfOk, IsErr, OnErr};
ghost use Rattle.std.specs.Io.KnownBytes.{Consumes, IsAtEnd};
ghost use Rattle.wf_io.specs.Causes.{HasCause};
ghost use Rattle.wf_serve.specs.Reading.{IfFrame, ReadsNext};

use byteorder::{BigEndian, ByteOrder};
use wf_io::{Failed, Source};
use wf_wire::fill;

/// The most bytes of a frame: a client, a number, four arguments and the pixels of the largest image.
pub const MOST_FRAME: usize = 4_194_338;

/// What comes next in the input.
#[derive(Clone, Copy, Debug, PartialEq, Eq)]
pub(crate) enum Next {
    /// The input ends.
    End,
    /// A frame of this many bytes.
    Frame(usize),
    /// What is no frame.
    Broken,
}

/// Reads the next frame of `input` into the front of `buffer`.
pub(crate) fn next_frame<I: Source>(input: &mut I, buffer: &mut [u8]) -> Result<Next, Failed>
    requires { MOST_FRAME ≤ length buffer.old }
    ensures next { IfOk result (ReadsNext (I.left input.old) (I.left input.new) buffer.new) }
    ensures least { IfOk result (λ n. IfFrame n (λ count. 2 ≤ count)) }
    ensures most { IfOk result (λ n. IfFrame n (λ count. count ≤ MOST_FRAME)) }
    ensures size { length buffer.new ≡ length buffer.old }
    ensures cause { HasCause (I.faults input.old) (I.faults input.new) result }
{
    let mut head = [0u8; 4];
    let found = fill(input, &mut head)?;
    if found == 0 {
        return Ok(Next::End);
    }
    if found < head.len() {
        return Ok(Next::Broken);
    }
    let count = BigEndian::read_u32(&head) as usize;
    if count < 2 || count > MOST_FRAME {
        return Ok(Next::Broken);
    }
    if fill(input, &mut buffer[..count])? < count {
        return Ok(Next::Broken);
    }
    Ok(Next::Frame(count))
}
