//! Why the program ends, its exit status, and the line that says so.

use wf_io::{Sink, write_all};
use wf_serve::ServeStop;

/// Why the program ends.
#[derive(Clone, Copy, Debug, PartialEq, Eq)]
pub(crate) enum End {
    /// The input ended.
    Done,
    /// The words are no command.
    Usage,
    /// The file for the pictures can't be opened.
    NoFile,
    /// The run stopped before its input ended.
    Stopped(ServeStop),
    NoMemory,
}

impl End {
    /// Returns the exit status: that of `wfplay` for what both have.
    pub(crate) fn status(self) -> u8 {
        match self {
            End::Done => 0,
            End::NoFile => 1,
            End::Usage => 2,
            End::Stopped(ServeStop::ReadFault) => 3,
            End::Stopped(ServeStop::AnswersFault) => 6,
            End::Stopped(ServeStop::FramesFault) => 7,
            End::NoMemory => 10,
            End::Stopped(ServeStop::BadFrame) => 11,
            End::Stopped(ServeStop::Most) => 12,
        }
    }

    /// Returns the line that says why.
    fn line(self) -> &'static str {
        match self {
            End::Done => "",
            End::NoFile => "wfserve: the file for the pictures can't be opened\n",
            End::Usage =>
                "usage: wfserve --port WxH[,WxH..] [--pipes N] (--frames FILE [--bands] | --fb FILE [--stride BYTES])\n",
            End::Stopped(ServeStop::ReadFault) => "wfserve: the input failed\n",
            End::Stopped(ServeStop::AnswersFault) => "wfserve: the answers could not be written\n",
            End::Stopped(ServeStop::FramesFault) => "wfserve: the pictures could not be written\n",
            End::NoMemory => "wfserve: there was no memory\n",
            End::Stopped(ServeStop::BadFrame) => "wfserve: the input is no sequence of frames\n",
            End::Stopped(ServeStop::Most) => "wfserve: no more messages can be counted\n",
        }
    }

    /// Puts the line into `notes`.
    pub(crate) fn tell<N: Sink>(self, notes: &mut N) {
        let _ = write_all(notes, self.line().as_bytes());
    }
}
