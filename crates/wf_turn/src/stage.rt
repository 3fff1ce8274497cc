//! Where a program stands in its first line.

use wf_calls::{Call, Request};
use wf_image::Canvas;

/// What a tick asks for next.
#[derive(Clone, Copy, Debug, PartialEq, Eq)]
pub enum Phase {
    /// A frame of a context: so many were asked for, and the last answer had this value.
    Contexts { asked: u32, last: u32 },
    /// The frame of a port, counted from 1.
    Ports { port: u32 },
}

/// Where a program stands in its first line.
#[derive(Clone, Copy, Debug, PartialEq, Eq)]
pub enum Stage {
    /// Before it.
    Fresh,
    /// With a painted canvas to post.
    Posting,
    /// In a tick, before it asks for a frame.
    Ticking(Phase),
    /// With a frame's Job to end, and where a tick goes on behind it; none where the line is through then.
    Ending(Option<Phase>),
}

/// A call that a program makes next, and whether it waits until no frame runs.
#[derive(Drop)]
pub struct Wanted {
    pub call: Call,
    pub wait: bool,
}

/// A call that a program asks for and that brings nothing, and whether it waits until no frame runs.
#[derive(Clone, Copy)]
pub struct Asked {
    pub request: Request,
    pub wait: bool,
}

/// What a program asks for next. What a call carries is told here, and no such call is made: so no large value is moved.
#[derive(Drop)]
pub enum Asks {
    /// The lines are through.
    Nothing,
    /// The call that was put in its place, which carries nothing.
    Call,
    /// A stream's write buffer.
    Acquire { stream: u32 },
    /// The canvas is posted.
    Post(Canvas),
    /// The canvas is given back unseen.
    Discard(Canvas),
    /// The frame ends whose Job is held.
    End,
}
