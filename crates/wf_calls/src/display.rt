//! The attributes of ports and of pipelines, and when a pipeline changes what it shows.

/// The attributes of a port. `Mode`, `Background` and `Power` can be set.
#[derive(Clone, Copy, Debug, PartialEq, Eq)]
pub enum PortAttr {
    /// The mode, counted from 1.
    Mode,
    /// Three numbers r, g, b from 0 to 255: the colour behind the screen.
    Background,
    /// 1 where the port is on, else 0.
    Power,
    /// The committed mode's width in pixels.
    Width,
    /// The committed mode's height in pixels.
    Height,
    /// 1 where a display is attached, else 0.
    Attached,
}

/// The attributes of a pipeline. `Port`, `Pending` and `Showing` can't be set.
#[derive(Clone, Copy, Debug, PartialEq, Eq)]
pub enum PipeAttr {
    /// Four numbers x, y, w, h: where it shows. x and y are at most `MOST_COORDINATE` from 0, and w and h at most that.
    Dest,
    /// Four numbers x, y, w, h, in the ranges of `Dest`: which part of its source it shows.
    SrcRect,
    /// 1 where the source is flipped from top to bottom, else 0.
    Flip,
    /// The clockwise turn of the source: 0, 90, 180 or 270.
    Rotation,
    /// How the source is scaled: 0, 1 or 2.
    Filter,
    /// The sum of 1 for its own alpha and 2 for the source's. 4 is for a mask, which a pipeline does not have.
    Transparency,
    /// Its own alpha, from 0 to 255.
    Alpha,
    /// The cached port, counted from 1, or 0.
    Port,
    /// 1 where a binding waits for the port's next frame, else 0.
    Pending,
    /// 1 where the current binding names a stream, else 0.
    Showing,
}

/// When a requested source shows.
#[derive(Clone, Copy, Debug, PartialEq, Eq)]
pub enum Transition {
    /// From the commit on.
    Now,
    /// From the port's next frame on.
    Vsync,
}
