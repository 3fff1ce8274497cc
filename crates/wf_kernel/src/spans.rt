//! The pixels that the side of a destination covers.

ghost use Rattle.std.specs.Prelude.{◌+◌, ◌-◌, ◌<◌, ◌≤◌, ◌≤ℤ◌, pos, negsuc};
ghost use Rattle.wf_pixel.specs.Along.{along};
ghost use Rattle.wf_kernel.specs.Bound.{cut_to};
ghost use Rattle.wf_kernel.specs.Spans.{IsReach};

use crate::FARTHEST;
use wf_pixel::{MOST_SIDE, Rect};

/// The pixels of a row or a column of the target that the side of a destination covers.
#[derive(Clone, Copy, Debug, PartialEq, Eq)]
pub(crate) struct Span {
    pub(crate) start: u32,
    /// How far that is behind the start of the side.
    pub(crate) skip: u32,
    pub(crate) len: u32,
}

impl Span {
    /// How many of these pixels lie before pixel `end` of the row or the column.
    pub(crate) fn before(self, end: u32) -> u32
        ensures { result ≤ end }
    {
        end.saturating_sub(self.start).min(self.len)
    }
}

/// No pixel.
pub(crate) const NONE: Span = Span {
    start: 0,
    skip: 0,
    len: 0,
};

/// The columns that a rectangle on the target covers, of those from `left` to the one before `right`.
pub(crate) fn columns_of(r: Rect, left: u32, right: u32) -> Span
    requires low { negsuc (FARTHEST - 1) ≤ℤ r.x }
    requires high { r.x ≤ℤ pos FARTHEST }
    requires w { r.w ≤ MOST_SIDE }
    requires right { right ≤ MOST_SIDE }
    ensures reach { IsReach (λ x. cut_to left right x (along r.x r.w (pos x))) r.w result }
    ensures within { result.start + result.len ≤ right }
{
    let all = reach_of(r.x, r.w);
    let start = all.start.max(left);
    let end = (all.start + all.len).min(right);
    if end <= start {
        return NONE;
    }
    Span {
        start,
        skip: all.skip + (start - all.start),
        len: end - start,
    }
}

/// The rows that it covers, however high the target is.
pub(crate) fn rows_of(r: Rect) -> Span
    requires low { negsuc (FARTHEST - 1) ≤ℤ r.y }
    requires high { r.y ≤ℤ pos FARTHEST }
    requires h { r.h ≤ MOST_SIDE }
    ensures { IsReach (λ y. along r.y r.h (pos y)) r.h result }
{
    reach_of(r.y, r.h)
}

/// The pixels that a side of `w` pixels from `x` on covers.
fn reach_of(x: i32, w: u32) -> Span
    requires low { negsuc (FARTHEST - 1) ≤ℤ x }
    requires high { x ≤ℤ pos FARTHEST }
    requires w { w ≤ MOST_SIDE }
    ensures { IsReach (λ j. along x w (pos j)) w result }
{
    if x < 0 {
        reach_before(x.unsigned_abs(), w)
    } else {
        reach_at(x as u32, w)
    }
}

/// The same of a side that begins `before` pixels before the row.
fn reach_before(before: u32, w: u32) -> Span
    requires some { 0 < before }
    requires w { w ≤ MOST_SIDE }
    ensures { IsReach (λ j. along (negsuc (before - 1)) w (pos j)) w result }
{
    if before >= w {
        return NONE;
    }
    Span {
        start: 0,
        skip: before,
        len: w - before,
    }
}

/// The same of a side that begins in the row or behind it.
fn reach_at(start: u32, w: u32) -> Span
    requires high { start ≤ FARTHEST }
    requires w { w ≤ MOST_SIDE }
    ensures { IsReach (λ j. along (pos start) w (pos j)) w result }
{
    Span {
        start,
        skip: 0,
        len: w,
    }
}
