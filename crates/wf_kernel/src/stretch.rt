//! Pixels of a row of the target that a layer covers.

ghost use Rattle.std.specs.Prelude.{◌≡◌, ℕ, ◌+◌, ◌<◌, ◌≤◌, None, IfNone, IfSome};
ghost use Rattle.wf_kernel.specs.Bound.{bound_texel};
ghost use Rattle.wf_kernel.specs.Laid.{IsStretchIn};

use crate::bound::BoundLayer;
use wf_pixel::MOST_SIDE;

/// Some pixels of a row of the target that a layer covers, one after the other.
#[derive(Clone, Copy, Debug, PartialEq, Eq)]
pub(crate) struct Stretch {
    /// The column of the target where they begin, and their row.
    pub(crate) x: u32,
    pub(crate) y: u32,
    /// How far the first of them lies behind the layer's left side on the target, and below its top.
    pub(crate) across: u32,
    pub(crate) down: u32,
    pub(crate) len: u32,
}

/// The pixels of a layer in `width` pixels of row `y` from column `first` on, or None where it shows nothing there.
#[inline(always)]
pub(crate) fn stretch_of(layer: &BoundLayer, first: u32, width: u32, y: u32) -> Option<Stretch>
    requires few { first + width ≤ MOST_SIDE }
    ensures some { IfSome result (λ s. IsStretchIn layer.now first width y s) }
    ensures none { IfNone result ((j : ℕ) → j < width → bound_texel layer.now (first + j) y ≡ None) }
{
    let columns = layer.columns;
    let rows = layer.rows;
    let start = columns.start.max(first);
    let end = (columns.start + columns.len).min(first + width);
    if end <= start {
        return None;
    }
    if y < rows.start {
        return None;
    }
    if rows.start + rows.len <= y {
        return None;
    }
    Some(Stretch {
        x: start,
        y,
        across: columns.skip + (start - columns.start),
        down: rows.skip + (y - rows.start),
        len: end - start,
    })
}
