//! Pixels of a source that are kept for further rows of the target. A layer that is scaled up shows a row of its source in
//! more than one row of the target; and where a layer shows columns of its source as rows, each visit to a row of the source
//! brings the pixels of further columns with it.

ghost use Rattle.std.specs.Prelude.{◌≡◌, ℕ, ◌+◌, ◌<◌, ◌≤◌, List, length, true, IsTrue, Some};
ghost use Rattle.wf_kernel.specs.Bound.{Bound, layer_at};
ghost use Rattle.wf_kernel.specs.Kept.{AreKept};
ghost use Rattle.wf_kernel.specs.Placed.{is_crossed};

use crate::bound::BoundLayer;
use crate::lines::fill_line;
use crate::placing::{Walk, down};
use crate::stretch::{Stretch, stretch_of};
use crate::{BLOCK_BYTES, ROW_BYTES};
use wf_image::Image;
use wf_row::gather_columns;

/// How many columns of a source are kept.
pub(crate) const COLUMNS: u32 = 8;

/// Which pixels are kept.
#[derive(Clone, Copy, Debug, PartialEq, Eq)]
pub(crate) struct Tag {
    /// The layer that shows them, by its place.
    pub(crate) layer: usize,
    /// How far the first of them lies behind the layer's left side on the target.
    pub(crate) across: u32,
    pub(crate) len: u32,
    /// The row of the source, or the first column.
    pub(crate) other: u32,
    /// The last row of the target that they served.
    pub(crate) row: u32,
}

/// No pixels.
const NONE: Tag = Tag {
    layer: 0,
    across: 0,
    len: 0,
    other: 0,
    row: 0,
};

impl Tag {
    /// Whether the pixels of a stretch of a layer, at this coordinate of the source, are among those of `count` rows or
    /// columns that are kept.
    pub(crate) fn has(&self, layer: usize, stretch: Stretch, other: u32, count: u32) -> bool
        ensures layer { IsTrue result → self.now.layer ≡ layer }
        ensures first { IsTrue result → self.now.other ≤ other }
        ensures last { IsTrue result → other < self.now.other + count }
        ensures start { IsTrue result → self.now.across ≤ stretch.across }
        ensures end { IsTrue result → stretch.across + stretch.len ≤ self.now.across + self.now.len }
    {
        if self.layer != layer || other < self.other || stretch.across < self.across {
            return false;
        }
        let skip = stretch.across - self.across;
        other - self.other < count && skip <= self.len && stretch.len <= self.len - skip
    }

    /// Whether what is kept may give way to pixels of a layer: it is the layer's own, or did not serve the row above.
    fn gives_way(&self, layer: usize, y: u32) -> bool {
        self.layer == layer || self.len == 0 || y.abs_diff(self.row) > 1
    }
}

/// The pixels that are kept.
#[derive(Drop)]
pub(crate) struct Kept {
    /// A row of a source, as a layer shows it.
    pub(crate) line_of: Tag,
    pub(crate) line: [u8; ROW_BYTES],
    /// Columns of a source, one after the other, as a layer shows them.
    pub(crate) block_of: Tag,
    pub(crate) block: [u8; BLOCK_BYTES],
}

/// Nothing.
pub(crate) fn nothing_kept() -> Kept
    ensures { (layers : List Bound) → AreKept layers result }
{
    Kept {
        line_of: NONE,
        line: [0; ROW_BYTES],
        block_of: NONE,
        block: [0; BLOCK_BYTES],
    }
}

/// Keeps the row of the source that a layer shows in the row of a stretch, in the columns that are asked for, where the stretch is half
/// of it at least.
pub(crate) fn keep_line(
    kept: &mut Kept,
    layers: &[BoundLayer],
    i: usize,
    image: &Image,
    stretch: Stretch,
)
    requires layer { i < length layers.now }
    requires source { (layer_at layers.now i).source ≡ Some image.now }
    requires kept { AreKept layers.now kept.old }
    ensures { AreKept layers.now kept.new }
{
    if !kept.line_of.gives_way(i, stretch.y) {
        return;
    }
    let layer = &layers[i];
    let Some(whole) = stretch_of(layer, layer.left, layer.right - layer.left, stretch.y) else {
        return;
    };
    if stretch.len < whole.len / 2 {
        return;
    }
    fill_line(
        &mut kept.line[..4 * whole.len as usize],
        layer,
        image,
        whole,
    );
    kept.line_of = Tag {
        layer: i,
        across: whole.across,
        len: whole.len,
        other: down(layer.turn, &layer.layer, whole.down),
        row: stretch.y,
    };
}

/// Keeps the columns of the source that a layer shows in the row of a stretch and in rows beside it, in the columns of the target that
/// are asked for, where the stretch is half of the row at least.
pub(crate) fn keep_block(
    kept: &mut Kept,
    layers: &[BoundLayer],
    i: usize,
    image: &Image,
    stretch: Stretch,
)
    requires layer { i < length layers.now }
    requires source { (layer_at layers.now i).source ≡ Some image.now }
    requires crossed { is_crossed (layer_at layers.now i).turn (layer_at layers.now i).layer ≡ true }
    requires kept { AreKept layers.now kept.old }
    ensures { AreKept layers.now kept.new }
{
    if !kept.block_of.gives_way(i, stretch.y) {
        return;
    }
    let layer = &layers[i];
    let width = image.size().w;
    let Walk::Table = layer.walk else {
        return;
    };
    if width < COLUMNS {
        return;
    }
    let Some(whole) = stretch_of(layer, layer.left, layer.right - layer.left, stretch.y) else {
        return;
    };
    if stretch.len < whole.len / 2 {
        return;
    }
    let other = down(layer.turn, &layer.layer, whole.down);
    let first = (other - other % COLUMNS).min(width - COLUMNS);
    let from = whole.x as usize;
    let places = &layer.table[from..from + whole.len as usize];
    gather_columns(
        &mut kept.block[..32 * whole.len as usize],
        image.bytes(),
        first,
        width,
        places,
    );
    kept.block_of = Tag {
        layer: i,
        across: whole.across,
        len: whole.len,
        other: first,
        row: stretch.y,
    };
}
