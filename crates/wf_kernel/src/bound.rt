//! Layers with their images at hand, and with what is worked out of each once for all rows.

ghost use Rattle.std.specs.Prelude.{◌≡◌, ◌+◌, ◌<◌, ◌≤◌, ◌≤ℤ◌, ℕ, List, [], true, All, IsTrue, length, map, pos};
ghost use Rattle.std.specs.Prelude.{slice_index, slice_index_or};
ghost use Rattle.wf_pixel.specs.Place.{IsDrawn, turned, size_of};
ghost use Rattle.wf_pixel.specs.Choice.{has_sides};
ghost use Rattle.wf_model.specs.Picture.{Fits, LayerFits};
ghost use Rattle.wf_kernel.specs.Bound.{bound};
ghost use Rattle.wf_kernel.specs.Prepared.{AreTables, IsTable, needs_table};

use crate::hiding::hides_below;
use crate::placing::{Walk, is_crossed, turned_rect, walk_of};
use crate::spans::{Span, columns_of, rows_of};
use crate::tables::next_place;
use arrayvec::ArrayVec;
use std::marker::Model;
use wf_image::{Contents, Image};
use wf_pixel::{MOST_SIDE, Rect, Rotation, SIDE_LEN, Size, turned};
use wf_scene::{Layer, Scene};

/// A layer with the image of its stream and that of its mask, where they are there, and with the way in which the
/// composed picture is turned from its space into the target.
#[derive(Drop)]
pub(crate) struct BoundLayer<'a> {
    pub(crate) layer: Layer,
    pub(crate) source: Option<&'a Image>,
    pub(crate) mask: Option<&'a Image>,
    pub(crate) turn: Rotation,
    pub(crate) space: Size,
    /// The first of the target's columns that are asked for, and the one behind the last.
    pub(crate) left: u32,
    pub(crate) right: u32,
    /// The columns and the rows of the target that the destination covers, of those columns.
    pub(crate) columns: Span,
    pub(crate) rows: Span,
    /// The layer hides all that is below it at each point of its destination.
    pub(crate) hides: bool,
    /// The columns of the target go along the rows of the source.
    pub(crate) crossed: bool,
    pub(crate) walk: Walk,
    /// The coordinate of the source for each column of the target, where the walk is by a table.
    pub(crate) table: &'a [u16],
}

impl<'a> Model for BoundLayer<'a> {
    ghost use Rattle.std.specs.Option.{option_copied};
    ghost use Rattle.wf_kernel.specs.Bound.{Bound};

    ghost Value = { Bound };

    ghost use Rattle.wf_kernel.specs.Prepared.{IsPrepared};

    ghost view = { λ b. record {
      layer = b.layer;
      source = option_copied b.source;
      mask = option_copied b.mask;
      turn = b.turn;
      space = b.space;
      left = b.left;
      right = b.right;
    } };

    ghost invariant = { λ b. IsPrepared (record {
      layer = b.layer;
      source = option_copied b.source;
      mask = option_copied b.mask;
      turn = b.turn;
      space = b.space;
      left = b.left;
      right = b.right;
    }) b.columns b.rows b.hides b.crossed b.walk b.table.now };
}

/// A rectangle of one pixel.
const PIXEL: Rect = Rect {
    x: 0,
    y: 0,
    w: 1,
    h: 1,
};

impl<'a> Default for BoundLayer<'a> {
    fn default() -> BoundLayer<'a> {
        BoundLayer {
            layer: Layer {
                src: PIXEL,
                dest: PIXEL,
                ..Layer::default()
            },
            source: None,
            mask: None,
            turn: Rotation::R0,
            space: Size { w: 1, h: 1 },
            left: 0,
            right: 1,
            columns: columns_of(PIXEL, 0, 1),
            rows: rows_of(PIXEL),
            hides: false,
            crossed: false,
            walk: Walk::Forward,
            table: &[],
        }
    }
}

/// An empty list. What it takes of the stack to make one is free again behind it.
#[inline(never)]
pub(crate) fn no_layers<'a, const N: usize>() -> ArrayVec<BoundLayer<'a>, N>
    ensures { result.items ≡ [] }
{
    ArrayVec::new()
}

/// Adds the layers of a scene with their images among these to an empty list, for the columns from `left` to the one before `right`.
/// A layer that needs a table takes the next one. The list is the caller's, so that a picture moves it nowhere.
pub(crate) fn bind_layers<'a, const N: usize>(
    list: &mut ArrayVec<BoundLayer<'a>, N>,
    scene: &Scene,
    contents: &'a Contents,
    tables: &'a [[u16; SIDE_LEN]],
    left: u32,
    right: u32,
)
    requires empty { list.old.items ≡ [] }
    requires room { length scene.now.layers.items ≤ N }
    requires fits { Fits scene.now contents.now }
    requires order { left ≤ right }
    requires right { right ≤ MOST_SIDE }
    requires tables { AreTables scene.now left right tables.now }
    ensures { list.new.items ≡ map (bound scene.now contents.now left right) scene.now.layers.items }
{
    let layers = scene.layers.as_slice();
    let mut place = 0;
    for i in 0..layers.len() {
        let table = table_at(tables, place);
        list.push(bind_layer(scene, contents, layers[i], table, left, right));
        place = next_place(place, scene.turn, &layers[i]);
    }
}

/// A table by its place, or nothing behind the last one.
fn table_at<'a>(tables: &'a [[u16; SIDE_LEN]], i: usize) -> &'a [u16]
    ensures { i < length tables.now → (e : List ℕ) → result.now ≡ slice_index_or tables.now i e }
{
    if i < tables.len() { &tables[i] } else { &[] }
}

/// One layer.
fn bind_layer<'a>(
    scene: &Scene,
    contents: &'a Contents,
    layer: Layer,
    table: &'a [u16],
    left: u32,
    right: u32,
) -> BoundLayer<'a>
    requires sides { IsTrue (has_sides scene.now.size) }
    requires fits { LayerFits contents.now layer }
    requires order { left ≤ right }
    requires right { right ≤ MOST_SIDE }
    requires table { needs_table scene.now.turn layer ≡ true
        → IsTable scene.now.turn (turned scene.now.turn scene.now.size) left right layer table.now }
    ensures { result ≡ bound scene.now contents.now left right layer }
{
    let space = turned(scene.turn, scene.size);
    let place = turned_rect(scene.turn, space, layer.dest);
    let source = contents.find(layer.stream);
    BoundLayer {
        layer,
        source,
        mask: contents.find(layer.mask),
        turn: scene.turn,
        space,
        left,
        right,
        columns: columns_of(place, left, right),
        rows: rows_of(place),
        hides: hides_below(&layer, source),
        crossed: is_crossed(scene.turn, &layer),
        walk: walk_of(scene.turn, &layer),
        table,
    }
}
