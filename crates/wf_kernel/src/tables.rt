//! The coordinates of a source for the columns of a target, where its columns cannot be taken one after the other.

ghost use Rattle.std.specs.Prelude.{◌≡◌, ◌+◌, ◌<◌, ◌≤◌, ◌≤ℤ◌, ℕ, List, false, true, All, IsTrue, length, pos, slice_index_or};
ghost use Rattle.wf_pixel.specs.Choice.{has_sides};
ghost use Rattle.wf_pixel.specs.Place.{IsDrawn, turned};
ghost use Rattle.wf_model.specs.Picture.{Fits};
ghost use Rattle.wf_kernel.specs.Prepared.{AreTables, IsTable, needs_table, table_count};

use crate::placing::{across, needs_table, turned_rect};
use crate::spans::columns_of;
use wf_image::Contents;
use wf_pixel::{MOST_SIDE, Rotation, SIDE_LEN, Size, turned};
use wf_scene::{Layer, Scene};

/// How many layers of a scene need a table.
pub(crate) fn count_tables(scene: &Scene) -> usize
    ensures value { result ≡ table_count scene.now }
    ensures few { result ≤ 32 }
{
    let layers = scene.layers.as_slice();
    let mut count = 0;
    for i in 0..layers.len() {
        count = next_place(count, scene.turn, &layers[i]);
    }
    count
}

/// Returns the place of the next free table: one further than `place` where `layer` needs one.
pub(crate) fn next_place(place: usize, turn: Rotation, layer: &Layer) -> usize
    requires few { place < 32 }
    ensures needed { needs_table turn layer.now ≡ true → result ≡ place + 1 }
    ensures not_needed { needs_table turn layer.now ≡ false → result ≡ place }
    ensures up { place ≤ result }
{
    if needs_table(turn, layer) {
        place + 1
    } else {
        place
    }
}

/// Works out the tables of the layers of a scene that need one, one after the other, for the columns from `left` to the one before
/// `right`.
pub(crate) fn fill_tables(
    tables: &mut [[u16; SIDE_LEN]],
    scene: &Scene,
    contents: &Contents,
    left: u32,
    right: u32,
)
    requires room { table_count scene.now ≤ length tables.old }
    requires fits { Fits scene.now contents.now }
    requires right { right ≤ MOST_SIDE }
    ensures { AreTables scene.now left right tables.new }
{
    let _ = contents;
    let layers = scene.layers.as_slice();
    let space = turned(scene.turn, scene.size);
    let mut place = 0;
    for i in 0..layers.len() {
        fill_needed(tables, place, scene.turn, space, &layers[i], left, right);
        place = next_place(place, scene.turn, &layers[i]);
    }
}

/// Works out the table of a layer at this place, where it needs one.
fn fill_needed(
    tables: &mut [[u16; SIDE_LEN]],
    place: usize,
    turn: Rotation,
    space: Size,
    layer: &Layer,
    left: u32,
    right: u32,
)
    requires room { needs_table turn layer.now ≡ true → place < length tables.old }
    requires right { right ≤ MOST_SIDE }
    requires sides { IsTrue (has_sides space) }
    requires src { IsDrawn layer.now.src }
    requires dest { IsDrawn layer.now.dest }
    requires x { pos 0 ≤ℤ layer.now.src.x }
    requires y { pos 0 ≤ℤ layer.now.src.y }
    ensures len { length tables.new ≡ length tables.old }
    ensures before { (k : ℕ) (e : List ℕ) → k < place → slice_index_or tables.new k e ≡ slice_index_or tables.old k e }
    ensures table { needs_table turn layer.now ≡ true → (e : List ℕ)
        → IsTable turn space left right layer.now (slice_index_or tables.new place e) }
{
    if needs_table(turn, layer) {
        fill_table(&mut tables[place], turn, space, layer, left, right);
    }
}

/// Works out the table of a layer.
fn fill_table(
    table: &mut [u16; SIDE_LEN],
    turn: Rotation,
    space: Size,
    layer: &Layer,
    left: u32,
    right: u32,
)
    requires right { right ≤ MOST_SIDE }
    requires sides { IsTrue (has_sides space) }
    requires src { IsDrawn layer.now.src }
    requires dest { IsDrawn layer.now.dest }
    requires x { pos 0 ≤ℤ layer.now.src.x }
    requires y { pos 0 ≤ℤ layer.now.src.y }
    ensures { IsTable turn space left right layer.now table.new }
{
    let place = turned_rect(turn, space, layer.dest);
    let reach = columns_of(place, left, right);
    for x in reach.start..reach.start + reach.len {
        table[x as usize] = across(turn, layer, reach.skip + (x - reach.start)) as u16;
    }
}
