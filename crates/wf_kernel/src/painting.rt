//! Writes the picture of a scene, row by row from the top.

ghost use Rattle.std.specs.Prelude.{◌≡◌, ◌+◌, ◌-◌, ◌*◌, ◌/◌, ◌%◌, ◌<◌, ◌≤◌, ◌++◌, All, length, take, drop};
ghost use Rattle.wf_image.specs.Bitmap.{pixel_bytes, drawn_row, stored};
ghost use Rattle.wf_model.specs.Picture.{picture, Fits};
ghost use Rattle.wf_kernel.specs.Bound.{bound_colour, bound_picture, bound_row, bound_rows};
ghost use Rattle.wf_kernel.specs.Kept.{AreKept};
ghost use Rattle.wf_kernel.specs.Prepared.{AreTables, table_count};
ghost use Rattle.wf_kernel.specs.Strips.{IsStrip};

use crate::bound::{BoundLayer, bind_layers, no_layers};
use crate::keeping::{Kept, nothing_kept};
use crate::laying::lay_row;
use crate::placing::Walk;
use crate::runs::paint_run;
use crate::strips::{Strip, find_first, no_strip, strip_for};
use crate::tables::{count_tables, fill_tables};
use crate::{FEW_LAYERS, FEW_STRIPS, MOST_STRIPS, ONE_STRIPS, ROW_BYTES};
use wf_image::{Contents, Image};
use wf_pixel::{Format, MOST_SIDE, Rgba, SIDE_LEN};
use wf_scene::{MOST_INSERTED, Scene};

/// Writes into `target` the picture of `scene` with the images of `contents` by stream. It cannot lack memory and refuses
/// nothing. The target has the scene's size and 4 bytes a pixel; scene and images fit: the scene's sides are from 1 to
/// `MOST_SIDE`, the rectangles of each layer are in their ranges, an image of its stream is no mask and holds its source
/// rectangle, and an image of its mask, where that applies, is a mask of its destination's size.
pub fn picture(scene: &Scene, contents: &Contents, target: &mut Image)
    requires size { target.old.size ≡ scene.now.size }
    requires pixels { pixel_bytes target.old.format ≡ 4 }
    requires fits { Fits scene.now contents.now }
    ensures picture { target.new ≡ picture scene.now contents.now target.old.format }
    ensures same_size { target.new.size ≡ target.old.size }
    ensures same_format { target.new.format ≡ target.old.format }
{
    paint_scene(target.bytes_mut(), scene, contents);
}

/// Writes all rows of a scene.
fn paint_scene(bytes: &mut [u8], scene: &Scene, contents: &Contents)
    requires count { length bytes.old ≡ scene.now.size.w * scene.now.size.h * 4 }
    requires fits { Fits scene.now contents.now }
    ensures { bytes.new ≡ bound_picture scene.now contents.now }
{
    let count = count_tables(scene);
    if count == 0 {
        paint_bound(bytes, scene, contents, &[]);
    } else if count == 1 {
        paint_by_tables::<1>(bytes, scene, contents);
    } else if count <= FEW_LAYERS {
        paint_by_tables::<FEW_LAYERS>(bytes, scene, contents);
    } else {
        paint_by_tables::<MOST_INSERTED>(bytes, scene, contents);
    }
}

/// The same with tables, `N` at most. They stand on the stack, which a picture that needs none or fewer does without: so this
/// is a function of its own when it runs, too.
#[inline(never)]
fn paint_by_tables<const N: usize>(bytes: &mut [u8], scene: &Scene, contents: &Contents)
    requires room { table_count scene.now ≤ N }
    requires small { N ≤ MOST_INSERTED }
    requires count { length bytes.old ≡ scene.now.size.w * scene.now.size.h * 4 }
    requires fits { Fits scene.now contents.now }
    ensures { bytes.new ≡ bound_picture scene.now contents.now }
{
    let mut tables = [[0; SIDE_LEN]; N];
    fill_tables(&mut tables, scene, contents, 0, scene.size.w);
    paint_bound(bytes, scene, contents, &tables);
}

/// The same, where each layer that needs a table has it.
fn paint_bound(bytes: &mut [u8], scene: &Scene, contents: &Contents, tables: &[[u16; SIDE_LEN]])
    requires count { length bytes.old ≡ scene.now.size.w * scene.now.size.h * 4 }
    requires fits { Fits scene.now contents.now }
    requires tables { AreTables scene.now 0 scene.now.size.w tables.now }
    ensures { bytes.new ≡ bound_picture scene.now contents.now }
{
    if scene.layers.len() <= 1 {
        paint_layers::<1>(bytes, scene, contents, tables);
    } else if scene.layers.len() <= FEW_LAYERS {
        paint_layers::<FEW_LAYERS>(bytes, scene, contents, tables);
    } else {
        paint_layers::<MOST_INSERTED>(bytes, scene, contents, tables);
    }
}

/// The same with a list of `N` layers at most, which costs by its room: this stands on the stack.
#[inline(never)]
fn paint_layers<const N: usize>(
    bytes: &mut [u8],
    scene: &Scene,
    contents: &Contents,
    tables: &[[u16; SIDE_LEN]],
)
    requires room { length scene.now.layers.items ≤ N }
    requires small { N ≤ MOST_INSERTED }
    requires count { length bytes.old ≡ scene.now.size.w * scene.now.size.h * 4 }
    requires fits { Fits scene.now contents.now }
    requires tables { AreTables scene.now 0 scene.now.size.w tables.now }
    ensures { bytes.new ≡ bound_picture scene.now contents.now }
{
    let mut layers = no_layers::<N>();
    bind_layers(&mut layers, scene, contents, tables, 0, scene.size.w);
    paint(bytes, scene.size.w, layers.as_slice(), scene.background, 0);
}

/// Writes the rows of a target of this width from row `first` on.
pub(crate) fn paint(
    bytes: &mut [u8],
    width: u32,
    layers: &[BoundLayer],
    background: Rgba,
    first: u32,
)
    requires some { 1 ≤ width }
    requires few { width ≤ MOST_SIDE }
    requires count { length bytes.old % (4 * width) ≡ 0 }
    requires within { first + length bytes.old / (4 * width) ≤ MOST_SIDE }
    ensures { bytes.new ≡ bound_rows width layers.now background first (length bytes.old / (4 * width)) }
{
    if are_forward(layers) {
        paint_rows(bytes, width, layers, background, first, &mut [], &mut []);
    } else {
        paint_by_lines(bytes, width, layers, background, first);
    }
}

/// Whether each layer shows the pixels of its source as they stand there.
pub(crate) fn are_forward(layers: &[BoundLayer]) -> bool {
    for layer in layers {
        if layer.walk != Walk::Forward {
            return false;
        }
    }
    true
}

/// Writes rows for which pixels of sources are kept. These stand on the stack, which other rows do without: so this is a
/// function of its own when it runs, too.
#[inline(never)]
fn paint_by_lines(bytes: &mut [u8], width: u32, layers: &[BoundLayer], background: Rgba, first: u32)
    requires some { 1 ≤ width }
    requires few { width ≤ MOST_SIDE }
    requires count { length bytes.old % (4 * width) ≡ 0 }
    requires within { first + length bytes.old / (4 * width) ≤ MOST_SIDE }
    ensures { bytes.new ≡ bound_rows width layers.now background first (length bytes.old / (4 * width)) }
{
    let mut kept = [nothing_kept()];
    let mut spare = [[0; ROW_BYTES]];
    paint_rows(
        bytes, width, layers, background, first, &mut kept, &mut spare,
    );
}

/// Writes rows by what is kept. The room for the pieces of a row is made for each picture, and costs by its size: so a picture of one
/// layer, as of a window on the whole screen, and one of few make less of it.
fn paint_rows(
    bytes: &mut [u8],
    width: u32,
    layers: &[BoundLayer],
    background: Rgba,
    first: u32,
    kept: &mut [Kept],
    spare: &mut [[u8; ROW_BYTES]],
)
    requires some { 1 ≤ width }
    requires few { width ≤ MOST_SIDE }
    requires count { length bytes.old % (4 * width) ≡ 0 }
    requires within { first + length bytes.old / (4 * width) ≤ MOST_SIDE }
    requires kept { All (AreKept layers.now) kept.old }
    ensures { bytes.new ≡ bound_rows width layers.now background first (length bytes.old / (4 * width)) }
{
    if layers.len() <= 1 {
        paint_by_strips::<ONE_STRIPS>(bytes, width, layers, background, first, kept, spare);
    } else if layers.len() <= FEW_LAYERS {
        paint_by_strips::<FEW_STRIPS>(bytes, width, layers, background, first, kept, spare);
    } else {
        paint_by_strips::<MOST_STRIPS>(bytes, width, layers, background, first, kept, spare);
    }
}

/// The same with room for `N` pieces of a row. A piece that has no room is cut anew for each row.
#[inline(never)]
fn paint_by_strips<const N: usize>(
    bytes: &mut [u8],
    width: u32,
    layers: &[BoundLayer],
    background: Rgba,
    first: u32,
    kept: &mut [Kept],
    spare: &mut [[u8; ROW_BYTES]],
)
    requires room { 1 ≤ N }
    requires small { N ≤ MOST_STRIPS }
    requires some { 1 ≤ width }
    requires few { width ≤ MOST_SIDE }
    requires count { length bytes.old % (4 * width) ≡ 0 }
    requires within { first + length bytes.old / (4 * width) ≤ MOST_SIDE }
    requires kept { All (AreKept layers.now) kept.old }
    ensures { bytes.new ≡ bound_rows width layers.now background first (length bytes.old / (4 * width)) }
{
    let stride = 4 * width as usize;
    let rows = (bytes.len() / stride) as u32;
    let mut strips = [no_strip(); N];
    let mut i = 0;
    while i < rows {
        let rest = &mut bytes[i as usize * stride..];
        let (y, left) = (first + i, rows - i);
        i += paint_next(
            rest,
            width,
            layers,
            background,
            &mut strips,
            kept,
            spare,
            y,
            left,
        );
    }
}

/// Writes the next of `rows` rows, from row `y` on, and says how many: those of a run, or one. The first piece of row `y` is found before
/// the row is painted, so that a run is written whole.
#[inline(always)]
fn paint_next(
    bytes: &mut [u8],
    width: u32,
    layers: &[BoundLayer],
    background: Rgba,
    strips: &mut [Strip],
    kept: &mut [Kept],
    spare: &mut [[u8; ROW_BYTES]],
    y: u32,
    rows: u32,
) -> u32
    requires room { 1 ≤ length strips.old }
    requires columns { 1 ≤ width }
    requires few { width ≤ MOST_SIDE }
    requires some { 1 ≤ rows }
    requires within { y + rows ≤ MOST_SIDE }
    requires count { length bytes.old ≡ rows * (4 * width) }
    requires strips { All (IsStrip layers.now width) strips.old }
    requires kept { All (AreKept layers.now) kept.old }
    ensures some { 1 ≤ result }
    ensures few { result ≤ rows }
    ensures rows { bytes.new ≡ bound_rows width layers.now background y result ++ drop (result * (4 * width)) bytes.old }
    ensures strips { All (IsStrip layers.now width) strips.new }
    ensures kept { All (AreKept layers.now) kept.new }
{
    if y < strips[0].from || strips[0].bottom <= y {
        find_first(strips, layers, width, y);
    }
    let n = paint_run(bytes, width, layers, background, strips[0], y, rows);
    if n > 0 {
        return n;
    }
    let row = &mut bytes[..4 * width as usize];
    paint_row(row, width, layers, background, strips, kept, spare, y);
    1
}

/// Writes row `y`, piece by piece, each from the layer that hides what is below it.
fn paint_row(
    row: &mut [u8],
    width: u32,
    layers: &[BoundLayer],
    background: Rgba,
    strips: &mut [Strip],
    kept: &mut [Kept],
    spare: &mut [[u8; ROW_BYTES]],
    y: u32,
)
    requires few { width ≤ MOST_SIDE }
    requires y { y < MOST_SIDE }
    requires count { length row.old ≡ 4 * width }
    requires strips { All (IsStrip layers.now width) strips.old }
    requires kept { All (AreKept layers.now) kept.old }
    ensures row { row.new ≡ bound_row width layers.now background y }
    ensures strips { All (IsStrip layers.now width) strips.new }
    ensures kept { All (AreKept layers.now) kept.new }
{
    paint_piece(row, 0, width, layers, background, strips, kept, spare, y);
}

/// Writes the pixels of row `y` from column `left` to the one before `right`.
pub(crate) fn paint_piece(
    row: &mut [u8],
    left: u32,
    right: u32,
    layers: &[BoundLayer],
    background: Rgba,
    strips: &mut [Strip],
    kept: &mut [Kept],
    spare: &mut [[u8; ROW_BYTES]],
    y: u32,
)
    requires few { right ≤ MOST_SIDE }
    requires order { left ≤ right }
    requires y { y < MOST_SIDE }
    requires count { length row.old ≡ 4 * (right - left) }
    requires strips { All (IsStrip layers.now right) strips.old }
    requires kept { All (AreKept layers.now) kept.old }
    ensures row { row.new ≡ drawn_row (right - left) Format.Rgba8Pre (λ x. bound_colour layers.now background (left + x) y) }
    ensures strips { All (IsStrip layers.now right) strips.new }
    ensures kept { All (AreKept layers.now) kept.new }
{
    let mut first = left;
    let mut k = 0usize;
    while first < right {
        let strip = strip_for(strips, k, layers, right, first, y);
        let at = 4 * (first - left) as usize;
        let piece = &mut row[at..at + 4 * strip.width as usize];
        paint_strip(piece, right, layers, background, strip, kept, spare, y);
        first += strip.width;
        k += 1;
    }
}

/// Writes a piece of row `y`.
fn paint_strip(
    row: &mut [u8],
    width: u32,
    layers: &[BoundLayer],
    background: Rgba,
    strip: Strip,
    kept: &mut [Kept],
    spare: &mut [[u8; ROW_BYTES]],
    y: u32,
)
    requires few { width ≤ MOST_SIDE }
    requires y { y < MOST_SIDE }
    requires count { length row.old ≡ 4 * strip.width }
    requires strip { IsStrip layers.now width strip }
    requires from { strip.from ≤ y }
    requires bottom { y < strip.bottom }
    requires kept { All (AreKept layers.now) kept.old }
    ensures row { row.new ≡ drawn_row strip.width Format.Rgba8Pre (λ x. bound_colour layers.now background (strip.first + x) y) }
    ensures kept { All (AreKept layers.now) kept.new }
{
    let base = begin_strip(row, width, layers, background, strip, kept, spare, y);
    for i in base..strip.top {
        lay_row(row, strip.first, strip.width, layers, i, kept, spare, y);
    }
}

/// Writes the layer that hides all that is below it, or else the background, and says how many layers are done.
fn begin_strip(
    row: &mut [u8],
    width: u32,
    layers: &[BoundLayer],
    background: Rgba,
    strip: Strip,
    kept: &mut [Kept],
    spare: &mut [[u8; ROW_BYTES]],
    y: u32,
) -> usize
    requires few { width ≤ MOST_SIDE }
    requires y { y < MOST_SIDE }
    requires count { length row.old ≡ 4 * strip.width }
    requires strip { IsStrip layers.now width strip }
    requires from { strip.from ≤ y }
    requires bottom { y < strip.bottom }
    requires kept { All (AreKept layers.now) kept.old }
    ensures colours { row.new ≡ drawn_row strip.width Format.Rgba8Pre (λ x.
        bound_colour (take result layers.now) background (strip.first + x) y) }
    ensures within { result ≤ strip.top }
    ensures kept { All (AreKept layers.now) kept.new }
{
    match strip.base {
        Some(base) => {
            lay_row(row, strip.first, strip.width, layers, base, kept, spare, y);
            base + 1
        }
        None => {
            fill(row, strip.width, background);
            0
        }
    }
}

/// Writes one colour into each pixel of some rows, as many as there are of four at a time.
pub(crate) fn fill(row: &mut [u8], width: u32, color: Rgba)
    requires count { length row.old ≡ 4 * width }
    requires few { width ≤ MOST_SIDE * MOST_SIDE }
    ensures { row.new ≡ drawn_row width Format.Rgba8Pre (λ _. color) }
{
    let fours = width / 4;
    fill_fours(row, fours, color);
    for x in 4 * fours..width {
        put_pixel(row, 4 * x as usize, color);
    }
}

/// Writes one colour into the first pixels of a row, so many times four.
fn fill_fours(row: &mut [u8], count: u32, color: Rgba)
    requires room { 16 * count ≤ length row.old }
    requires few { 4 * count ≤ MOST_SIDE * MOST_SIDE }
    ensures { row.new ≡ drawn_row (4 * count) Format.Rgba8Pre (λ _. color) ++ drop (16 * count) row.old }
{
    let Rgba { r, g, b, a } = color;
    let four = [r, g, b, a, r, g, b, a, r, g, b, a, r, g, b, a];
    for i in 0..count {
        put_four(row, 16 * i as usize, &four);
    }
}

/// Writes the bytes of four pixels.
#[inline(always)]
fn put_four(row: &mut [u8], at: usize, four: &[u8; 16])
    requires { at + 16 ≤ length row.old }
    ensures { row.new ≡ take at row.old ++ four.now ++ drop (at + 16) row.old }
{
    row[at..at + 16].copy_from_slice(four);
}

/// Writes the four bytes of a pixel.
pub(crate) fn put_pixel(row: &mut [u8], at: usize, color: Rgba)
    requires { at + 4 ≤ length row.old }
    ensures { row.new ≡ take at row.old ++ stored Format.Rgba8Pre color ++ drop (at + 4) row.old }
{
    row[at..at + 4].copy_from_slice(&[color.r, color.g, color.b, color.a]);
}
