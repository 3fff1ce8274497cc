//! Writes the picture of a scene by bands of rows, each in a thread of its own where one can be made.

ghost use Rattle.std.specs.Prelude.{◌≡◌, ◌*◌, ◌≤◌, length};
ghost use Rattle.std.specs.Thread.{IsSync};
ghost use Rattle.wf_image.specs.Bitmap.{pixel_bytes};
ghost use Rattle.wf_model.specs.Picture.{picture, Fits};
ghost use Rattle.wf_kernel.specs.Bands.{IsBand};
ghost use Rattle.wf_kernel.specs.Bound.{bound_picture, bound_rows};
ghost use Rattle.wf_kernel.specs.Prepared.{AreTables, table_count};

use crate::FEW_LAYERS;
use crate::bound::{BoundLayer, bind_layers, no_layers};
use crate::painting::paint;
use crate::splitting::{Band, cost_above, split_band};
use crate::tables::{count_tables, fill_tables};
use std::thread::{Threads, join_mut};
use wf_image::{Contents, Image};
use wf_pixel::{MOST_SIDE, Rgba, SIDE_LEN};
use wf_scene::{MOST_INSERTED, Scene};

/// What a worker's rows cost at least, in pixels that are copied, where there are several workers: four times what it costs to start one.
const LEAST: u32 = 262144;

/// Writes into `target` the same as `picture`, by bands of rows in at most `workers` threads, from 1 to 16, and a small picture
/// in fewer. It cannot lack memory and refuses nothing: where no thread can be made, the calling thread paints the band.
pub fn picture_rows<R: Threads + Sync>(
    rt: &R,
    workers: u32,
    scene: &Scene,
    contents: &Contents,
    target: &mut Image,
)
    requires some { 1 ≤ workers }
    requires few { workers ≤ 16 }
    requires size { target.old.size ≡ scene.now.size }
    requires pixels { pixel_bytes target.old.format ≡ 4 }
    requires fits { Fits scene.now contents.now }
    ensures picture { target.new ≡ picture scene.now contents.now target.old.format }
    ensures same_size { target.new.size ≡ target.old.size }
    ensures same_format { target.new.format ≡ target.old.format }
{
    rows_of_scene(rt, workers, target.bytes_mut(), scene, contents);
}

/// Writes all rows of a scene.
fn rows_of_scene<R: Threads + Sync>(
    rt: &R,
    workers: u32,
    bytes: &mut [u8],
    scene: &Scene,
    contents: &Contents,
)
    requires some { 1 ≤ workers }
    requires few { workers ≤ 16 }
    requires count { length bytes.old ≡ scene.now.size.w * scene.now.size.h * 4 }
    requires fits { Fits scene.now contents.now }
    ensures { bytes.new ≡ bound_picture scene.now contents.now }
{
    let count = count_tables(scene);
    if count == 0 {
        rows_of_bound(rt, workers, bytes, scene, contents, &[]);
    } else if count == 1 {
        rows_by_tables::<R, 1>(rt, workers, bytes, scene, contents);
    } else if count <= FEW_LAYERS {
        rows_by_tables::<R, FEW_LAYERS>(rt, workers, bytes, scene, contents);
    } else {
        rows_by_tables::<R, MOST_INSERTED>(rt, workers, bytes, scene, contents);
    }
}

/// The same with tables, `N` at most, which are worked out once for all threads.
#[inline(never)]
fn rows_by_tables<R: Threads + Sync, const N: usize>(
    rt: &R,
    workers: u32,
    bytes: &mut [u8],
    scene: &Scene,
    contents: &Contents,
)
    requires room { table_count scene.now ≤ N }
    requires small { N ≤ MOST_INSERTED }
    requires some { 1 ≤ workers }
    requires few { workers ≤ 16 }
    requires count { length bytes.old ≡ scene.now.size.w * scene.now.size.h * 4 }
    requires fits { Fits scene.now contents.now }
    ensures { bytes.new ≡ bound_picture scene.now contents.now }
{
    let mut tables = [[0; SIDE_LEN]; N];
    fill_tables(&mut tables, scene, contents, 0, scene.size.w);
    rows_of_bound(rt, workers, bytes, scene, contents, &tables);
}

/// The same, where each layer that needs a table has it.
fn rows_of_bound<R: Threads + Sync>(
    rt: &R,
    workers: u32,
    bytes: &mut [u8],
    scene: &Scene,
    contents: &Contents,
    tables: &[[u16; SIDE_LEN]],
)
    requires some { 1 ≤ workers }
    requires few { workers ≤ 16 }
    requires count { length bytes.old ≡ scene.now.size.w * scene.now.size.h * 4 }
    requires fits { Fits scene.now contents.now }
    requires tables { AreTables scene.now 0 scene.now.size.w tables.now }
    ensures { bytes.new ≡ bound_picture scene.now contents.now }
{
    if scene.layers.len() <= FEW_LAYERS {
        rows_of_layers::<R, FEW_LAYERS>(rt, workers, bytes, scene, contents, tables);
    } else {
        rows_of_layers::<R, MOST_INSERTED>(rt, workers, bytes, scene, contents, tables);
    }
}

/// The same with a list of `N` layers at most.
#[inline(never)]
fn rows_of_layers<R: Threads + Sync, const N: usize>(
    rt: &R,
    workers: u32,
    bytes: &mut [u8],
    scene: &Scene,
    contents: &Contents,
    tables: &[[u16; SIDE_LEN]],
)
    requires room { length scene.now.layers.items ≤ N }
    requires small { N ≤ MOST_INSERTED }
    requires some { 1 ≤ workers }
    requires few { workers ≤ 16 }
    requires count { length bytes.old ≡ scene.now.size.w * scene.now.size.h * 4 }
    requires fits { Fits scene.now contents.now }
    requires tables { AreTables scene.now 0 scene.now.size.w tables.now }
    ensures { bytes.new ≡ bound_picture scene.now contents.now }
{
    let mut list = no_layers::<N>();
    bind_layers(&mut list, scene, contents, tables, 0, scene.size.w);
    let layers = list.as_slice();
    let cost = cost_above(scene.size.w, layers, scene.size.h);
    let whole = Band {
        first: 0,
        rows: scene.size.h,
        workers: workers_for(workers, cost),
    };
    paint_band(rt, whole, scene.size.w, layers, scene.background, bytes);
}

/// Returns the number of workers, at most `most`, that a picture of this `cost` is worth.
fn workers_for(most: u32, cost: u32) -> u32
    requires some { 1 ≤ most }
    requires few { most ≤ 16 }
    ensures some { 1 ≤ result }
    ensures few { result ≤ 16 }
{
    most.min(cost / LEAST).max(1)
}

/// Writes the rows of a band: alone, or in two shares beside each other, the first of one worker.
#[cycle(shares)]
fn paint_band<R: Threads + Sync>(
    rt: &R,
    band: Band,
    width: u32,
    layers: &[BoundLayer],
    background: Rgba,
    bytes: &mut [u8],
)
    requires some { 1 ≤ width }
    requires few { width ≤ MOST_SIDE }
    requires band { IsBand band }
    requires count { length bytes.old ≡ band.rows * (4 * width) }
    ensures { bytes.new ≡ bound_rows width layers.now background band.first band.rows }
{
    if band.workers == 1 || band.rows == 1 {
        paint(bytes, width, layers, background, band.first);
        return;
    }
    let (upper, lower) = split_band(band, width, layers);
    let (a, b) = bytes.split_at_mut(upper.rows as usize * (4 * width as usize));
    paint_shares(rt, width, layers, background, upper, a, lower, b);
}

/// Writes the rows of two bands, one of them in a thread of its own where one can be made.
#[cycle(shares)]
fn paint_shares<R: Threads + Sync>(
    rt: &R,
    width: u32,
    layers: &[BoundLayer],
    background: Rgba,
    upper: Band,
    a: &mut [u8],
    lower: Band,
    b: &mut [u8],
)
    requires some { 1 ≤ width }
    requires few { width ≤ MOST_SIDE }
    requires upper { IsBand upper }
    requires lower { IsBand lower }
    requires a { length a.old ≡ upper.rows * (4 * width) }
    requires b { length b.old ≡ lower.rows * (4 * width) }
    ensures upper { a.new ≡ bound_rows width layers.now background upper.first upper.rows }
    ensures lower { b.new ≡ bound_rows width layers.now background lower.first lower.rows }
{
    let mut first = ||
        requires { IsSync R.row × (1 ≤ width) × (width ≤ MOST_SIDE) × IsBand upper × (length a.now ≡ upper.rows * (4 * width)) }
        ensures { a.exit.now ≡ bound_rows width layers.entry.now background upper.first upper.rows }
    { paint_band(rt, upper, width, layers, background, a) };
    let mut second = ||
        requires { IsSync R.row × (1 ≤ width) × (width ≤ MOST_SIDE) × IsBand lower × (length b.now ≡ lower.rows * (4 * width)) }
        ensures { b.exit.now ≡ bound_rows width layers.entry.now background lower.first lower.rows }
    { paint_band(rt, lower, width, layers, background, b) };
    join_mut(rt, &mut first, &mut second);
}
