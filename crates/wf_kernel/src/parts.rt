//! Writes a part of a scene's picture, and leaves the rest of the target as it is.

ghost use Rattle.std.specs.Prelude.{◌≡◌, ℕ, ◌+◌, ◌-◌, ◌*◌, ◌<◌, ◌≤◌, All, length, nat_le, nat_lt, ◌&&◌, is_some, pos};
ghost use Rattle.wf_pixel.specs.declared.Format.TheVariants.{Rgba8Pre};
ghost use Rattle.wf_pixel.specs.Along.{along};
ghost use Rattle.wf_image.specs.Bitmap.{pixel_bytes, drawn_row};
ghost use Rattle.wf_model.specs.Picture.{Fits};
ghost use Rattle.wf_kernel.specs.Bound.{bound_colour};
ghost use Rattle.wf_kernel.specs.Kept.{AreKept};
ghost use Rattle.wf_kernel.specs.Parts.{covers_at, part_picture};
ghost use Rattle.wf_kernel.specs.PartOfTarget.{IsPart, IsPartly, holds, part_colour, turned_part};
ghost use Rattle.wf_kernel.specs.Prepared.{AreTables, table_count};
ghost use Rattle.wf_kernel.specs.Strips.{IsStrip};

use crate::bound::{BoundLayer, bind_layers, no_layers};
use crate::keeping::{Kept, nothing_kept};
use crate::painting::{are_forward, paint_piece};
use crate::strips::no_strip;
use crate::tables::{count_tables, fill_tables};
use crate::{FEW_LAYERS, MOST_STRIPS, ROW_BYTES};
use wf_image::{Contents, Image};
use wf_pixel::{MOST_SIDE, Rect, Rgba, Rotation, SIDE_LEN, Size, turned};
use wf_scene::{MOST_INSERTED, Scene};

/// Columns and rows of a target, each from the first one to the one after the last.
#[derive(Clone, Copy, Debug, PartialEq, Eq)]
pub(crate) struct Part {
    pub(crate) left: u32,
    pub(crate) right: u32,
    pub(crate) top: u32,
    pub(crate) bottom: u32,
}

/// Writes into `target` the picture of `scene`, with the images of `contents` by stream, at each pixel whose place in the space where the
/// scene is composed is inside `area`, and leaves the others. An area may reach beyond that space. It cannot lack memory and refuses
/// nothing; its conditions are those of `picture`.
pub fn picture_part(scene: &Scene, contents: &Contents, area: Rect, target: &mut Image)
    requires size { target.old.size ≡ scene.now.size }
    requires pixels { pixel_bytes target.old.format ≡ 4 }
    requires fits { Fits scene.now contents.now }
    ensures picture { target.new ≡ part_picture scene.now contents.now area target.old }
    ensures same_size { target.new.size ≡ target.old.size }
    ensures same_format { target.new.format ≡ target.old.format }
{
    let part = part_of(scene, area);
    part_of_scene(target.bytes_mut(), scene, contents, part);
}

/// Returns the columns and rows of the target that come from `area` of the space of `scene`.
fn part_of(scene: &Scene, area: Rect) -> Part
    ensures part { IsPart scene.now.size.w scene.now.size.h result }
    ensures holds { (x y : ℕ) → x < scene.now.size.w → y < scene.now.size.h → holds result x y ≡ covers_at scene.now area x y }
{
    let space = turned(scene.turn, scene.size);
    let (left, right) = side_in(area.x, area.w, space.w);
    let (top, bottom) = side_in(area.y, area.h, space.h);
    let part = Part {
        left,
        right,
        top,
        bottom,
    };
    turned_part(scene.turn, space, part)
}

/// Turns columns and rows of a space into those of the target.
fn turned_part(turn: Rotation, space: Size, part: Part) -> Part
    requires part { IsPart space.w space.h part }
    ensures { result ≡ turned_part turn space part }
{
    match turn {
        Rotation::R0 => part,
        Rotation::R90 => Part {
            left: space.h - part.bottom,
            right: space.h - part.top,
            top: part.left,
            bottom: part.right,
        },
        Rotation::R180 => Part {
            left: space.w - part.right,
            right: space.w - part.left,
            top: space.h - part.bottom,
            bottom: space.h - part.top,
        },
        Rotation::R270 => Part {
            left: part.top,
            right: part.bottom,
            top: space.w - part.right,
            bottom: space.w - part.left,
        },
    }
}

/// Returns where a side of `w` pixels from `x` on begins within `n` pixels, and the place after its end there.
fn side_in(x: i32, w: u32, n: u32) -> (u32, u32)
    ensures order { result.0 ≤ result.1 }
    ensures within { result.1 ≤ n }
    ensures inside { (j : ℕ) → j < n → (nat_le result.0 j && nat_lt j result.1) ≡ is_some (along x w (pos j)) }
{
    if x < 0 {
        (0, w.saturating_sub(x.unsigned_abs()).min(n))
    } else {
        let start = x as u32;
        (start.min(n), start.saturating_add(w).min(n))
    }
}

/// Writes `part` of the rows of `scene`.
fn part_of_scene(bytes: &mut [u8], scene: &Scene, contents: &Contents, part: Part)
    requires count { length bytes.old ≡ scene.now.size.w * scene.now.size.h * 4 }
    requires fits { Fits scene.now contents.now }
    requires part { IsPart scene.now.size.w scene.now.size.h part }
    ensures { IsPartly scene.now.size.w scene.now.size.h (part_colour scene.now contents.now part) part bytes.old bytes.new }
{
    let count = count_tables(scene);
    if count == 0 {
        part_of_bound(bytes, scene, contents, &[], part);
    } else if count == 1 {
        part_by_tables::<1>(bytes, scene, contents, part);
    } else if count <= FEW_LAYERS {
        part_by_tables::<FEW_LAYERS>(bytes, scene, contents, part);
    } else {
        part_by_tables::<MOST_INSERTED>(bytes, scene, contents, part);
    }
}

/// The same with tables, `N` at most, which stand on the stack.
#[inline(never)]
fn part_by_tables<const N: usize>(bytes: &mut [u8], scene: &Scene, contents: &Contents, part: Part)
    requires room { table_count scene.now ≤ N }
    requires small { N ≤ MOST_INSERTED }
    requires count { length bytes.old ≡ scene.now.size.w * scene.now.size.h * 4 }
    requires fits { Fits scene.now contents.now }
    requires part { IsPart scene.now.size.w scene.now.size.h part }
    ensures { IsPartly scene.now.size.w scene.now.size.h (part_colour scene.now contents.now part) part bytes.old bytes.new }
{
    let mut tables = [[0; SIDE_LEN]; N];
    fill_tables(&mut tables, scene, contents, part.left, part.right);
    part_of_bound(bytes, scene, contents, &tables, part);
}

/// The same, where each layer that needs a table has it.
fn part_of_bound(
    bytes: &mut [u8],
    scene: &Scene,
    contents: &Contents,
    tables: &[[u16; SIDE_LEN]],
    part: Part,
)
    requires count { length bytes.old ≡ scene.now.size.w * scene.now.size.h * 4 }
    requires fits { Fits scene.now contents.now }
    requires tables { AreTables scene.now part.left part.right tables.now }
    requires part { IsPart scene.now.size.w scene.now.size.h part }
    ensures { IsPartly scene.now.size.w scene.now.size.h (part_colour scene.now contents.now part) part bytes.old bytes.new }
{
    if scene.layers.len() <= FEW_LAYERS {
        part_of_layers::<FEW_LAYERS>(bytes, scene, contents, tables, part);
    } else {
        part_of_layers::<MOST_INSERTED>(bytes, scene, contents, tables, part);
    }
}

/// The same with a list of `N` layers at most.
#[inline(never)]
fn part_of_layers<const N: usize>(
    bytes: &mut [u8],
    scene: &Scene,
    contents: &Contents,
    tables: &[[u16; SIDE_LEN]],
    part: Part,
)
    requires room { length scene.now.layers.items ≤ N }
    requires small { N ≤ MOST_INSERTED }
    requires count { length bytes.old ≡ scene.now.size.w * scene.now.size.h * 4 }
    requires fits { Fits scene.now contents.now }
    requires tables { AreTables scene.now part.left part.right tables.now }
    requires part { IsPart scene.now.size.w scene.now.size.h part }
    ensures { IsPartly scene.now.size.w scene.now.size.h (part_colour scene.now contents.now part) part bytes.old bytes.new }
{
    let mut list = no_layers::<N>();
    bind_layers(&mut list, scene, contents, tables, part.left, part.right);
    let layers = list.as_slice();
    if are_forward(layers) {
        paint_part(
            bytes,
            scene.size.w,
            scene.size.h,
            layers,
            scene.background,
            part,
            &mut [],
            &mut [],
        );
    } else {
        part_by_lines(
            bytes,
            scene.size.w,
            scene.size.h,
            layers,
            scene.background,
            part,
        );
    }
}

/// Writes `part`, for which pixels of sources are kept.
#[inline(never)]
fn part_by_lines(
    bytes: &mut [u8],
    width: u32,
    height: u32,
    layers: &[BoundLayer],
    background: Rgba,
    part: Part,
)
    requires few { width ≤ MOST_SIDE }
    requires few_rows { height ≤ MOST_SIDE }
    requires count { length bytes.old ≡ width * height * 4 }
    requires part { IsPart width height part }
    ensures { IsPartly width height (bound_colour layers.now background) part bytes.old bytes.new }
{
    let mut kept = [nothing_kept()];
    let mut spare = [[0; ROW_BYTES]];
    paint_part(
        bytes, width, height, layers, background, part, &mut kept, &mut spare,
    );
}

/// Writes `part` by what is kept.
fn paint_part(
    bytes: &mut [u8],
    width: u32,
    height: u32,
    layers: &[BoundLayer],
    background: Rgba,
    part: Part,
    kept: &mut [Kept],
    spare: &mut [[u8; ROW_BYTES]],
)
    requires few { width ≤ MOST_SIDE }
    requires few_rows { height ≤ MOST_SIDE }
    requires count { length bytes.old ≡ width * height * 4 }
    requires part { IsPart width height part }
    requires kept { All (AreKept layers.now) kept.old }
    ensures { IsPartly width height (bound_colour layers.now background) part bytes.old bytes.new }
{
    let mut strips = [no_strip(); MOST_STRIPS];
    for y in part.top..part.bottom {
        let at = 4 * (y * width + part.left) as usize;
        let piece = &mut bytes[at..at + 4 * (part.right - part.left) as usize];
        paint_piece(
            piece,
            part.left,
            part.right,
            layers,
            background,
            &mut strips,
            kept,
            spare,
            y,
        );
    }
}
