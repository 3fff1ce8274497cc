//! The program `cases_pictures`: paints scenes without a pattern, by the painter in one thread and in several, whole and in
//! part, and by a plain painter that asks all layers at each pixel. It prints how many scenes and kinds of layers there were, and
//! how many pixels differ.
#![tactic(auto)]

ghost use Rattle.std.specs.Prelude.{◌≡◌, ◌≢◌, ◌≤◌, IfOk, IsTrue};
ghost use Rattle.wf_pixel.specs.Choice.{has_sides};
ghost use Rattle.wf_model.specs.Picture.{Fits};

mod dice;
mod fitting;
mod kinds;
mod parts;
mod plain;
mod scenes;

use dice::Dice;
use fitting::fits;
use kinds::KINDS;
use std::alloc::Global;
use std::io;
use std::process::ExitCode;
use std::thread::Threads;
use wf_image::{Contents, Image};
use wf_kernel::{picture, picture_part, picture_rows};
use wf_pixel::{Format, MOST_SIDE, Size, turned};
use wf_scene::Scene;

/// How many scenes are painted.
const SCENES: u32 = 7000;

/// What came of all scenes.
#[derive(Default, Drop)]
struct Found {
    layers: u64,
    pixels: u64,
    /// Scenes of which there is no picture.
    unfit: u64,
    /// Pixels that differ in one thread.
    wrong: u64,
    /// Scenes that were painted in several threads too, and the pixels that differ there.
    by_rows: u64,
    wrong_by_rows: u64,
    /// Pixels that differ where a part was painted.
    wrong_in_parts: u64,
}

fn main(rt: HostRuntime) -> io::Result<ExitCode> {
    let mut seen = [false; KINDS];
    let found = paint_all(&rt, &mut seen)?;
    let Found {
        layers,
        pixels,
        unfit,
        wrong,
        by_rows,
        wrong_by_rows,
        wrong_in_parts,
    } = found;
    let kinds = kinds::count(&seen);
    println!(rt; "{SCENES} scenes of {layers} layers of {kinds} kinds, {unfit} without a picture")?;
    println!(rt; "{pixels} pixels, {wrong} differ")?;
    println!(rt; "{by_rows} of the scenes by up to 16 workers, {wrong_by_rows} pixels differ")?;
    println!(rt; "{SCENES} parts, {wrong_in_parts} pixels differ")?;
    Ok(if unfit == 0 && wrong == 0 && wrong_by_rows == 0 && wrong_in_parts == 0 {
        ExitCode::SUCCESS
    } else {
        ExitCode::FAILURE
    })
}

fn paint_all<R: Threads + Sync + AllocGlobal>(
    rt: &R,
    seen: &mut [bool; KINDS],
) -> io::Result<Found> {
    let mut dice = Dice::new();
    let mut other = Dice::new();
    let mut found = Found::default();
    for number in 0..SCENES {
        let (scene, contents) = scenes::scene_of(rt.alloc(), &mut dice, most(number))?;
        kinds::mark(seen, &scene, &contents);
        if fits(&scene, &contents) {
            compare(
                rt.alloc(),
                &mut dice,
                &mut other,
                &scene,
                &contents,
                &mut found,
            )?;
            if number % 7 == 0 || most(number) > 40 {
                compare_rows(rt, &mut other, &scene, &contents, &mut found)?;
            }
        } else {
            found.unfit = found.unfit.wrapping_add(1);
        }
    }
    Ok(found)
}

/// How long sides are at most: short ones for most scenes, so that there are many edges.
fn most(number: u32) -> u32
    ensures low { 1 ≤ result }
    ensures high { result ≤ MOST_SIDE }
{
    if number % 250 == 249 {
        MOST_SIDE
    } else if number % 50 == 49 {
        200
    } else {
        40
    }
}

/// Paints a scene in one thread, and a part of it over something else, and counts the pixels that differ from the plain painter's.
fn compare(
    alloc: Global,
    dice: &mut Dice,
    other: &mut Dice,
    scene: &Scene,
    contents: &Contents,
    found: &mut Found,
) -> io::Result<()>
    requires { Fits scene.now contents.now }
{
    let format = dice.format();
    let mut want = target(alloc, scene.size, format, 0)?;
    let mut got = target(alloc, scene.size, format, 77)?;
    let mut part = target(alloc, scene.size, format, parts::BEFORE)?;
    plain::picture(scene, contents, &mut want);
    picture(scene, contents, &mut got);
    let area = parts::area(other, turned(scene.turn, scene.size));
    picture_part(scene, contents, area, &mut part);
    found.wrong_in_parts = found
        .wrong_in_parts
        .wrapping_add(parts::differing(scene, area, want.bytes(), part.bytes()));
    let pixels = u64::from(scene.size.w) * u64::from(scene.size.h);
    found.layers = found.layers.wrapping_add(scene.layers.len() as u64);
    found.pixels = found.pixels.wrapping_add(pixels);
    found.wrong = found
        .wrong
        .wrapping_add(differing(want.bytes(), got.bytes()));
    Ok(())
}

/// The same by up to 16 workers. Only pictures that cost much have several.
fn compare_rows<R: Threads + Sync + AllocGlobal>(
    rt: &R,
    dice: &mut Dice,
    scene: &Scene,
    contents: &Contents,
    found: &mut Found,
) -> io::Result<()>
    requires { Fits scene.now contents.now }
{
    let format = dice.format();
    let mut want = target(rt.alloc(), scene.size, format, 0)?;
    let mut got = target(rt.alloc(), scene.size, format, 99)?;
    plain::picture(scene, contents, &mut want);
    picture_rows(rt, 1 + dice.below(16), scene, contents, &mut got);
    found.by_rows = found.by_rows.wrapping_add(1);
    found.wrong_by_rows = found
        .wrong_by_rows
        .wrapping_add(differing(want.bytes(), got.bytes()));
    Ok(())
}

/// An image on which something else stood.
fn target(alloc: Global, size: Size, format: Format, byte: u8) -> io::Result<Image>
    requires { IsTrue (has_sides size) }
    ensures size { IfOk result (λ image. image.size ≡ size) }
    ensures format { IfOk result (λ image. image.format ≡ format) }
{
    let Ok(mut image) = Image::new(alloc, size, format) else {
        return Err(io::ErrorKind::OutOfMemory.into());
    };
    image.bytes_mut().fill(byte);
    Ok(image)
}

/// How many pixels of two images differ.
fn differing(want: &[u8], got: &[u8]) -> u64 {
    let mut count = 0u64;
    for (a, b) in want.chunks(4).zip(got.chunks(4)) {
        if a != b {
            count = count.wrapping_add(1);
        }
    }
    count
}
