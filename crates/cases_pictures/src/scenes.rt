//! Scenes without a pattern: layers of every kind, turned, flipped, scaled and masked, inside of their target, at its edges
//! and beyond them.

ghost use Rattle.std.specs.Prelude.{◌≡◌, ◌≢◌, ◌+◌, ◌≤◌, IfOk, IsTrue};
ghost use Rattle.wf_pixel.specs.Choice.{has_sides};

use crate::dice::Dice;
use arrayvec::ArrayVec;
use std::alloc::Global;
use std::io;
use wf_image::{Contents, Image, MOST_CONTENTS};
use wf_pixel::{Format, MOST_COORDINATE, MOST_SIDE, Rect, Rotation, Size, Transparency, turned};
use wf_scene::{Layer, MOST_INSERTED, Scene};

/// A scene, and the images that it shows. Its sides and those of its images are at most so long. Sources have the streams 1
/// to 4; a fifth, and one mask in eight, has no image.
pub(crate) fn scene_of(alloc: Global, dice: &mut Dice, most: u32) -> io::Result<(Scene, Contents)>
    requires low { 1 ≤ most }
    requires high { most ≤ MOST_SIDE }
    ensures { IfOk result (λ p. IsTrue (has_sides p.0.size)) }
{
    let mut contents = Contents::new();
    let size = sides(dice, most);
    for stream in 1..5 {
        let own = source_sides(dice, most, size);
        let format = dice.format();
        add(&mut contents, stream, noise(alloc, dice, own, format)?);
    }
    let turn = dice.turn();
    let space = turned(turn, size);
    let count = if dice.one_in(24) {
        MOST_INSERTED as u32
    } else {
        dice.below(7)
    };
    let mut layers: ArrayVec<Layer, MOST_INSERTED> = ArrayVec::new();
    for i in 0..count {
        let layer = layer_of(dice, &contents, space, most, 10 + i);
        if layer.transparency.mask && !dice.one_in(8) {
            let sides = Size {
                w: layer.dest.w,
                h: layer.dest.h,
            };
            let mask = noise(alloc, dice, sides, Format::A8)?;
            add(&mut contents, layer.mask, mask);
        }
        let _ = layers.try_push(layer);
    }
    let scene = Scene {
        size,
        turn,
        background: dice.color(),
        layers,
    };
    Ok((scene, contents))
}

/// Sides of at most so many pixels.
fn sides(dice: &mut Dice, most: u32) -> Size
    requires low { 1 ≤ most }
    requires high { most ≤ MOST_SIDE }
    ensures { IsTrue (has_sides result) }
{
    let w = side(dice, most);
    let h = side(dice, most);
    Size { w, h }
}

/// The sides of a source, which is often as wide as the scene.
fn source_sides(dice: &mut Dice, most: u32, scene: Size) -> Size
    requires low { 1 ≤ most }
    requires high { most ≤ MOST_SIDE }
    requires scene { IsTrue (has_sides scene) }
    ensures { IsTrue (has_sides result) }
{
    let Size { w, h } = sides(dice, most);
    if dice.one_in(2) {
        Size { w: scene.w, h }
    } else {
        Size { w, h }
    }
}

fn side(dice: &mut Dice, most: u32) -> u32
    requires low { 1 ≤ most }
    requires high { most ≤ MOST_SIDE }
    ensures low { 1 ≤ result }
    ensures high { result ≤ most }
{
    1 + dice.below(most)
}

/// Adds an image where there is room, and none yet of its stream.
fn add(contents: &mut Contents, stream: u32, image: Image) {
    if contents.len() < MOST_CONTENTS && contents.find(stream).is_none() {
        contents.put(stream, image);
    }
}

/// An image whose bytes have no pattern, but are often 0 or 255.
fn noise(alloc: Global, dice: &mut Dice, size: Size, format: Format) -> io::Result<Image>
    requires { IsTrue (has_sides size) }
{
    let Ok(mut image) = Image::new(alloc, size, format) else {
        return Err(io::ErrorKind::OutOfMemory.into());
    };
    for byte in image.bytes_mut() {
        let x = dice.next();
        *byte = match x >> 28 {
            0 | 1 => 255,
            2 => 0,
            _ => (x % 256) as u8,
        };
    }
    Ok(image)
}

/// A layer whose mask has this stream.
fn layer_of(dice: &mut Dice, contents: &Contents, space: Size, most: u32, mask: u32) -> Layer
    requires low { 1 ≤ most }
    requires high { most ≤ MOST_SIDE }
    requires space { IsTrue (has_sides space) }
    ensures w_low { 1 ≤ result.dest.w }
    ensures w_high { result.dest.w ≤ MOST_SIDE }
    ensures h_low { 1 ≤ result.dest.h }
    ensures h_high { result.dest.h ≤ MOST_SIDE }
{
    if dice.one_in(12) {
        return sheet_of(dice, contents, space, mask);
    }
    let stream = 1 + dice.below(5);
    let size = source_size(contents, stream);
    let (x, w) = part(dice, size.w);
    let (y, h) = part(dice, size.h);
    let turn = dice.turn();
    let shown = turned(turn, Size { w, h });
    let dest_w = if dice.one_in(3) {
        side(dice, most)
    } else {
        shown.w
    };
    let dest_h = if dice.one_in(3) {
        side(dice, most)
    } else {
        shown.h
    };
    Layer {
        stream,
        mask,
        src: Rect {
            x: x as i32,
            y: y as i32,
            w,
            h,
        },
        dest: Rect {
            x: start(dice, dest_w, space.w),
            y: start(dice, dest_h, space.h),
            w: dest_w,
            h: dest_h,
        },
        turn,
        flip: dice.one_in(2),
        transparency: Transparency {
            alpha: dice.one_in(2),
            source: dice.one_in(2),
            mask: dice.one_in(3),
        },
        alpha: dice.byte(),
    }
}

/// A layer that shows whole rows of its source, from the left side of the target on, and mostly as they stand there.
fn sheet_of(dice: &mut Dice, contents: &Contents, space: Size, mask: u32) -> Layer
    requires space { IsTrue (has_sides space) }
    ensures w_low { 1 ≤ result.dest.w }
    ensures w_high { result.dest.w ≤ MOST_SIDE }
    ensures h_low { 1 ≤ result.dest.h }
    ensures h_high { result.dest.h ≤ MOST_SIDE }
{
    let stream = 1 + dice.below(5);
    let size = source_size(contents, stream);
    let (y, h) = part(dice, size.h);
    let src = Rect {
        x: 0,
        y: y as i32,
        w: size.w,
        h,
    };
    Layer {
        stream,
        mask,
        src,
        dest: Rect {
            y: start(dice, h, space.h),
            ..src
        },
        turn: Rotation::R0,
        flip: dice.one_in(4),
        transparency: Transparency {
            alpha: dice.one_in(4),
            source: dice.one_in(4),
            mask: false,
        },
        alpha: dice.byte(),
    }
}

/// The size of a stream's image, or another one where it has none.
fn source_size(contents: &Contents, stream: u32) -> Size
    ensures { IsTrue (has_sides result) }
{
    match contents.find(stream) {
        Some(image) => image.size(),
        None => Size { w: 9, h: 7 },
    }
}

/// A part of a side, often the whole: where it begins, and how long it is.
fn part(dice: &mut Dice, n: u32) -> (u32, u32)
    requires low { 1 ≤ n }
    requires high { n ≤ MOST_SIDE }
    ensures low { 1 ≤ result.1 }
    ensures within { result.0 + result.1 ≤ n }
{
    if dice.one_in(3) {
        return (0, n);
    }
    let len = side(dice, n);
    (dice.below(n - len + 1), len)
}

/// Where a side begins on one of `n` points: it may lie before or behind all of them.
fn start(dice: &mut Dice, side: u32, n: u32) -> i32
    requires side { side ≤ MOST_SIDE }
    requires n { n ≤ MOST_SIDE }
{
    match dice.below(64) {
        0 => -(MOST_COORDINATE as i32),
        1 => MOST_COORDINATE as i32,
        2..=9 => 0,
        _ => dice.below(side + n + 3) as i32 - side as i32 - 1,
    }
}
