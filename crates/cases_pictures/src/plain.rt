//! The plain painter, which asks all layers at each pixel: the measure of right for the painter by rows.

ghost use Rattle.std.specs.Prelude.{◌≡◌, ◌<◌, IsTrue};
ghost use Rattle.wf_pixel.specs.Choice.{has_sides};
ghost use Rattle.wf_model.specs.Picture.{Fits, LayerFits};

use wf_image::{Contents, Image};
use wf_pixel::{Format, Rgba, along, lift, over, source_place, turned, turned_back};
use wf_scene::{Layer, Scene};

/// Writes what `picture` of this crate writes.
pub(crate) fn picture(scene: &Scene, contents: &Contents, target: &mut Image)
    requires size { target.old.size ≡ scene.now.size }
    requires fits { Fits scene.now contents.now }
{
    let size = target.size();
    let bytes = target.bytes_mut();
    for y in 0..size.h {
        for x in 0..size.w {
            put_pixel(bytes, size.w, x, y, pixel_of(scene, contents, x, y));
        }
    }
}

/// Writes the pixel at (x, y) of rows of `w` pixels, where there is room.
fn put_pixel(bytes: &mut [u8], w: u32, x: u32, y: u32, color: Rgba) {
    let Some(at) = first_byte(w, x, y) else {
        return;
    };
    if bytes.len() < 4 || bytes.len() - 4 < at {
        return;
    }
    bytes[at..at + 4].copy_from_slice(&[color.r, color.g, color.b, color.a]);
}

/// Where the four bytes of a pixel begin.
pub(crate) fn first_byte(w: u32, x: u32, y: u32) -> Option<usize> {
    (y as usize * w as usize + x as usize).checked_mul(4)
}

/// The pixel at a place of the target.
fn pixel_of(scene: &Scene, contents: &Contents, x: u32, y: u32) -> Rgba
    requires x { x < scene.now.size.w }
    requires y { y < scene.now.size.h }
    requires fits { Fits scene.now contents.now }
{
    let space = turned(scene.turn, scene.size);
    let (u, v) = turned_back(scene.turn, space, x, y);
    let mut color = scene.background;
    for layer in scene.layers.as_slice() {
        if let Some(texel) = texel_of(layer, contents, u as i32, v as i32) {
            color = over(texel, color);
        }
    }
    color
}

/// The premultiplied pixel of a layer at a point of the space where the picture is composed, or None where it shows
/// nothing there.
fn texel_of(layer: &Layer, contents: &Contents, x: i32, y: i32) -> Option<Rgba>
    requires { LayerFits contents.now layer.now }
{
    let image = contents.find(layer.stream)?;
    let (u, v) = source_place(layer.src, layer.flip, layer.turn, layer.dest, x, y)?;
    let mask = mask_at(layer, contents, x, y)?;
    let color = color_at(image, u, v)?;
    if image.format() == Format::A8 {
        return None;
    }
    Some(lift(color, image.format(), layer.transparency, layer.alpha, mask))
}

/// The mask's value for a layer at a point: 255 where no mask applies, and None where the mask has no image.
fn mask_at(layer: &Layer, contents: &Contents, x: i32, y: i32) -> Option<u8> {
    if !layer.transparency.mask {
        return Some(255);
    }
    let mask = contents.find(layer.mask)?;
    let dx = along(layer.dest.x, layer.dest.w, x)?;
    let dy = along(layer.dest.y, layer.dest.h, y)?;
    let place = dy as usize * mask.size().w as usize + dx as usize;
    mask.bytes().get(place).copied()
}

/// The pixel of an image at (x, y).
fn color_at(image: &Image, x: u32, y: u32) -> Option<Rgba> {
    let from = image.bytes().get(first_byte(image.size().w, x, y)?..)?;
    match from {
        [r, g, b, a, ..] => Some(Rgba {
            r: *r,
            g: *g,
            b: *b,
            a: *a,
        }),
        _ => None,
    }
}
