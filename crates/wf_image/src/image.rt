//! An image: its size, its format and its bytes.

ghost use Rattle.std.specs.Prelude.{◌≡◌, ◌*◌, ◌≤◌, length, IfOk, OnOk, OnErr, IsTrue};
ghost use Rattle.std.specs.Borrow.{sem};
ghost use Rattle.wf_pixel.specs.Choice.{has_sides};
ghost use Rattle.wf_image.specs.Bitmap.{blank, image_bytes, pixel_bytes};
ghost use Rattle.wf_image.specs.Lending.{LendsBytes};

use crate::NoMemory;
use std::alloc::Global;
use std::marker::Model;
use wf_pixel::{Format, MOST_SIDE, Size};

/// A size, a format and the bytes of the pixels: rows from the top, without padding, 4 bytes a pixel
/// in the order R, G, B, A, or 1 byte a pixel in the format A8.
#[derive(Drop)]
pub struct Image {
    size: Size,
    format: Format,
    bytes: Vec<u8>,
}

impl Model for Image {
    ghost use Rattle.wf_image.specs.Bitmap.{Bitmap, IsWhole};

    ghost Value = { Bitmap };

    ghost view = { λ i. record { size = i.size; format = i.format; bytes = i.bytes.items } };

    ghost invariant = { λ i. IsWhole (record { size = i.size; format = i.format; bytes = i.bytes.items }) };
}

impl Image {
    /// Makes an image of zeros of `size` and `format`. Each side is from 1 to `MOST_SIDE`.
    pub fn new(alloc: Global, size: Size, format: Format) -> Result<Image, NoMemory>
        requires { IsTrue (has_sides size) }
        ensures { IfOk result (λ image. image ≡ blank size format) }
    {
        let pixels = size.w as usize * size.h as usize;
        let bytes = vec![in alloc; 0u8; pixels * bytes_of_pixel(format)]?;
        Ok(Image {
            size,
            format,
            bytes,
        })
    }

    /// Copies this image into one of its own.
    pub fn copy(&self) -> Result<Image, NoMemory>
        ensures { IfOk result (λ image. image ≡ self.now) }
    {
        Ok(Image {
            size: self.size,
            format: self.format,
            bytes: self.bytes.clone()?,
        })
    }

    /// Makes this image the same as `other`. It takes memory only where size or format differ, and stays as it is where that is
    /// refused.
    pub fn copy_from(&mut self, other: &Image) -> Result<(), NoMemory>
        ensures same { OnOk result (self.new ≡ other.now) }
        ensures refused { OnErr result (self.new ≡ self.old) }
    {
        if self.size == other.size && self.format == other.format {
            self.bytes_mut().copy_from_slice(&other.bytes);
        } else {
            *self = other.copy()?;
        }
        Ok(())
    }

    /// Returns width and height in pixels.
    pub fn size(&self) -> Size
        ensures size { result ≡ self.now.size }
        ensures sides { IsTrue (has_sides result) }
    {
        self.size
    }

    /// Returns how the bytes are read.
    pub fn format(&self) -> Format
        ensures { result ≡ self.now.format }
    {
        self.format
    }

    /// Returns the bytes of all pixels.
    pub fn bytes(&self) -> &[u8]
        ensures value { result.now ≡ self.now.bytes }
        ensures len { length result.now ≡ image_bytes self.now.size self.now.format }
    {
        &self.bytes
    }

    /// Returns the number of bytes of all pixels.
    pub(crate) fn len(&self) -> usize
        ensures value { result ≡ length self.now.bytes }
        ensures most { result ≤ 4 * (MOST_SIDE * MOST_SIDE) }
    {
        self.bytes.len()
    }

    /// Returns the bytes of all pixels, to write.
    pub fn bytes_mut(&mut self) -> &mut [u8]
        ensures* writes_back { sem 𝓛 (LendsBytes self.entry result) }
        ensures value { result.now ≡ self.old.bytes }
        ensures len { length result.now ≡ image_bytes self.old.size self.old.format }
    {
        self.bytes.as_mut_slice()
    }
}

/// Returns how many bytes a pixel of `format` takes: 1 for a mask, and 4 else.
pub fn bytes_of_pixel(format: Format) -> usize
    ensures { result ≡ pixel_bytes format }
{
    match format {
        Format::A8 => 1,
        _ => 4,
    }
}
