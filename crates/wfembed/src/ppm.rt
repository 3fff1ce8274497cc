//! Pictures in the format PPM, which many programs show.

use crate::ends::Stop;
use std::alloc::Global;
use wf_image::Image;
use wf_io::{Sink, write_all};
use wf_pixel::Size;

/// Writes `image` to `output` as PPM (P6): a head of text with the sides and the largest channel, and then red, green and blue of each
/// pixel, in rows from the top. Alpha is left out; the picture of a port is opaque.
pub(crate) fn write_ppm<K: Sink>(output: &mut K, alloc: Global, image: &Image) -> Result<(), Stop> {
    let Size { w, h } = image.size();
    let head = format!(in alloc; "P6\n{w} {h}\n255\n")?;
    let mut colours = Vec::new(alloc);
    for pixel in image.bytes().chunks(4) {
        if let [red, green, blue, _] = pixel {
            colours.push(*red)?;
            colours.push(*green)?;
            colours.push(*blue)?;
        }
    }
    // All memory is there before anything is written.
    write_all(output, head.as_bytes())?;
    write_all(output, &colours)?;
    Ok(())
}
