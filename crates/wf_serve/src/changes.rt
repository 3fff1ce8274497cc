//! The rows of a picture that are others than in the last one.

ghost use Rattle.std.specs.Prelude.{◌≡◌, ◌+◌, ◌≤◌, length};
ghost use Rattle.wf_host.specs.Reading.{row_bytes};
ghost use Rattle.wf_serve.specs.Bands.{band_in, band_of};

use crate::bands::{Band, band_of, rows_of};
use wf_image::{Image, bytes_of_pixel};

/// Returns how many bytes a row of an `image` has.
fn row_of(image: &Image) -> usize
    ensures { result ≡ row_bytes image.now }
{
    image.size().w as usize * bytes_of_pixel(image.format())
}

/// Returns the rows of an `image` that are others than in `last`, the bytes of a picture of the same sides.
pub(crate) fn changed_band(image: &Image, last: &[u8]) -> Band
    requires { length last.now ≡ length image.now.bytes }
    ensures band { result ≡ band_of (row_bytes image.now) image.now.size.h last.now image.now.bytes }
    ensures within { result.first + result.count ≤ image.now.size.h }
{
    let count = image.size().h as usize;
    band_of(last, image.bytes(), row_of(image), count)
}

/// Returns the bytes of a `band` of rows of an `image`.
pub(crate) fn rows_in<'a>(image: &'a Image, band: &Band) -> &'a [u8]
    requires { band.now.first + band.now.count ≤ image.now.size.h }
    ensures { result.now ≡ band_in (row_bytes image.now) band.now image.now.bytes }
{
    rows_of(image.bytes(), row_of(image), band)
}
