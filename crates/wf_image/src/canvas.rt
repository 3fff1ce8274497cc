//! A write buffer, and painting on it.

ghost use Rattle.std.specs.Prelude.{◌≡◌, IsTrue};
ghost use Rattle.wf_image.specs.Paints.{is_paint, painted};

use crate::image::Image;
use crate::paint::Paint;
use crate::painting::paint_bytes;

/// A write buffer with the number of its stream.
#[derive(Drop)]
pub struct Canvas {
    pub stream: u32,
    pub image: Image,
}

impl Canvas {
    /// Paints `p` on the image. What lies outside of it is dropped, and pixels that the paint does not name stay. It cannot
    /// lack memory. The numbers of the paint are in their ranges: coordinates and sides of a rectangle as far as
    /// `MOST_COORDINATE`, sides of squares from 1 to `MOST_SIDE`, rows below that, and from 1 to `MOST_SIDE` pixels in a row.
    pub fn paint(&mut self, p: &Paint)
        requires { IsTrue (is_paint p.now) }
        ensures { self.new ≡ record self.old { image = painted self.old.image p.now } }
    {
        paint_image(&mut self.image, p);
    }
}

/// Paints on an image.
fn paint_image(image: &mut Image, p: &Paint)
    requires { IsTrue (is_paint p.now) }
    ensures { image.new ≡ painted image.old p.now }
{
    let size = image.size();
    let format = image.format();
    paint_bytes(image.bytes_mut(), size, format, p);
}
