//! Which layers hide what is below them.

ghost use Rattle.std.specs.Prelude.{◌≡◌, IsTrue};
ghost use Rattle.std.specs.Option.{option_copied};
ghost use Rattle.wf_kernel.specs.Bound.{Bound};
ghost use Rattle.wf_kernel.specs.Hiding.{HidesBelow, stays_opaque};

use wf_image::Image;
use wf_pixel::Format;
use wf_scene::Layer;

/// Whether a layer with this image hides all that is below it at each point of its destination: it has no mask, and
/// nothing gives its texels another alpha than 255.
pub(crate) fn hides_below(layer: &Layer, source: Option<&Image>) -> bool
    ensures { IsTrue result → (b : Bound) → b.layer ≡ layer.now → b.source ≡ option_copied source.entry → HidesBelow b }
{
    match source {
        Some(image) => !layer.transparency.mask && stays_opaque(layer, image.format()),
        None => false,
    }
}

/// Whether the texels of a layer without a mask have alpha 255.
fn stays_opaque(layer: &Layer, format: Format) -> bool
    ensures { IsTrue result → IsTrue (stays_opaque layer.now format) }
{
    (!layer.transparency.source || format == Format::Rgbx8)
        && (!layer.transparency.alpha || layer.alpha == 255)
}
