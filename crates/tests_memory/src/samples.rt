//! What several tests are made of.

ghost use Rattle.std.specs.Prelude.{◌≡◌, ◌∷◌, []};

use arrayvec::ArrayVec;
use wf_calls::Modes;
use wf_pixel::Size;

/// The size of screens, streams and images.
pub(crate) const SIZE: Size = Size { w: 4, h: 2 };

/// A script of one port without a context, which one tick shows.
pub(crate) const ONE_TICK: &str = "WFS1\nport 4x2\n0 tick\nend\n";

/// The film of that script, of the second form.
pub(crate) const FILM: [u8; 74] = *b"WFF2F\x01\0\0\0\x01\0\0\0\x01\0\x04\0\x02\
    \0\0\0\xff\0\0\0\xff\0\0\0\xff\0\0\0\xff\0\0\0\xff\0\0\0\xff\0\0\0\xff\0\0\0\xff\
    J\0\0\0\x03\0\0\0\0\0\0\0\0\0\0\0\x01\0\0\0\0\0\0E";

/// The modes of a port that has one.
pub(crate) fn one_mode() -> Modes
    ensures { result.sizes.items ≡ SIZE ∷ [] }
{
    let mut sizes: ArrayVec<Size, 4> = ArrayVec::new();
    sizes.push(SIZE);
    Modes { sizes }
}
