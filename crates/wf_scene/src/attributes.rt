//! The attributes of elements and of contexts, and why a call on a cached scene is refused.

ghost use Rattle.std.specs.Prelude.{◌≡◌};
ghost use Rattle.wf_scene.specs.Elements.{may_take};

/// The largest number that a handle can be.
const MOST_HANDLE: i64 = 4_294_967_295;

/// The attributes of an element. All of them can be set.
#[derive(Clone, Copy, Debug, PartialEq, Eq)]
pub enum ElementAttr {
    /// Four numbers x, y, w, h: where it shows. x and y are at most `MOST_COORDINATE` from 0, and w and h at most that.
    Dest,
    /// The handle of the source that it shows, or 0.
    Source,
    /// Four numbers x, y, w, h, in the ranges of `Dest`: which part of the source it shows.
    SrcRect,
    /// 1 where the source is flipped from top to bottom, else 0.
    Flip,
    /// The clockwise turn of the source: 0, 90, 180 or 270.
    Rotation,
    /// How the source is scaled: 0, 1 or 2.
    Filter,
    /// The sum of 1 for its own alpha, 2 for the source's and 4 for a mask; 2 and 4 not together.
    Transparency,
    /// Its own alpha, from 0 to 255.
    Alpha,
    /// The handle of its mask, or 0.
    Mask,
}

impl ElementAttr {
    /// Tells whether a call may set the attribute to `value` at all: a source or a mask takes 0 or a number that a handle can
    /// be. Any other attribute takes any value, and refuses one that is outside its range.
    pub fn may_take(self, value: [i64; 4]) -> bool
        ensures { result ≡ may_take self value }
    {
        match self {
            ElementAttr::Source | ElementAttr::Mask => 0 <= value[0] && value[0] <= MOST_HANDLE,
            _ => true,
        }
    }
}

/// The attributes of a context. `Rotation` and `Background` can be set.
#[derive(Clone, Copy, Debug, PartialEq, Eq)]
pub enum ContextAttr {
    /// The clockwise turn of the composed picture: 0, 90, 180 or 270.
    Rotation,
    /// Four numbers r, g, b, a from 0 to 255: the colour behind the elements.
    Background,
    /// The target's width in pixels.
    Width,
    /// The target's height in pixels.
    Height,
    /// The handle of the lowest inserted element, or 0.
    Lowest,
}

/// Why a call on a cached scene is refused. A refused call changes nothing.
#[derive(Clone, Copy, Debug, PartialEq, Eq)]
pub enum Refused {
    /// The attribute cannot be set.
    BadAttribute,
    /// A number is outside its range, or the element is not inserted.
    IllegalArgument,
    /// 32 elements are inserted.
    Limit,
}
